// Trees, wherever they stand, measured: each part is added to `c`, which is at most `most`, and the first that is too much ends the walk.
ghost use Rattle.std.specs.Prelude.{◌≡◌, true, ◌+◌, ◌*◌, ◌/◌, ◌≤◌, ◌<◌, length};
ghost use Rattle.records.specs.Row.{at, window_at, mark_at, view_at, run_at, tree_at};
ghost use Rattle.records.specs.Decode.{view_in, views_in, run_in, runs_in};
ghost use Rattle.records.specs.Fill.{fits, sum, view_fill, run_fill, tree_fill};
ghost use Rattle.measure.specs.Walk.{add_of};
ghost use Rattle.unite_trees.specs.Joined.{joined_tree};
ghost use Rattle.unite_trees.specs.Rows.{trees_in};
ghost use Rattle.unite_trees.specs.Steps.{tree_of};

use ids::Id;
use measure::{add, fits_in};
use project_views::add_view;
use records::{Fill, TreeRow, run_at, view_at};
use tables::{Window, held, ix};

fn word(t: &[u64], i: usize) -> u64
    ensures { result ≡ at t.now i }
{
    if i < t.len() {
        return t[i];
    }
    0
}

fn window_at(t: &[u64], b: usize) -> Window
    requires { b ≤ length t.now + 8 }
    ensures { result ≡ window_at t.now b }
{
    let x = word(t, b);
    let y = word(t, b + 1);
    Window {
        first: ix(x),
        count: ix(y),
    }
}

fn mark_at<I: Id>(t: &[u64], b: usize) -> Option<I>
    requires { b ≤ length t.now + 8 }
    ensures { result ≡ mark_at I.of t.now b }
{
    let x = I::of(word(t, b + 1), word(t, b + 2));
    match word(t, b) {
        0 => None,
        _ => Some(x),
    }
}

fn tree_at(t: &[u64], b: usize) -> TreeRow
    ensures { result ≡ tree_at t.now b }
{
    if t.len() <= b {
        return TreeRow {
            view: None,
            sst: None,
            l0: Window { first: 0, count: 0 },
            compacted: Window { first: 0, count: 0 },
        };
    }
    TreeRow {
        view: mark_at(t, b),
        sst: mark_at(t, b + 3),
        l0: window_at(t, b + 6),
        compacted: window_at(t, b + 8),
    }
}

// The tree that row `i` of `rows` names.
pub fn tree_of(t: &[u64], rows: &[u64], i: usize) -> TreeRow
    requires { (i + 1) * 7 ≤ length rows.now }
    ensures { result ≡ tree_at t.now (at rows.now (i * 7)) }
{
    let b = ix(rows[i * 7]);
    tree_at(t, b)
}

// ---- measured: each part is added to `c`, which is at most `most`, and the first that is too much ends the walk

// Adds view `i` of a table.
fn add_view_at(most: Fill, views: &[u64], i: usize, pool: &[u8], c: Fill) -> Option<Fill>
    requires { i < length views.now / 16 }
    ensures { result ≡ add_of most c (view_fill (view_in pool.now (view_at views.now i))) }
{
    let v = view_at(views, i);
    add_view(most, pool, v, c)
}

// Adds the views of a window.
fn add_views(most: Fill, views: &[u64], w: Window, pool: &[u8], c: Fill) -> Option<Fill>
    requires { fits c most ≡ true }
    ensures { result ≡ add_of most c (sum view_fill (views_in views.now pool.now w)) }
{
    let n = held(w, views.len() / 16);
    let mut d = c;
    for k in 0..n {
        d = add_view_at(most, views, w.first + k, pool, d)?;
    }
    Some(d)
}

// Adds run `i` of a table, with its views.
fn add_run_at(
    most: Fill,
    runs: &[u64],
    i: usize,
    views: &[u64],
    pool: &[u8],
    c: Fill,
) -> Option<Fill>
    requires i_in_bounds { i < length runs.now / 3 }
    requires most_value { fits c most ≡ true }
    ensures { result ≡ add_of most c (run_fill (run_in views.now pool.now (run_at runs.now i))) }
{
    let x = run_at(runs, i);
    let d = add_views(most, views, x.views, pool, c)?;
    add(
        most,
        d,
        Fill {
            segments: 0,
            views: 0,
            runs: 1,
            borrows: 0,
            ids: 0,
            bytes: 0,
        },
    )
}

// Adds the runs of a window.
fn add_runs(
    most: Fill,
    runs: &[u64],
    w: Window,
    views: &[u64],
    pool: &[u8],
    c: Fill,
) -> Option<Fill>
    requires { fits c most ≡ true }
    ensures { result ≡ add_of most c (sum run_fill (runs_in runs.now views.now pool.now w)) }
{
    let n = held(w, runs.len() / 3);
    let mut d = c;
    for k in 0..n {
        d = add_run_at(most, runs, w.first + k, views, pool, d)?;
    }
    Some(d)
}

// Adds the tree that row `i` of `rows` names.
fn add_tree_at(
    most: Fill,
    t: &[u64],
    rows: &[u64],
    i: usize,
    runs: &[u64],
    views: &[u64],
    pool: &[u8],
    c: Fill,
) -> Option<Fill>
    requires i_in_bounds { (i + 1) * 7 ≤ length rows.now }
    requires most_value { fits c most ≡ true }
    ensures { result ≡ add_of most c (tree_fill (tree_of t.now rows.now runs.now views.now pool.now i)) }
{
    let x = tree_of(t, rows, i);
    let d = add_views(most, views, x.l0, pool, c)?;
    add_runs(most, runs, x.compacted, views, pool, d)
}

// What the trees joined fill, with `c`, where it is at most `most`.
// inner
pub fn measure_joined(
    most: Fill,
    t: &[u64],
    rows: &[u64],
    n: usize,
    runs: &[u64],
    views: &[u64],
    pool: &[u8],
    c: Fill,
) -> Option<Fill>
    requires { n * 7 ≤ length rows.now }
    ensures { result ≡ add_of most c (tree_fill (joined_tree (trees_in t.now rows.now n runs.now views.now pool.now))) }
{
    if !fits_in(c, most) {
        return None;
    }
    let mut d = c;
    for k in 0..n {
        d = add_tree_at(most, t, rows, k, runs, views, pool, d)?;
    }
    Some(d)
}
