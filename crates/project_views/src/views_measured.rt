// What is left, measured: each part is added to `c`, which is at most `most`, and the first that is too much ends the walk.
ghost use Rattle.std.specs.Prelude.{◌≡◌, true, ◌+◌, ◌/◌, ◌≤◌, ◌<◌, length};
ghost use Rattle.keys.specs.Pool.{edge_of};
ghost use Rattle.records.specs.Row.{view_at, run_at};
ghost use Rattle.records.specs.Decode.{view_in, views_in, run_in, runs_in, tree_in};
ghost use Rattle.records.specs.Fill.{plus, fits, sum, bytes, edge_keys, view_fill, run_fill, tree_fill};
ghost use Rattle.records.specs.Layout.{run};
ghost use Rattle.measure.specs.Walk.{add_of};
ghost use Rattle.project_views.specs.Reach.{reach_of};
ghost use Rattle.project_views.specs.Shown.{with_visible, runs_shown, tree_shown};
ghost use Rattle.project_views.specs.Steps.{left_in, piece_of, views_shown, run_piece};

use crate::Reach;
use crate::view_ranges::kept_at;
use crate::views_laid::{flat_end, row_seen};
use keys::{Bound, part};
use lawful::{last_bound, seen_range};
use measure::{add, fits_in};
use records::{Fill, RunRow, TreeRow, ViewRow, run_at};
use tables::{Window, held};

// The bytes of a bound's key.
fn bound_len(pool: &[u8], b: Bound) -> usize
    ensures { result ≡ length (run (edge_keys (edge_of pool.now b))) }
{
    match b {
        Bound::Unbounded => 0,
        Bound::Included(at, len) => part(pool, at, len).len(),
        Bound::Excluded(at, len) => part(pool, at, len).len(),
    }
}

fn add_bound(most: Fill, pool: &[u8], b: Bound, c: Fill) -> Option<Fill>
    ensures { result ≡ add_of most c (bytes (length (run (edge_keys (edge_of pool.now b))))) }
{
    let n = bound_len(pool, b);
    add(
        most,
        c,
        Fill {
            segments: 0,
            views: 0,
            runs: 0,
            borrows: 0,
            ids: 0,
            bytes: n,
        },
    )
}

fn add_bounds(most: Fill, pool: &[u8], s: Bound, e: Bound, c: Fill) -> Option<Fill>
    ensures { result ≡ add_of most c (plus (bytes (length (run (edge_keys (edge_of pool.now s))))) (bytes (length (run (edge_keys (edge_of pool.now e)))))) }
{
    let d = add_bound(most, pool, s, c)?;
    add_bound(most, pool, e, d)
}

// Adds a view.
// inner
pub fn add_view(most: Fill, pool: &[u8], v: ViewRow, c: Fill) -> Option<Fill>
    ensures { result ≡ add_of most c (view_fill (view_in pool.now v)) }
{
    let first = Bound::Included(v.first.at, v.first.len);
    let end = last_bound(v.last);
    let seen = seen_range(v.visible);
    let d = add_bounds(most, pool, first, end, c)?;
    let e = add_bounds(most, pool, seen.start, seen.end, d)?;
    add(
        most,
        e,
        Fill {
            segments: 0,
            views: 1,
            runs: 0,
            borrows: 0,
            ids: 0,
            bytes: 0,
        },
    )
}

// Adds a view of which `seen` is visible.
fn add_left(most: Fill, v: ViewRow, seen: Reach, pool: &[u8], c: Fill) -> Option<Fill>
    ensures { result ≡ add_of most c (view_fill (with_visible (view_in pool.now v) (reach_of pool.now seen))) }
{
    let flat = flat_end(pool, seen.end);
    let row = row_seen(v, seen.start, flat.end);
    add_view(most, pool, row, c)
}

// Adds what is left of a view.
fn add_kept(most: Fill, k: Option<(ViewRow, Reach)>, pool: &[u8], c: Fill) -> Option<Fill>
    requires { fits c most ≡ true }
    ensures { result ≡ add_of most c (sum view_fill (left_in pool.now k)) }
{
    match k {
        None => Some(c),
        Some((v, seen)) => add_left(most, v, seen, pool, c),
    }
}

// Adds what is left of view `k` of the `n` from `first` on.
fn add_kept_at(
    most: Fill,
    views: &[u64],
    first: usize,
    n: usize,
    k: usize,
    views_overlap: bool,
    pool: &[u8],
    r: Reach,
    c: Fill,
) -> Option<Fill>
    requires n_in_bounds { (first + n ≤ length views.now / 16) × (k < n) }
    requires most_value { fits c most ≡ true }
    ensures { result ≡ add_of most c (sum view_fill (piece_of (reach_of pool.now r) views_overlap (λ i. view_in pool.now (view_at views.now (first + i))) n k)) }
{
    let kept = kept_at(views, first, n, k, views_overlap, pool, r);
    add_kept(most, kept, pool, c)
}

// Adds what is left of the views of a window.
fn add_views_shown(
    most: Fill,
    views: &[u64],
    w: Window,
    views_overlap: bool,
    pool: &[u8],
    r: Reach,
    c: Fill,
) -> Option<Fill>
    requires { fits c most ≡ true }
    ensures { result ≡ add_of most c (sum view_fill (views_shown views_overlap (reach_of pool.now r) (views_in views.now pool.now w))) }
{
    let n = held(w, views.len() / 16);
    let mut d = c;
    for k in 0..n {
        d = add_kept_at(most, views, w.first, n, k, views_overlap, pool, r, d)?;
    }
    Some(d)
}

// Adds what is left of a run.
fn add_run_shown(
    most: Fill,
    x: RunRow,
    views: &[u64],
    pool: &[u8],
    r: Reach,
    c: Fill,
) -> Option<Fill>
    requires { fits c most ≡ true }
    ensures { result ≡ add_of most c (sum run_fill (run_piece (reach_of pool.now r) (run_in views.now pool.now x))) }
{
    let d = add_views_shown(most, views, x.views, false, pool, r, c)?;
    if d.views == c.views {
        return Some(d);
    }
    add(
        most,
        d,
        Fill {
            segments: 0,
            views: 0,
            runs: 1,
            borrows: 0,
            ids: 0,
            bytes: 0,
        },
    )
}

// Adds what is left of run `i` of a table.
fn add_run_shown_at(
    most: Fill,
    runs: &[u64],
    i: usize,
    views: &[u64],
    pool: &[u8],
    r: Reach,
    c: Fill,
) -> Option<Fill>
    requires i_in_bounds { i < length runs.now / 3 }
    requires most_value { fits c most ≡ true }
    ensures { result ≡ add_of most c (sum run_fill (run_piece (reach_of pool.now r) (run_in views.now pool.now (run_at runs.now i)))) }
{
    add_run_shown(most, run_at(runs, i), views, pool, r, c)
}

// Adds what is left of the runs of a window.
fn add_runs_shown(
    most: Fill,
    runs: &[u64],
    w: Window,
    views: &[u64],
    pool: &[u8],
    r: Reach,
    c: Fill,
) -> Option<Fill>
    requires { fits c most ≡ true }
    ensures { result ≡ add_of most c (sum run_fill (runs_shown (reach_of pool.now r) (runs_in runs.now views.now pool.now w))) }
{
    let n = held(w, runs.len() / 3);
    let mut d = c;
    for k in 0..n {
        d = add_run_shown_at(most, runs, w.first + k, views, pool, r, d)?;
    }
    Some(d)
}

// What the range `r` leaves of a tree, measured: what that and `c` fill, where it is at most `most`.
// inner
pub fn measure_tree_shown(
    most: Fill,
    t: TreeRow,
    runs: &[u64],
    views: &[u64],
    pool: &[u8],
    r: Reach,
    c: Fill,
) -> Option<Fill>
    ensures { result ≡ add_of most c (tree_fill (tree_shown (reach_of pool.now r) (tree_in runs.now views.now pool.now t))) }
{
    if !fits_in(c, most) {
        return None;
    }
    let d = add_views_shown(most, views, t.l0, true, pool, r, c)?;
    add_runs_shown(most, runs, t.compacted, views, pool, r, d)
}
