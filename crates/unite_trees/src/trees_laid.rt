// Trees laid: L0 of all, then the runs of all.
ghost use Rattle.std.specs.Prelude.{◌≡◌, ◌+◌, ◌*◌, ◌/◌, ◌≤◌, ◌<◌, length};
ghost use Rattle.tables.specs.Layout.{write, joined};
ghost use Rattle.records.specs.Row.{run_at};
ghost use Rattle.records.specs.Decode.{run_in, runs_in};
ghost use Rattle.records.specs.Words.{run_words};
ghost use Rattle.records.specs.Fill.{plus, sum, view_fill, run_fill, tree_fill};
ghost use Rattle.records.specs.Layout.{view_bytes, views_laid, run_row, run_bytes, runs_laid, runs_views_laid, tree_row, tree_runs_laid, tree_views_laid, tree_bytes};
ghost use Rattle.measure.specs.Within.{tree_runs};
ghost use Rattle.unite_trees.specs.Joined.{tree_l0, joined_tree, numbered, numbered_tree};
ghost use Rattle.unite_trees.specs.Rows.{trees_in};
ghost use Rattle.unite_trees.specs.Steps.{renumbered, tree_of};

use crate::trees_measured::tree_of;
use emit::{LaidTree, put_run, put_views, tree_row};
use records::{Fill, RunRow, run_at};
use tables::{Window, held};

// Appends L0 of the tree that row `i` of `rows` names.
fn put_l0_at(
    t: &[u64],
    rows: &[u64],
    i: usize,
    runs: &[u64],
    views: &[u64],
    pool: &[u8],
    out_views: &mut [u64],
    out_pool: &mut [u8],
    c: Fill,
) -> Fill
    requires i_in_bounds { (i + 1) * 7 ≤ length rows.now }
    requires i_in_bounds_2 { (c.views + (sum view_fill (tree_l0 (tree_of t.now rows.now runs.now views.now pool.now i))).views) * 16 ≤ length out_views.old }
    requires i_in_bounds_3 { c.bytes + (sum view_fill (tree_l0 (tree_of t.now rows.now runs.now views.now pool.now i))).bytes ≤ length out_pool.old }
    ensures value { result ≡ plus c (sum view_fill (tree_l0 (tree_of t.now rows.now runs.now views.now pool.now i))) }
    ensures out_views_after { out_views.new ≡ write out_views.old (c.views * 16) (views_laid c (tree_l0 (tree_of t.now rows.now runs.now views.now pool.now i))) }
    ensures out_pool_after { out_pool.new ≡ write out_pool.old c.bytes (joined view_bytes (tree_l0 (tree_of t.now rows.now runs.now views.now pool.now i))) }
{
    let x = tree_of(t, rows, i);
    put_views(views, x.l0, pool, out_views, out_pool, c)
}

// Appends L0 of the first `n` of them.
fn put_l0(
    t: &[u64],
    rows: &[u64],
    n: usize,
    runs: &[u64],
    views: &[u64],
    pool: &[u8],
    out_views: &mut [u64],
    out_pool: &mut [u8],
    c: Fill,
) -> Fill
    requires n_in_bounds { n * 7 ≤ length rows.now }
    requires pool_in_bounds { (c.views + (sum view_fill (joined tree_l0 (trees_in t.now rows.now n runs.now views.now pool.now))).views) * 16 ≤ length out_views.old }
    requires pool_in_bounds_2 { c.bytes + (sum view_fill (joined tree_l0 (trees_in t.now rows.now n runs.now views.now pool.now))).bytes ≤ length out_pool.old }
    ensures value { result ≡ plus c (sum view_fill (joined tree_l0 (trees_in t.now rows.now n runs.now views.now pool.now))) }
    ensures out_views_after { out_views.new ≡ write out_views.old (c.views * 16) (views_laid c (joined tree_l0 (trees_in t.now rows.now n runs.now views.now pool.now))) }
    ensures out_pool_after { out_pool.new ≡ write out_pool.old c.bytes (joined view_bytes (joined tree_l0 (trees_in t.now rows.now n runs.now views.now pool.now))) }
{
    let mut to = c;
    for k in 0..n {
        to = put_l0_at(t, rows, k, runs, views, pool, out_views, out_pool, to);
    }
    to
}

// Appends run `i` of a table under the id `id`.
fn put_run_as(
    runs: &[u64],
    i: usize,
    id: u64,
    views: &[u64],
    pool: &[u8],
    out_runs: &mut [u64],
    out_views: &mut [u64],
    out_pool: &mut [u8],
    c: Fill,
) -> Fill
    requires i_in_bounds { i < length runs.now / 3 }
    requires i_in_bounds_2 { (c.runs + (run_fill (run_in views.now pool.now (run_at runs.now i))).runs) * 3 ≤ length out_runs.old }
    requires i_in_bounds_3 { (c.views + (run_fill (run_in views.now pool.now (run_at runs.now i))).views) * 16 ≤ length out_views.old }
    requires i_in_bounds_4 { c.bytes + (run_fill (run_in views.now pool.now (run_at runs.now i))).bytes ≤ length out_pool.old }
    ensures value { result ≡ plus c (run_fill (run_in views.now pool.now (run_at runs.now i))) }
    ensures out_runs_after { out_runs.new ≡ write out_runs.old (c.runs * 3) (run_words (run_row c (renumbered id (run_in views.now pool.now (run_at runs.now i))))) }
    ensures out_views_after { out_views.new ≡ write out_views.old (c.views * 16) (views_laid c (run_in views.now pool.now (run_at runs.now i)).views) }
    ensures out_pool_after { out_pool.new ≡ write out_pool.old c.bytes (run_bytes (run_in views.now pool.now (run_at runs.now i))) }
{
    let x = run_at(runs, i);
    put_run(
        RunRow { id, views: x.views },
        views,
        pool,
        out_runs,
        out_views,
        out_pool,
        c,
    )
}

// Appends the runs of a window, numbered.
fn put_numbered(
    runs: &[u64],
    w: Window,
    left: usize,
    views: &[u64],
    pool: &[u8],
    out_runs: &mut [u64],
    out_views: &mut [u64],
    out_pool: &mut [u8],
    c: Fill,
) -> Fill
    requires w_len_bound { length (runs_in runs.now views.now pool.now w) ≤ left }
    requires w_in_bounds { (c.runs + (sum run_fill (numbered left (runs_in runs.now views.now pool.now w))).runs) * 3 ≤ length out_runs.old }
    requires w_in_bounds_2 { (c.views + (sum run_fill (numbered left (runs_in runs.now views.now pool.now w))).views) * 16 ≤ length out_views.old }
    requires w_in_bounds_3 { c.bytes + (sum run_fill (numbered left (runs_in runs.now views.now pool.now w))).bytes ≤ length out_pool.old }
    ensures value { result ≡ plus c (sum run_fill (numbered left (runs_in runs.now views.now pool.now w))) }
    ensures out_runs_after { out_runs.new ≡ write out_runs.old (c.runs * 3) (runs_laid c (numbered left (runs_in runs.now views.now pool.now w))) }
    ensures out_views_after { out_views.new ≡ write out_views.old (c.views * 16) (runs_views_laid c (numbered left (runs_in runs.now views.now pool.now w))) }
    ensures out_pool_after { out_pool.new ≡ write out_pool.old c.bytes (joined run_bytes (numbered left (runs_in runs.now views.now pool.now w))) }
{
    let n = held(w, runs.len() / 3);
    let mut to = c;
    for k in 0..n {
        let id = left - k - 1;
        to = put_run_as(
            runs,
            w.first + k,
            id as u64,
            views,
            pool,
            out_runs,
            out_views,
            out_pool,
            to,
        );
    }
    to
}

// Appends the runs of the tree that row `i` of `rows` names.
fn put_runs_at(
    t: &[u64],
    rows: &[u64],
    i: usize,
    left: usize,
    runs: &[u64],
    views: &[u64],
    pool: &[u8],
    out_runs: &mut [u64],
    out_views: &mut [u64],
    out_pool: &mut [u8],
    c: Fill,
) -> Fill
    requires i_in_bounds { (i + 1) * 7 ≤ length rows.now }
    requires i_len_bound { length (tree_runs (tree_of t.now rows.now runs.now views.now pool.now i)) ≤ left }
    requires i_in_bounds_2 { (c.runs + (sum run_fill (numbered left (tree_runs (tree_of t.now rows.now runs.now views.now pool.now i)))).runs) * 3 ≤ length out_runs.old }
    requires i_in_bounds_3 { (c.views + (sum run_fill (numbered left (tree_runs (tree_of t.now rows.now runs.now views.now pool.now i)))).views) * 16 ≤ length out_views.old }
    requires i_in_bounds_4 { c.bytes + (sum run_fill (numbered left (tree_runs (tree_of t.now rows.now runs.now views.now pool.now i)))).bytes ≤ length out_pool.old }
    ensures value { result ≡ plus c (sum run_fill (numbered left (tree_runs (tree_of t.now rows.now runs.now views.now pool.now i)))) }
    ensures out_runs_after { out_runs.new ≡ write out_runs.old (c.runs * 3) (runs_laid c (numbered left (tree_runs (tree_of t.now rows.now runs.now views.now pool.now i)))) }
    ensures out_views_after { out_views.new ≡ write out_views.old (c.views * 16) (runs_views_laid c (numbered left (tree_runs (tree_of t.now rows.now runs.now views.now pool.now i)))) }
    ensures out_pool_after { out_pool.new ≡ write out_pool.old c.bytes (joined run_bytes (numbered left (tree_runs (tree_of t.now rows.now runs.now views.now pool.now i)))) }
{
    let x = tree_of(t, rows, i);
    put_numbered(
        runs,
        x.compacted,
        left,
        views,
        pool,
        out_runs,
        out_views,
        out_pool,
        c,
    )
}

// Appends those of the first `n` of them.
fn put_joined_runs(
    t: &[u64],
    rows: &[u64],
    n: usize,
    left: usize,
    runs: &[u64],
    views: &[u64],
    pool: &[u8],
    out_runs: &mut [u64],
    out_views: &mut [u64],
    out_pool: &mut [u8],
    c: Fill,
) -> Fill
    requires n_in_bounds { n * 7 ≤ length rows.now }
    requires pool_len_bound { length (joined tree_runs (trees_in t.now rows.now n runs.now views.now pool.now)) ≤ left }
    requires pool_in_bounds { (c.runs + (sum run_fill (numbered left (joined tree_runs (trees_in t.now rows.now n runs.now views.now pool.now)))).runs) * 3 ≤ length out_runs.old }
    requires pool_in_bounds_2 { (c.views + (sum run_fill (numbered left (joined tree_runs (trees_in t.now rows.now n runs.now views.now pool.now)))).views) * 16 ≤ length out_views.old }
    requires pool_in_bounds_3 { c.bytes + (sum run_fill (numbered left (joined tree_runs (trees_in t.now rows.now n runs.now views.now pool.now)))).bytes ≤ length out_pool.old }
    ensures value { result ≡ plus c (sum run_fill (numbered left (joined tree_runs (trees_in t.now rows.now n runs.now views.now pool.now)))) }
    ensures out_runs_after { out_runs.new ≡ write out_runs.old (c.runs * 3) (runs_laid c (numbered left (joined tree_runs (trees_in t.now rows.now n runs.now views.now pool.now)))) }
    ensures out_views_after { out_views.new ≡ write out_views.old (c.views * 16) (runs_views_laid c (numbered left (joined tree_runs (trees_in t.now rows.now n runs.now views.now pool.now)))) }
    ensures out_pool_after { out_pool.new ≡ write out_pool.old c.bytes (joined run_bytes (numbered left (joined tree_runs (trees_in t.now rows.now n runs.now views.now pool.now)))) }
{
    let mut to = c;
    for k in 0..n {
        let rest = left - (to.runs - c.runs);
        to = put_runs_at(
            t, rows, k, rest, runs, views, pool, out_runs, out_views, out_pool, to,
        );
    }
    to
}

// Appends the trees joined. `left` runs are left to be numbered, with theirs.
// inner
pub fn put_joined(
    t: &[u64],
    rows: &[u64],
    n: usize,
    left: usize,
    runs: &[u64],
    views: &[u64],
    pool: &[u8],
    out_runs: &mut [u64],
    out_views: &mut [u64],
    out_pool: &mut [u8],
    c: Fill,
) -> LaidTree
    requires n_in_bounds { n * 7 ≤ length rows.now }
    requires pool_bound { (tree_fill (joined_tree (trees_in t.now rows.now n runs.now views.now pool.now))).runs ≤ left }
    requires pool_in_bounds { (c.runs + (tree_fill (joined_tree (trees_in t.now rows.now n runs.now views.now pool.now))).runs) * 3 ≤ length out_runs.old }
    requires pool_in_bounds_2 { (c.views + (tree_fill (joined_tree (trees_in t.now rows.now n runs.now views.now pool.now))).views) * 16 ≤ length out_views.old }
    requires pool_in_bounds_3 { c.bytes + (tree_fill (joined_tree (trees_in t.now rows.now n runs.now views.now pool.now))).bytes ≤ length out_pool.old }
    ensures value { result ≡ record { tree = tree_row c (numbered_tree left (joined_tree (trees_in t.now rows.now n runs.now views.now pool.now))); past = plus c (tree_fill (joined_tree (trees_in t.now rows.now n runs.now views.now pool.now))) } }
    ensures out_runs_after { out_runs.new ≡ write out_runs.old (c.runs * 3) (tree_runs_laid c (numbered_tree left (joined_tree (trees_in t.now rows.now n runs.now views.now pool.now)))) }
    ensures out_views_after { out_views.new ≡ write out_views.old (c.views * 16) (tree_views_laid c (numbered_tree left (joined_tree (trees_in t.now rows.now n runs.now views.now pool.now)))) }
    ensures out_pool_after { out_pool.new ≡ write out_pool.old c.bytes (tree_bytes (numbered_tree left (joined_tree (trees_in t.now rows.now n runs.now views.now pool.now)))) }
{
    let a = put_l0(t, rows, n, runs, views, pool, out_views, out_pool, c);
    let past = put_joined_runs(
        t, rows, n, left, runs, views, pool, out_runs, out_views, out_pool, a,
    );
    let tree = tree_row(None, None, c, a, past);
    LaidTree { tree, past }
}
