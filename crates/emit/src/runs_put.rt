// Runs and trees, laid from their rows.
ghost use Rattle.std.specs.Prelude.{◌≡◌, ◌+◌, ◌-◌, ◌*◌, ◌/◌, ◌≤◌, ◌<◌, length};
ghost use Rattle.tables.specs.Layout.{write, joined};
ghost use Rattle.records.specs.Row.{run_at};
ghost use Rattle.records.specs.Decode.{run_in, runs_in, tree_in};
ghost use Rattle.records.specs.Fill.{plus, sum, segments, runs, run_fill, tree_fill};
ghost use Rattle.records.specs.Words.{run_words};
ghost use Rattle.records.specs.Layout.{run, views_laid, run_row, run_bytes, runs_laid, runs_views_laid, tree_row, tree_bytes, tree_views_laid, tree_runs_laid};

use crate::LaidTree;
use crate::views_put::put_views;
use ids::{SstId, ViewId};
use records::{Fill, RunRow, TreeRow, run_at, run_words};
use tables::{Window, held, put};

// Appends the row of a run whose views were laid from `c` to `to`.
// inner
pub fn put_run_row(id: u64, out_runs: &mut [u64], c: Fill, to: Fill) -> Fill
    requires { (c.views ≤ to.views) × (to.runs * 3 + 3 ≤ length out_runs.old) }
    ensures value { result ≡ plus to (runs 1) }
    ensures out_runs_after { out_runs.new ≡ write out_runs.old (to.runs * 3) (run_words (record { id = id; views = record { first = c.views; count = to.views - c.views } })) }
{
    let run = RunRow {
        id,
        views: Window {
            first: c.views,
            count: to.views - c.views,
        },
    };
    let row = run_words(run);
    put(&row, out_runs, to.runs * 3);
    Fill {
        segments: to.segments,
        views: to.views,
        runs: to.runs + 1,
        borrows: to.borrows,
        ids: to.ids,
        bytes: to.bytes,
    }
}

// Appends a run and its views.
// inner
pub fn put_run(
    r: RunRow,
    views: &[u64],
    pool: &[u8],
    out_runs: &mut [u64],
    out_views: &mut [u64],
    out_pool: &mut [u8],
    c: Fill,
) -> Fill
    requires r_in_bounds { (c.runs + (run_fill (run_in views.now pool.now r)).runs) * 3 ≤ length out_runs.old }
    requires r_in_bounds_2 { (c.views + (run_fill (run_in views.now pool.now r)).views) * 16 ≤ length out_views.old }
    requires r_in_bounds_3 { c.bytes + (run_fill (run_in views.now pool.now r)).bytes ≤ length out_pool.old }
    ensures value { result ≡ plus c (run_fill (run_in views.now pool.now r)) }
    ensures out_runs_after { out_runs.new ≡ write out_runs.old (c.runs * 3) (run_words (run_row c (run_in views.now pool.now r))) }
    ensures out_views_after { out_views.new ≡ write out_views.old (c.views * 16) (views_laid c (run_in views.now pool.now r).views) }
    ensures out_pool_after { out_pool.new ≡ write out_pool.old c.bytes (run_bytes (run_in views.now pool.now r)) }
{
    let w = r.views;
    let to = put_views(views, w, pool, out_views, out_pool, c);
    put_run_row(r.id, out_runs, c, to)
}

// Appends run `i` of a table.
fn put_run_at(
    runs: &[u64],
    i: usize,
    views: &[u64],
    pool: &[u8],
    out_runs: &mut [u64],
    out_views: &mut [u64],
    out_pool: &mut [u8],
    c: Fill,
) -> Fill
    requires i_in_bounds { i < length runs.now / 3 }
    requires i_in_bounds_2 { (c.runs + (run_fill (run_in views.now pool.now (run_at runs.now i))).runs) * 3 ≤ length out_runs.old }
    requires i_in_bounds_3 { (c.views + (run_fill (run_in views.now pool.now (run_at runs.now i))).views) * 16 ≤ length out_views.old }
    requires i_in_bounds_4 { c.bytes + (run_fill (run_in views.now pool.now (run_at runs.now i))).bytes ≤ length out_pool.old }
    ensures value { result ≡ plus c (run_fill (run_in views.now pool.now (run_at runs.now i))) }
    ensures out_runs_after { out_runs.new ≡ write out_runs.old (c.runs * 3) (run_words (run_row c (run_in views.now pool.now (run_at runs.now i)))) }
    ensures out_views_after { out_views.new ≡ write out_views.old (c.views * 16) (views_laid c (run_in views.now pool.now (run_at runs.now i)).views) }
    ensures out_pool_after { out_pool.new ≡ write out_pool.old c.bytes (run_bytes (run_in views.now pool.now (run_at runs.now i))) }
{
    put_run(
        run_at(runs, i),
        views,
        pool,
        out_runs,
        out_views,
        out_pool,
        c,
    )
}

// Appends the runs of a window, with their views. `put_borrows` goes the same way over other tables; one loop for both would be
// handed the tables, the fill and the row's own function, and say no more than the two do.
// inner
pub fn put_runs(
    runs: &[u64],
    w: Window,
    views: &[u64],
    pool: &[u8],
    out_runs: &mut [u64],
    out_views: &mut [u64],
    out_pool: &mut [u8],
    c: Fill,
) -> Fill
    requires w_in_bounds { (c.runs + (sum run_fill (runs_in runs.now views.now pool.now w)).runs) * 3 ≤ length out_runs.old }
    requires w_in_bounds_2 { (c.views + (sum run_fill (runs_in runs.now views.now pool.now w)).views) * 16 ≤ length out_views.old }
    requires w_in_bounds_3 { c.bytes + (sum run_fill (runs_in runs.now views.now pool.now w)).bytes ≤ length out_pool.old }
    ensures value { result ≡ plus c (sum run_fill (runs_in runs.now views.now pool.now w)) }
    ensures out_runs_after { out_runs.new ≡ write out_runs.old (c.runs * 3) (runs_laid c (runs_in runs.now views.now pool.now w)) }
    ensures out_views_after { out_views.new ≡ write out_views.old (c.views * 16) (runs_views_laid c (runs_in runs.now views.now pool.now w)) }
    ensures out_pool_after { out_pool.new ≡ write out_pool.old c.bytes (joined run_bytes (runs_in runs.now views.now pool.now w)) }
{
    let n = held(w, runs.len() / 3);
    let first = w.first;
    let mut to = c;
    for k in 0..n {
        to = put_run_at(
            runs,
            first + k,
            views,
            pool,
            out_runs,
            out_views,
            out_pool,
            to,
        );
    }
    to
}

// ---- trees

// The row of a tree whose L0 was laid from `c` to `a`, and whose runs from there to `e`.
// inner
pub fn tree_row(view: Option<ViewId>, sst: Option<SstId>, c: Fill, a: Fill, e: Fill) -> TreeRow
    requires { (c.views ≤ a.views) × (c.runs ≤ e.runs) }
    ensures { result ≡ record { view = view; sst = sst; l0 = record { first = c.views; count = a.views - c.views }; compacted = record { first = c.runs; count = e.runs - c.runs } } }
{
    TreeRow {
        view,
        sst,
        l0: Window {
            first: c.views,
            count: a.views - c.views,
        },
        compacted: Window {
            first: c.runs,
            count: e.runs - c.runs,
        },
    }
}

// Appends the views and runs of a tree.
// inner
pub fn put_tree(
    t: TreeRow,
    runs: &[u64],
    views: &[u64],
    pool: &[u8],
    out_runs: &mut [u64],
    out_views: &mut [u64],
    out_pool: &mut [u8],
    c: Fill,
) -> LaidTree
    requires t_in_bounds { (c.runs + (tree_fill (tree_in runs.now views.now pool.now t)).runs) * 3 ≤ length out_runs.old }
    requires t_in_bounds_2 { (c.views + (tree_fill (tree_in runs.now views.now pool.now t)).views) * 16 ≤ length out_views.old }
    requires t_in_bounds_3 { c.bytes + (tree_fill (tree_in runs.now views.now pool.now t)).bytes ≤ length out_pool.old }
    ensures value { result ≡ record { tree = tree_row c (tree_in runs.now views.now pool.now t); past = plus c (tree_fill (tree_in runs.now views.now pool.now t)) } }
    ensures out_runs_after { out_runs.new ≡ write out_runs.old (c.runs * 3) (tree_runs_laid c (tree_in runs.now views.now pool.now t)) }
    ensures out_views_after { out_views.new ≡ write out_views.old (c.views * 16) (tree_views_laid c (tree_in runs.now views.now pool.now t)) }
    ensures out_pool_after { out_pool.new ≡ write out_pool.old c.bytes (tree_bytes (tree_in runs.now views.now pool.now t)) }
{
    let view = t.view;
    let sst = t.sst;
    let l0 = t.l0;
    let compacted = t.compacted;
    let a = put_views(views, l0, pool, out_views, out_pool, c);
    let past = put_runs(
        runs, compacted, views, pool, out_runs, out_views, out_pool, a,
    );
    let tree = tree_row(view, sst, c, a, past);
    LaidTree { tree, past }
}
