// The views, runs and trees that are left, laid out.
ghost use Rattle.std.specs.Prelude.{◌≡◌, true, ◌+◌, ◌-◌, ◌*◌, ◌/◌, ◌≤◌, ◌<◌, length, get_or, set};
ghost use Rattle.tables.specs.Layout.{write, joined};
ghost use Rattle.records.specs.Row.{view_at, run_at};
ghost use Rattle.records.specs.Decode.{view_in, views_in, run_in, runs_in, tree_in};
ghost use Rattle.records.specs.Words.{view_words};
ghost use Rattle.records.specs.Fill.{plus, sum, bytes, view_fill, run_fill, tree_fill};
ghost use Rattle.records.specs.Layout.{view_row, view_bytes, views_laid, run_bytes, runs_laid, runs_views_laid, tree_row, tree_bytes, tree_views_laid, tree_runs_laid};
ghost use Rattle.project_views.specs.Reach.{reach_of};
ghost use Rattle.project_views.specs.Shown.{with_visible, runs_shown, tree_shown};
ghost use Rattle.project_views.specs.Steps.{flat_of, row_seen, left_in, piece_of, views_shown, run_piece};

use crate::view_ranges::kept_at;
use crate::{Flat, Reach, Until};
use emit::{LaidTree, put_run_row, put_view, tree_row};
use keys::{Bound, Range, part, successor_of};
use records::{Fill, RunRow, TreeRow, ViewRow, run_at};
use tables::{Window, held};

// An end as bytes of the pool.
pub fn flat_end(pool: &[u8], u: Until) -> Flat
    ensures { result ≡ flat_of pool.now u }
{
    match u {
        Until::Unbounded => Flat {
            end: Bound::Unbounded,
            grown: false,
        },
        Until::Included(from, len) => Flat {
            end: Bound::Included(from, len),
            grown: false,
        },
        Until::Excluded(from, len) => Flat {
            end: Bound::Excluded(from, len),
            grown: false,
        },
        Until::Successor(from, len) => match successor_of(part(pool, from, len)) {
            None => Flat {
                end: Bound::Unbounded,
                grown: false,
            },
            Some(n) => Flat {
                end: Bound::Excluded(from, n),
                grown: true,
            },
        },
    }
}

// A view's row with another visible range.
pub fn row_seen(v: ViewRow, start: Bound, end: Bound) -> ViewRow
    ensures { result ≡ row_seen v start end }
{
    let visible = Some(Range { start, end });
    ViewRow {
        id: v.id,
        sst: v.sst,
        first: v.first,
        last: v.last,
        visible,
    }
}

// Adds one to the byte before `past`.
fn add_one(out: &mut [u8], past: usize)
    requires { (0 < past) × (past ≤ length out.old) × (get_or out.old (past - 1) 0 < 255) }
    ensures { out.new ≡ set out.old (past - 1) (get_or out.old (past - 1) 0 + 1) }
{
    let i = past - 1;
    out[i] += 1;
}

// Appends a view of which `seen` is visible. A successor stands in no pool: its prefix's bytes are laid, and the last one grows there.
fn put_left(
    v: ViewRow,
    seen: Reach,
    pool: &[u8],
    out_views: &mut [u64],
    out_pool: &mut [u8],
    c: Fill,
) -> Fill
    requires seen_in_bounds { (c.views + (view_fill (with_visible (view_in pool.now v) (reach_of pool.now seen))).views) * 16 ≤ length out_views.old }
    requires seen_in_bounds_2 { c.bytes + (view_fill (with_visible (view_in pool.now v) (reach_of pool.now seen))).bytes ≤ length out_pool.old }
    ensures value { result ≡ plus c (view_fill (with_visible (view_in pool.now v) (reach_of pool.now seen))) }
    ensures out_views_after { out_views.new ≡ write out_views.old (c.views * 16) (view_words (view_row c.bytes (with_visible (view_in pool.now v) (reach_of pool.now seen)))) }
    ensures out_pool_after { out_pool.new ≡ write out_pool.old c.bytes (view_bytes (with_visible (view_in pool.now v) (reach_of pool.now seen))) }
{
    let flat = flat_end(pool, seen.end);
    let row = row_seen(v, seen.start, flat.end);
    let past = put_view(row, pool, out_views, out_pool, c);
    if !flat.grown {
        return past;
    }
    add_one(out_pool, past.bytes);
    past
}

// Appends what is left of a view.
fn put_kept(
    k: Option<(ViewRow, Reach)>,
    pool: &[u8],
    out_views: &mut [u64],
    out_pool: &mut [u8],
    c: Fill,
) -> Fill
    requires k_in_bounds { (c.views + (sum view_fill (left_in pool.now k)).views) * 16 ≤ length out_views.old }
    requires k_in_bounds_2 { c.bytes + (sum view_fill (left_in pool.now k)).bytes ≤ length out_pool.old }
    ensures value { result ≡ plus c (sum view_fill (left_in pool.now k)) }
    ensures out_views_after { out_views.new ≡ write out_views.old (c.views * 16) (views_laid c (left_in pool.now k)) }
    ensures out_pool_after { out_pool.new ≡ write out_pool.old c.bytes (joined view_bytes (left_in pool.now k)) }
{
    match k {
        None => c,
        Some((v, seen)) => put_left(v, seen, pool, out_views, out_pool, c),
    }
}

// Appends what is left of view `k` of the `n` from `first` on.
fn put_kept_at(
    views: &[u64],
    first: usize,
    n: usize,
    k: usize,
    views_overlap: bool,
    pool: &[u8],
    r: Reach,
    out_views: &mut [u64],
    out_pool: &mut [u8],
    c: Fill,
) -> Fill
    requires n_in_bounds { (first + n ≤ length views.now / 16) × (k < n) }
    requires k_in_bounds { (c.views + (sum view_fill (piece_of (reach_of pool.now r) views_overlap (λ i. view_in pool.now (view_at views.now (first + i))) n k)).views) * 16 ≤ length out_views.old }
    requires k_in_bounds_2 { c.bytes + (sum view_fill (piece_of (reach_of pool.now r) views_overlap (λ i. view_in pool.now (view_at views.now (first + i))) n k)).bytes ≤ length out_pool.old }
    ensures value { result ≡ plus c (sum view_fill (piece_of (reach_of pool.now r) views_overlap (λ i. view_in pool.now (view_at views.now (first + i))) n k)) }
    ensures out_views_after { out_views.new ≡ write out_views.old (c.views * 16) (views_laid c (piece_of (reach_of pool.now r) views_overlap (λ i. view_in pool.now (view_at views.now (first + i))) n k)) }
    ensures out_pool_after { out_pool.new ≡ write out_pool.old c.bytes (joined view_bytes (piece_of (reach_of pool.now r) views_overlap (λ i. view_in pool.now (view_at views.now (first + i))) n k)) }
{
    let kept = kept_at(views, first, n, k, views_overlap, pool, r);
    put_kept(kept, pool, out_views, out_pool, c)
}

// ---- the views of a window: those of L0, which overlap, or those of a run

// Appends what is left of them.
fn filter_view_handles(
    views: &[u64],
    w: Window,
    views_overlap: bool,
    pool: &[u8],
    r: Reach,
    out_views: &mut [u64],
    out_pool: &mut [u8],
    c: Fill,
) -> Fill
    requires w_in_bounds { (c.views + (sum view_fill (views_shown views_overlap (reach_of pool.now r) (views_in views.now pool.now w))).views) * 16 ≤ length out_views.old }
    requires w_in_bounds_2 { c.bytes + (sum view_fill (views_shown views_overlap (reach_of pool.now r) (views_in views.now pool.now w))).bytes ≤ length out_pool.old }
    ensures value { result ≡ plus c (sum view_fill (views_shown views_overlap (reach_of pool.now r) (views_in views.now pool.now w))) }
    ensures out_views_after { out_views.new ≡ write out_views.old (c.views * 16) (views_laid c (views_shown views_overlap (reach_of pool.now r) (views_in views.now pool.now w))) }
    ensures out_pool_after { out_pool.new ≡ write out_pool.old c.bytes (joined view_bytes (views_shown views_overlap (reach_of pool.now r) (views_in views.now pool.now w))) }
{
    let n = held(w, views.len() / 16);
    let mut to = c;
    for k in 0..n {
        to = put_kept_at(
            views,
            w.first,
            n,
            k,
            views_overlap,
            pool,
            r,
            out_views,
            out_pool,
            to,
        );
    }
    to
}

// ---- runs

// Appends what is left of a run: its row only where some of its views are left.
fn put_run_shown(
    x: RunRow,
    views: &[u64],
    pool: &[u8],
    r: Reach,
    out_runs: &mut [u64],
    out_views: &mut [u64],
    out_pool: &mut [u8],
    c: Fill,
) -> Fill
    requires x_in_bounds { (c.runs + (sum run_fill (run_piece (reach_of pool.now r) (run_in views.now pool.now x))).runs) * 3 ≤ length out_runs.old }
    requires x_in_bounds_2 { (c.views + (sum run_fill (run_piece (reach_of pool.now r) (run_in views.now pool.now x))).views) * 16 ≤ length out_views.old }
    requires x_in_bounds_3 { c.bytes + (sum run_fill (run_piece (reach_of pool.now r) (run_in views.now pool.now x))).bytes ≤ length out_pool.old }
    ensures value { result ≡ plus c (sum run_fill (run_piece (reach_of pool.now r) (run_in views.now pool.now x))) }
    ensures out_runs_after { out_runs.new ≡ write out_runs.old (c.runs * 3) (runs_laid c (run_piece (reach_of pool.now r) (run_in views.now pool.now x))) }
    ensures out_views_after { out_views.new ≡ write out_views.old (c.views * 16) (runs_views_laid c (run_piece (reach_of pool.now r) (run_in views.now pool.now x))) }
    ensures out_pool_after { out_pool.new ≡ write out_pool.old c.bytes (joined run_bytes (run_piece (reach_of pool.now r) (run_in views.now pool.now x))) }
{
    let to = filter_view_handles(views, x.views, false, pool, r, out_views, out_pool, c);
    if to.views == c.views {
        return to;
    }
    put_run_row(x.id, out_runs, c, to)
}

// Appends what is left of run `i` of a table.
fn put_run_shown_at(
    runs: &[u64],
    i: usize,
    views: &[u64],
    pool: &[u8],
    r: Reach,
    out_runs: &mut [u64],
    out_views: &mut [u64],
    out_pool: &mut [u8],
    c: Fill,
) -> Fill
    requires i_in_bounds { i < length runs.now / 3 }
    requires i_in_bounds_2 { (c.runs + (sum run_fill (run_piece (reach_of pool.now r) (run_in views.now pool.now (run_at runs.now i)))).runs) * 3 ≤ length out_runs.old }
    requires i_in_bounds_3 { (c.views + (sum run_fill (run_piece (reach_of pool.now r) (run_in views.now pool.now (run_at runs.now i)))).views) * 16 ≤ length out_views.old }
    requires i_in_bounds_4 { c.bytes + (sum run_fill (run_piece (reach_of pool.now r) (run_in views.now pool.now (run_at runs.now i)))).bytes ≤ length out_pool.old }
    ensures value { result ≡ plus c (sum run_fill (run_piece (reach_of pool.now r) (run_in views.now pool.now (run_at runs.now i)))) }
    ensures out_runs_after { out_runs.new ≡ write out_runs.old (c.runs * 3) (runs_laid c (run_piece (reach_of pool.now r) (run_in views.now pool.now (run_at runs.now i)))) }
    ensures out_views_after { out_views.new ≡ write out_views.old (c.views * 16) (runs_views_laid c (run_piece (reach_of pool.now r) (run_in views.now pool.now (run_at runs.now i)))) }
    ensures out_pool_after { out_pool.new ≡ write out_pool.old c.bytes (joined run_bytes (run_piece (reach_of pool.now r) (run_in views.now pool.now (run_at runs.now i)))) }
{
    put_run_shown(
        run_at(runs, i),
        views,
        pool,
        r,
        out_runs,
        out_views,
        out_pool,
        c,
    )
}

// Appends what is left of the runs of a window.
fn put_runs_shown(
    runs: &[u64],
    w: Window,
    views: &[u64],
    pool: &[u8],
    r: Reach,
    out_runs: &mut [u64],
    out_views: &mut [u64],
    out_pool: &mut [u8],
    c: Fill,
) -> Fill
    requires w_in_bounds { (c.runs + (sum run_fill (runs_shown (reach_of pool.now r) (runs_in runs.now views.now pool.now w))).runs) * 3 ≤ length out_runs.old }
    requires w_in_bounds_2 { (c.views + (sum run_fill (runs_shown (reach_of pool.now r) (runs_in runs.now views.now pool.now w))).views) * 16 ≤ length out_views.old }
    requires w_in_bounds_3 { c.bytes + (sum run_fill (runs_shown (reach_of pool.now r) (runs_in runs.now views.now pool.now w))).bytes ≤ length out_pool.old }
    ensures value { result ≡ plus c (sum run_fill (runs_shown (reach_of pool.now r) (runs_in runs.now views.now pool.now w))) }
    ensures out_runs_after { out_runs.new ≡ write out_runs.old (c.runs * 3) (runs_laid c (runs_shown (reach_of pool.now r) (runs_in runs.now views.now pool.now w))) }
    ensures out_views_after { out_views.new ≡ write out_views.old (c.views * 16) (runs_views_laid c (runs_shown (reach_of pool.now r) (runs_in runs.now views.now pool.now w))) }
    ensures out_pool_after { out_pool.new ≡ write out_pool.old c.bytes (joined run_bytes (runs_shown (reach_of pool.now r) (runs_in runs.now views.now pool.now w))) }
{
    let n = held(w, runs.len() / 3);
    let mut to = c;
    for k in 0..n {
        to = put_run_shown_at(
            runs,
            w.first + k,
            views,
            pool,
            r,
            out_runs,
            out_views,
            out_pool,
            to,
        );
    }
    to
}

// ---- trees

// Appends what the range `r` leaves of a tree.
// inner
pub fn project_tree_in_place(
    t: TreeRow,
    runs: &[u64],
    views: &[u64],
    pool: &[u8],
    r: Reach,
    out_runs: &mut [u64],
    out_views: &mut [u64],
    out_pool: &mut [u8],
    c: Fill,
) -> LaidTree
    requires t_in_bounds { (c.runs + (tree_fill (tree_shown (reach_of pool.now r) (tree_in runs.now views.now pool.now t))).runs) * 3 ≤ length out_runs.old }
    requires t_in_bounds_2 { (c.views + (tree_fill (tree_shown (reach_of pool.now r) (tree_in runs.now views.now pool.now t))).views) * 16 ≤ length out_views.old }
    requires t_in_bounds_3 { c.bytes + (tree_fill (tree_shown (reach_of pool.now r) (tree_in runs.now views.now pool.now t))).bytes ≤ length out_pool.old }
    ensures value { result ≡ record { tree = tree_row c (tree_shown (reach_of pool.now r) (tree_in runs.now views.now pool.now t)); past = plus c (tree_fill (tree_shown (reach_of pool.now r) (tree_in runs.now views.now pool.now t))) } }
    ensures out_runs_after { out_runs.new ≡ write out_runs.old (c.runs * 3) (tree_runs_laid c (tree_shown (reach_of pool.now r) (tree_in runs.now views.now pool.now t))) }
    ensures out_views_after { out_views.new ≡ write out_views.old (c.views * 16) (tree_views_laid c (tree_shown (reach_of pool.now r) (tree_in runs.now views.now pool.now t))) }
    ensures out_pool_after { out_pool.new ≡ write out_pool.old c.bytes (tree_bytes (tree_shown (reach_of pool.now r) (tree_in runs.now views.now pool.now t))) }
{
    let a = filter_view_handles(views, t.l0, true, pool, r, out_views, out_pool, c);
    let past = put_runs_shown(
        runs,
        t.compacted,
        views,
        pool,
        r,
        out_runs,
        out_views,
        out_pool,
        a,
    );
    let tree = tree_row(t.view, t.sst, c, a, past);
    LaidTree { tree, past }
}
