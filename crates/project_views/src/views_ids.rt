// The SST ids of the views that are left.
ghost use Rattle.std.specs.Prelude.{◌≡◌, true, ◌+◌, ◌*◌, ◌/◌, ◌≤◌, ◌<◌, length};
ghost use Rattle.tables.specs.Layout.{write, joined};
ghost use Rattle.records.specs.Row.{view_at, run_at};
ghost use Rattle.records.specs.Decode.{view_in, views_in, run_in, runs_in, tree_in};
ghost use Rattle.records.specs.Fill.{plus, ids};
ghost use Rattle.records.specs.Layout.{ids_laid};
ghost use Rattle.measure.specs.Within.{run_views, tree_views, ids_used};
ghost use Rattle.project_views.specs.Reach.{reach_of};
ghost use Rattle.project_views.specs.Shown.{run_shown, runs_shown, tree_shown};
ghost use Rattle.project_views.specs.Steps.{ids_left, piece_of, views_shown};

use crate::Reach;
use crate::view_ranges::kept_at;
use emit::put_id;
use records::{Fill, TreeRow, ViewRow, run_at};
use tables::{Window, held};

// Appends that of a view.
fn put_kept_id(k: Option<(ViewRow, Reach)>, out_ids: &mut [u64], c: Fill) -> Fill
    requires { (c.ids + length (ids_left k)) * 2 ≤ length out_ids.old }
    ensures value { result ≡ plus c (ids (length (ids_left k))) }
    ensures out_ids_after { out_ids.new ≡ write out_ids.old (c.ids * 2) (ids_laid (ids_left k)) }
{
    match k {
        None => c,
        Some((v, _)) => {
            let sst = v.sst;
            put_id(sst, out_ids, c)
        }
    }
}

// Appends that of view `k` of the `n` from `first` on.
fn put_kept_id_at(
    views: &[u64],
    first: usize,
    n: usize,
    k: usize,
    views_overlap: bool,
    pool: &[u8],
    r: Reach,
    out_ids: &mut [u64],
    c: Fill,
) -> Fill
    requires n_in_bounds { (first + n ≤ length views.now / 16) × (k < n) }
    requires k_in_bounds { (c.ids + length (ids_used (piece_of (reach_of pool.now r) views_overlap (λ i. view_in pool.now (view_at views.now (first + i))) n k))) * 2 ≤ length out_ids.old }
    ensures value { result ≡ plus c (ids (length (ids_used (piece_of (reach_of pool.now r) views_overlap (λ i. view_in pool.now (view_at views.now (first + i))) n k)))) }
    ensures out_ids_after { out_ids.new ≡ write out_ids.old (c.ids * 2) (ids_laid (ids_used (piece_of (reach_of pool.now r) views_overlap (λ i. view_in pool.now (view_at views.now (first + i))) n k))) }
{
    let kept = kept_at(views, first, n, k, views_overlap, pool, r);
    put_kept_id(kept, out_ids, c)
}

// Appends those of the views of a window.
fn put_views_ids(
    views: &[u64],
    w: Window,
    views_overlap: bool,
    pool: &[u8],
    r: Reach,
    out_ids: &mut [u64],
    c: Fill,
) -> Fill
    requires { (c.ids + length (ids_used (views_shown views_overlap (reach_of pool.now r) (views_in views.now pool.now w)))) * 2 ≤ length out_ids.old }
    ensures value { result ≡ plus c (ids (length (ids_used (views_shown views_overlap (reach_of pool.now r) (views_in views.now pool.now w))))) }
    ensures out_ids_after { out_ids.new ≡ write out_ids.old (c.ids * 2) (ids_laid (ids_used (views_shown views_overlap (reach_of pool.now r) (views_in views.now pool.now w)))) }
{
    let n = held(w, views.len() / 16);
    let mut to = c;
    for k in 0..n {
        to = put_kept_id_at(views, w.first, n, k, views_overlap, pool, r, out_ids, to);
    }
    to
}

// Appends those of the views of run `i` of a table.
fn put_run_ids_at(
    runs: &[u64],
    i: usize,
    views: &[u64],
    pool: &[u8],
    r: Reach,
    out_ids: &mut [u64],
    c: Fill,
) -> Fill
    requires i_in_bounds { i < length runs.now / 3 }
    requires i_in_bounds_2 { (c.ids + length (ids_used (run_shown (reach_of pool.now r) (run_in views.now pool.now (run_at runs.now i)).views))) * 2 ≤ length out_ids.old }
    ensures value { result ≡ plus c (ids (length (ids_used (run_shown (reach_of pool.now r) (run_in views.now pool.now (run_at runs.now i)).views)))) }
    ensures out_ids_after { out_ids.new ≡ write out_ids.old (c.ids * 2) (ids_laid (ids_used (run_shown (reach_of pool.now r) (run_in views.now pool.now (run_at runs.now i)).views))) }
{
    let x = run_at(runs, i);
    put_views_ids(views, x.views, false, pool, r, out_ids, c)
}

// Appends those of the views of the runs of a window.
fn put_runs_ids(
    runs: &[u64],
    w: Window,
    views: &[u64],
    pool: &[u8],
    r: Reach,
    out_ids: &mut [u64],
    c: Fill,
) -> Fill
    requires { (c.ids + length (ids_used (joined run_views (runs_shown (reach_of pool.now r) (runs_in runs.now views.now pool.now w))))) * 2 ≤ length out_ids.old }
    ensures value { result ≡ plus c (ids (length (ids_used (joined run_views (runs_shown (reach_of pool.now r) (runs_in runs.now views.now pool.now w)))))) }
    ensures out_ids_after { out_ids.new ≡ write out_ids.old (c.ids * 2) (ids_laid (ids_used (joined run_views (runs_shown (reach_of pool.now r) (runs_in runs.now views.now pool.now w))))) }
{
    let n = held(w, runs.len() / 3);
    let mut to = c;
    for k in 0..n {
        to = put_run_ids_at(runs, w.first + k, views, pool, r, out_ids, to);
    }
    to
}

// Lists the SST ids of the views that the range `r` leaves of a tree, in record order.
// inner
pub fn ids_shown(
    t: TreeRow,
    runs: &[u64],
    views: &[u64],
    pool: &[u8],
    r: Reach,
    out_ids: &mut [u64],
    c: Fill,
) -> Fill
    requires { (c.ids + length (ids_used (tree_views (tree_shown (reach_of pool.now r) (tree_in runs.now views.now pool.now t))))) * 2 ≤ length out_ids.old }
    ensures value { result ≡ plus c (ids (length (ids_used (tree_views (tree_shown (reach_of pool.now r) (tree_in runs.now views.now pool.now t)))))) }
    ensures out_ids_after { out_ids.new ≡ write out_ids.old (c.ids * 2) (ids_laid (ids_used (tree_views (tree_shown (reach_of pool.now r) (tree_in runs.now views.now pool.now t))))) }
{
    let to = put_views_ids(views, t.l0, true, pool, r, out_ids, c);
    put_runs_ids(runs, t.compacted, views, pool, r, out_ids, to)
}
