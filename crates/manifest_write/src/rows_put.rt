// Views and runs, trees and segments, borrows. Each list has its own loop: one loop for all would take the writer of a
// record as a closure, and be no plainer.
ghost use Rattle.std.specs.Prelude.{◌+◌, ◌/◌, ◌<◌, length};
ghost use Rattle.records.specs.Row.{view_at, run_at, segment_at, borrow_at, id_at};
ghost use Rattle.records.specs.Decode.{view_in, views_in, run_in, runs_in, tree_in, segment_in, segments_in, ids_in, borrow_in, borrows_in};
ghost use Rattle.manifest_write.specs.Bytes.{list_bytes, sst_id_bytes, view_bytes, run_bytes, tree_bytes, segment_bytes, segments_bytes, borrow_bytes};
ghost use Rattle.manifest_write.specs.Wrote.{Wrote};

use crate::values_put::{
    add_array, add_bin, add_head, add_id, add_mark, add_optional_bin, add_visible,
};
use msgpack_put::Head;
use records::{
    BorrowRow, RunRow, SegmentRow, TreeRow, ViewRow, borrow_at, id_at, run_at, segment_at, view_at,
};
use tables::{Window, held};

fn add_view(v: ViewRow, pool: &[u8], out: &mut [u8], at: usize) -> usize
    ensures { Wrote out.old at (view_bytes (view_in pool.now v)) result out.new }
{
    let p0 = add_array(5, out, at);
    let p1 = add_id(v.id, out, p0);
    let p2 = add_id(v.sst, out, p1);
    let p3 = add_bin(pool, v.first.at, v.first.len, out, p2);
    let p4 = add_optional_bin(v.last, pool, out, p3);
    add_visible(v.visible, pool, out, p4)
}

fn add_views(views: &[u64], w: Window, pool: &[u8], out: &mut [u8], at: usize) -> usize
    ensures { Wrote out.old at (list_bytes view_bytes (views_in views.now pool.now w)) result out.new }
{
    let n = held(w, views.len() / 16);
    let mut p = add_array(n, out, at);
    for k in 0..n {
        p = add_view(view_at(views, w.first + k), pool, out, p);
    }
    p
}

fn add_run(x: RunRow, views: &[u64], pool: &[u8], out: &mut [u8], at: usize) -> usize
    ensures { Wrote out.old at (run_bytes (run_in views.now pool.now x)) result out.new }
{
    let p = add_array(2, out, at);
    let q = add_head(Head::Uint(x.id), out, p);
    add_views(views, x.views, pool, out, q)
}

fn add_runs(runs: &[u64], w: Window, views: &[u64], pool: &[u8], out: &mut [u8], at: usize) -> usize
    ensures { Wrote out.old at (list_bytes run_bytes (runs_in runs.now views.now pool.now w)) result out.new }
{
    let n = held(w, runs.len() / 3);
    let mut p = add_array(n, out, at);
    for k in 0..n {
        p = add_run(run_at(runs, w.first + k), views, pool, out, p);
    }
    p
}

// ---- trees and segments

pub fn add_tree(
    t: TreeRow,
    runs: &[u64],
    views: &[u64],
    pool: &[u8],
    out: &mut [u8],
    at: usize,
) -> usize
    ensures { Wrote out.old at (tree_bytes (tree_in runs.now views.now pool.now t)) result out.new }
{
    let p0 = add_array(4, out, at);
    let p1 = add_mark(t.view, out, p0);
    let p2 = add_mark(t.sst, out, p1);
    let p3 = add_views(views, t.l0, pool, out, p2);
    add_runs(runs, t.compacted, views, pool, out, p3)
}

fn add_segment(
    s: SegmentRow,
    runs: &[u64],
    views: &[u64],
    pool: &[u8],
    out: &mut [u8],
    at: usize,
) -> usize
    ensures { Wrote out.old at (segment_bytes (segment_in runs.now views.now pool.now s)) result out.new }
{
    let p = add_array(2, out, at);
    let q = add_bin(pool, s.prefix.at, s.prefix.len, out, p);
    add_tree(s.tree, runs, views, pool, out, q)
}

pub fn add_segments(
    segments: &[u64],
    w: Window,
    runs: &[u64],
    views: &[u64],
    pool: &[u8],
    out: &mut [u8],
    at: usize,
) -> usize
    ensures { Wrote out.old at (segments_bytes (segments_in segments.now runs.now views.now pool.now w)) result out.new }
{
    let n = held(w, segments.len() / 12);
    let mut p = add_array(n, out, at);
    for k in 0..n {
        p = add_segment(segment_at(segments, w.first + k), runs, views, pool, out, p);
    }
    p
}

// ---- borrows

fn add_ids(ids: &[u64], w: Window, out: &mut [u8], at: usize) -> usize
    ensures { Wrote out.old at (list_bytes sst_id_bytes (ids_in ids.now w)) result out.new }
{
    let n = held(w, ids.len() / 2);
    let mut p = add_array(n, out, at);
    for k in 0..n {
        p = add_id(id_at(ids, w.first + k), out, p);
    }
    p
}

fn add_borrow(b: BorrowRow, ids: &[u64], pool: &[u8], out: &mut [u8], at: usize) -> usize
    ensures { Wrote out.old at (borrow_bytes (borrow_in ids.now pool.now b)) result out.new }
{
    let p0 = add_array(4, out, at);
    let p1 = add_bin(pool, b.path.at, b.path.len, out, p0);
    let p2 = add_id(b.source, out, p1);
    let p3 = add_mark(b.fin, out, p2);
    add_ids(ids, b.ids, out, p3)
}

pub fn add_borrows(
    borrows: &[u64],
    w: Window,
    ids: &[u64],
    pool: &[u8],
    out: &mut [u8],
    at: usize,
) -> usize
    ensures { Wrote out.old at (list_bytes borrow_bytes (borrows_in borrows.now ids.now pool.now w)) result out.new }
{
    let n = held(w, borrows.len() / 9);
    let mut p = add_array(n, out, at);
    for k in 0..n {
        p = add_borrow(borrow_at(borrows, w.first + k), ids, pool, out, p);
    }
    p
}
