// A view's keys, and views: each key is laid at the end of the pool so far, and `past` is where the next goes.
ghost use Rattle.std.specs.Prelude.{◌≡◌, ◌+◌, ◌-◌, ◌*◌, ◌/◌, ◌≤◌, ◌<◌, length};
ghost use Rattle.keys.specs.Pool.{part_of, edge_of};
ghost use Rattle.tables.specs.Layout.{write, joined};
ghost use Rattle.records.specs.Row.{view_at};
ghost use Rattle.records.specs.Decode.{last_in, seen_in, view_in, views_in};
ghost use Rattle.records.specs.Fill.{plus, sum, segments, runs, last_keys, edge_keys, seen_keys, view_fill};
ghost use Rattle.records.specs.Words.{view_words};
ghost use Rattle.records.specs.Layout.{run, last_row, bound_row, visible_row, view_row, view_bytes, views_laid};

use crate::{LaidBound, LaidLast, LaidView, LaidVisible};
use keys::{Bound, Range, part};
use records::{Fill, Place, ViewRow, view_at, view_words};
use tables::{Window, held, put};

// The `len` bytes from `from` on; none where they lie outside.
pub fn put_part(from: usize, len: usize, pool: &[u8], out_pool: &mut [u8], at: usize) -> usize
    requires { at + length (part_of pool.now from len) ≤ length out_pool.old }
    ensures value { result ≡ at + length (part_of pool.now from len) }
    ensures out_pool_after { out_pool.new ≡ write out_pool.old at (part_of pool.now from len) }
{
    put(part(pool, from, len), out_pool, at)
}

fn put_last(l: Option<Place>, pool: &[u8], out_pool: &mut [u8], at: usize) -> LaidLast
    requires { at + length (run (last_keys (last_in pool.now l))) ≤ length out_pool.old }
    ensures value { result ≡ record { last = last_row at (last_in pool.now l); past = at + length (run (last_keys (last_in pool.now l))) } }
    ensures out_pool_after { out_pool.new ≡ write out_pool.old at (run (last_keys (last_in pool.now l))) }
{
    match l {
        None => LaidLast {
            last: None,
            past: at,
        },
        Some(p) => {
            let past = put_part(p.at, p.len, pool, out_pool, at);
            LaidLast {
                last: Some(Place { at, len: past - at }),
                past,
            }
        }
    }
}

fn put_bound(b: Bound, pool: &[u8], out_pool: &mut [u8], at: usize) -> LaidBound
    requires { at + length (run (edge_keys (edge_of pool.now b))) ≤ length out_pool.old }
    ensures value { result ≡ record { bound = bound_row at (edge_of pool.now b); past = at + length (run (edge_keys (edge_of pool.now b))) } }
    ensures out_pool_after { out_pool.new ≡ write out_pool.old at (run (edge_keys (edge_of pool.now b))) }
{
    match b {
        Bound::Unbounded => LaidBound {
            bound: Bound::Unbounded,
            past: at,
        },
        Bound::Included(from, len) => {
            let past = put_part(from, len, pool, out_pool, at);
            LaidBound {
                bound: Bound::Included(at, past - at),
                past,
            }
        }
        Bound::Excluded(from, len) => {
            let past = put_part(from, len, pool, out_pool, at);
            LaidBound {
                bound: Bound::Excluded(at, past - at),
                past,
            }
        }
    }
}

fn put_visible(x: Option<Range>, pool: &[u8], out_pool: &mut [u8], at: usize) -> LaidVisible
    requires { at + length (run (seen_keys (seen_in pool.now x))) ≤ length out_pool.old }
    ensures value { result ≡ record { visible = visible_row at (seen_in pool.now x); past = at + length (run (seen_keys (seen_in pool.now x))) } }
    ensures out_pool_after { out_pool.new ≡ write out_pool.old at (run (seen_keys (seen_in pool.now x))) }
{
    match x {
        None => LaidVisible {
            visible: None,
            past: at,
        },
        Some(r) => {
            let s = r.start;
            let e = r.end;
            let start = put_bound(s, pool, out_pool, at);
            let end = put_bound(e, pool, out_pool, start.past);
            let from = start.bound;
            let to = end.bound;
            LaidVisible {
                visible: Some(Range {
                    start: from,
                    end: to,
                }),
                past: end.past,
            }
        }
    }
}

// The keys of a view laid from `at` on, and the row that names them there.
fn put_keys(v: ViewRow, pool: &[u8], out_pool: &mut [u8], at: usize) -> LaidView
    requires { at + length (view_bytes (view_in pool.now v)) ≤ length out_pool.old }
    ensures value { result ≡ record { view = view_row at (view_in pool.now v); past = at + length (view_bytes (view_in pool.now v)) } }
    ensures out_pool_after { out_pool.new ≡ write out_pool.old at (view_bytes (view_in pool.now v)) }
{
    let id = v.id;
    let sst = v.sst;
    let l = v.last;
    let x = v.visible;
    let first = put_part(v.first.at, v.first.len, pool, out_pool, at);
    let last = put_last(l, pool, out_pool, first);
    let seen = put_visible(x, pool, out_pool, last.past);
    let known = last.last;
    let visible = seen.visible;
    LaidView {
        view: ViewRow {
            id,
            sst,
            first: Place {
                at,
                len: first - at,
            },
            last: known,
            visible,
        },
        past: seen.past,
    }
}

// ---- views

// Appends a view.
// inner
pub fn put_view(
    v: ViewRow,
    pool: &[u8],
    out_views: &mut [u64],
    out_pool: &mut [u8],
    c: Fill,
) -> Fill
    requires v_in_bounds { (c.views + (view_fill (view_in pool.now v)).views) * 16 ≤ length out_views.old }
    requires v_in_bounds_2 { c.bytes + (view_fill (view_in pool.now v)).bytes ≤ length out_pool.old }
    ensures value { result ≡ plus c (view_fill (view_in pool.now v)) }
    ensures out_views_after { out_views.new ≡ write out_views.old (c.views * 16) (view_words (view_row c.bytes (view_in pool.now v))) }
    ensures out_pool_after { out_pool.new ≡ write out_pool.old c.bytes (view_bytes (view_in pool.now v)) }
{
    let laid = put_keys(v, pool, out_pool, c.bytes);
    let view = laid.view;
    let row = view_words(view);
    put(&row, out_views, c.views * 16);
    Fill {
        segments: c.segments,
        views: c.views + 1,
        runs: c.runs,
        borrows: c.borrows,
        ids: c.ids,
        bytes: laid.past,
    }
}

// Appends view `i` of a table.
fn put_view_at(
    views: &[u64],
    i: usize,
    pool: &[u8],
    out_views: &mut [u64],
    out_pool: &mut [u8],
    c: Fill,
) -> Fill
    requires i_in_bounds { i < length views.now / 16 }
    requires i_in_bounds_2 { (c.views + (view_fill (view_in pool.now (view_at views.now i))).views) * 16 ≤ length out_views.old }
    requires i_in_bounds_3 { c.bytes + (view_fill (view_in pool.now (view_at views.now i))).bytes ≤ length out_pool.old }
    ensures value { result ≡ plus c (view_fill (view_in pool.now (view_at views.now i))) }
    ensures out_views_after { out_views.new ≡ write out_views.old (c.views * 16) (view_words (view_row c.bytes (view_in pool.now (view_at views.now i)))) }
    ensures out_pool_after { out_pool.new ≡ write out_pool.old c.bytes (view_bytes (view_in pool.now (view_at views.now i))) }
{
    put_view(view_at(views, i), pool, out_views, out_pool, c)
}

// Appends the views of a window.
// inner
pub fn put_views(
    views: &[u64],
    w: Window,
    pool: &[u8],
    out_views: &mut [u64],
    out_pool: &mut [u8],
    c: Fill,
) -> Fill
    requires w_in_bounds { (c.views + (sum view_fill (views_in views.now pool.now w)).views) * 16 ≤ length out_views.old }
    requires w_in_bounds_2 { c.bytes + (sum view_fill (views_in views.now pool.now w)).bytes ≤ length out_pool.old }
    ensures value { result ≡ plus c (sum view_fill (views_in views.now pool.now w)) }
    ensures out_views_after { out_views.new ≡ write out_views.old (c.views * 16) (views_laid c (views_in views.now pool.now w)) }
    ensures out_pool_after { out_pool.new ≡ write out_pool.old c.bytes (joined view_bytes (views_in views.now pool.now w)) }
{
    let n = held(w, views.len() / 16);
    let first = w.first;
    let mut to = c;
    for k in 0..n {
        to = put_view_at(views, first + k, pool, out_views, out_pool, to);
    }
    to
}
