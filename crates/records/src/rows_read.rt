// What a row says. Row `i` is one of the table's; an unknown code reads as the last case, and the lawful check
// refuses it.
ghost use Rattle.std.specs.Prelude.{◌≡◌, ◌+◌, ◌*◌, ◌/◌, ◌≤◌, ◌<◌, length};
ghost use Rattle.records.specs.Row.{place_at, window_at, bound_of, bound_at, last_at, visible_at, mark_at, view_at, run_at, tree_at, segment_at, borrow_at, id_at};

use crate::{BorrowRow, Place, RunRow, SegmentRow, TreeRow, ViewRow};
use ids::{Id, SstId, Uuid, ViewId};
use keys::{Bound, Range};
use tables::{Window, ix};

// inner
pub fn place_at(t: &[u64], b: usize) -> Place
    requires { b + 2 ≤ length t.now }
    ensures { result ≡ place_at t.now b }
{
    Place {
        at: ix(t[b]),
        len: ix(t[b + 1]),
    }
}

// inner
pub fn window_at(t: &[u64], b: usize) -> Window
    requires { b + 2 ≤ length t.now }
    ensures { result ≡ window_at t.now b }
{
    Window {
        first: ix(t[b]),
        count: ix(t[b + 1]),
    }
}

fn bound_of(code: u64, from: usize, len: usize) -> Bound
    ensures { result ≡ bound_of code from len }
{
    match code {
        0 => Bound::Unbounded,
        1 => Bound::Included(from, len),
        _ => Bound::Excluded(from, len),
    }
}

// inner
pub fn bound_at(t: &[u64], b: usize) -> Bound
    requires { b + 3 ≤ length t.now }
    ensures { result ≡ bound_at t.now b }
{
    bound_of(t[b], ix(t[b + 1]), ix(t[b + 2]))
}

fn last_at(t: &[u64], b: usize) -> Option<Place>
    requires { b + 3 ≤ length t.now }
    ensures { result ≡ last_at t.now b }
{
    let p = place_at(t, b + 1);
    match t[b] {
        0 => None,
        _ => Some(p),
    }
}

fn visible_at(t: &[u64], b: usize) -> Option<Range>
    requires { b + 7 ≤ length t.now }
    ensures { result ≡ visible_at t.now b }
{
    let start = bound_at(t, b + 1);
    let end = bound_at(t, b + 4);
    match t[b] {
        0 => None,
        _ => Some(Range { start, end }),
    }
}

fn mark_at<I: Id>(t: &[u64], b: usize) -> Option<I>
    requires { b + 3 ≤ length t.now }
    ensures { result ≡ mark_at I.of t.now b }
{
    let x = I::of(t[b + 1], t[b + 2]);
    match t[b] {
        0 => None,
        _ => Some(x),
    }
}

// inner
#[tactic(auto, unfolding(crate::specs::Row::view_at))]
pub fn view_at(t: &[u64], i: usize) -> ViewRow
    requires { i < length t.now / 16 }
    ensures { result ≡ view_at t.now i }
{
    let b = i * 16;
    ViewRow {
        id: ViewId(t[b], t[b + 1]),
        sst: SstId(t[b + 2], t[b + 3]),
        first: place_at(t, b + 4),
        last: last_at(t, b + 6),
        visible: visible_at(t, b + 9),
    }
}

// inner
#[tactic(auto, unfolding(crate::specs::Row::run_at))]
pub fn run_at(t: &[u64], i: usize) -> RunRow
    requires { i < length t.now / 3 }
    ensures { result ≡ run_at t.now i }
{
    let b = i * 3;
    RunRow {
        id: t[b],
        views: window_at(t, b + 1),
    }
}

// inner
#[tactic(auto, unfolding(crate::specs::Row::tree_at))]
pub fn tree_at(t: &[u64], b: usize) -> TreeRow
    requires { b + 10 ≤ length t.now }
    ensures { result ≡ tree_at t.now b }
{
    TreeRow {
        view: mark_at(t, b),
        sst: mark_at(t, b + 3),
        l0: window_at(t, b + 6),
        compacted: window_at(t, b + 8),
    }
}

// inner
#[tactic(auto, unfolding(crate::specs::Row::segment_at))]
pub fn segment_at(t: &[u64], i: usize) -> SegmentRow
    requires { i < length t.now / 12 }
    ensures { result ≡ segment_at t.now i }
{
    let b = i * 12;
    SegmentRow {
        prefix: place_at(t, b),
        tree: tree_at(t, b + 2),
    }
}

// inner
#[tactic(auto, unfolding(crate::specs::Row::borrow_at))]
pub fn borrow_at(t: &[u64], i: usize) -> BorrowRow
    requires { i < length t.now / 9 }
    ensures { result ≡ borrow_at t.now i }
{
    let b = i * 9;
    BorrowRow {
        path: place_at(t, b),
        source: Uuid(t[b + 2], t[b + 3]),
        fin: mark_at(t, b + 4),
        ids: window_at(t, b + 7),
    }
}

// inner
#[tactic(auto, unfolding(crate::specs::Row::id_at))]
pub fn id_at(t: &[u64], i: usize) -> SstId
    requires { i < length t.now / 2 }
    ensures { result ≡ id_at t.now i }
{
    let b = i * 2;
    SstId(t[b], t[b + 1])
}
