// Ranges whose end may be a prefix's successor, and what of one view they leave.
ghost use Rattle.std.specs.Prelude.{◌≡◌, true, ◌+◌, ◌/◌, ◌≤◌, ◌<◌, length};
ghost use Rattle.keys.specs.Prefix.{after};
ghost use Rattle.keys.specs.Range.{included};
ghost use Rattle.keys.specs.Pool.{part_of, edge_of, edges_of};
ghost use Rattle.keys.specs.Meet.{earlier, meet_of};
ghost use Rattle.records.specs.Row.{view_at};
ghost use Rattle.records.specs.Model.{seen_edges};
ghost use Rattle.records.specs.Decode.{view_in};
ghost use Rattle.lawful.specs.Steps.{last_bound};
ghost use Rattle.project_views.specs.Reach.{top_edge, until_of, reach_of};
ghost use Rattle.project_views.specs.Shown.{holds_none, goes as goesOf};
ghost use Rattle.project_views.specs.Steps.{as_until, plain_end, cut_by, kept_to, left_in, end_row, piece_of};

use crate::{Reach, Until};
use keys::{Bound, Range, below_successor, is_empty_between, meet, part};
use lawful::{last_bound, seen_range};
use records::{ViewRow, view_at};
use segments::start_leaves;

// A bound as an end.
fn until_of(b: Bound) -> Until
    ensures { result ≡ as_until b }
{
    match b {
        Bound::Unbounded => Until::Unbounded,
        Bound::Included(at, len) => Until::Included(at, len),
        Bound::Excluded(at, len) => Until::Excluded(at, len),
    }
}

// An end as a bound of the pool: a successor is none.
fn plain_end(u: Until) -> Bound
    ensures { result ≡ plain_end u }
{
    match u {
        Until::Unbounded => Bound::Unbounded,
        Until::Included(at, len) => Bound::Included(at, len),
        Until::Excluded(at, len) => Bound::Excluded(at, len),
        Until::Successor(_, _) => Bound::Unbounded,
    }
}

// The earlier of an end and the successor of the prefix `p`, which is not made: an end whose key is below it stays.
fn before_successor(pool: &[u8], e: Bound, from: usize, len: usize) -> Until
    ensures { until_of pool.now result ≡ earlier (edge_of pool.now e) (top_edge (after (part_of pool.now from len))) }
{
    match e {
        Bound::Unbounded => Until::Successor(from, len),
        Bound::Included(at, n) => {
            if below_successor(part(pool, at, n), part(pool, from, len)) {
                return Until::Included(at, n);
            }
            Until::Successor(from, len)
        }
        Bound::Excluded(at, n) => {
            if below_successor(part(pool, at, n), part(pool, from, len)) {
                return Until::Excluded(at, n);
            }
            Until::Successor(from, len)
        }
    }
}

// The end `e`, which is not after the bound that `u` is, before the successor that `u` is.
fn cut(pool: &[u8], e: Bound, u: Until) -> Until
    ensures { until_of pool.now result ≡ cut_by pool.now (edge_of pool.now e) u }
{
    match u {
        Until::Unbounded => until_of(e),
        Until::Included(_, _) => until_of(e),
        Until::Excluded(_, _) => until_of(e),
        Until::Successor(from, len) => before_successor(pool, e, from, len),
    }
}

// The keys in both: the later start and the earlier end.
// inner
pub fn meet_reach(pool: &[u8], a: Range, r: Reach) -> Reach
    ensures { reach_of pool.now result ≡ meet_of (edges_of pool.now a) (reach_of pool.now r) }
{
    let u = r.end;
    let e = plain_end(u);
    let m = meet(
        pool,
        a,
        Range {
            start: r.start,
            end: e,
        },
    );
    let end = cut(pool, m.end, u);
    Reach {
        start: m.start,
        end,
    }
}

// Whether no key is in it.
// inner
pub fn holds_none(pool: &[u8], r: Reach) -> bool
    ensures { result ≡ holds_none (reach_of pool.now r) }
{
    let s = r.start;
    match r.end {
        Until::Unbounded => false,
        Until::Included(at, len) => is_empty_between(pool, s, pool, Bound::Included(at, len)),
        Until::Excluded(at, len) => is_empty_between(pool, s, pool, Bound::Excluded(at, len)),
        Until::Successor(at, len) => !start_leaves(pool, s, part(pool, at, len)),
    }
}

// ---- one view

// The span of a view that ends at `end`, met with its visible range.
fn span_to(pool: &[u8], v: ViewRow, end: Bound) -> Range
    ensures { edges_of pool.now result ≡ meet_of (record { start = included (view_in pool.now v).first; end = edge_of pool.now end }) (seen_edges (view_in pool.now v).visible) }
{
    let seen = seen_range(v.visible);
    let start = Bound::Included(v.first.at, v.first.len);
    meet(pool, Range { start, end }, seen)
}

// Whether a view goes of which `seen` is to be visible: that is empty, or holds no physical key.
fn view_goes(pool: &[u8], v: ViewRow, seen: Reach) -> bool
    ensures { result ≡ goesOf (reach_of pool.now seen) (view_in pool.now v) }
{
    if holds_none(pool, seen) {
        return true;
    }
    let end = last_bound(v.last);
    let start = Bound::Included(v.first.at, v.first.len);
    let both = meet_reach(pool, Range { start, end }, seen);
    holds_none(pool, both)
}

// What the range `r` leaves of a view whose span ends at `end`.
fn kept_to(pool: &[u8], v: ViewRow, end: Bound, r: Reach) -> Option<(ViewRow, Reach)>
    ensures { left_in pool.now result ≡ kept_to (reach_of pool.now r) (view_in pool.now v) (edge_of pool.now end) }
{
    let span = span_to(pool, v, end);
    let seen = meet_reach(pool, span, r);
    if view_goes(pool, v, seen) {
        return None;
    }
    Some((v, seen))
}

// ---- view `k` of the `n` from `first` on

// Where the physical range of the view of row `i` ends.
fn last_at(views: &[u64], i: usize) -> Bound
    requires { i < length views.now / 16 }
    ensures { result ≡ last_bound (view_at views.now i).last }
{
    let v = view_at(views, i);
    last_bound(v.last)
}

// Where its span ends: in a run at the first key of the next view, if there is one, else where its physical range does.
fn end_at(views: &[u64], first: usize, n: usize, k: usize, views_overlap: bool) -> Bound
    requires { (first + n ≤ length views.now / 16) × (k < n) }
    ensures { result ≡ end_row views_overlap (λ i. view_at views.now (first + i)) n k }
{
    if views_overlap {
        return last_at(views, first + k);
    }
    if n <= k + 1 {
        return last_at(views, first + k);
    }
    let next = view_at(views, first + (k + 1));
    Bound::Excluded(next.first.at, next.first.len)
}

// What the range `r` leaves of it.
pub fn kept_at(
    views: &[u64],
    first: usize,
    n: usize,
    k: usize,
    views_overlap: bool,
    pool: &[u8],
    r: Reach,
) -> Option<(ViewRow, Reach)>
    requires { (first + n ≤ length views.now / 16) × (k < n) }
    ensures { left_in pool.now result ≡ piece_of (reach_of pool.now r) views_overlap (λ i. view_in pool.now (view_at views.now (first + i))) n k }
{
    let v = view_at(views, first + k);
    let end = end_at(views, first, n, k, views_overlap);
    kept_to(pool, v, end, r)
}
