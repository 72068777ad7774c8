// Refusals 8 and 9.
ghost use Rattle.std.specs.Prelude.{◌≡◌, ◌||◌, ◌+◌, ◌-◌, ◌/◌, ◌≤◌, ◌<◌, length};
ghost use Rattle.keys.specs.Prefix.{under_of, after, grown_top};
ghost use Rattle.keys.specs.Pool.{edge_of, edges_of};
ghost use Rattle.records.specs.Decode.{bytes_in};
ghost use Rattle.lawful.specs.Steps.{prefix_at};
ghost use Rattle.segments.specs.Prefixes.{prefixes_in};
ghost use Rattle.project_ranges.specs.Own.{resolved, is_contained, range_fault, tree_fault, fault_from, own_fault};
ghost use Rattle.project_ranges.specs.Args.{config_in};
ghost use Rattle.project_ranges.specs.Steps.{start_stays, end_stays, is_top, is_none};

use crate::ProjectionConfig;
use crate::ranges_owned::{canonicalize_segment_range, own_at};
use crate::what_is_asked::passes;
use keys::{Bound, Range, below_successor, compare, part, start_order, successor_of};
use project_views::holds_none;
use records::{Place, Refusal, segment_at};
use std::cmp::Ordering;
use tables::{Window, held};

// Whether the key `k` is the first `n` bytes of `p`, the last of them one more.
fn is_grown(k: &[u8], p: &[u8], n: usize) -> bool
    requires { (0 < n) × (n ≤ length p.now) }
    ensures { result ≡ is_top k.now (grown_top p.now (Some n)) }
{
    if k.len() != n {
        return false;
    }
    let i = n - 1;
    if k[i] <= p[i] {
        return false;
    }
    if 1 < k[i] - p[i] {
        return false;
    }
    compare(part(k, 0, i), part(p, 0, i)).is_eq()
}

// Whether the key `k` is the successor of `p`, which is not made.
fn is_successor(k: &[u8], p: &[u8]) -> bool
    ensures { result ≡ is_top k.now (after p.now) }
{
    match successor_of(p) {
        None => false,
        Some(n) => is_grown(k, p, n),
    }
}

// An excluded end may be the successor itself: no key of the prefix reaches it.
fn up_to_successor(k: &[u8], p: &[u8]) -> bool
    ensures { result ≡ (under_of k.now (after p.now) || is_top k.now (after p.now)) }
{
    if below_successor(k, p) {
        return true;
    }
    is_successor(k, p)
}

// Whether the start `s` stays where it is met with the range of the prefix.
fn start_stays(pool: &[u8], s: Bound, prefix: Place) -> bool
    ensures { result ≡ start_stays (bytes_in pool.now prefix) (edge_of pool.now s) }
{
    match start_order(pool, s, pool, Bound::Included(prefix.at, prefix.len)) {
        Ordering::Less => false,
        Ordering::Equal => true,
        Ordering::Greater => true,
    }
}

// Whether the end `e` stays, which is the prefix's own where it is unbounded.
fn end_stays(pool: &[u8], e: Bound, prefix: Place) -> bool
    ensures { result ≡ end_stays (bytes_in pool.now prefix) (edge_of pool.now e) }
{
    match e {
        Bound::Unbounded => true,
        Bound::Included(at, len) => {
            below_successor(part(pool, at, len), part(pool, prefix.at, prefix.len))
        }
        Bound::Excluded(at, len) => {
            up_to_successor(part(pool, at, len), part(pool, prefix.at, prefix.len))
        }
    }
}

// Bounds are asked and not keys: an end that the prefix's range would cut is outside, even where no key is cut off.
fn is_contained(pool: &[u8], prefix: Place, r: Range) -> bool
    ensures { result ≡ is_contained (bytes_in pool.now prefix) (resolved (bytes_in pool.now prefix) (edges_of pool.now r)) }
{
    let q = canonicalize_segment_range(prefix, r);
    let s = q.start;
    let e = r.end;
    if start_stays(pool, s, prefix) {
        return end_stays(pool, e, prefix);
    }
    false
}

// What is at fault with the own range `r` of the tree at a place.
fn range_fault(pool: &[u8], prefix: Place, place: usize, r: Range) -> Option<Refusal>
    ensures { result ≡ range_fault place (bytes_in pool.now prefix) (edges_of pool.now r) }
{
    let q = canonicalize_segment_range(prefix, r);
    if holds_none(pool, q) {
        return Some(Refusal::OwnEmpty(place));
    }
    if is_contained(pool, prefix, r) {
        return None;
    }
    Some(Refusal::OwnOutside(place))
}

// A tree that the filter drops is not examined further.
fn tree_fault(
    pool: &[u8],
    prefix: Place,
    place: usize,
    c: ProjectionConfig,
    own: &[u64],
) -> Option<Refusal>
    ensures { result ≡ tree_fault (config_in pool.now c own.now) place (bytes_in pool.now prefix) }
{
    let f = c.segment_filter;
    if !passes(f, place) {
        return None;
    }
    if c.segment_projection {
        let r = own_at(own, place);
        return range_fault(pool, prefix, place, r);
    }
    None
}

// The same of the segment of row `i`.
fn segment_fault(
    segments: &[u64],
    pool: &[u8],
    i: usize,
    place: usize,
    c: ProjectionConfig,
    own: &[u64],
) -> Option<Refusal>
    requires { i < length segments.now / 12 }
    ensures { result ≡ tree_fault (config_in pool.now c own.now) place (prefix_at segments.now pool.now i) }
{
    let s = segment_at(segments, i);
    let prefix = s.prefix;
    tree_fault(pool, prefix, place, c, own)
}

// Of the segments alone, whose places begin with 1.
fn segments_fault(
    segments: &[u64],
    pool: &[u8],
    w: Window,
    c: ProjectionConfig,
    own: &[u64],
) -> Option<Refusal>
    ensures { result ≡ fault_from (config_in pool.now c own.now) 1 (prefixes_in segments.now pool.now w) }
{
    let n = held(w, segments.len() / 12);
    for k in 0..n {
        if let Some(fault) = segment_fault(segments, pool, w.first + k, k + 1, c, own) {
            return Some(fault);
        }
    }
    None
}

// The own range that is at fault, of the unsegmented tree and the segments of a window: the one at the lowest place.
// inner
pub fn own_fault(
    segments: &[u64],
    pool: &[u8],
    w: Window,
    c: ProjectionConfig,
    own: &[u64],
) -> Option<Refusal>
    ensures { result ≡ own_fault (config_in pool.now c own.now) (prefixes_in segments.now pool.now w) }
{
    if let Some(fault) = tree_fault(pool, Place { at: 0, len: 0 }, 0, c, own) {
        return Some(fault);
    }
    segments_fault(segments, pool, w, c, own)
}
