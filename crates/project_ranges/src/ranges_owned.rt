// The table of own ranges, refusal 2, and an own range with its unbounded ends replaced.
ghost use Rattle.std.specs.Prelude.{◌≡◌, ◌+◌, ◌/◌, ◌≤◌, ◌<◌, length};
ghost use Rattle.project_ranges.specs.Args.{own_row, global_over, own_row_over, some_over, counted, config_over};
ghost use Rattle.project_ranges.specs.Steps.{start_or, end_or, resolved_row, own_at};

use crate::ProjectionConfig;
use keys::{Bound, Range};
use project_views::{Reach, Until};
use records::{Place, bound_at};
use segments::range_over;

// A row's words; a code above the named ones reads as the last, and refusal 2 is given for it.
fn own_row(own: &[u64], i: usize) -> Range
    requires { i < length own.now / 6 }
    ensures { result ≡ own_row own.now i }
{
    let b = i * 6;
    let start = bound_at(own, b);
    let end = bound_at(own, b + 3);
    Range { start, end }
}

// The own range of the tree at a place; unbounded where the table has none.
pub fn own_at(own: &[u64], place: usize) -> Range
    ensures { result ≡ own_at own.now place }
{
    if place < own.len() / 6 {
        return own_row(own, place);
    }
    Range {
        start: Bound::Unbounded,
        end: Bound::Unbounded,
    }
}

// ---- refusal 2

fn global_over(most: usize, n: usize, g: Option<Range>) -> bool
    ensures { result ≡ global_over most n g }
{
    match g {
        None => false,
        Some(r) => range_over(most, n, r),
    }
}

fn row_over(most: usize, n: usize, own: &[u64], i: usize) -> bool
    requires { i < length own.now / 6 }
    ensures { result ≡ own_row_over most n own.now i }
{
    let b = i * 6;
    if 2 < own[b] {
        return true;
    }
    if 2 < own[b + 3] {
        return true;
    }
    let r = own_row(own, i);
    range_over(most, n, r)
}

// How many rows count: one for the unsegmented tree and one for each segment.
fn rows_counted(own: &[u64], segments: usize) -> usize
    ensures { result ≡ counted own.now segments }
{
    let rows = own.len() / 6;
    if rows <= segments {
        return rows;
    }
    segments + 1
}

// Whether one of the rows that count is over its limit; rows beyond them are not read.
fn own_over(most: usize, n: usize, segments: usize, own: &[u64]) -> bool
    ensures { result ≡ some_over most n own.now (counted own.now segments) }
{
    let rows = rows_counted(own, segments);
    for k in 0..rows {
        if row_over(most, n, own, k) {
            return true;
        }
    }
    false
}

// Whether a bound of an argument is over its limit, in a pool of `n` bytes, where the manifest has so many segments.
// inner
pub fn config_over(most: usize, n: usize, segments: usize, c: ProjectionConfig, own: &[u64]) -> bool
    ensures { result ≡ config_over most n segments c own.now }
{
    let g = c.global_range;
    if global_over(most, n, g) {
        return true;
    }
    if c.segment_projection {
        return own_over(most, n, segments, own);
    }
    false
}

// ---- an own range with its unbounded ends replaced

fn start_or(b: Bound, other: Bound) -> Bound
    ensures { result ≡ start_or b other }
{
    match b {
        Bound::Unbounded => other,
        Bound::Included(at, len) => Bound::Included(at, len),
        Bound::Excluded(at, len) => Bound::Excluded(at, len),
    }
}

pub fn end_or(b: Bound, other: Until) -> Until
    ensures { result ≡ end_or b other }
{
    match b {
        Bound::Unbounded => other,
        Bound::Included(at, len) => Until::Included(at, len),
        Bound::Excluded(at, len) => Until::Excluded(at, len),
    }
}

// Its unbounded ends are those of its prefix. The successor is not made: it may stand in no pool.
pub fn canonicalize_segment_range(prefix: Place, r: Range) -> Reach
    ensures { result ≡ resolved_row prefix r }
{
    let s = r.start;
    let e = r.end;
    let start = start_or(s, Bound::Included(prefix.at, prefix.len));
    let end = end_or(e, Until::Successor(prefix.at, prefix.len));
    Reach { start, end }
}
