// Lookup, place-finding and selection over a manifest's segments.
#![tactic(auto)]

ghost use Rattle.std.specs.Prelude.{◌≡◌, not, true, ◌+◌, ◌/◌, ◌<◌, length};
ghost use Rattle.keys.specs.Key.{less_of};
ghost use Rattle.keys.specs.Prefix.{under_of, after};
ghost use Rattle.measure.specs.Tests.{chain};
ghost use Rattle.keys.specs.Range.{low};
ghost use Rattle.keys.specs.Pool.{edge_of, edges_of};
ghost use Rattle.records.specs.Decode.{lent_of};
ghost use Rattle.lawful.specs.Steps.{prefix_at};
ghost use Rattle.segments.specs.Prefixes.{prefixes_in};
ghost use Rattle.segments.specs.Refuses.{long_of, bound_over, range_over};
ghost use Rattle.segments.specs.Place.{place_of};
ghost use Rattle.segments.specs.Lookup.{same_of, index_of, tree_for, looked_of};
ghost use Rattle.segments.specs.Select.{before, reached, first_of, past_of, chosen_of, selected_of};

use keys::{
    Bound, Range, below_successor, compare, is_empty, is_empty_between, is_inside, is_less, part,
};
use lawful::lawful;
use records::{Limits, ManifestRow, Refusal, Tables, segment_at};
use tables::{Window, held};

// What a lookup answers.
#[derive(Clone, Copy)]
pub enum Looked {
    Unsegmented,
    Segment(usize),
    Absent,
}

// What a selection answers: the window counts from the manifest's own first segment. Unsegmented is an answer, and no absence.
#[derive(Clone, Copy)]
pub enum Selected {
    Unsegmented,
    Window(usize, usize),
}

// ---- lookup

// The prefix of row `i`.
// inner
pub fn prefix_at<'a>(segments: &[u64], pool: &'a [u8], i: usize) -> &'a [u8]
    requires { i < length segments.now / 12 }
    ensures { result.now ≡ prefix_at segments.now pool.now i }
{
    let s = segment_at(segments, i);
    let p = s.prefix;
    part(pool, p.at, p.len)
}

// Whether the prefix of row `i` is another than `prefix`.
// inner
pub fn is_other(segments: &[u64], pool: &[u8], i: usize, prefix: &[u8]) -> bool
    requires { i < length segments.now / 12 }
    ensures { result ≡ not (same_of (prefix_at segments.now pool.now i) prefix.now) }
{
    compare(prefix_at(segments, pool, i), prefix).is_ne()
}

// The place of the first segment that has this prefix, or the number of all.
// inner
pub fn index_of(segments: &[u64], pool: &[u8], w: Window, prefix: &[u8]) -> usize
    ensures { result ≡ index_of (prefixes_in segments.now pool.now w) prefix.now }
{
    let n = held(w, segments.len() / 12);
    for k in 0..n {
        if !is_other(segments, pool, w.first + k, prefix) {
            return k;
        }
    }
    n
}

fn tree_of(segments: &[u64], pool: &[u8], w: Window, prefix: &[u8]) -> Result<Looked, Refusal>
    ensures { result ≡ tree_for (prefixes_in segments.now pool.now w) prefix.now }
{
    if prefix.len() == 0 {
        return Ok(Looked::Unsegmented);
    }
    let n = held(w, segments.len() / 12);
    let i = index_of(segments, pool, w, prefix);
    if i < n {
        return Ok(Looked::Segment(i));
    }
    Ok(Looked::Absent)
}

// The segment with this prefix; the empty prefix is that of the unsegmented tree.
pub fn tree_for_segment(
    lim: Limits,
    tables: Tables,
    m: ManifestRow,
    prefix: &[u8],
) -> Result<Looked, Refusal>
    ensures { result ≡ looked_of lim (lent_of tables.entry) m prefix.now }
{
    if lim.prefix < prefix.len() {
        return Err(Refusal::OverLimit);
    }
    match lawful(lim, tables, m) {
        Ok(()) => {
            let w = m.segments;
            tree_of(tables.segments, tables.pool, w, prefix)
        }
        Err(rule) => Err(Refusal::Unlawful(rule)),
    }
}

// ---- the place

fn is_under(segments: &[u64], pool: &[u8], i: usize, prefix: &[u8]) -> bool
    requires { i < length segments.now / 12 }
    ensures { result ≡ less_of (prefix_at segments.now pool.now i) prefix.now }
{
    is_less(prefix_at(segments, pool, i), prefix)
}

// How many of the prefixes, which ascend, are below `prefix`.
// inner
pub fn find_place(segments: &[u64], pool: &[u8], w: Window, prefix: &[u8]) -> usize
    requires { chain less_of (prefixes_in segments.now pool.now w) ≡ true }
    ensures { result ≡ place_of (prefixes_in segments.now pool.now w) prefix.now }
{
    let n = held(w, segments.len() / 12);
    for k in 0..n {
        if !is_under(segments, pool, w.first + k, prefix) {
            return k;
        }
    }
    n
}

// ---- selection

fn is_long(most: usize, b: Bound) -> bool
    ensures { result ≡ long_of most b }
{
    match b {
        Bound::Unbounded => false,
        Bound::Included(_, len) => most < len,
        Bound::Excluded(_, len) => most < len,
    }
}

fn is_over(most: usize, n: usize, b: Bound) -> bool
    ensures { result ≡ bound_over most n b }
{
    if is_long(most, b) {
        return true;
    }
    !is_inside(n, b)
}

// Whether a bound is over its limit, or points outside its pool of `n` bytes.
// inner
pub fn range_over(most: usize, n: usize, r: Range) -> bool
    ensures { result ≡ range_over most n r }
{
    let s = r.start;
    let e = r.end;
    if is_over(most, n, s) {
        return true;
    }
    is_over(most, n, e)
}

// Whether the start `s` leaves some key that begins with `p`: its least key is below `p`, or begins with it.
// inner
pub fn start_leaves(args: &[u8], s: Bound, p: &[u8]) -> bool
    ensures { result ≡ under_of (low (edge_of args.now s)) (after p.now) }
{
    match s {
        Bound::Unbounded => true,
        Bound::Included(at, len) => below_successor(part(args, at, len), p),
        Bound::Excluded(at, len) => below_successor(part(args, at, len), p),
    }
}

fn is_before(segments: &[u64], pool: &[u8], i: usize, args: &[u8], s: Bound) -> bool
    requires { i < length segments.now / 12 }
    ensures { result ≡ before (edge_of args.now s) (prefix_at segments.now pool.now i) }
{
    !start_leaves(args, s, prefix_at(segments, pool, i))
}

fn is_reached(segments: &[u64], pool: &[u8], i: usize, args: &[u8], e: Bound) -> bool
    requires { i < length segments.now / 12 }
    ensures { result ≡ reached (edge_of args.now e) (prefix_at segments.now pool.now i) }
{
    let row = segment_at(segments, i);
    let p = row.prefix;
    !is_empty_between(pool, Bound::Included(p.at, p.len), args, e)
}

// How many segments at the front lie before the start.
fn first_of(segments: &[u64], pool: &[u8], w: Window, args: &[u8], s: Bound) -> usize
    ensures { result ≡ first_of (edge_of args.now s) (prefixes_in segments.now pool.now w) }
{
    let n = held(w, segments.len() / 12);
    for k in 0..n {
        if !is_before(segments, pool, w.first + k, args, s) {
            return k;
        }
    }
    n
}

// How many segments at the front the end reaches.
fn past_of(segments: &[u64], pool: &[u8], w: Window, args: &[u8], e: Bound) -> usize
    ensures { result ≡ past_of (edge_of args.now e) (prefixes_in segments.now pool.now w) }
{
    let n = held(w, segments.len() / 12);
    for k in 0..n {
        if !is_reached(segments, pool, w.first + k, args, e) {
            return k;
        }
    }
    n
}

// The window of the segments that the range holds a key of.
fn overlapping_segment_indices(
    segments: &[u64],
    pool: &[u8],
    w: Window,
    args: &[u8],
    r: Range,
) -> Result<Selected, Refusal>
    ensures { result ≡ chosen_of (edges_of args.now r) (prefixes_in segments.now pool.now w) }
{
    if held(w, segments.len() / 12) == 0 {
        return Ok(Selected::Unsegmented);
    }
    let s = r.start;
    let e = r.end;
    let first = first_of(segments, pool, w, args, s);
    let past = past_of(segments, pool, w, args, e);
    if first < past {
        return Ok(Selected::Window(first, past));
    }
    Ok(Selected::Window(0, 0))
}

// The segments with some key in the range.
pub fn select_segments(
    lim: Limits,
    tables: Tables,
    m: ManifestRow,
    args: &[u8],
    r: Range,
) -> Result<Selected, Refusal>
    ensures { result ≡ selected_of lim (lent_of tables.entry) m args.now r }
{
    if range_over(lim.key, args.len(), r) {
        return Err(Refusal::OverLimit);
    }
    match lawful(lim, tables, m) {
        Ok(()) => {
            if is_empty(args, r) {
                return Err(Refusal::EmptyRange);
            }
            let w = m.segments;
            overlapping_segment_indices(tables.segments, tables.pool, w, args, r)
        }
        Err(rule) => Err(Refusal::Unlawful(rule)),
    }
}
