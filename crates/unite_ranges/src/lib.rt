// Bounding ranges, and things arranged by the start of theirs.
#![tactic(auto)]

ghost use Rattle.std.specs.Prelude.{◌≡◌, [], ◌∷◌, ◌+◌, ◌*◌, ◌/◌, ◌≤◌, ◌<◌, length};
ghost use Rattle.keys.specs.Key.{is_less};
ghost use Rattle.keys.specs.Meet.{start_order};
ghost use Rattle.keys.specs.Pool.{edge_of, edges_of};
ghost use Rattle.tables.specs.Layout.{joined};
ghost use Rattle.records.specs.Model.{effective, segment_trees};
ghost use Rattle.records.specs.Row.{view_at, run_at, segment_at, bound_at};
ghost use Rattle.records.specs.Decode.{view_in, views_in, run_in, runs_in, tree_in, segment_in, segments_in};
ghost use Rattle.measure.specs.Within.{run_views, tree_views};
ghost use Rattle.unite_ranges.specs.Bounding.{earliest as earliestOf, latest as latestOf, widened as widenedOf, none, with_range, bounding_from};
ghost use Rattle.unite_ranges.specs.Arranged.{overlap, entered, some_overlap};
ghost use Rattle.unite_ranges.specs.Rows.{bounded_in, ranged_at, ranged_in};
ghost use Rattle.unite_ranges.specs.Steps.{row_words, place_of};

use keys::{Bound, Range, end_order, is_empty, meet, start_order};
use lawful::{last_bound, seen_range};
use records::{TreeRow, ViewRow, bound_at, bound_cell, run_at, segment_at, view_at};
use shift::shift_words;
use tables::{Window, held, put};

// ---- one range and another

// The earlier of two starts, of equal ones the first.
fn earliest(pool: &[u8], s: Bound, t: Bound) -> Bound
    ensures { edge_of pool.now result ≡ earliestOf (edge_of pool.now s) (edge_of pool.now t) }
{
    if start_order(pool, t, pool, s).is_lt() {
        return t;
    }
    s
}

// The later of two ends, of equal ones the first.
fn latest(pool: &[u8], s: Bound, t: Bound) -> Bound
    ensures { edge_of pool.now result ≡ latestOf (edge_of pool.now s) (edge_of pool.now t) }
{
    if end_order(pool, s, pool, t).is_lt() {
        return t;
    }
    s
}

// The smallest range that holds both.
fn widened(pool: &[u8], a: Range, b: Range) -> Range
    ensures { edges_of pool.now result ≡ widenedOf (edges_of pool.now a) (edges_of pool.now b) }
{
    let s = a.start;
    let t = b.start;
    let e = a.end;
    let f = b.end;
    let start = earliest(pool, s, t);
    let end = latest(pool, e, f);
    Range { start, end }
}

// `b` widened by one range more.
fn with_range(pool: &[u8], b: Option<Range>, r: Range) -> Option<Range>
    ensures { bounded_in pool.now result ≡ with_range (bounded_in pool.now b) (edges_of pool.now r) }
{
    match b {
        None => Some(r),
        Some(q) => {
            let wide = widened(pool, q, r);
            Some(wide)
        }
    }
}

// ---- `b` widened by views, in order

// The effective range of a view: the physical one, met with the visible one.
fn effective_range(pool: &[u8], v: ViewRow) -> Range
    ensures { edges_of pool.now result ≡ effective (view_in pool.now v) }
{
    let last = v.last;
    let visible = v.visible;
    let start = Bound::Included(v.first.at, v.first.len);
    let end = last_bound(last);
    let seen = seen_range(visible);
    meet(pool, Range { start, end }, seen)
}

// By that of view `i` of a table.
fn bounding_view_at(views: &[u64], i: usize, pool: &[u8], b: Option<Range>) -> Option<Range>
    requires { i < length views.now / 16 }
    ensures { bounded_in pool.now result ≡ bounding_from (bounded_in pool.now b) (view_in pool.now (view_at views.now i) ∷ []) }
{
    let v = view_at(views, i);
    let r = effective_range(pool, v);
    with_range(pool, b, r)
}

// By those of a window.
fn bounding_views(views: &[u64], w: Window, pool: &[u8], b: Option<Range>) -> Option<Range>
    ensures { bounded_in pool.now result ≡ bounding_from (bounded_in pool.now b) (views_in views.now pool.now w) }
{
    let n = held(w, views.len() / 16);
    let first = w.first;
    let mut q = b;
    for k in 0..n {
        q = bounding_view_at(views, first + k, pool, q);
    }
    q
}

// By those of run `i` of a table.
fn bounding_run_at(
    runs: &[u64],
    i: usize,
    views: &[u64],
    pool: &[u8],
    b: Option<Range>,
) -> Option<Range>
    requires { i < length runs.now / 3 }
    ensures { bounded_in pool.now result ≡ bounding_from (bounded_in pool.now b) (run_views (run_in views.now pool.now (run_at runs.now i))) }
{
    let x = run_at(runs, i);
    let w = x.views;
    bounding_views(views, w, pool, b)
}

// By those of the runs of a window.
fn bounding_runs(
    runs: &[u64],
    w: Window,
    views: &[u64],
    pool: &[u8],
    b: Option<Range>,
) -> Option<Range>
    ensures { bounded_in pool.now result ≡ bounding_from (bounded_in pool.now b) (joined run_views (runs_in runs.now views.now pool.now w)) }
{
    let n = held(w, runs.len() / 3);
    let first = w.first;
    let mut q = b;
    for k in 0..n {
        q = bounding_run_at(runs, first + k, views, pool, q);
    }
    q
}

// `b` widened by the effective ranges of the views of a tree.
// inner
pub fn bounding_tree(
    t: TreeRow,
    runs: &[u64],
    views: &[u64],
    pool: &[u8],
    b: Option<Range>,
) -> Option<Range>
    ensures { bounded_in pool.now result ≡ bounding_from (bounded_in pool.now b) (tree_views (tree_in runs.now views.now pool.now t)) }
{
    let l0 = t.l0;
    let compacted = t.compacted;
    let q = bounding_views(views, l0, pool, b);
    bounding_runs(runs, compacted, views, pool, q)
}

// By those of segment `i` of a table.
fn bounding_segment_at(
    segments: &[u64],
    i: usize,
    runs: &[u64],
    views: &[u64],
    pool: &[u8],
    b: Option<Range>,
) -> Option<Range>
    requires { i < length segments.now / 12 }
    ensures { bounded_in pool.now result ≡ bounding_from (bounded_in pool.now b) (tree_views (segment_in runs.now views.now pool.now (segment_at segments.now i)).tree) }
{
    let s = segment_at(segments, i);
    let t = s.tree;
    bounding_tree(t, runs, views, pool, b)
}

// By those of the segments of a window.
fn bounding_segments(
    segments: &[u64],
    w: Window,
    runs: &[u64],
    views: &[u64],
    pool: &[u8],
    b: Option<Range>,
) -> Option<Range>
    ensures { bounded_in pool.now result ≡ bounding_from (bounded_in pool.now b) (joined tree_views (segment_trees (segments_in segments.now runs.now views.now pool.now w))) }
{
    let n = held(w, segments.len() / 12);
    let first = w.first;
    let mut q = b;
    for k in 0..n {
        q = bounding_segment_at(segments, first + k, runs, views, pool, q);
    }
    q
}

// The bounding effective range of all views of a manifest: of its unsegmented tree and its segments; none where there is no view.
// inner
pub fn bounding_range(
    t: TreeRow,
    segments: &[u64],
    w: Window,
    runs: &[u64],
    views: &[u64],
    pool: &[u8],
) -> Option<Range>
    ensures { bounded_in pool.now result ≡ bounding_from none (joined tree_views (tree_in runs.now views.now pool.now t ∷ segment_trees (segments_in segments.now runs.now views.now pool.now w))) }
{
    let b = bounding_tree(t, runs, views, pool, None);
    bounding_segments(segments, w, runs, views, pool, b)
}

// ---- rows of seven words: what is arranged, and the two bounds of its range

fn row_words(what: u64, r: Range) -> [u64; 7]
    ensures { result ≡ row_words what r }
{
    let s = r.start;
    let e = r.end;
    let start = bound_cell(s);
    let end = bound_cell(e);
    [what, start.code, start.a, start.b, end.code, end.a, end.b]
}

// The range of row `i`.
fn range_at(rows: &[u64], i: usize) -> Range
    requires { (i + 1) * 7 ≤ length rows.now }
    ensures { result ≡ record { start = bound_at rows.now (i * 7 + 1); end = bound_at rows.now (i * 7 + 4) } }
{
    let b = i * 7;
    let start = bound_at(rows, b + 1);
    let end = bound_at(rows, b + 4);
    Range { start, end }
}

// Whether row `i` starts later than `s`.
fn starts_later(rows: &[u64], i: usize, s: Bound, pool: &[u8]) -> bool
    requires { (i + 1) * 7 ≤ length rows.now }
    ensures { result ≡ is_less (start_order (edge_of pool.now s) (ranged_at pool.now rows.now i).range.start) }
{
    let r = range_at(rows, i);
    let t = r.start;
    start_order(pool, s, pool, t).is_lt()
}

// How many of the first `n` rows stand before the first that starts later than `s`.
fn place_of(rows: &[u64], n: usize, s: Bound, pool: &[u8]) -> usize
    requires { n * 7 ≤ length rows.now }
    ensures { result ≡ place_of (edge_of pool.now s) (ranged_in pool.now rows.now n) }
{
    for k in 0..n {
        if starts_later(rows, k, s, pool) {
            return k;
        }
    }
    n
}

// Enters `what` with its range among the first `n` rows, which are arranged, seven words a row.
// inner
pub fn enter_range(rows: &mut [u64], n: usize, what: u64, r: Range, pool: &[u8])
    requires { (n + 1) * 7 ≤ length rows.old }
    ensures n_after { ranged_in pool.now rows.new (n + 1) ≡ entered (record { what = what; range = edges_of pool.now r }) (ranged_in pool.now rows.old n) }
    ensures rows_len_unchanged { length rows.new ≡ length rows.old }
{
    let s = r.start;
    let p = place_of(rows, n, s, pool);
    shift_words(rows, p * 7, n * 7, 7);
    let row = row_words(what, r);
    put(&row, rows, p * 7);
}

// Whether row `k` and the next overlap.
fn overlap_at(rows: &[u64], k: usize, pool: &[u8]) -> bool
    requires { (k + 2) * 7 ≤ length rows.now }
    ensures { result ≡ overlap (ranged_at pool.now rows.now k).range (ranged_at pool.now rows.now (k + 1)).range }
{
    let a = range_at(rows, k);
    let b = range_at(rows, k + 1);
    let both = meet(pool, a, b);
    !is_empty(pool, both)
}

// Whether two neighbours among the first `n` rows overlap.
// inner
pub fn ranges_overlap(rows: &[u64], n: usize, pool: &[u8]) -> bool
    requires { n * 7 ≤ length rows.now }
    ensures { result ≡ some_overlap (ranged_in pool.now rows.now n) }
{
    for k in 0..n.saturating_sub(1) {
        if overlap_at(rows, k, pool) {
            return true;
        }
    }
    false
}
