// L4: every view by itself.
ghost use Rattle.std.specs.Prelude.{◌≡◌, ◌+◌, ◌/◌, ◌<◌, length};
ghost use Rattle.records.specs.Row.{view_at, run_at, segment_at};
ghost use Rattle.records.specs.Decode.{bytes_in, last_in, view_in, views_in, runs_in, tree_in, segments_in, manifest_in, lent_of};
ghost use Rattle.measure.specs.Tests.{all_of};
ghost use Rattle.measure.specs.Within.{run_views, tree_views};
ghost use Rattle.lawful.specs.Law.{not_above, view_lawful, l4_of};
ghost use Rattle.lawful.specs.Steps.{last_bound, seen_row, hidden_of};

use keys::{Bound, Range, is_empty, is_less, meet, part};
use records::{ManifestRow, Place, Tables, TreeRow, run_at, segment_at, view_at};
use tables::{Window, held};

// Whether the first key is not above the last, where that is known.
fn is_ordered(pool: &[u8], first: Place, last: Option<Place>) -> bool
    ensures { result ≡ not_above (bytes_in pool.now first) (last_in pool.now last) }
{
    match last {
        None => true,
        Some(p) => !is_less(part(pool, p.at, p.len), part(pool, first.at, first.len)),
    }
}

// Where the physical range ends.
// inner
pub fn last_bound(last: Option<Place>) -> Bound
    ensures { result ≡ last_bound last }
{
    match last {
        None => Bound::Unbounded,
        Some(p) => Bound::Included(p.at, p.len),
    }
}

// The visible range, or all keys.
// inner
pub fn seen_range(visible: Option<Range>) -> Range
    ensures { result ≡ seen_row visible }
{
    match visible {
        None => Range {
            start: Bound::Unbounded,
            end: Bound::Unbounded,
        },
        Some(r) => r,
    }
}

// Whether the physical range meets the visible one in no key.
fn is_hidden(pool: &[u8], first: Place, last: Option<Place>, visible: Option<Range>) -> bool
    ensures { result ≡ hidden_of pool.now first last visible }
{
    let start = Bound::Included(first.at, first.len);
    let end = last_bound(last);
    let seen = seen_range(visible);
    is_empty(pool, meet(pool, Range { start, end }, seen))
}

// Whether the view of row `i` is lawful.
fn view_holds(views: &[u64], pool: &[u8], i: usize) -> bool
    requires { i < length views.now / 16 }
    ensures { result ≡ view_lawful (view_in pool.now (view_at views.now i)) }
{
    let v = view_at(views, i);
    let first = v.first;
    let last = v.last;
    let visible = v.visible;
    if is_ordered(pool, first, last) {
        return !is_hidden(pool, first, last, visible);
    }
    false
}

// Whether each view of the window is.
fn views_hold(views: &[u64], pool: &[u8], w: Window) -> bool
    ensures { result ≡ all_of view_lawful (views_in views.now pool.now w) }
{
    let n = held(w, views.len() / 16);
    (0..n).all(|k| view_holds(views, pool, w.first + k))
}

// Whether each view of the run of row `i` is.
fn run_holds(views: &[u64], runs: &[u64], pool: &[u8], i: usize) -> bool
    requires { i < length runs.now / 3 }
    ensures { result ≡ all_of view_lawful (views_in views.now pool.now (run_at runs.now i).views) }
{
    let row = run_at(runs, i);
    let w = row.views;
    views_hold(views, pool, w)
}

// Whether each view of each run of the window is.
fn runs_hold(views: &[u64], runs: &[u64], pool: &[u8], w: Window) -> bool
    ensures { result ≡ all_of (λ x. all_of view_lawful (run_views x)) (runs_in runs.now views.now pool.now w) }
{
    let n = held(w, runs.len() / 3);
    (0..n).all(|k| run_holds(views, runs, pool, w.first + k))
}

// Whether each view of the tree is: its L0, then run by run.
fn tree_holds(views: &[u64], runs: &[u64], pool: &[u8], t: TreeRow) -> bool
    ensures { result ≡ all_of view_lawful (tree_views (tree_in runs.now views.now pool.now t)) }
{
    let l0 = t.l0;
    let compacted = t.compacted;
    if views_hold(views, pool, l0) {
        return runs_hold(views, runs, pool, compacted);
    }
    false
}

// Whether each view of the segment of row `i` is.
fn segment_holds(segments: &[u64], views: &[u64], runs: &[u64], pool: &[u8], i: usize) -> bool
    requires { i < length segments.now / 12 }
    ensures { result ≡ all_of view_lawful (tree_views (tree_in runs.now views.now pool.now (segment_at segments.now i).tree)) }
{
    let s = segment_at(segments, i);
    let t = s.tree;
    tree_holds(views, runs, pool, t)
}

// Whether each view of each segment of the window is.
fn segments_hold(segments: &[u64], views: &[u64], runs: &[u64], pool: &[u8], w: Window) -> bool
    ensures { result ≡ all_of (λ s. all_of view_lawful (tree_views s.tree)) (segments_in segments.now runs.now views.now pool.now w) }
{
    let n = held(w, segments.len() / 12);
    (0..n).all(|k| segment_holds(segments, views, runs, pool, w.first + k))
}

// L4: every view of every tree is lawful by itself.
pub fn l4(tables: Tables, m: ManifestRow) -> bool
    ensures { result ≡ l4_of (manifest_in (lent_of tables.entry) m) }
{
    let t = m.tree;
    let w = m.segments;
    if tree_holds(tables.views, tables.runs, tables.pool, t) {
        return segments_hold(tables.segments, tables.views, tables.runs, tables.pool, w);
    }
    false
}
