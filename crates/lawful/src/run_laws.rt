// L5: every run has a view, and each view of it stands before the next.
ghost use Rattle.std.specs.Prelude.{◌≡◌, ◌+◌, ◌/◌, ◌<◌, length};
ghost use Rattle.records.specs.Row.{view_at, run_at, segment_at};
ghost use Rattle.records.specs.Decode.{bytes_in, last_in, view_in, views_in, run_in, runs_in, tree_in, segments_in, manifest_in, lent_of};
ghost use Rattle.measure.specs.Tests.{all_of, chain};
ghost use Rattle.measure.specs.Within.{tree_runs};
ghost use Rattle.lawful.specs.Law.{last_below, follows, run_lawful, l5_of};

use crate::gaps;
use keys::{is_less, part};
use records::{ManifestRow, Place, Tables, run_at, segment_at, view_at};
use tables::{Window, held};

// Whether the last key, where it is known, is below `first`.
fn is_below(pool: &[u8], last: Option<Place>, first: Place) -> bool
    ensures { result ≡ last_below (last_in pool.now last) (bytes_in pool.now first) }
{
    match last {
        None => true,
        Some(p) => is_less(part(pool, p.at, p.len), part(pool, first.at, first.len)),
    }
}

// Whether the view of row `j` may follow that of row `i` in a run.
fn view_follows(views: &[u64], pool: &[u8], i: usize, j: usize) -> bool
    requires { (i < length views.now / 16) × (j < length views.now / 16) }
    ensures { result ≡ follows (view_in pool.now (view_at views.now i)) (view_in pool.now (view_at views.now j)) }
{
    let v = view_at(views, i);
    let next = view_at(views, j);
    let first = v.first;
    let last = v.last;
    let then = next.first;
    if is_less(
        part(pool, first.at, first.len),
        part(pool, then.at, then.len),
    ) {
        return is_below(pool, last, then);
    }
    false
}

// Whether each view of the window may be followed by the next.
fn views_follow(views: &[u64], pool: &[u8], w: Window) -> bool
    ensures { result ≡ chain follows (views_in views.now pool.now w) }
{
    let n = gaps(held(w, views.len() / 16));
    (0..n).all(|k| view_follows(views, pool, w.first + k, w.first + (k + 1)))
}

// Whether the run of row `i` is lawful.
fn run_follows(views: &[u64], runs: &[u64], pool: &[u8], i: usize) -> bool
    requires { i < length runs.now / 3 }
    ensures { result ≡ run_lawful (run_in views.now pool.now (run_at runs.now i)) }
{
    let row = run_at(runs, i);
    let w = row.views;
    if held(w, views.len() / 16) == 0 {
        return false;
    }
    views_follow(views, pool, w)
}

// Whether each run of the window is.
fn runs_follow(views: &[u64], runs: &[u64], pool: &[u8], w: Window) -> bool
    ensures { result ≡ all_of run_lawful (runs_in runs.now views.now pool.now w) }
{
    let n = held(w, runs.len() / 3);
    (0..n).all(|k| run_follows(views, runs, pool, w.first + k))
}

// Whether each run of the segment of row `i` is.
fn segment_follows(segments: &[u64], views: &[u64], runs: &[u64], pool: &[u8], i: usize) -> bool
    requires { i < length segments.now / 12 }
    ensures { result ≡ all_of run_lawful (tree_runs (tree_in runs.now views.now pool.now (segment_at segments.now i).tree)) }
{
    let s = segment_at(segments, i);
    let t = s.tree;
    let w = t.compacted;
    runs_follow(views, runs, pool, w)
}

// Whether each run of each segment of the window is.
fn segments_follow(segments: &[u64], views: &[u64], runs: &[u64], pool: &[u8], w: Window) -> bool
    ensures { result ≡ all_of (λ s. all_of run_lawful (tree_runs s.tree)) (segments_in segments.now runs.now views.now pool.now w) }
{
    let n = held(w, segments.len() / 12);
    (0..n).all(|k| segment_follows(segments, views, runs, pool, w.first + k))
}

// L5: every run of every tree is lawful.
pub fn l5(tables: Tables, m: ManifestRow) -> bool
    ensures { result ≡ l5_of (manifest_in (lent_of tables.entry) m) }
{
    let t = m.tree;
    let own = t.compacted;
    let w = m.segments;
    if runs_follow(tables.views, tables.runs, tables.pool, own) {
        return segments_follow(tables.segments, tables.views, tables.runs, tables.pool, w);
    }
    false
}
