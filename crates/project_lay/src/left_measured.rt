// Which segments stay, and what is left, measured: each part is added to `c`, and the first that is too much ends the walk.
ghost use Rattle.std.specs.Prelude.{◌≡◌, true, not, [], ◌+◌, ◌/◌, ◌<◌, length};
ghost use Rattle.records.specs.Row.{segment_at};
ghost use Rattle.records.specs.Decode.{tree_in, segment_in, segments_in, name_in};
ghost use Rattle.records.specs.Fill.{empty, plus, sum, fits, key_fill, name_keys, tree_fill, segment_fill};
ghost use Rattle.measure.specs.Walk.{add_of};
ghost use Rattle.merge.specs.Tree.{is_empty};
ghost use Rattle.project_views.specs.Reach.{reach_of};
ghost use Rattle.project_views.specs.Shown.{tree_shown};
ghost use Rattle.project_ranges.specs.Action.{action_of};
ghost use Rattle.project_ranges.specs.Args.{config_in, action_in};
ghost use Rattle.project_lay.specs.After.{tree_after, segment_after, segments_after};
ghost use Rattle.project_lay.specs.Steps.{stays_by, piece_at, tree_kept, rows_kept};

use keys::part;
use measure::{add, segment_row};
use project_ranges::{ProjectionConfig, SegmentAction, resolve_segment_action};
use project_views::{Reach, measure_tree_shown};
use records::{Fill, Limits, Place, SegmentRow, TreeRow, segment_at};
use tables::{Window, held};

// Whether the range `r` leaves something of a tree. The measure ends at the first view that is left.
fn is_left(t: TreeRow, runs: &[u64], views: &[u64], pool: &[u8], r: Reach) -> bool
    ensures { result ≡ not (is_empty (tree_shown (reach_of pool.now r) (tree_in runs.now views.now pool.now t))) }
{
    let none = Fill {
        segments: 0,
        views: 0,
        runs: 0,
        borrows: 0,
        ids: 0,
        bytes: 0,
    };
    measure_tree_shown(none, t, runs, views, pool, r, none).is_none()
}

// Whether a segment stays.
pub fn stays(a: SegmentAction, t: TreeRow, runs: &[u64], views: &[u64], pool: &[u8]) -> bool
    ensures { result ≡ stays_by (action_in pool.now a) (tree_in runs.now views.now pool.now t) }
{
    match a {
        SegmentAction::Drop => false,
        SegmentAction::Project(r) => is_left(t, runs, views, pool, r),
        SegmentAction::PassThrough => true,
    }
}

// ---- what is left, measured: each part is added to `c`, and the first that is too much ends the walk

// Adds a tree that is passed on.
fn measure_passed(
    lim: Limits,
    t: TreeRow,
    runs: &[u64],
    views: &[u64],
    pool: &[u8],
    c: Fill,
) -> Option<Fill>
    requires t_value { tree_kept lim views.now runs.now pool.now t ≡ true }
    requires fill_value { fits c lim.fill ≡ true }
    ensures { result ≡ add_of lim.fill c (tree_fill (tree_in runs.now views.now pool.now t)) }
{
    let prefix = Place { at: 0, len: 0 };
    let s = SegmentRow { prefix, tree: t };
    segment_row(lim, views, runs, pool.len(), s, c)
}

// Adds what becomes of a tree.
fn measure_tree_after(
    lim: Limits,
    a: SegmentAction,
    t: TreeRow,
    runs: &[u64],
    views: &[u64],
    pool: &[u8],
    c: Fill,
) -> Option<Fill>
    requires t_value { tree_kept lim views.now runs.now pool.now t ≡ true }
    requires fill_value { fits c lim.fill ≡ true }
    ensures { result ≡ add_of lim.fill c (tree_fill (tree_after (action_in pool.now a) (tree_in runs.now views.now pool.now t))) }
{
    match a {
        SegmentAction::Drop => Some(c),
        SegmentAction::Project(r) => measure_tree_shown(lim.fill, t, runs, views, pool, r, c),
        SegmentAction::PassThrough => measure_passed(lim, t, runs, views, pool, c),
    }
}

// Adds what is left of a segment.
fn measure_segment_after(
    lim: Limits,
    a: SegmentAction,
    s: SegmentRow,
    runs: &[u64],
    views: &[u64],
    pool: &[u8],
    c: Fill,
) -> Option<Fill>
    requires tree_value { tree_kept lim views.now runs.now pool.now s.tree ≡ true }
    requires fill_value { fits c lim.fill ≡ true }
    ensures { result ≡ add_of lim.fill c (sum segment_fill (segment_after (action_in pool.now a) (segment_in runs.now views.now pool.now s))) }
{
    let t = s.tree;
    if !stays(a, t, runs, views, pool) {
        return Some(c);
    }
    let d = measure_tree_after(lim, a, t, runs, views, pool, c)?;
    let n = part(pool, s.prefix.at, s.prefix.len).len();
    add(
        lim.fill,
        d,
        Fill {
            segments: 1,
            views: 0,
            runs: 0,
            borrows: 0,
            ids: 0,
            bytes: n,
        },
    )
}

// Adds what is left of row `i` of a table, whose tree is at this place.
fn measure_segment_at(
    lim: Limits,
    segments: &[u64],
    i: usize,
    place: usize,
    runs: &[u64],
    views: &[u64],
    pool: &[u8],
    config: ProjectionConfig,
    own: &[u64],
    c: Fill,
) -> Option<Fill>
    requires i_in_bounds { i < length segments.now / 12 }
    requires i_value { tree_kept lim views.now runs.now pool.now (segment_at segments.now i).tree ≡ true }
    requires fill_value { fits c lim.fill ≡ true }
    ensures { result ≡ add_of lim.fill c (sum segment_fill (piece_at (config_in pool.now config own.now) place (segment_in runs.now views.now pool.now (segment_at segments.now i)))) }
{
    let s = segment_at(segments, i);
    let a = resolve_segment_action(pool, s.prefix, place, config, own);
    measure_segment_after(lim, a, s, runs, views, pool, c)
}

// Adds what is left of the segments of a window.
fn measure_segments_after(
    lim: Limits,
    segments: &[u64],
    w: Window,
    runs: &[u64],
    views: &[u64],
    pool: &[u8],
    config: ProjectionConfig,
    own: &[u64],
    c: Fill,
) -> Option<Fill>
    requires w_value { rows_kept lim segments.now views.now runs.now pool.now w ≡ true }
    requires fill_value { fits c lim.fill ≡ true }
    ensures { result ≡ add_of lim.fill c (sum segment_fill (segments_after (config_in pool.now config own.now) 1 (segments_in segments.now runs.now views.now pool.now w))) }
{
    let n = held(w, segments.len() / 12);
    let mut d = c;
    for k in 0..n {
        d = measure_segment_at(
            lim,
            segments,
            w.first + k,
            k + 1,
            runs,
            views,
            pool,
            config,
            own,
            d,
        )?;
    }
    Some(d)
}

// Adds the name.
fn measure_name(most: Fill, n: Option<Place>, pool: &[u8], c: Fill) -> Option<Fill>
    requires { fits c most ≡ true }
    ensures { result ≡ add_of most c (sum key_fill (name_keys (name_in pool.now n))) }
{
    match n {
        None => Some(c),
        Some(p) => {
            let long = part(pool, p.at, p.len).len();
            add(
                most,
                c,
                Fill {
                    segments: 0,
                    views: 0,
                    runs: 0,
                    borrows: 0,
                    ids: 0,
                    bytes: long,
                },
            )
        }
    }
}

// What is left of the unsegmented tree and of the segments, and the name, measured.
// inner
pub fn measure_narrowed(
    lim: Limits,
    segments: &[u64],
    t: TreeRow,
    w: Window,
    n: Option<Place>,
    runs: &[u64],
    views: &[u64],
    pool: &[u8],
    config: ProjectionConfig,
    own: &[u64],
) -> Option<Fill>
    requires t_value { tree_kept lim views.now runs.now pool.now t ≡ true }
    requires w_value { rows_kept lim segments.now views.now runs.now pool.now w ≡ true }
    ensures { result ≡ add_of lim.fill empty (plus (tree_fill (tree_after (action_of (config_in pool.now config own.now) 0 []) (tree_in runs.now views.now pool.now t))) (plus (sum segment_fill (segments_after (config_in pool.now config own.now) 1 (segments_in segments.now runs.now views.now pool.now w))) (sum key_fill (name_keys (name_in pool.now n))))) }
{
    let none = Fill {
        segments: 0,
        views: 0,
        runs: 0,
        borrows: 0,
        ids: 0,
        bytes: 0,
    };
    let whole = Place { at: 0, len: 0 };
    let a = resolve_segment_action(pool, whole, 0, config, own);
    let d = measure_tree_after(lim, a, t, runs, views, pool, none)?;
    let e = measure_segments_after(lim, segments, w, runs, views, pool, config, own, d)?;
    measure_name(lim.fill, n, pool, e)
}
