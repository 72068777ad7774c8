// The SST ids of the views that are left, listed.
ghost use Rattle.std.specs.Prelude.{◌≡◌, [], ◌++◌, ◌+◌, ◌*◌, ◌/◌, ◌≤◌, ◌<◌, length};
ghost use Rattle.tables.specs.Layout.{write, over};
ghost use Rattle.records.specs.Row.{segment_at};
ghost use Rattle.records.specs.Decode.{tree_in, segment_in, segments_in};
ghost use Rattle.records.specs.Fill.{plus, ids as id_fill};
ghost use Rattle.records.specs.Layout.{ids_laid};
ghost use Rattle.measure.specs.Within.{tree_views, ids_used};
ghost use Rattle.project_ranges.specs.Action.{action_of};
ghost use Rattle.project_ranges.specs.Args.{config_in, action_in};
ghost use Rattle.project_lay.specs.After.{tree_after, segments_after};
ghost use Rattle.project_lay.specs.Steps.{piece_at, segments_views, ssts_in, runs_ssts, tree_ssts};

use emit::put_id;
use project_ranges::{ProjectionConfig, SegmentAction, resolve_segment_action};
use project_views::ids_shown;
use records::{Fill, Place, TreeRow, run_at, segment_at, view_at};
use tables::{Window, held};

// Appends those of the views of a window.
fn put_ssts(views: &[u64], w: Window, out_ids: &mut [u64], c: Fill) -> Fill
    requires { (c.ids + length (ssts_in views.now w)) * 2 ≤ length out_ids.old }
    ensures value { result ≡ plus c (id_fill (length (ssts_in views.now w))) }
    ensures out_ids_after { out_ids.new ≡ write out_ids.old (c.ids * 2) (ids_laid (ssts_in views.now w)) }
{
    let n = held(w, views.len() / 16);
    let mut to = c;
    for k in 0..n {
        let v = view_at(views, w.first + k);
        let sst = v.sst;
        to = put_id(sst, out_ids, to);
    }
    to
}

// Appends those of the views of the runs of a window.
fn put_runs_ssts(runs: &[u64], w: Window, views: &[u64], out_ids: &mut [u64], c: Fill) -> Fill
    requires { (c.ids + length (runs_ssts runs.now views.now w)) * 2 ≤ length out_ids.old }
    ensures value { result ≡ plus c (id_fill (length (runs_ssts runs.now views.now w))) }
    ensures out_ids_after { out_ids.new ≡ write out_ids.old (c.ids * 2) (ids_laid (runs_ssts runs.now views.now w)) }
{
    let n = held(w, runs.len() / 3);
    let mut to = c;
    for k in 0..n {
        let x = run_at(runs, w.first + k);
        let run = x.views;
        to = put_ssts(views, run, out_ids, to);
    }
    to
}

// Appends those of the views of a tree.
fn put_tree_ssts(t: TreeRow, runs: &[u64], views: &[u64], out_ids: &mut [u64], c: Fill) -> Fill
    requires { (c.ids + length (tree_ssts runs.now views.now t)) * 2 ≤ length out_ids.old }
    ensures value { result ≡ plus c (id_fill (length (tree_ssts runs.now views.now t))) }
    ensures out_ids_after { out_ids.new ≡ write out_ids.old (c.ids * 2) (ids_laid (tree_ssts runs.now views.now t)) }
{
    let to = put_ssts(views, t.l0, out_ids, c);
    put_runs_ssts(runs, t.compacted, views, out_ids, to)
}

// Appends those of what becomes of a tree.
fn ids_after(
    a: SegmentAction,
    t: TreeRow,
    runs: &[u64],
    views: &[u64],
    pool: &[u8],
    out_ids: &mut [u64],
    c: Fill,
) -> Fill
    requires { (c.ids + length (ids_used (tree_views (tree_after (action_in pool.now a) (tree_in runs.now views.now pool.now t))))) * 2 ≤ length out_ids.old }
    ensures value { result ≡ plus c (id_fill (length (ids_used (tree_views (tree_after (action_in pool.now a) (tree_in runs.now views.now pool.now t)))))) }
    ensures out_ids_after { out_ids.new ≡ write out_ids.old (c.ids * 2) (ids_laid (ids_used (tree_views (tree_after (action_in pool.now a) (tree_in runs.now views.now pool.now t))))) }
{
    match a {
        SegmentAction::Drop => c,
        SegmentAction::Project(r) => ids_shown(t, runs, views, pool, r, out_ids, c),
        SegmentAction::PassThrough => put_tree_ssts(t, runs, views, out_ids, c),
    }
}

// Appends those of what is left of row `i` of a table, whose tree is at this place.
fn ids_segment_at(
    segments: &[u64],
    i: usize,
    place: usize,
    runs: &[u64],
    views: &[u64],
    pool: &[u8],
    config: ProjectionConfig,
    own: &[u64],
    out_ids: &mut [u64],
    c: Fill,
) -> Fill
    requires i_in_bounds { i < length segments.now / 12 }
    requires i_in_bounds_2 { (c.ids + length (ids_used (segments_views (piece_at (config_in pool.now config own.now) place (segment_in runs.now views.now pool.now (segment_at segments.now i)))))) * 2 ≤ length out_ids.old }
    ensures value { result ≡ plus c (id_fill (length (ids_used (segments_views (piece_at (config_in pool.now config own.now) place (segment_in runs.now views.now pool.now (segment_at segments.now i))))))) }
    ensures out_ids_after { out_ids.new ≡ write out_ids.old (c.ids * 2) (ids_laid (ids_used (segments_views (piece_at (config_in pool.now config own.now) place (segment_in runs.now views.now pool.now (segment_at segments.now i)))))) }
{
    let s = segment_at(segments, i);
    let a = resolve_segment_action(pool, s.prefix, place, config, own);
    ids_after(a, s.tree, runs, views, pool, out_ids, c)
}

// Appends those of what is left of the segments of a window.
fn ids_segments_after(
    segments: &[u64],
    w: Window,
    runs: &[u64],
    views: &[u64],
    pool: &[u8],
    config: ProjectionConfig,
    own: &[u64],
    out_ids: &mut [u64],
    c: Fill,
) -> Fill
    requires { (c.ids + length (ids_used (segments_views (segments_after (config_in pool.now config own.now) 1 (segments_in segments.now runs.now views.now pool.now w))))) * 2 ≤ length out_ids.old }
    ensures value { result ≡ plus c (id_fill (length (ids_used (segments_views (segments_after (config_in pool.now config own.now) 1 (segments_in segments.now runs.now views.now pool.now w)))))) }
    ensures out_ids_after { out_ids.new ≡ write out_ids.old (c.ids * 2) (ids_laid (ids_used (segments_views (segments_after (config_in pool.now config own.now) 1 (segments_in segments.now runs.now views.now pool.now w))))) }
{
    let n = held(w, segments.len() / 12);
    let mut to = c;
    for k in 0..n {
        to = ids_segment_at(
            segments,
            w.first + k,
            k + 1,
            runs,
            views,
            pool,
            config,
            own,
            out_ids,
            to,
        );
    }
    to
}

// Lists those of all views that are left, in record order, at the front of `used`.
// inner
pub fn list_used(
    segments: &[u64],
    t: TreeRow,
    w: Window,
    runs: &[u64],
    views: &[u64],
    pool: &[u8],
    config: ProjectionConfig,
    own: &[u64],
    used: &mut [u64],
) -> Fill
    requires { length (ids_used (tree_views (tree_after (action_of (config_in pool.now config own.now) 0 []) (tree_in runs.now views.now pool.now t)) ++ segments_views (segments_after (config_in pool.now config own.now) 1 (segments_in segments.now runs.now views.now pool.now w)))) * 2 ≤ length used.old }
    ensures value { result ≡ id_fill (length (ids_used (tree_views (tree_after (action_of (config_in pool.now config own.now) 0 []) (tree_in runs.now views.now pool.now t)) ++ segments_views (segments_after (config_in pool.now config own.now) 1 (segments_in segments.now runs.now views.now pool.now w))))) }
    ensures used_after { used.new ≡ over used.old (ids_laid (ids_used (tree_views (tree_after (action_of (config_in pool.now config own.now) 0 []) (tree_in runs.now views.now pool.now t)) ++ segments_views (segments_after (config_in pool.now config own.now) 1 (segments_in segments.now runs.now views.now pool.now w))))) }
{
    let none = Fill {
        segments: 0,
        views: 0,
        runs: 0,
        borrows: 0,
        ids: 0,
        bytes: 0,
    };
    let whole = Place { at: 0, len: 0 };
    let a = resolve_segment_action(pool, whole, 0, config, own);
    let to = ids_after(a, t, runs, views, pool, used, none);
    ids_segments_after(segments, w, runs, views, pool, config, own, used, to)
}
