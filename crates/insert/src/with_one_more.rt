// The manifest with one segment more.
ghost use Rattle.std.specs.Prelude.{◌≡◌, true, ◌++◌, ◌+◌, ◌*◌, ◌/◌, ◌≤◌, length};
ghost use Rattle.tables.specs.Layout.{write, over, joined};
ghost use Rattle.tables.specs.Window.{held_of};
ghost use Rattle.records.specs.Decode.{tree_in, segments_in, manifest_in, lent_of};
ghost use Rattle.records.specs.Fill.{empty, plus, sum, tree_fill, segment_fill, fits, manifest_fill};
ghost use Rattle.records.specs.Words.{segment_words};
ghost use Rattle.records.specs.Layout.{tree_row, tree_runs_laid, tree_views_laid, tree_bytes, past_prefix, segment_row, segments_laid, segments_runs_laid, segments_views_laid, segment_bytes};
ghost use Rattle.copy.specs.Copy.{room_of};
ghost use Rattle.segments.specs.Insert.{new_segment, put, entered};
ghost use Rattle.insert.specs.declared.Inserted.TheVariants.{Entered};
ghost use Rattle.insert.specs.Insert.{entered_at, laid_entry};

use copy::{manifest_row, put_rest};
use emit::{LaidTree, put_segment, put_segments, put_tree};
use records::{Fill, ManifestRow, Place, SegmentRow, Tables, TreeRow};
use tables::{Window, held};

// Appends an empty segment.
fn put_new(
    prefix: &[u8],
    runs: &[u64],
    views: &[u64],
    out_segments: &mut [u64],
    out_runs: &mut [u64],
    out_views: &mut [u64],
    out_pool: &mut [u8],
    c: Fill,
) -> Fill
    requires prefix_in_bounds { (c.segments + (segment_fill (new_segment prefix.now)).segments) * 12 ≤ length out_segments.old }
    requires prefix_in_bounds_2 { (c.runs + (segment_fill (new_segment prefix.now)).runs) * 3 ≤ length out_runs.old }
    requires prefix_in_bounds_3 { (c.views + (segment_fill (new_segment prefix.now)).views) * 16 ≤ length out_views.old }
    requires prefix_in_bounds_4 { c.bytes + (segment_fill (new_segment prefix.now)).bytes ≤ length out_pool.old }
    ensures value { result ≡ plus c (segment_fill (new_segment prefix.now)) }
    ensures out_segments_after { out_segments.new ≡ write out_segments.old (c.segments * 12) (segment_words (segment_row c (new_segment prefix.now))) }
    ensures out_runs_after { out_runs.new ≡ write out_runs.old (c.runs * 3) (tree_runs_laid (past_prefix c (new_segment prefix.now)) (new_segment prefix.now).tree) }
    ensures out_views_after { out_views.new ≡ write out_views.old (c.views * 16) (tree_views_laid (past_prefix c (new_segment prefix.now)) (new_segment prefix.now).tree) }
    ensures out_pool_after { out_pool.new ≡ write out_pool.old c.bytes (segment_bytes (new_segment prefix.now)) }
{
    let tree = TreeRow {
        view: None,
        sst: None,
        l0: Window { first: 0, count: 0 },
        compacted: Window { first: 0, count: 0 },
    };
    let s = SegmentRow {
        prefix: Place {
            at: 0,
            len: prefix.len(),
        },
        tree,
    };
    put_segment(
        s,
        runs,
        views,
        prefix,
        out_segments,
        out_runs,
        out_views,
        out_pool,
        c,
    )
}

// Appends the segments of a window, with an empty one at place `i` among them.
fn put_segments_with(
    segments: &[u64],
    w: Window,
    i: usize,
    prefix: &[u8],
    runs: &[u64],
    views: &[u64],
    pool: &[u8],
    out_segments: &mut [u64],
    out_runs: &mut [u64],
    out_views: &mut [u64],
    out_pool: &mut [u8],
    c: Fill,
) -> Fill
    requires i_bound { i ≤ held_of w (length segments.now / 12) }
    requires w_in_bounds { (c.segments + (sum segment_fill (put i (new_segment prefix.now) (segments_in segments.now runs.now views.now pool.now w))).segments) * 12 ≤ length out_segments.old }
    requires w_in_bounds_2 { (c.runs + (sum segment_fill (put i (new_segment prefix.now) (segments_in segments.now runs.now views.now pool.now w))).runs) * 3 ≤ length out_runs.old }
    requires w_in_bounds_3 { (c.views + (sum segment_fill (put i (new_segment prefix.now) (segments_in segments.now runs.now views.now pool.now w))).views) * 16 ≤ length out_views.old }
    requires w_in_bounds_4 { c.bytes + (sum segment_fill (put i (new_segment prefix.now) (segments_in segments.now runs.now views.now pool.now w))).bytes ≤ length out_pool.old }
    ensures value { result ≡ plus c (sum segment_fill (put i (new_segment prefix.now) (segments_in segments.now runs.now views.now pool.now w))) }
    ensures out_segments_after { out_segments.new ≡ write out_segments.old (c.segments * 12) (segments_laid c (put i (new_segment prefix.now) (segments_in segments.now runs.now views.now pool.now w))) }
    ensures out_runs_after { out_runs.new ≡ write out_runs.old (c.runs * 3) (segments_runs_laid c (put i (new_segment prefix.now) (segments_in segments.now runs.now views.now pool.now w))) }
    ensures out_views_after { out_views.new ≡ write out_views.old (c.views * 16) (segments_views_laid c (put i (new_segment prefix.now) (segments_in segments.now runs.now views.now pool.now w))) }
    ensures out_pool_after { out_pool.new ≡ write out_pool.old c.bytes (joined segment_bytes (put i (new_segment prefix.now) (segments_in segments.now runs.now views.now pool.now w))) }
{
    let n = held(w, segments.len() / 12);
    let front = Window {
        first: w.first,
        count: i,
    };
    let back = Window {
        first: w.first + i,
        count: n - i,
    };
    let a = put_segments(
        segments,
        front,
        runs,
        views,
        pool,
        out_segments,
        out_runs,
        out_views,
        out_pool,
        c,
    );
    let b = put_new(
        prefix,
        runs,
        views,
        out_segments,
        out_runs,
        out_views,
        out_pool,
        a,
    );
    put_segments(
        segments,
        back,
        runs,
        views,
        pool,
        out_segments,
        out_runs,
        out_views,
        out_pool,
        b,
    )
}

// The unsegmented tree, then the segments with an empty one at place `i` among them.
fn put_trees_with(
    t: TreeRow,
    segments: &[u64],
    w: Window,
    i: usize,
    prefix: &[u8],
    runs: &[u64],
    views: &[u64],
    pool: &[u8],
    out_segments: &mut [u64],
    out_runs: &mut [u64],
    out_views: &mut [u64],
    out_pool: &mut [u8],
) -> LaidTree
    requires i_bound { i ≤ held_of w (length segments.now / 12) }
    requires w_in_bounds { (plus (tree_fill (tree_in runs.now views.now pool.now t)) (sum segment_fill (put i (new_segment prefix.now) (segments_in segments.now runs.now views.now pool.now w)))).segments * 12 ≤ length out_segments.old }
    requires w_in_bounds_2 { (plus (tree_fill (tree_in runs.now views.now pool.now t)) (sum segment_fill (put i (new_segment prefix.now) (segments_in segments.now runs.now views.now pool.now w)))).runs * 3 ≤ length out_runs.old }
    requires w_in_bounds_3 { (plus (tree_fill (tree_in runs.now views.now pool.now t)) (sum segment_fill (put i (new_segment prefix.now) (segments_in segments.now runs.now views.now pool.now w)))).views * 16 ≤ length out_views.old }
    requires w_in_bounds_4 { (plus (tree_fill (tree_in runs.now views.now pool.now t)) (sum segment_fill (put i (new_segment prefix.now) (segments_in segments.now runs.now views.now pool.now w)))).bytes ≤ length out_pool.old }
    ensures value { result ≡ record { tree = tree_row empty (tree_in runs.now views.now pool.now t); past = plus (tree_fill (tree_in runs.now views.now pool.now t)) (sum segment_fill (put i (new_segment prefix.now) (segments_in segments.now runs.now views.now pool.now w))) } }
    ensures out_segments_after { out_segments.new ≡ over out_segments.old (segments_laid (tree_fill (tree_in runs.now views.now pool.now t)) (put i (new_segment prefix.now) (segments_in segments.now runs.now views.now pool.now w))) }
    ensures out_runs_after { out_runs.new ≡ over out_runs.old (tree_runs_laid empty (tree_in runs.now views.now pool.now t) ++ segments_runs_laid (tree_fill (tree_in runs.now views.now pool.now t)) (put i (new_segment prefix.now) (segments_in segments.now runs.now views.now pool.now w))) }
    ensures out_views_after { out_views.new ≡ over out_views.old (tree_views_laid empty (tree_in runs.now views.now pool.now t) ++ segments_views_laid (tree_fill (tree_in runs.now views.now pool.now t)) (put i (new_segment prefix.now) (segments_in segments.now runs.now views.now pool.now w))) }
    ensures out_pool_after { out_pool.new ≡ over out_pool.old (tree_bytes (tree_in runs.now views.now pool.now t) ++ joined segment_bytes (put i (new_segment prefix.now) (segments_in segments.now runs.now views.now pool.now w))) }
{
    let none = Fill {
        segments: 0,
        views: 0,
        runs: 0,
        borrows: 0,
        ids: 0,
        bytes: 0,
    };
    let laid = put_tree(t, runs, views, pool, out_runs, out_views, out_pool, none);
    let past = put_segments_with(
        segments,
        w,
        i,
        prefix,
        runs,
        views,
        pool,
        out_segments,
        out_runs,
        out_views,
        out_pool,
        laid.past,
    );
    LaidTree {
        tree: laid.tree,
        past,
    }
}

// Lays the manifest with an empty segment at place `i` out at the front of the tables.
pub fn put_entered(
    tables: Tables,
    m: ManifestRow,
    i: usize,
    prefix: &[u8],
    out_segments: &mut [u64],
    out_views: &mut [u64],
    out_runs: &mut [u64],
    out_borrows: &mut [u64],
    out_ids: &mut [u64],
    out_pool: &mut [u8],
) -> ManifestRow
    requires i_bound { i ≤ held_of m.segments (length tables.segments.now / 12) }
    requires out_pool_value { fits (manifest_fill (entered_at i prefix.now (manifest_in (lent_of tables) m))) (room_of (record { segments = out_segments.old; views = out_views.old; runs = out_runs.old; borrows = out_borrows.old; ids = out_ids.old; pool = out_pool.old })) ≡ true }
    ensures { record { answer = Ok (Entered i result); out = record { segments = out_segments.new; views = out_views.new; runs = out_runs.new; borrows = out_borrows.new; ids = out_ids.new; pool = out_pool.new } } ≡ laid_entry (record { segments = out_segments.old; views = out_views.old; runs = out_runs.old; borrows = out_borrows.old; ids = out_ids.old; pool = out_pool.old }) (entered i (entered_at i prefix.now (manifest_in (lent_of tables.entry) m))) }
{
    let b = m.external_dbs;
    let laid = put_trees_with(
        m.tree,
        tables.segments,
        m.segments,
        i,
        prefix,
        tables.runs,
        tables.views,
        tables.pool,
        out_segments,
        out_runs,
        out_views,
        out_pool,
    );
    let at = laid.past;
    let name = put_rest(
        m.segment_extractor_name,
        tables.borrows,
        b,
        tables.ids,
        tables.pool,
        out_borrows,
        out_ids,
        out_pool,
        at,
    );
    manifest_row(
        m,
        laid.tree,
        at.segments,
        name,
        held(b, tables.borrows.len() / 9),
    )
}
