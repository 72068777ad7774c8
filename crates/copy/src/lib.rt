// The canonical copy: a manifest's records laid out anew, in order and with no gap.
#![tactic(auto)]

ghost use Rattle.std.specs.Prelude.{◌≡◌, true, ◌++◌, ◌+◌, ◌*◌, ◌≤◌, length};
ghost use Rattle.tables.specs.Layout.{write, joined};
ghost use Rattle.records.specs.Decode.{tree_in, segments_in, name_in, borrows_in, manifest_in, lent_of};
ghost use Rattle.records.specs.Fill.{plus, sum, key_fill, tree_fill, segment_fill, borrow_fill, name_keys, fits, manifest_fill};
ghost use Rattle.records.specs.Layout.{run, tree_row, tree_runs_laid, tree_views_laid, tree_bytes, segments_laid, segments_runs_laid, segments_views_laid, segment_bytes, name_row, borrows_laid, borrow_ids, borrow_path, manifest_row_at, layout_at};
ghost use Rattle.copy.specs.Copy.{room_of, no_room, copy_of, copy_at_of};

use emit::{LaidTree, put_borrows, put_name, put_segments, put_tree};
use measure::{fits_in, left_of, measure};
use records::{Fill, Limits, ManifestRow, Place, Refusal, Tables, TreeRow};
use tables::{Window, held};

// The unsegmented tree, then the segments.
fn put_trees(
    t: TreeRow,
    segments: &[u64],
    w: Window,
    runs: &[u64],
    views: &[u64],
    pool: &[u8],
    out_segments: &mut [u64],
    out_runs: &mut [u64],
    out_views: &mut [u64],
    out_pool: &mut [u8],
    c: Fill,
) -> LaidTree
    requires w_in_bounds { (c.segments + (plus (tree_fill (tree_in runs.now views.now pool.now t)) (sum segment_fill (segments_in segments.now runs.now views.now pool.now w))).segments) * 12 ≤ length out_segments.old }
    requires w_in_bounds_2 { (c.runs + (plus (tree_fill (tree_in runs.now views.now pool.now t)) (sum segment_fill (segments_in segments.now runs.now views.now pool.now w))).runs) * 3 ≤ length out_runs.old }
    requires w_in_bounds_3 { (c.views + (plus (tree_fill (tree_in runs.now views.now pool.now t)) (sum segment_fill (segments_in segments.now runs.now views.now pool.now w))).views) * 16 ≤ length out_views.old }
    requires w_in_bounds_4 { c.bytes + (plus (tree_fill (tree_in runs.now views.now pool.now t)) (sum segment_fill (segments_in segments.now runs.now views.now pool.now w))).bytes ≤ length out_pool.old }
    ensures value { result ≡ record { tree = tree_row c (tree_in runs.now views.now pool.now t); past = plus c (plus (tree_fill (tree_in runs.now views.now pool.now t)) (sum segment_fill (segments_in segments.now runs.now views.now pool.now w))) } }
    ensures out_segments_after { out_segments.new ≡ write out_segments.old (c.segments * 12) (segments_laid (plus c (tree_fill (tree_in runs.now views.now pool.now t))) (segments_in segments.now runs.now views.now pool.now w)) }
    ensures out_runs_after { out_runs.new ≡ write out_runs.old (c.runs * 3) (tree_runs_laid c (tree_in runs.now views.now pool.now t) ++ segments_runs_laid (plus c (tree_fill (tree_in runs.now views.now pool.now t))) (segments_in segments.now runs.now views.now pool.now w)) }
    ensures out_views_after { out_views.new ≡ write out_views.old (c.views * 16) (tree_views_laid c (tree_in runs.now views.now pool.now t) ++ segments_views_laid (plus c (tree_fill (tree_in runs.now views.now pool.now t))) (segments_in segments.now runs.now views.now pool.now w)) }
    ensures out_pool_after { out_pool.new ≡ write out_pool.old c.bytes (tree_bytes (tree_in runs.now views.now pool.now t) ++ joined segment_bytes (segments_in segments.now runs.now views.now pool.now w)) }
{
    let laid = put_tree(t, runs, views, pool, out_runs, out_views, out_pool, c);
    let tree = laid.tree;
    let at = laid.past;
    let past = put_segments(
        segments,
        w,
        runs,
        views,
        pool,
        out_segments,
        out_runs,
        out_views,
        out_pool,
        at,
    );
    LaidTree { tree, past }
}

// The name, then the borrows.
// inner
pub fn put_rest(
    n: Option<Place>,
    borrows: &[u64],
    w: Window,
    ids: &[u64],
    pool: &[u8],
    out_borrows: &mut [u64],
    out_ids: &mut [u64],
    out_pool: &mut [u8],
    c: Fill,
) -> Option<Place>
    requires w_in_bounds { (c.borrows + (plus (sum key_fill (name_keys (name_in pool.now n))) (sum borrow_fill (borrows_in borrows.now ids.now pool.now w))).borrows) * 9 ≤ length out_borrows.old }
    requires w_in_bounds_2 { (c.ids + (plus (sum key_fill (name_keys (name_in pool.now n))) (sum borrow_fill (borrows_in borrows.now ids.now pool.now w))).ids) * 2 ≤ length out_ids.old }
    requires w_in_bounds_3 { c.bytes + (plus (sum key_fill (name_keys (name_in pool.now n))) (sum borrow_fill (borrows_in borrows.now ids.now pool.now w))).bytes ≤ length out_pool.old }
    ensures value { result ≡ name_row c.bytes (name_in pool.now n) }
    ensures out_borrows_after { out_borrows.new ≡ write out_borrows.old (c.borrows * 9) (borrows_laid (plus c (sum key_fill (name_keys (name_in pool.now n)))) (borrows_in borrows.now ids.now pool.now w)) }
    ensures out_ids_after { out_ids.new ≡ write out_ids.old (c.ids * 2) (joined borrow_ids (borrows_in borrows.now ids.now pool.now w)) }
    ensures out_pool_after { out_pool.new ≡ write out_pool.old c.bytes (run (name_keys (name_in pool.now n)) ++ joined borrow_path (borrows_in borrows.now ids.now pool.now w)) }
{
    let laid = put_name(n, pool, out_pool, c);
    let name = laid.name;
    let at = laid.past;
    put_borrows(borrows, w, ids, pool, out_borrows, out_ids, out_pool, at);
    name
}

// The row of a manifest like `m` whose records were laid at these windows.
// inner
pub fn manifest_row_at(
    m: ManifestRow,
    tree: TreeRow,
    segments: Window,
    name: Option<Place>,
    borrows: Window,
) -> ManifestRow
    ensures { result ≡ record { initialized = m.initialized; tree = tree; segments = segments; segment_extractor_name = name; next_wal_sst_id = m.next_wal_sst_id; replay_after_wal_id = m.replay_after_wal_id; last_l0_clock_tick = m.last_l0_clock_tick; last_l0_seq = m.last_l0_seq; recent_snapshot_min_seq = m.recent_snapshot_min_seq; external_dbs = borrows; writer_epoch = m.writer_epoch; compactor_epoch = m.compactor_epoch } }
{
    ManifestRow {
        initialized: m.initialized,
        tree,
        segments,
        segment_extractor_name: name,
        next_wal_sst_id: m.next_wal_sst_id,
        replay_after_wal_id: m.replay_after_wal_id,
        last_l0_clock_tick: m.last_l0_clock_tick,
        last_l0_seq: m.last_l0_seq,
        recent_snapshot_min_seq: m.recent_snapshot_min_seq,
        external_dbs: borrows,
        writer_epoch: m.writer_epoch,
        compactor_epoch: m.compactor_epoch,
    }
}

// The same, for records at the front of the tables.
// inner
pub fn manifest_row(
    m: ManifestRow,
    tree: TreeRow,
    segments: usize,
    name: Option<Place>,
    borrows: usize,
) -> ManifestRow
    ensures { result ≡ record { initialized = m.initialized; tree = tree; segments = record { first = 0; count = segments }; segment_extractor_name = name; next_wal_sst_id = m.next_wal_sst_id; replay_after_wal_id = m.replay_after_wal_id; last_l0_clock_tick = m.last_l0_clock_tick; last_l0_seq = m.last_l0_seq; recent_snapshot_min_seq = m.recent_snapshot_min_seq; external_dbs = record { first = 0; count = borrows }; writer_epoch = m.writer_epoch; compactor_epoch = m.compactor_epoch } }
{
    let s = Window {
        first: 0,
        count: segments,
    };
    let b = Window {
        first: 0,
        count: borrows,
    };
    manifest_row_at(m, tree, s, name, b)
}

// Lays a manifest out behind what fills `c`.
// inner
pub fn put_manifest(
    tables: Tables,
    m: ManifestRow,
    out_segments: &mut [u64],
    out_views: &mut [u64],
    out_runs: &mut [u64],
    out_borrows: &mut [u64],
    out_ids: &mut [u64],
    out_pool: &mut [u8],
    c: Fill,
) -> ManifestRow
    requires { fits (plus c (manifest_fill (manifest_in (lent_of tables) m))) (room_of (record { segments = out_segments.old; views = out_views.old; runs = out_runs.old; borrows = out_borrows.old; ids = out_ids.old; pool = out_pool.old })) ≡ true }
    ensures value { result ≡ manifest_row_at c (manifest_in (lent_of tables.entry) m) }
    ensures out_segments_after { out_segments.new ≡ write out_segments.old (c.segments * 12) (layout_at c (manifest_in (lent_of tables.entry) m)).segments }
    ensures out_views_after { out_views.new ≡ write out_views.old (c.views * 16) (layout_at c (manifest_in (lent_of tables.entry) m)).views }
    ensures out_runs_after { out_runs.new ≡ write out_runs.old (c.runs * 3) (layout_at c (manifest_in (lent_of tables.entry) m)).runs }
    ensures out_borrows_after { out_borrows.new ≡ write out_borrows.old (c.borrows * 9) (layout_at c (manifest_in (lent_of tables.entry) m)).borrows }
    ensures out_ids_after { out_ids.new ≡ write out_ids.old (c.ids * 2) (layout_at c (manifest_in (lent_of tables.entry) m)).ids }
    ensures out_pool_after { out_pool.new ≡ write out_pool.old c.bytes (layout_at c (manifest_in (lent_of tables.entry) m)).pool }
{
    // Field by field: where `m.tree` is handed on as it stands, LLVM copies all of `m` before, by a call of memcpy, and the archive of the
    // calls on tables is to need no such name from outside.
    let t = TreeRow {
        view: m.tree.view,
        sst: m.tree.sst,
        l0: m.tree.l0,
        compacted: m.tree.compacted,
    };
    let w = m.segments;
    let n = m.segment_extractor_name;
    let b = m.external_dbs;
    let laid = put_trees(
        t,
        tables.segments,
        w,
        tables.runs,
        tables.views,
        tables.pool,
        out_segments,
        out_runs,
        out_views,
        out_pool,
        c,
    );
    let tree = laid.tree;
    let at = laid.past;
    let name = put_rest(
        n,
        tables.borrows,
        b,
        tables.ids,
        tables.pool,
        out_borrows,
        out_ids,
        out_pool,
        at,
    );
    let own = Window {
        first: c.segments,
        count: held(w, tables.segments.len() / 12),
    };
    let lent = Window {
        first: c.borrows,
        count: held(b, tables.borrows.len() / 9),
    };
    manifest_row_at(m, tree, own, name, lent)
}

// Whether a result that fills so much breaks a number in L1 or lacks room.
// inner
pub fn no_room(lim: Limits, room: Fill, res: Fill) -> bool
    ensures { result ≡ no_room lim room res }
{
    let most = lim.fill;
    if fits_in(res, most) {
        return !fits_in(res, room);
    }
    true
}

// The canonical copy behind what fills `c`.
// inner
pub fn copy_at(
    lim: Limits,
    tables: Tables,
    m: ManifestRow,
    out_segments: &mut [u64],
    out_views: &mut [u64],
    out_runs: &mut [u64],
    out_borrows: &mut [u64],
    out_ids: &mut [u64],
    out_pool: &mut [u8],
    c: Fill,
) -> Result<ManifestRow, Refusal>
    requires { fits c (room_of (record { segments = out_segments.old; views = out_views.old; runs = out_runs.old; borrows = out_borrows.old; ids = out_ids.old; pool = out_pool.old })) ≡ true }
    ensures { record { answer = result; out = record { segments = out_segments.new; views = out_views.new; runs = out_runs.new; borrows = out_borrows.new; ids = out_ids.new; pool = out_pool.new } } ≡ copy_at_of lim c (lent_of tables.entry) m (record { segments = out_segments.old; views = out_views.old; runs = out_runs.old; borrows = out_borrows.old; ids = out_ids.old; pool = out_pool.old }) }
{
    match measure(lim, tables, m) {
        None => Err(Refusal::Unlawful(1)),
        Some(f) => {
            let room = Fill {
                segments: out_segments.len() / 12,
                views: out_views.len() / 16,
                runs: out_runs.len() / 3,
                borrows: out_borrows.len() / 9,
                ids: out_ids.len() / 2,
                bytes: out_pool.len(),
            };
            let left = left_of(room, c);
            if no_room(lim, left, f) {
                return Err(Refusal::NoRoom);
            }
            Ok(put_manifest(
                tables,
                m,
                out_segments,
                out_views,
                out_runs,
                out_borrows,
                out_ids,
                out_pool,
                c,
            ))
        }
    }
}

// The canonical copy: the same records, laid out in order with no gaps, or nothing changed.
pub fn canonical_copy(
    lim: Limits,
    tables: Tables,
    m: ManifestRow,
    out_segments: &mut [u64],
    out_views: &mut [u64],
    out_runs: &mut [u64],
    out_borrows: &mut [u64],
    out_ids: &mut [u64],
    out_pool: &mut [u8],
) -> Result<ManifestRow, Refusal>
    ensures { record { answer = result; out = record { segments = out_segments.new; views = out_views.new; runs = out_runs.new; borrows = out_borrows.new; ids = out_ids.new; pool = out_pool.new } } ≡ copy_of lim (lent_of tables.entry) m (record { segments = out_segments.old; views = out_views.old; runs = out_runs.old; borrows = out_borrows.old; ids = out_ids.old; pool = out_pool.old }) }
{
    let none = Fill {
        segments: 0,
        views: 0,
        runs: 0,
        borrows: 0,
        ids: 0,
        bytes: 0,
    };
    copy_at(
        lim,
        tables,
        m,
        out_segments,
        out_views,
        out_runs,
        out_borrows,
        out_ids,
        out_pool,
        none,
    )
}
