// A clone measured and laid out.
ghost use Rattle.std.specs.Prelude.{◌≡◌, true, ◌+◌, ◌/◌, ◌<◌, length};
ghost use Rattle.tables.specs.Layout.{over};
ghost use Rattle.tables.specs.Window.{held_of};
ghost use Rattle.records.specs.Layout.{manifest_row, layout};
ghost use Rattle.records.specs.Decode.{manifest_in, lent_of};
ghost use Rattle.records.specs.Fill.{fits, manifest_fill};
ghost use Rattle.lawful.specs.Judge.{judged_of};
ghost use Rattle.copy.specs.Copy.{room_of};
ghost use Rattle.measure.specs.Walk.{add_of};
ghost use Rattle.borrows.specs.Owned.{owned_of};
ghost use Rattle.borrows.specs.Clone.{uuids_of, cloned_of};
ghost use Rattle.borrows.specs.Bare.{bare_of, bare_row, lent_fill};

use crate::clone_lenders::put_clone_borrows;
use crate::ids_owned::{count_owned, id_fill};
use copy::{manifest_row, put_manifest};
use ids::Uuid;
use measure::{add, measure};
use records::{Fill, Limits, ManifestRow, Tables};
use tables::{Window, held};

// The row of a manifest like `m` that is not initialized and borrows nothing.
fn bare(m: ManifestRow) -> ManifestRow
    ensures { result ≡ bare_row m }
{
    let tree = m.tree;
    let segments = m.segments;
    let name = m.segment_extractor_name;
    ManifestRow {
        initialized: false,
        tree,
        segments,
        segment_extractor_name: name,
        next_wal_sst_id: m.next_wal_sst_id,
        replay_after_wal_id: m.replay_after_wal_id,
        last_l0_clock_tick: m.last_l0_clock_tick,
        last_l0_seq: m.last_l0_seq,
        recent_snapshot_min_seq: m.recent_snapshot_min_seq,
        external_dbs: Window { first: 0, count: 0 },
        writer_epoch: m.writer_epoch,
        compactor_epoch: m.compactor_epoch,
    }
}

// What a lawful manifest fills without its borrows.
pub fn bare_fill(lim: Limits, tables: Tables, m: ManifestRow) -> Fill
    requires { judged_of lim (lent_of tables) m ≡ Ok tt }
    ensures { result ≡ manifest_fill (bare_of (manifest_in (lent_of tables.entry) m)) }
{
    let b = bare(m);
    match measure(lim, tables, b) {
        None => id_fill(0),
        Some(f) => f,
    }
}

// What the clone of a lawful manifest fills, where that is within the limits.
// inner
pub fn clone_fill(lim: Limits, tables: Tables, m: ManifestRow, path: &[u8]) -> Option<Fill>
    requires { judged_of lim (lent_of tables) m ≡ Ok tt }
    ensures { result ≡ add_of lim.fill (manifest_fill (manifest_in (lent_of tables.entry) m)) (lent_fill path.now (owned_of (manifest_in (lent_of tables.entry) m))) }
{
    match measure(lim, tables, m) {
        None => None,
        Some(f) => {
            let most = lim.fill;
            let more = Fill {
                segments: 0,
                views: 0,
                runs: 0,
                borrows: 1,
                ids: count_owned(
                    tables.segments,
                    tables.views,
                    tables.runs,
                    tables.borrows,
                    tables.ids,
                    m,
                ),
                bytes: path.len(),
            };
            add(most, f, more)
        }
    }
}

// Lays a manifest at the front of the tables: behind nothing.
fn put_front(
    tables: Tables,
    m: ManifestRow,
    out_segments: &mut [u64],
    out_views: &mut [u64],
    out_runs: &mut [u64],
    out_borrows: &mut [u64],
    out_ids: &mut [u64],
    out_pool: &mut [u8],
) -> ManifestRow
    requires { fits (manifest_fill (manifest_in (lent_of tables) m)) (room_of (record { segments = out_segments.old; views = out_views.old; runs = out_runs.old; borrows = out_borrows.old; ids = out_ids.old; pool = out_pool.old })) ≡ true }
    ensures value { result ≡ manifest_row (manifest_in (lent_of tables.entry) m) }
    ensures out_segments_after { out_segments.new ≡ over out_segments.old (layout (manifest_in (lent_of tables.entry) m)).segments }
    ensures out_views_after { out_views.new ≡ over out_views.old (layout (manifest_in (lent_of tables.entry) m)).views }
    ensures out_runs_after { out_runs.new ≡ over out_runs.old (layout (manifest_in (lent_of tables.entry) m)).runs }
    ensures out_borrows_after { out_borrows.new ≡ over out_borrows.old (layout (manifest_in (lent_of tables.entry) m)).borrows }
    ensures out_ids_after { out_ids.new ≡ over out_ids.old (layout (manifest_in (lent_of tables.entry) m)).ids }
    ensures out_pool_after { out_pool.new ≡ over out_pool.old (layout (manifest_in (lent_of tables.entry) m)).pool }
{
    let none = Fill {
        segments: 0,
        views: 0,
        runs: 0,
        borrows: 0,
        ids: 0,
        bytes: 0,
    };
    put_manifest(
        tables,
        m,
        out_segments,
        out_views,
        out_runs,
        out_borrows,
        out_ids,
        out_pool,
        none,
    )
}

// Lays a manifest without its borrows at the front of the tables.
fn put_bare(
    tables: Tables,
    m: ManifestRow,
    out_segments: &mut [u64],
    out_views: &mut [u64],
    out_runs: &mut [u64],
    out_borrows: &mut [u64],
    out_ids: &mut [u64],
    out_pool: &mut [u8],
) -> ManifestRow
    requires { fits (manifest_fill (bare_of (manifest_in (lent_of tables) m))) (room_of (record { segments = out_segments.old; views = out_views.old; runs = out_runs.old; borrows = out_borrows.old; ids = out_ids.old; pool = out_pool.old })) ≡ true }
    ensures value { result ≡ manifest_row (bare_of (manifest_in (lent_of tables.entry) m)) }
    ensures out_segments_after { out_segments.new ≡ over out_segments.old (layout (bare_of (manifest_in (lent_of tables.entry) m))).segments }
    ensures out_views_after { out_views.new ≡ over out_views.old (layout (bare_of (manifest_in (lent_of tables.entry) m))).views }
    ensures out_runs_after { out_runs.new ≡ over out_runs.old (layout (bare_of (manifest_in (lent_of tables.entry) m))).runs }
    ensures out_borrows_after { out_borrows.new ≡ over out_borrows.old (layout (bare_of (manifest_in (lent_of tables.entry) m))).borrows }
    ensures out_ids_after { out_ids.new ≡ over out_ids.old (layout (bare_of (manifest_in (lent_of tables.entry) m))).ids }
    ensures out_pool_after { out_pool.new ≡ over out_pool.old (layout (bare_of (manifest_in (lent_of tables.entry) m))).pool }
{
    let b = bare(m);
    put_front(
        tables,
        b,
        out_segments,
        out_views,
        out_runs,
        out_borrows,
        out_ids,
        out_pool,
    )
}

// Lays the clone at the front of the tables: all but its borrows, which fills `c`, then its borrows.
pub fn put_clone(
    tables: Tables,
    m: ManifestRow,
    path: &[u8],
    checkpoint: Uuid,
    fresh: &[u64],
    out_segments: &mut [u64],
    out_views: &mut [u64],
    out_runs: &mut [u64],
    out_borrows: &mut [u64],
    out_ids: &mut [u64],
    out_pool: &mut [u8],
    c: Fill,
) -> ManifestRow
    requires c_value { c ≡ manifest_fill (bare_of (manifest_in (lent_of tables) m)) }
    requires borrows_in_bounds { held_of m.external_dbs (length tables.borrows.now / 9) < length fresh.now / 2 }
    requires out_pool_value { fits (manifest_fill (cloned_of (manifest_in (lent_of tables) m) path.now checkpoint (uuids_of fresh.now))) (room_of (record { segments = out_segments.old; views = out_views.old; runs = out_runs.old; borrows = out_borrows.old; ids = out_ids.old; pool = out_pool.old })) ≡ true }
    ensures value { result ≡ manifest_row (cloned_of (manifest_in (lent_of tables.entry) m) path.now checkpoint (uuids_of fresh.now)) }
    ensures out_segments_after { out_segments.new ≡ over out_segments.old (layout (cloned_of (manifest_in (lent_of tables.entry) m) path.now checkpoint (uuids_of fresh.now))).segments }
    ensures out_views_after { out_views.new ≡ over out_views.old (layout (cloned_of (manifest_in (lent_of tables.entry) m) path.now checkpoint (uuids_of fresh.now))).views }
    ensures out_runs_after { out_runs.new ≡ over out_runs.old (layout (cloned_of (manifest_in (lent_of tables.entry) m) path.now checkpoint (uuids_of fresh.now))).runs }
    ensures out_borrows_after { out_borrows.new ≡ over out_borrows.old (layout (cloned_of (manifest_in (lent_of tables.entry) m) path.now checkpoint (uuids_of fresh.now))).borrows }
    ensures out_ids_after { out_ids.new ≡ over out_ids.old (layout (cloned_of (manifest_in (lent_of tables.entry) m) path.now checkpoint (uuids_of fresh.now))).ids }
    ensures out_pool_after { out_pool.new ≡ over out_pool.old (layout (cloned_of (manifest_in (lent_of tables.entry) m) path.now checkpoint (uuids_of fresh.now))).pool }
{
    let w = m.external_dbs;
    let n = held(w, tables.borrows.len() / 9);
    let laid = put_bare(
        tables,
        m,
        out_segments,
        out_views,
        out_runs,
        out_borrows,
        out_ids,
        out_pool,
    );
    put_clone_borrows(
        tables,
        m,
        path,
        checkpoint,
        fresh,
        out_borrows,
        out_ids,
        out_pool,
        c,
    );
    let tree = laid.tree;
    let own = laid.segments;
    let name = laid.segment_extractor_name;
    manifest_row(laid, tree, own.count, name, n + 1)
}
