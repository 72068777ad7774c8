// Owned ids and clone on encoded manifests: bytes in, ids or encoded bytes out. The rows are read over the input itself, into working
// tables that the caller lends; what those hold afterwards is of no use. A refused call leaves the lent output as it was.
#![tactic(auto)]

mod clone_bytes;

ghost use Rattle.std.specs.Prelude.{◌≡◌, true, [], ◌/◌, ◌≤◌, length};
ghost use Rattle.records.specs.Decode.{lent_of};
ghost use Rattle.records.specs.Fill.{fits};
ghost use Rattle.copy.specs.Copy.{room_of};
ghost use Rattle.borrows.specs.Clone.{uuids_of};
ghost use Rattle.manifest_rows.specs.Stored.{lent};
ghost use Rattle.encoded.specs.InTables.{rows_in};
ghost use Rattle.encoded_borrows.specs.Owned.{owned_to};
ghost use Rattle.encoded_borrows.specs.Clone.{cloned_on, clone_to};

use borrows::owned_ssts;
use clone_bytes::clone_with;
pub use clone_bytes::write_clone;
use encoded::{has_results, has_tables, rows_of};
use ids::Uuid;
use lawful::lawful;
use manifest_read::LONGEST;
use records::{Fill, Limits, ManifestRow, Refusal, Tables};
use tables::held;

// ---- owned ids

// The ids that a manifest uses and borrows from no one, in record order, two words each.
pub fn owned(
    lim: Limits,
    s: &[u8],
    segments: &mut [u64],
    views: &mut [u64],
    runs: &mut [u64],
    borrows: &mut [u64],
    ids: &mut [u64],
    out: &mut [u64],
) -> Result<usize, Refusal>
    ensures { record { answer = result; out = out.new } ≡ owned_to lim s.now (lent segments.old views.old runs.old borrows.old ids.old []) out.old }
{
    if LONGEST < s.len() {
        return Err(Refusal::OverLimit);
    }
    if !has_tables(
        lim,
        segments.len(),
        views.len(),
        runs.len(),
        borrows.len(),
        ids.len(),
    ) {
        return Err(Refusal::NoRoom);
    }
    let m = rows_of(lim, s, segments, views, runs, borrows, ids)?;
    owned_ssts(
        lim,
        Tables {
            segments,
            views,
            runs,
            borrows,
            ids,
            pool: s,
        },
        m,
        out,
    )
}

// Clones the manifest of rows that are lawful. Where the fresh UUIDs are too few, the clone is laid with others in their place, to see how
// long it is: the words of the borrows are more than enough, and any UUID is as long as any other.
fn clone_rows(
    lim: Limits,
    tables: Tables,
    rows: Result<ManifestRow, Refusal>,
    path: &[u8],
    checkpoint: Uuid,
    fresh: &[u64],
    room: Fill,
    out_segments: &mut [u64],
    out_views: &mut [u64],
    out_runs: &mut [u64],
    out_borrows: &mut [u64],
    out_ids: &mut [u64],
    out_pool: &mut [u8],
    out: &mut [u8],
) -> Result<usize, Refusal>
    requires borrows_in_bounds { lim.fill.borrows ≤ length tables.borrows.now / 9 }
    requires out_pool_value { fits lim.fill (room_of (lent out_segments.old out_views.old out_runs.old out_borrows.old out_ids.old out_pool.old)) ≡ true }
    ensures { record { answer = result; out = out.new } ≡ cloned_on lim room out.old path.now checkpoint (uuids_of fresh.now) (rows_in lim (lent_of tables.entry) rows) }
{
    let m = rows?;
    lawful(lim, tables, m).map_err(Refusal::Unlawful)?;
    let n = held(m.external_dbs, tables.borrows.len() / 9);
    if n < fresh.len() / 2 {
        return clone_with(
            lim,
            tables,
            m,
            path,
            checkpoint,
            fresh,
            false,
            room,
            out_segments,
            out_views,
            out_runs,
            out_borrows,
            out_ids,
            out_pool,
            out,
        );
    }
    clone_with(
        lim,
        tables,
        m,
        path,
        checkpoint,
        tables.borrows,
        true,
        room,
        out_segments,
        out_views,
        out_runs,
        out_borrows,
        out_ids,
        out_pool,
        out,
    )
}

// A manifest that borrows all it uses, from the parent at `path` or from those that the parent borrows from, written. What the result
// tables hold afterwards is of no use.
pub fn clone(
    lim: Limits,
    s: &[u8],
    path: &[u8],
    checkpoint: Uuid,
    fresh: &[u64],
    room: Fill,
    segments: &mut [u64],
    views: &mut [u64],
    runs: &mut [u64],
    borrows: &mut [u64],
    ids: &mut [u64],
    out_segments: &mut [u64],
    out_views: &mut [u64],
    out_runs: &mut [u64],
    out_borrows: &mut [u64],
    out_ids: &mut [u64],
    out_pool: &mut [u8],
    out: &mut [u8],
) -> Result<usize, Refusal>
    ensures { record { answer = result; out = out.new } ≡ clone_to lim s.now path.now checkpoint (uuids_of fresh.now) room (lent segments.old views.old runs.old borrows.old ids.old []) (lent out_segments.old out_views.old out_runs.old out_borrows.old out_ids.old out_pool.old) out.old }
{
    if LONGEST < s.len() {
        return Err(Refusal::OverLimit);
    }
    if lim.path < path.len() {
        return Err(Refusal::OverLimit);
    }
    if !has_results(
        lim,
        segments.len(),
        views.len(),
        runs.len(),
        borrows.len(),
        ids.len(),
        out_segments.len(),
        out_views.len(),
        out_runs.len(),
        out_borrows.len(),
        out_ids.len(),
        out_pool.len(),
    ) {
        return Err(Refusal::NoRoom);
    }
    let rows = rows_of(lim, s, segments, views, runs, borrows, ids);
    clone_rows(
        lim,
        Tables {
            segments,
            views,
            runs,
            borrows,
            ids,
            pool: s,
        },
        rows,
        path,
        checkpoint,
        fresh,
        room,
        out_segments,
        out_views,
        out_runs,
        out_borrows,
        out_ids,
        out_pool,
        out,
    )
}
