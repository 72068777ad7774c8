// The clone of rows that were read: laid in the tables of the result, its room asked, and written.
ghost use Rattle.std.specs.Prelude.{◌≡◌, true, ◌/◌, ◌<◌, ltb, length};
ghost use Rattle.tables.specs.Window.{held_of};
ghost use Rattle.records.specs.Decode.{manifest_in, lent_of};
ghost use Rattle.records.specs.Fill.{plus, fits, manifest_fill};
ghost use Rattle.lawful.specs.Judge.{judged_of};
ghost use Rattle.copy.specs.Copy.{room_of, no_room};
ghost use Rattle.borrows.specs.Owned.{owned_of};
ghost use Rattle.borrows.specs.Clone.{uuids_of};
ghost use Rattle.borrows.specs.Bare.{lent_fill};
ghost use Rattle.manifest_write.specs.Bytes.{manifest_bytes};
ghost use Rattle.manifest_rows.specs.Stored.{lent};
ghost use Rattle.encoded_borrows.specs.Clone.{fresh_put, cloned_with};
ghost use Rattle.encoded_borrows.specs.Steps.{laid_put};

use borrows::{clone_fill, cloned_judged};
use ids::Uuid;
use manifest_write::{add_manifest, write_judged};
use measure::fits_in;
use records::{Fill, Limits, ManifestRow, Refusal, Tables};

// Whether there is no room for the clone of a lawful manifest.
fn lacks_room(lim: Limits, tables: Tables, m: ManifestRow, path: &[u8], room: Fill) -> bool
    requires { judged_of lim (lent_of tables) m ≡ Ok tt }
    ensures { result ≡ no_room lim room (plus (manifest_fill (manifest_in (lent_of tables.entry) m)) (lent_fill path.now (owned_of (manifest_in (lent_of tables.entry) m)))) }
{
    match clone_fill(lim, tables, m, path) {
        Some(f) => !fits_in(f, room),
        None => true,
    }
}

// Whether the encoded form of a manifest is longer than `out`. It is counted, and nothing is written.
fn is_longer(tables: Tables, m: ManifestRow, out: &[u8]) -> bool
    ensures { result ≡ ltb (length out.now) (length (manifest_bytes (manifest_in (lent_of tables.entry) m))) }
{
    let mut nowhere = [0u8; 1];
    let n = add_manifest(m, tables, &mut nowhere, 0);
    out.len() < n
}

// Writes a clone that was laid, or says why not: its length is judged before the number of fresh UUIDs, of which there are too `few`.
// inner
pub fn write_clone(
    tables: Tables,
    m: ManifestRow,
    few: bool,
    out: &mut [u8],
) -> Result<usize, Refusal>
    ensures { record { answer = result; out = out.new } ≡ fresh_put few (manifest_bytes (manifest_in (lent_of tables.entry) m)) out.old }
{
    if few {
        if is_longer(tables, m, out) {
            return Err(Refusal::NoRoom);
        }
        return Err(Refusal::TooFewFresh);
    }
    write_judged(tables, m, out)
}

// Tells what came of laying the clone, and writes it where it has room.
fn write_laid(
    lim: Limits,
    tables: Tables,
    m: ManifestRow,
    path: &[u8],
    few: bool,
    room: Fill,
    laid: Result<ManifestRow, Refusal>,
    out_segments: &[u64],
    out_views: &[u64],
    out_runs: &[u64],
    out_borrows: &[u64],
    out_ids: &[u64],
    out_pool: &[u8],
    out: &mut [u8],
) -> Result<usize, Refusal>
    requires { judged_of lim (lent_of tables) m ≡ Ok tt }
    ensures { record { answer = result; out = out.new } ≡ laid_put few lim room (plus (manifest_fill (manifest_in (lent_of tables.entry) m)) (lent_fill path.now (owned_of (manifest_in (lent_of tables.entry) m)))) out.old (lent out_segments.now out_views.now out_runs.now out_borrows.now out_ids.now out_pool.now) laid }
{
    let row = laid?;
    if lacks_room(lim, tables, m, path, room) {
        return Err(Refusal::NoRoom);
    }
    write_clone(
        Tables {
            segments: out_segments,
            views: out_views,
            runs: out_runs,
            borrows: out_borrows,
            ids: out_ids,
            pool: out_pool,
        },
        row,
        few,
        out,
    )
}

// Clones the manifest of lawful rows with the UUIDs `names`, which suffice for any clone within L1. The result tables have room for
// any manifest within L1.
pub fn clone_with(
    lim: Limits,
    tables: Tables,
    m: ManifestRow,
    path: &[u8],
    checkpoint: Uuid,
    names: &[u64],
    few: bool,
    room: Fill,
    out_segments: &mut [u64],
    out_views: &mut [u64],
    out_runs: &mut [u64],
    out_borrows: &mut [u64],
    out_ids: &mut [u64],
    out_pool: &mut [u8],
    out: &mut [u8],
) -> Result<usize, Refusal>
    requires m_value { judged_of lim (lent_of tables) m ≡ Ok tt }
    requires borrows_in_bounds { held_of m.external_dbs (length tables.borrows.now / 9) < lim.fill.borrows → held_of m.external_dbs (length tables.borrows.now / 9) < length names.now / 2 }
    requires out_pool_value { fits lim.fill (room_of (lent out_segments.old out_views.old out_runs.old out_borrows.old out_ids.old out_pool.old)) ≡ true }
    ensures { record { answer = result; out = out.new } ≡ cloned_with few lim room out.old path.now checkpoint (uuids_of names.now) (manifest_in (lent_of tables.entry) m) }
{
    let laid = cloned_judged(
        lim,
        tables,
        m,
        path,
        checkpoint,
        names,
        out_segments,
        out_views,
        out_runs,
        out_borrows,
        out_ids,
        out_pool,
    );
    write_laid(
        lim,
        tables,
        m,
        path,
        few,
        room,
        laid,
        out_segments,
        out_views,
        out_runs,
        out_borrows,
        out_ids,
        out_pool,
        out,
    )
}
