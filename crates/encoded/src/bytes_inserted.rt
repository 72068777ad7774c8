// Insert: the manifest of some bytes with one segment more, written.
ghost use Rattle.std.specs.Prelude.{◌≡◌, true, [], ◌/◌, ◌≤◌, length};
ghost use Rattle.records.specs.Decode.{manifest_in, lent_of};
ghost use Rattle.records.specs.Fill.{plus, fits, manifest_fill};
ghost use Rattle.measure.specs.Measure.{l1_of};
ghost use Rattle.copy.specs.Copy.{room_of, no_room};
ghost use Rattle.insert.specs.Insert.{new_fill};
ghost use Rattle.manifest_write.specs.Bytes.{manifest_bytes};
ghost use Rattle.manifest_write.specs.Answer.{put_of};
ghost use Rattle.manifest_rows.specs.Stored.{lent};
ghost use Rattle.encoded.specs.InTables.{rows_in};
ghost use Rattle.encoded.specs.Insert.{wrote, inserted_in, insert_to};
ghost use Rattle.encoded.specs.Steps.{laid_to, both_fit};

use crate::InsertedTo;
use crate::bytes_read::{has_tables, rows_of};
use insert::{Inserted, filled_with, insert_judged};
use lawful::lawful;
use manifest_read::LONGEST;
use manifest_write::write_judged;
use measure::fits_in;
use records::{Fill, Limits, ManifestRow, Refusal, Tables};

// Whether there is no room for a manifest that keeps L1 with an empty segment more, of a prefix of `len` bytes.
fn lacks_room(lim: Limits, tables: Tables, m: ManifestRow, len: usize, room: Fill) -> bool
    requires { l1_of lim (lent_of tables) m ≡ true }
    ensures { result ≡ no_room lim room (plus (manifest_fill (manifest_in (lent_of tables.entry) m)) (new_fill len)) }
{
    match filled_with(lim, tables, m, len) {
        Some(f) => !fits_in(f, room),
        None => true,
    }
}

// Writes the manifest that a prefix entered at place `i`.
fn write_entered(
    tables: Tables,
    m: ManifestRow,
    i: usize,
    out: &mut [u8],
) -> Result<InsertedTo, Refusal>
    ensures { record { answer = result; out = out.new } ≡ wrote i (put_of (manifest_bytes (manifest_in (lent_of tables.entry) m)) out.old) }
{
    let n = write_judged(tables, m, out)?;
    Ok(InsertedTo::Entered(i, n))
}

// Tells what came of the insertion, and writes the manifest that the prefix entered, where it has room.
fn write_inserted(
    lim: Limits,
    tables: Tables,
    m: ManifestRow,
    len: usize,
    room: Fill,
    laid: Result<Inserted, Refusal>,
    out_segments: &[u64],
    out_views: &[u64],
    out_runs: &[u64],
    out_borrows: &[u64],
    out_ids: &[u64],
    out_pool: &[u8],
    out: &mut [u8],
) -> Result<InsertedTo, Refusal>
    requires { l1_of lim (lent_of tables) m ≡ true }
    ensures { record { answer = result; out = out.new } ≡ laid_to lim room (plus (manifest_fill (manifest_in (lent_of tables.entry) m)) (new_fill len)) out.old (lent out_segments.now out_views.now out_runs.now out_borrows.now out_ids.now out_pool.now) laid }
{
    match laid? {
        Inserted::Found(i) => Ok(InsertedTo::Found(i)),
        Inserted::Entered(i, row) => {
            if lacks_room(lim, tables, m, len, room) {
                return Err(Refusal::NoRoom);
            }
            write_entered(
                Tables {
                    segments: out_segments,
                    views: out_views,
                    runs: out_runs,
                    borrows: out_borrows,
                    ids: out_ids,
                    pool: out_pool,
                },
                row,
                i,
                out,
            )
        }
    }
}

// Inserts into the manifest of rows that are lawful. The result tables have room for any manifest within L1.
fn insert_rows(
    lim: Limits,
    tables: Tables,
    rows: Result<ManifestRow, Refusal>,
    prefix: &[u8],
    room: Fill,
    out_segments: &mut [u64],
    out_views: &mut [u64],
    out_runs: &mut [u64],
    out_borrows: &mut [u64],
    out_ids: &mut [u64],
    out_pool: &mut [u8],
    out: &mut [u8],
) -> Result<InsertedTo, Refusal>
    requires prefix_len_bound { length prefix.now ≤ lim.prefix }
    requires out_pool_value { fits lim.fill (room_of (lent out_segments.old out_views.old out_runs.old out_borrows.old out_ids.old out_pool.old)) ≡ true }
    ensures { record { answer = result; out = out.new } ≡ inserted_in lim room prefix.now out.old (rows_in lim (lent_of tables.entry) rows) }
{
    let m = rows?;
    lawful(lim, tables, m).map_err(Refusal::Unlawful)?;
    let laid = insert_judged(
        lim,
        tables,
        m,
        prefix,
        out_segments,
        out_views,
        out_runs,
        out_borrows,
        out_ids,
        out_pool,
    );
    write_inserted(
        lim,
        tables,
        m,
        prefix.len(),
        room,
        laid,
        out_segments,
        out_views,
        out_runs,
        out_borrows,
        out_ids,
        out_pool,
        out,
    )
}

// Whether working tables and result tables of so many words have room for any manifest within L1.
// inner
#[tactic(auto, unfolding(crate::specs::Steps::both_fit))]
pub fn has_results(
    lim: Limits,
    segments: usize,
    views: usize,
    runs: usize,
    borrows: usize,
    ids: usize,
    out_segments: usize,
    out_views: usize,
    out_runs: usize,
    out_borrows: usize,
    out_ids: usize,
    out_pool: usize,
) -> bool
    ensures { result ≡ both_fit lim.fill (record { segments = segments / 12; views = views / 16; runs = runs / 3; borrows = borrows / 9; ids = ids / 2; bytes = lim.fill.bytes }) (record { segments = out_segments / 12; views = out_views / 16; runs = out_runs / 3; borrows = out_borrows / 9; ids = out_ids / 2; bytes = out_pool }) }
{
    let room = Fill {
        segments: out_segments / 12,
        views: out_views / 16,
        runs: out_runs / 3,
        borrows: out_borrows / 9,
        ids: out_ids / 2,
        bytes: out_pool,
    };
    has_tables(lim, segments, views, runs, borrows, ids) && fits_in(lim.fill, room)
}

// The prefix's segment: found where it is held, else entered with an empty tree, and the manifest written. What the result tables
// hold afterwards is of no use.
pub fn insert(
    lim: Limits,
    s: &[u8],
    prefix: &[u8],
    room: Fill,
    segments: &mut [u64],
    views: &mut [u64],
    runs: &mut [u64],
    borrows: &mut [u64],
    ids: &mut [u64],
    out_segments: &mut [u64],
    out_views: &mut [u64],
    out_runs: &mut [u64],
    out_borrows: &mut [u64],
    out_ids: &mut [u64],
    out_pool: &mut [u8],
    out: &mut [u8],
) -> Result<InsertedTo, Refusal>
    ensures { record { answer = result; out = out.new } ≡ insert_to lim s.now prefix.now room (lent segments.old views.old runs.old borrows.old ids.old []) (lent out_segments.old out_views.old out_runs.old out_borrows.old out_ids.old out_pool.old) out.old }
{
    if LONGEST < s.len() {
        return Err(Refusal::OverLimit);
    }
    if lim.prefix < prefix.len() {
        return Err(Refusal::OverLimit);
    }
    if !has_results(
        lim,
        segments.len(),
        views.len(),
        runs.len(),
        borrows.len(),
        ids.len(),
        out_segments.len(),
        out_views.len(),
        out_runs.len(),
        out_borrows.len(),
        out_ids.len(),
        out_pool.len(),
    ) {
        return Err(Refusal::NoRoom);
    }
    let rows = rows_of(lim, s, segments, views, runs, borrows, ids);
    insert_rows(
        lim,
        Tables {
            segments,
            views,
            runs,
            borrows,
            ids,
            pool: s,
        },
        rows,
        prefix,
        room,
        out_segments,
        out_views,
        out_runs,
        out_borrows,
        out_ids,
        out_pool,
        out,
    )
}
