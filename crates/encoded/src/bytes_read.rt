// The manifest of some bytes, and reading.
ghost use Rattle.std.specs.Prelude.{◌≡◌, true, [], ◌/◌};
ghost use Rattle.records.specs.Decode.{lent_of};
ghost use Rattle.records.specs.Fill.{fits};
ghost use Rattle.manifest_rows.specs.Stored.{lent};
ghost use Rattle.manifest_read.specs.Answer.{work_room};
ghost use Rattle.encoded.specs.Encoded.{on, encoded_of};
ghost use Rattle.encoded.specs.InTables.{rows_in, rows_got};
ghost use Rattle.encoded.specs.Read.{refused_with, given_of, within_of, read_to};

use copy::no_room;
use lawful::lawful;
use manifest_read::LONGEST;
use manifest_rows::fill_manifest;
use manifest_write::write_judged;
use measure::{fits_in, measure};
use records::{Fill, Limits, ManifestRow, Refusal, Tables};

// Whether working tables of so many words have room for any manifest within L1.
// inner
pub fn has_tables(
    lim: Limits,
    segments: usize,
    views: usize,
    runs: usize,
    borrows: usize,
    ids: usize,
) -> bool
    ensures { result ≡ fits lim.fill (record { segments = segments / 12; views = views / 16; runs = runs / 3; borrows = borrows / 9; ids = ids / 2; bytes = lim.fill.bytes }) }
{
    let room = Fill {
        segments: segments / 12,
        views: views / 16,
        runs: runs / 3,
        borrows: borrows / 9,
        ids: ids / 2,
        bytes: lim.fill.bytes,
    };
    fits_in(lim.fill, room)
}

// The rows that were filled, where their number is within L1.
fn rows_got(
    lim: Limits,
    got: Result<(ManifestRow, Fill, usize), usize>,
) -> Result<ManifestRow, Refusal>
    ensures { result ≡ rows_got lim got }
{
    let (row, c, _) = got.map_err(Refusal::NotTheRecord)?;
    if !fits_in(c, lim.fill) {
        return Err(Refusal::Unlawful(1));
    }
    Ok(row)
}

// Fills the working tables, which have room for any manifest within L1.
// inner
pub fn rows_of(
    lim: Limits,
    s: &[u8],
    segments: &mut [u64],
    views: &mut [u64],
    runs: &mut [u64],
    borrows: &mut [u64],
    ids: &mut [u64],
) -> Result<ManifestRow, Refusal>
    requires { fits lim.fill (work_room lim (lent segments.old views.old runs.old borrows.old ids.old s.now)) ≡ true }
    ensures { rows_in lim (lent segments.new views.new runs.new borrows.new ids.new s.now) result ≡ encoded_of lim s.now }
{
    msgpack::well_formed(s).map_err(Refusal::NotWellFormed)?;
    let got = fill_manifest(s, segments, views, runs, borrows, ids);
    rows_got(lim, got)
}

// ---- reading

// Writes the manifest of rows that keep L1, where it has room.
fn write_within(
    lim: Limits,
    tables: Tables,
    m: ManifestRow,
    room: Fill,
    out: &mut [u8],
) -> Result<usize, Refusal>
    ensures { record { answer = result; out = out.new } ≡ within_of lim room out.old (lent_of tables.entry) m }
{
    let f = measure(lim, tables, m).ok_or(Refusal::Unlawful(1))?;
    if no_room(lim, room, f) {
        return Err(Refusal::NoRoom);
    }
    write_judged(tables, m, out)
}

// Writes the manifest of rows that are lawful, where it has room.
fn write_rows(
    lim: Limits,
    tables: Tables,
    rows: Result<ManifestRow, Refusal>,
    room: Fill,
    out: &mut [u8],
) -> Result<usize, Refusal>
    ensures { record { answer = result; out = out.new } ≡ on (refused_with out.old) (given_of lim room out.old) (rows_in lim (lent_of tables.entry) rows) }
{
    let m = rows?;
    lawful(lim, tables, m).map_err(Refusal::Unlawful)?;
    write_within(lim, tables, m, room, out)
}

// Reads a manifest and writes it anew, in the shortest forms.
pub fn read(
    lim: Limits,
    s: &[u8],
    room: Fill,
    segments: &mut [u64],
    views: &mut [u64],
    runs: &mut [u64],
    borrows: &mut [u64],
    ids: &mut [u64],
    out: &mut [u8],
) -> Result<usize, Refusal>
    ensures { record { answer = result; out = out.new } ≡ read_to lim s.now room (lent segments.old views.old runs.old borrows.old ids.old []) out.old }
{
    if LONGEST < s.len() {
        return Err(Refusal::OverLimit);
    }
    if !has_tables(
        lim,
        segments.len(),
        views.len(),
        runs.len(),
        borrows.len(),
        ids.len(),
    ) {
        return Err(Refusal::NoRoom);
    }
    let rows = rows_of(lim, s, segments, views, runs, borrows, ids);
    write_rows(
        lim,
        Tables {
            segments,
            views,
            runs,
            borrows,
            ids,
            pool: s,
        },
        rows,
        room,
        out,
    )
}
