// Manifests from MessagePack: rows over the input itself, judged, then copied canonically.
#![tactic(auto)]

ghost use Rattle.std.specs.Prelude.{◌≡◌, true};
ghost use Rattle.records.specs.Decode.{lent_of};
ghost use Rattle.records.specs.Fill.{fits};
ghost use Rattle.copy.specs.Copy.{room_of, given_at, copy_at_of};
ghost use Rattle.lawful.specs.Judge.{judged_of};
ghost use Rattle.manifest_values.specs.Read.{manifest_at};
ghost use Rattle.manifest_read.specs.Answer.{by_law, by_record, work_room, read_of, read_at_of};

use copy::copy_at;
use lawful::lawful;
use manifest_rows::fill_manifest;
use measure::fits_in;
use records::{Fill, Limits, ManifestRow, Refusal, Tables};

// Judges rows, then copies what is lawful behind what fills `c`.
fn judged_copy(
    lim: Limits,
    tables: Tables,
    m: ManifestRow,
    out_segments: &mut [u64],
    out_views: &mut [u64],
    out_runs: &mut [u64],
    out_borrows: &mut [u64],
    out_ids: &mut [u64],
    out_pool: &mut [u8],
    c: Fill,
) -> Result<ManifestRow, Refusal>
    requires { fits c (room_of (record { segments = out_segments.old; views = out_views.old; runs = out_runs.old; borrows = out_borrows.old; ids = out_ids.old; pool = out_pool.old })) ≡ true }
    ensures { record { answer = result; out = record { segments = out_segments.new; views = out_views.new; runs = out_runs.new; borrows = out_borrows.new; ids = out_ids.new; pool = out_pool.new } } ≡ by_law (judged_of lim (lent_of tables.entry) m) (copy_at_of lim c (lent_of tables.entry) m (record { segments = out_segments.old; views = out_views.old; runs = out_runs.old; borrows = out_borrows.old; ids = out_ids.old; pool = out_pool.old })) (record { segments = out_segments.old; views = out_views.old; runs = out_runs.old; borrows = out_borrows.old; ids = out_ids.old; pool = out_pool.old }) }
{
    lawful(lim, tables, m).map_err(Refusal::Unlawful)?;
    copy_at(
        lim,
        tables,
        m,
        out_segments,
        out_views,
        out_runs,
        out_borrows,
        out_ids,
        out_pool,
        c,
    )
}

// Reads the rows and judges them. The working tables have room for any manifest within L1.
fn read_rows(
    lim: Limits,
    s: &[u8],
    segments: &mut [u64],
    views: &mut [u64],
    runs: &mut [u64],
    borrows: &mut [u64],
    ids: &mut [u64],
    out_segments: &mut [u64],
    out_views: &mut [u64],
    out_runs: &mut [u64],
    out_borrows: &mut [u64],
    out_ids: &mut [u64],
    out_pool: &mut [u8],
    c: Fill,
) -> Result<ManifestRow, Refusal>
    requires out_pool_value { fits c (room_of (record { segments = out_segments.old; views = out_views.old; runs = out_runs.old; borrows = out_borrows.old; ids = out_ids.old; pool = out_pool.old })) ≡ true }
    requires s_value { fits lim.fill (work_room lim (record { segments = segments.old; views = views.old; runs = runs.old; borrows = borrows.old; ids = ids.old; pool = s.now })) ≡ true }
    ensures { record { answer = result; out = record { segments = out_segments.new; views = out_views.new; runs = out_runs.new; borrows = out_borrows.new; ids = out_ids.new; pool = out_pool.new } } ≡ by_record lim (λ m. given_at lim c m (record { segments = out_segments.old; views = out_views.old; runs = out_runs.old; borrows = out_borrows.old; ids = out_ids.old; pool = out_pool.old })) (record { segments = out_segments.old; views = out_views.old; runs = out_runs.old; borrows = out_borrows.old; ids = out_ids.old; pool = out_pool.old }) (manifest_at s.now 0) }
{
    let filled = fill_manifest(s, segments, views, runs, borrows, ids);
    let (row, f, _) = filled.map_err(Refusal::NotTheRecord)?;
    if !fits_in(f, lim.fill) {
        return Err(Refusal::Unlawful(1));
    }
    judged_copy(
        lim,
        Tables {
            segments,
            views,
            runs,
            borrows,
            ids,
            pool: s,
        },
        row,
        out_segments,
        out_views,
        out_runs,
        out_borrows,
        out_ids,
        out_pool,
        c,
    )
}

// How many bytes an encoded manifest may have.
pub const LONGEST: usize = 0x1_0000;

// Reads a manifest behind what fills `c`: the lent output may hold others before it.
// inner
#[tactic(auto, unfolding(crate::specs::Answer::read_at_of))]
pub fn read_at(
    lim: Limits,
    s: &[u8],
    segments: &mut [u64],
    views: &mut [u64],
    runs: &mut [u64],
    borrows: &mut [u64],
    ids: &mut [u64],
    out_segments: &mut [u64],
    out_views: &mut [u64],
    out_runs: &mut [u64],
    out_borrows: &mut [u64],
    out_ids: &mut [u64],
    out_pool: &mut [u8],
    c: Fill,
) -> Result<ManifestRow, Refusal>
    requires { fits c (room_of (record { segments = out_segments.old; views = out_views.old; runs = out_runs.old; borrows = out_borrows.old; ids = out_ids.old; pool = out_pool.old })) ≡ true }
    ensures { record { answer = result; out = record { segments = out_segments.new; views = out_views.new; runs = out_runs.new; borrows = out_borrows.new; ids = out_ids.new; pool = out_pool.new } } ≡ read_at_of lim s.now (record { segments = segments.old; views = views.old; runs = runs.old; borrows = borrows.old; ids = ids.old; pool = s.now }) (record { segments = out_segments.old; views = out_views.old; runs = out_runs.old; borrows = out_borrows.old; ids = out_ids.old; pool = out_pool.old }) c }
{
    if LONGEST < s.len() {
        return Err(Refusal::OverLimit);
    }
    let room = Fill {
        segments: segments.len() / 12,
        views: views.len() / 16,
        runs: runs.len() / 3,
        borrows: borrows.len() / 9,
        ids: ids.len() / 2,
        bytes: lim.fill.bytes,
    };
    if !fits_in(lim.fill, room) {
        return Err(Refusal::NoRoom);
    }
    msgpack::well_formed(s).map_err(Refusal::NotWellFormed)?;
    read_rows(
        lim,
        s,
        segments,
        views,
        runs,
        borrows,
        ids,
        out_segments,
        out_views,
        out_runs,
        out_borrows,
        out_ids,
        out_pool,
        c,
    )
}

// Reads a manifest: its canonical tables in the lent output, or why there are none, with the output as it was. The five
// working tables hold the rows over the input; what they hold afterwards is of no use.
pub fn read(
    lim: Limits,
    s: &[u8],
    segments: &mut [u64],
    views: &mut [u64],
    runs: &mut [u64],
    borrows: &mut [u64],
    ids: &mut [u64],
    out_segments: &mut [u64],
    out_views: &mut [u64],
    out_runs: &mut [u64],
    out_borrows: &mut [u64],
    out_ids: &mut [u64],
    out_pool: &mut [u8],
) -> Result<ManifestRow, Refusal>
    ensures { record { answer = result; out = record { segments = out_segments.new; views = out_views.new; runs = out_runs.new; borrows = out_borrows.new; ids = out_ids.new; pool = out_pool.new } } ≡ read_of lim s.now (record { segments = segments.old; views = views.old; runs = runs.old; borrows = borrows.old; ids = ids.old; pool = s.now }) (record { segments = out_segments.old; views = out_views.old; runs = out_runs.old; borrows = out_borrows.old; ids = out_ids.old; pool = out_pool.old }) }
{
    let none = Fill {
        segments: 0,
        views: 0,
        runs: 0,
        borrows: 0,
        ids: 0,
        bytes: 0,
    };
    read_at(
        lim,
        s,
        segments,
        views,
        runs,
        borrows,
        ids,
        out_segments,
        out_views,
        out_runs,
        out_borrows,
        out_ids,
        out_pool,
        none,
    )
}
