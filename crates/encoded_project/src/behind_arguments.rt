// The manifest is read behind the arguments, in one pool: bounds and keys are then places in the same bytes.
ghost use Rattle.std.specs.Prelude.{◌≡◌, true, ◌&&◌, [], ◌/◌, length};
ghost use Rattle.keys.specs.Pick.{pick};
ghost use Rattle.records.specs.Fill.{plus, bytes, fits};
ghost use Rattle.records.specs.declared.Refusal.TheVariants.{OverLimit};
ghost use Rattle.copy.specs.Copy.{room_of, given_at};
ghost use Rattle.manifest_values.specs.Read.{manifest_at};
ghost use Rattle.manifest_rows.specs.Stored.{lent};
ghost use Rattle.manifest_read.specs.Answer.{refused, by_record, work_room};
ghost use Rattle.project_ranges.specs.Args.{config_over};
ghost use Rattle.encoded_project.specs.Project.{over_got};
ghost use Rattle.encoded_project.specs.Steps.{kept_at, read_behind};

use copy::copy_at;
use lawful::lawful;
use manifest_rows::fill_manifest;
use measure::{fits_in, left_of};
use project_ranges::{ProjectionConfig, config_over};
use records::{Fill, Limits, ManifestRow, Refusal, Tables};
use tables::put;

// Judges rows, of which there are `f`, then copies what is lawful behind what fills `c`.
fn keep_at(
    lim: Limits,
    segments: &[u64],
    views: &[u64],
    runs: &[u64],
    borrows: &[u64],
    ids: &[u64],
    s: &[u8],
    m: ManifestRow,
    f: Fill,
    in_segments: &mut [u64],
    in_views: &mut [u64],
    in_runs: &mut [u64],
    in_borrows: &mut [u64],
    in_ids: &mut [u64],
    in_pool: &mut [u8],
    c: Fill,
) -> Result<ManifestRow, Refusal>
    requires { fits c (room_of (lent in_segments.old in_views.old in_runs.old in_borrows.old in_ids.old in_pool.old)) ≡ true }
    ensures { record { answer = result; out = (lent in_segments.new in_views.new in_runs.new in_borrows.new in_ids.new in_pool.new) } ≡ kept_at lim f c (lent segments.now views.now runs.now borrows.now ids.now s.now) m (lent in_segments.old in_views.old in_runs.old in_borrows.old in_ids.old in_pool.old) }
{
    if !fits_in(f, lim.fill) {
        return Err(Refusal::Unlawful(1));
    }
    lawful(
        lim,
        Tables {
            segments,
            views,
            runs,
            borrows,
            ids,
            pool: s,
        },
        m,
    )
    .map_err(Refusal::Unlawful)?;
    copy_at(
        lim,
        Tables {
            segments,
            views,
            runs,
            borrows,
            ids,
            pool: s,
        },
        m,
        in_segments,
        in_views,
        in_runs,
        in_borrows,
        in_ids,
        in_pool,
        c,
    )
}

// Reads the rows, judges the own ranges that count, over `n` bytes of arguments, then the rows.
fn read_rows(
    lim: Limits,
    s: &[u8],
    n: usize,
    a: ProjectionConfig,
    own: &[u64],
    segments: &mut [u64],
    views: &mut [u64],
    runs: &mut [u64],
    borrows: &mut [u64],
    ids: &mut [u64],
    in_segments: &mut [u64],
    in_views: &mut [u64],
    in_runs: &mut [u64],
    in_borrows: &mut [u64],
    in_ids: &mut [u64],
    in_pool: &mut [u8],
    c: Fill,
) -> Result<ManifestRow, Refusal>
    requires in_pool_value { fits c (room_of (lent in_segments.old in_views.old in_runs.old in_borrows.old in_ids.old in_pool.old)) ≡ true }
    requires s_value { fits lim.fill (work_room lim (lent segments.old views.old runs.old borrows.old ids.old s.now)) ≡ true }
    ensures { record { answer = result; out = (lent in_segments.new in_views.new in_runs.new in_borrows.new in_ids.new in_pool.new) } ≡ pick (over_got (λ m. config_over lim.key n (length m.segments) a own.now) (manifest_at s.now 0)) (refused OverLimit (lent in_segments.old in_views.old in_runs.old in_borrows.old in_ids.old in_pool.old)) (by_record lim (λ m. given_at lim c m (lent in_segments.old in_views.old in_runs.old in_borrows.old in_ids.old in_pool.old)) (lent in_segments.old in_views.old in_runs.old in_borrows.old in_ids.old in_pool.old) (manifest_at s.now 0)) }
{
    let filled = fill_manifest(s, segments, views, runs, borrows, ids);
    let (row, f, _) = filled.map_err(Refusal::NotTheRecord)?;
    if config_over(lim.key, n, row.segments.count, a, own) {
        return Err(Refusal::OverLimit);
    }
    keep_at(
        lim,
        segments,
        views,
        runs,
        borrows,
        ids,
        s,
        row,
        f,
        in_segments,
        in_views,
        in_runs,
        in_borrows,
        in_ids,
        in_pool,
        c,
    )
}

// ---- the working tables

// Whether there is room for any manifest within L1 behind `n` bytes.
fn has_behind(most: Fill, n: usize, room: Fill) -> bool
    ensures { result ≡ fits (plus (bytes n) most) room }
{
    let from = Fill {
        segments: 0,
        views: 0,
        runs: 0,
        borrows: 0,
        ids: 0,
        bytes: n,
    };
    fits_in(from, room) && fits_in(most, left_of(room, from))
}

// Whether tables of so many words have room for any manifest within L1: those that it is read into, and those that hold it behind `n` bytes.
fn has_tables(
    lim: Limits,
    n: usize,
    segments: usize,
    views: usize,
    runs: usize,
    borrows: usize,
    ids: usize,
    in_segments: usize,
    in_views: usize,
    in_runs: usize,
    in_borrows: usize,
    in_ids: usize,
    in_pool: usize,
) -> bool
    ensures { result ≡ (fits lim.fill (record { segments = segments / 12; views = views / 16; runs = runs / 3; borrows = borrows / 9; ids = ids / 2; bytes = lim.fill.bytes }) && fits (plus (bytes n) lim.fill) (record { segments = in_segments / 12; views = in_views / 16; runs = in_runs / 3; borrows = in_borrows / 9; ids = in_ids / 2; bytes = in_pool })) }
{
    let work = Fill {
        segments: segments / 12,
        views: views / 16,
        runs: runs / 3,
        borrows: borrows / 9,
        ids: ids / 2,
        bytes: lim.fill.bytes,
    };
    let room = Fill {
        segments: in_segments / 12,
        views: in_views / 16,
        runs: in_runs / 3,
        borrows: in_borrows / 9,
        ids: in_ids / 2,
        bytes: in_pool,
    };
    fits_in(lim.fill, work) && has_behind(lim.fill, n, room)
}

// Lays the arguments at the front and reads a manifest behind them, where there is room for any within L1.
// inner
pub fn read_behind(
    lim: Limits,
    s: &[u8],
    args: &[u8],
    a: ProjectionConfig,
    own: &[u64],
    segments: &mut [u64],
    views: &mut [u64],
    runs: &mut [u64],
    borrows: &mut [u64],
    ids: &mut [u64],
    in_segments: &mut [u64],
    in_views: &mut [u64],
    in_runs: &mut [u64],
    in_borrows: &mut [u64],
    in_ids: &mut [u64],
    in_pool: &mut [u8],
) -> Result<ManifestRow, Refusal>
    ensures { record { answer = result; out = (lent in_segments.new in_views.new in_runs.new in_borrows.new in_ids.new in_pool.new) } ≡ read_behind lim args.now a own.now s.now (lent segments.old views.old runs.old borrows.old ids.old []) (lent in_segments.old in_views.old in_runs.old in_borrows.old in_ids.old in_pool.old) }
{
    let n = args.len();
    if !has_tables(
        lim,
        n,
        segments.len(),
        views.len(),
        runs.len(),
        borrows.len(),
        ids.len(),
        in_segments.len(),
        in_views.len(),
        in_runs.len(),
        in_borrows.len(),
        in_ids.len(),
        in_pool.len(),
    ) {
        return Err(Refusal::NoRoom);
    }
    put(args, in_pool, 0);
    let from = Fill {
        segments: 0,
        views: 0,
        runs: 0,
        borrows: 0,
        ids: 0,
        bytes: n,
    };
    msgpack::well_formed(s).map_err(Refusal::NotWellFormed)?;
    read_rows(
        lim,
        s,
        n,
        a,
        own,
        segments,
        views,
        runs,
        borrows,
        ids,
        in_segments,
        in_views,
        in_runs,
        in_borrows,
        in_ids,
        in_pool,
        from,
    )
}
