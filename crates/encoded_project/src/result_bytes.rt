// The projection of rows that were read: laid in the tables of the result, and written.
ghost use Rattle.std.specs.Prelude.{◌≡◌, suc, ◌-◌, ◌*◌, ◌/◌, ◌≤◌, leb, length};
ghost use Rattle.keys.specs.Pick.{pick};
ghost use Rattle.records.specs.Decode.{manifest_in, lent_of};
ghost use Rattle.records.specs.Fill.{bytes};
ghost use Rattle.lawful.specs.Judge.{judged_of};
ghost use Rattle.copy.specs.Copy.{room_of};
ghost use Rattle.manifest_write.specs.Bytes.{manifest_bytes};
ghost use Rattle.manifest_write.specs.Answer.{put_of};
ghost use Rattle.manifest_rows.specs.Stored.{lent};
ghost use Rattle.project_ranges.specs.Args.{config_in};
ghost use Rattle.encoded_project.specs.Project.{config_for, wrote, projected_to};

use encoded::least;
use manifest_write::write_judged;
use project::projected_judged;
use project_ranges::ProjectionConfig;
use records::{Fill, Limits, ManifestRow, Refusal, Tables};

// Writes the result: how many segments the mask names, and how many bytes the result has.
fn write_to(
    tables: Tables,
    m: ManifestRow,
    names: usize,
    out: &mut [u8],
) -> Result<(usize, usize), Refusal>
    ensures { record { answer = result; out = out.new } ≡ wrote names (put_of (manifest_bytes (manifest_in (lent_of tables.entry) m)) out.old) }
{
    let n = write_judged(tables, m, out)?;
    Ok((names, n))
}

// Projects a lawful manifest into tables that leave just the room there is, and writes the result.
fn project_into(
    lim: Limits,
    in_segments: &[u64],
    in_views: &[u64],
    in_runs: &[u64],
    in_borrows: &[u64],
    in_ids: &[u64],
    in_pool: &[u8],
    m: ManifestRow,
    c: ProjectionConfig,
    own: &[u64],
    used: &mut [u64],
    segments: &mut [u64],
    views: &mut [u64],
    runs: &mut [u64],
    borrows: &mut [u64],
    ids: &mut [u64],
    pool: &mut [u8],
    out: &mut [u8],
) -> Result<(usize, usize), Refusal>
    requires m_value { judged_of lim (lent in_segments.now in_views.now in_runs.now in_borrows.now in_ids.now in_pool.now) m ≡ Ok tt }
    requires views_in_bounds { lim.fill.views ≤ length used.old / 2 }
    ensures { record { answer = result; out = out.new } ≡ projected_to lim (room_of (lent segments.old views.old runs.old borrows.old ids.old pool.old)) out.old (config_in in_pool.now c own.now) (manifest_in (lent in_segments.now in_views.now in_runs.now in_borrows.now in_ids.now in_pool.now) m) }
{
    let (names, row) = projected_judged(
        lim,
        Tables {
            segments: in_segments,
            views: in_views,
            runs: in_runs,
            borrows: in_borrows,
            ids: in_ids,
            pool: in_pool,
        },
        m,
        c,
        own,
        used,
        segments,
        views,
        runs,
        borrows,
        ids,
        pool,
    )?;
    write_to(
        Tables {
            segments,
            views,
            runs,
            borrows,
            ids,
            pool,
        },
        row,
        names,
        out,
    )
}

// How many of `rows` own ranges count: one for the unsegmented tree and one for each of so many segments.
fn count_own(rows: usize, segments: usize) -> usize
    ensures { result ≡ pick (leb rows segments) rows (suc segments) }
{
    if rows <= segments {
        return rows;
    }
    segments + 1
}

// Projects by the own ranges that count into the part of the result tables that the room and L1 leave. They have room for any manifest within L1.
// inner
pub fn project_within(
    lim: Limits,
    in_segments: &[u64],
    in_views: &[u64],
    in_runs: &[u64],
    in_borrows: &[u64],
    in_ids: &[u64],
    in_pool: &[u8],
    m: ManifestRow,
    c: ProjectionConfig,
    own: &[u64],
    used: &mut [u64],
    room: Fill,
    segments: &mut [u64],
    views: &mut [u64],
    runs: &mut [u64],
    borrows: &mut [u64],
    ids: &mut [u64],
    pool: &mut [u8],
    out: &mut [u8],
) -> Result<(usize, usize), Refusal>
    requires m_value { judged_of lim (lent in_segments.now in_views.now in_runs.now in_borrows.now in_ids.now in_pool.now) m ≡ Ok tt }
    requires views_in_bounds { lim.fill.views ≤ length used.old / 2 }
    requires segments_in_bounds { (lim.fill.segments * 12 ≤ length segments.old) × (lim.fill.views * 16 ≤ length views.old) × (lim.fill.runs * 3 ≤ length runs.old) × (lim.fill.borrows * 9 ≤ length borrows.old) × (lim.fill.ids * 2 ≤ length ids.old) × (lim.fill.bytes ≤ length pool.old) }
    ensures { record { answer = result; out = out.new } ≡ projected_to lim room out.old (config_for in_pool.now c own.now m.segments.count) (manifest_in (lent in_segments.now in_views.now in_runs.now in_borrows.now in_ids.now in_pool.now) m) }
{
    let k = count_own(own.len() / 6, m.segments.count) * 6;
    let a = least(lim.fill.segments, room.segments) * 12;
    let b = least(lim.fill.views, room.views) * 16;
    let d = least(lim.fill.runs, room.runs) * 3;
    let e = least(lim.fill.borrows, room.borrows) * 9;
    let f = least(lim.fill.ids, room.ids) * 2;
    let g = least(lim.fill.bytes, room.bytes);
    project_into(
        lim,
        in_segments,
        in_views,
        in_runs,
        in_borrows,
        in_ids,
        in_pool,
        m,
        c,
        &own[..k],
        used,
        &mut segments[..a],
        &mut views[..b],
        &mut runs[..d],
        &mut borrows[..e],
        &mut ids[..f],
        &mut pool[..g],
        out,
    )
}
