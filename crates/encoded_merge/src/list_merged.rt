// The merged list of segments, as a manifest in the tables of the result.
ghost use Rattle.std.specs.Prelude.{◌≡◌, ◌*◌, ◌≤◌, length};
ghost use Rattle.records.specs.Decode.{manifest_in, lent_of};
ghost use Rattle.lawful.specs.Judge.{judged_of};
ghost use Rattle.merge.specs.Answer.{list_room};
ghost use Rattle.encoded_merge.specs.Merge.{merged_to};

use encoded::least;
use manifest_write::write_segments;
use merge::{Side, merge_judged};
use records::{Fill, Limits, ManifestRow, Refusal, Tables};

// Merges two lawful manifests into the result tables, and writes the list.
fn merge_into(
    side: Side,
    lim: Limits,
    tables: Tables,
    writer: ManifestRow,
    compactor: ManifestRow,
    out_segments: &mut [u64],
    out_views: &mut [u64],
    out_runs: &mut [u64],
    out_pool: &mut [u8],
    out: &mut [u8],
) -> Result<usize, Refusal>
    requires { (judged_of lim (lent_of tables) writer ≡ Ok tt) × (judged_of lim (lent_of tables) compactor ≡ Ok tt) }
    ensures { record { answer = result; out = out.new } ≡ merged_to side lim (list_room (record { segments = out_segments.old; views = out_views.old; runs = out_runs.old; pool = out_pool.old })) out.old (manifest_in (lent_of tables.entry) writer).segments (manifest_in (lent_of tables.entry) compactor).segments }
{
    let w = merge_judged(
        side,
        lim,
        tables,
        writer,
        compactor,
        out_segments,
        out_views,
        out_runs,
        out_pool,
    )?;
    write_segments(out_segments, out_views, out_runs, out_pool, w, out)
}

// Merges into the part of the result tables that the room and L1 leave. They have room for any list within L1.
pub fn merge_within(
    side: Side,
    lim: Limits,
    tables: Tables,
    writer: ManifestRow,
    compactor: ManifestRow,
    room: Fill,
    out_segments: &mut [u64],
    out_views: &mut [u64],
    out_runs: &mut [u64],
    out_pool: &mut [u8],
    out: &mut [u8],
) -> Result<usize, Refusal>
    requires writer_value { (judged_of lim (lent_of tables) writer ≡ Ok tt) × (judged_of lim (lent_of tables) compactor ≡ Ok tt) }
    requires segments_in_bounds { (lim.fill.segments * 12 ≤ length out_segments.old) × (lim.fill.views * 16 ≤ length out_views.old) × (lim.fill.runs * 3 ≤ length out_runs.old) × (lim.fill.bytes ≤ length out_pool.old) }
    ensures { record { answer = result; out = out.new } ≡ merged_to side lim room out.old (manifest_in (lent_of tables.entry) writer).segments (manifest_in (lent_of tables.entry) compactor).segments }
{
    let a = least(lim.fill.segments, room.segments) * 12;
    let b = least(lim.fill.views, room.views) * 16;
    let c = least(lim.fill.runs, room.runs) * 3;
    let d = least(lim.fill.bytes, room.bytes);
    merge_into(
        side,
        lim,
        tables,
        writer,
        compactor,
        &mut out_segments[..a],
        &mut out_views[..b],
        &mut out_runs[..c],
        &mut out_pool[..d],
        out,
    )
}
