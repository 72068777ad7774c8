// Both merges on encoded manifests: bytes in, the encoded segment list out. Both manifests are laid out one behind the other in one set of
// working tables; those that each was read into then hold the merged list. A refused call leaves the lent output as it was.
#![tactic(auto)]

mod both_read;
mod list_merged;

ghost use Rattle.std.specs.Prelude.{◌≡◌, []};
ghost use Rattle.manifest_rows.specs.Stored.{lent};
ghost use Rattle.encoded_merge.specs.Merge.{merge_to};

use both_read::read_both;
use list_merged::merge_within;
use merge::Side;
use records::{Fill, Limits, ManifestRow, Refusal, Tables};

// The segment list of the writer's manifest, merged with the compactor's, or of both, as the compactor merges them.
pub fn merge(
    side: Side,
    lim: Limits,
    writer: &[u8],
    compactor: &[u8],
    room: Fill,
    segments: &mut [u64],
    views: &mut [u64],
    runs: &mut [u64],
    borrows: &mut [u64],
    ids: &mut [u64],
    both_segments: &mut [u64],
    both_views: &mut [u64],
    both_runs: &mut [u64],
    both_borrows: &mut [u64],
    both_ids: &mut [u64],
    both_pool: &mut [u8],
    pool: &mut [u8],
    out: &mut [u8],
) -> Result<usize, Refusal>
    ensures { record { answer = result; out = out.new } ≡ merge_to side lim writer.now compactor.now room (lent segments.old views.old runs.old borrows.old ids.old []) (lent both_segments.old both_views.old both_runs.old both_borrows.old both_ids.old both_pool.old) pool.old out.old }
{
    let (w, c) = read_both(
        lim,
        writer,
        compactor,
        pool.len(),
        segments,
        views,
        runs,
        borrows,
        ids,
        both_segments,
        both_views,
        both_runs,
        both_borrows,
        both_ids,
        both_pool,
    )?;
    merge_within(
        side,
        lim,
        Tables {
            segments: both_segments,
            views: both_views,
            runs: both_runs,
            borrows: both_borrows,
            ids: both_ids,
            pool: both_pool,
        },
        w,
        c,
        room,
        segments,
        views,
        runs,
        pool,
        out,
    )
}
