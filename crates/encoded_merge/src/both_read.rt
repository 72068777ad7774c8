// Both sources read into one set of tables, where there is room for any two manifests within L1.
ghost use Rattle.std.specs.Prelude.{◌≡◌, [], ◌/◌};
ghost use Rattle.manifest_rows.specs.Stored.{lent};
ghost use Rattle.encoded_merge.specs.Steps.{ready_of, joined_of, BothRead};

use manifest_read::{LONGEST, read_at};
use measure::fits_in;
use records::{Fill, Limits, ManifestRow, Refusal};

// Whether neither source is too long, tables of so many words that hold both have room for any two, and so has the result's pool for one.
fn ready(
    lim: Limits,
    writer: &[u8],
    compactor: &[u8],
    both_segments: usize,
    both_views: usize,
    both_runs: usize,
    both_borrows: usize,
    both_ids: usize,
    both_pool: usize,
    pool: usize,
) -> Result<(), Refusal>
    ensures { result ≡ ready_of lim writer.now compactor.now (record { segments = both_segments / 12; views = both_views / 16; runs = both_runs / 3; borrows = both_borrows / 9; ids = both_ids / 2; bytes = both_pool }) pool }
{
    if LONGEST < writer.len() {
        return Err(Refusal::OverLimit);
    }
    if LONGEST < compactor.len() {
        return Err(Refusal::OverLimit);
    }
    let half = Fill {
        segments: both_segments / 24,
        views: both_views / 32,
        runs: both_runs / 6,
        borrows: both_borrows / 18,
        ids: both_ids / 4,
        bytes: both_pool / 2,
    };
    if !fits_in(lim.fill, half) {
        return Err(Refusal::NoRoom);
    }
    if pool < lim.fill.bytes {
        return Err(Refusal::NoRoom);
    }
    Ok(())
}

// What the two readings answer, as one: the first refusal counts.
fn joined(
    writer: Result<ManifestRow, Refusal>,
    compactor: Result<ManifestRow, Refusal>,
) -> Result<(ManifestRow, ManifestRow), Refusal>
    ensures { result ≡ joined_of writer compactor }
{
    Ok((writer?, compactor?))
}

// Reads the writer's manifest, and behind it the compactor's, whether or not the first is refused. The result's pool has `pool` bytes.
pub fn read_both(
    lim: Limits,
    writer: &[u8],
    compactor: &[u8],
    pool: usize,
    segments: &mut [u64],
    views: &mut [u64],
    runs: &mut [u64],
    borrows: &mut [u64],
    ids: &mut [u64],
    both_segments: &mut [u64],
    both_views: &mut [u64],
    both_runs: &mut [u64],
    both_borrows: &mut [u64],
    both_ids: &mut [u64],
    both_pool: &mut [u8],
) -> Result<(ManifestRow, ManifestRow), Refusal>
    ensures { BothRead lim writer.now compactor.now pool (lent segments.old views.old runs.old borrows.old ids.old []) (lent both_segments.old both_views.old both_runs.old both_borrows.old both_ids.old both_pool.old) (lent both_segments.new both_views.new both_runs.new both_borrows.new both_ids.new both_pool.new) result }
{
    ready(
        lim,
        writer,
        compactor,
        both_segments.len(),
        both_views.len(),
        both_runs.len(),
        both_borrows.len(),
        both_ids.len(),
        both_pool.len(),
        pool,
    )?;
    let none = Fill {
        segments: 0,
        views: 0,
        runs: 0,
        borrows: 0,
        ids: 0,
        bytes: 0,
    };
    let first = read_at(
        lim,
        writer,
        segments,
        views,
        runs,
        borrows,
        ids,
        both_segments,
        both_views,
        both_runs,
        both_borrows,
        both_ids,
        both_pool,
        none,
    );
    let second = read_at(
        lim,
        compactor,
        segments,
        views,
        runs,
        borrows,
        ids,
        both_segments,
        both_views,
        both_runs,
        both_borrows,
        both_ids,
        both_pool,
        lim.fill,
    );
    joined(first, second)
}
