// Lookup and selection in the manifest of some bytes.
ghost use Rattle.std.specs.Prelude.{◌≡◌, []};
ghost use Rattle.manifest_rows.specs.Stored.{lent};
ghost use Rattle.encoded.specs.Lookup.{lookup_of};
ghost use Rattle.encoded.specs.Select.{select_of};

use crate::bytes_read::{has_tables, rows_of};
use keys::Range;
use manifest_read::LONGEST;
use records::{Limits, Refusal, Tables};
use segments::{Looked, Selected, range_over, select_segments, tree_for_segment};

// The tree of a prefix.
pub fn lookup(
    lim: Limits,
    s: &[u8],
    prefix: &[u8],
    segments: &mut [u64],
    views: &mut [u64],
    runs: &mut [u64],
    borrows: &mut [u64],
    ids: &mut [u64],
) -> Result<Looked, Refusal>
    ensures { result ≡ lookup_of lim s.now prefix.now (lent segments.old views.old runs.old borrows.old ids.old []) }
{
    if LONGEST < s.len() {
        return Err(Refusal::OverLimit);
    }
    if lim.prefix < prefix.len() {
        return Err(Refusal::OverLimit);
    }
    if !has_tables(
        lim,
        segments.len(),
        views.len(),
        runs.len(),
        borrows.len(),
        ids.len(),
    ) {
        return Err(Refusal::NoRoom);
    }
    let m = rows_of(lim, s, segments, views, runs, borrows, ids)?;
    tree_for_segment(
        lim,
        Tables {
            segments,
            views,
            runs,
            borrows,
            ids,
            pool: s,
        },
        m,
        prefix,
    )
}

// ---- selection

// The segments with some key in a range, whose keys stand in `args`.
pub fn select(
    lim: Limits,
    s: &[u8],
    args: &[u8],
    r: Range,
    segments: &mut [u64],
    views: &mut [u64],
    runs: &mut [u64],
    borrows: &mut [u64],
    ids: &mut [u64],
) -> Result<Selected, Refusal>
    ensures { result ≡ select_of lim s.now args.now r (lent segments.old views.old runs.old borrows.old ids.old []) }
{
    if LONGEST < s.len() {
        return Err(Refusal::OverLimit);
    }
    if range_over(lim.key, args.len(), r) {
        return Err(Refusal::OverLimit);
    }
    if !has_tables(
        lim,
        segments.len(),
        views.len(),
        runs.len(),
        borrows.len(),
        ids.len(),
    ) {
        return Err(Refusal::NoRoom);
    }
    let m = rows_of(lim, s, segments, views, runs, borrows, ids)?;
    select_segments(
        lim,
        Tables {
            segments,
            views,
            runs,
            borrows,
            ids,
            pool: s,
        },
        m,
        args,
        r,
    )
}
