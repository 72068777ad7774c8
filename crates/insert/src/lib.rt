// Insert: whether a prefix is held, whether it nests with one that is held, and the manifest that an empty tree for it enters.
#![tactic(auto)]

mod prefix_nests;
mod with_one_more;

ghost use Rattle.std.specs.Prelude.{◌≡◌, true, ◌/◌, ◌≤◌, ◌<◌, length};
ghost use Rattle.records.specs.Decode.{manifest_in, lent_of};
ghost use Rattle.records.specs.Fill.{manifest_fill};
ghost use Rattle.measure.specs.Measure.{l1_of};
ghost use Rattle.measure.specs.Walk.{add_of};
ghost use Rattle.lawful.specs.Judge.{judged_of};
ghost use Rattle.copy.specs.Copy.{room_of};
ghost use Rattle.segments.specs.Prefixes.{prefixes_in};
ghost use Rattle.segments.specs.Place.{place_of};
ghost use Rattle.segments.specs.Insert.{inserted_of};
ghost use Rattle.insert.specs.Insert.{new_fill, entered_of, laid_entry, insert_of};

use lawful::lawful;
use measure::{add, fits_in, measure};
use prefix_nests::{check_segment_prefix_antichain, is_held};
use records::{Fill, Limits, ManifestRow, Refusal, Tables};
use segments::find_place;
use with_one_more::put_entered;

// What insert answers: the place of a prefix that was held, or the place at which it entered and the manifest with it, in
// the output tables. Both arms have a value of their own, and neither is an absence or a failure.
#[derive(Clone, Copy)]
pub enum Inserted {
    Found(usize),
    Entered(usize, ManifestRow),
}

// ---- insert

// What a manifest that keeps L1 fills with an empty segment more, of a prefix of `len` bytes.
// inner
pub fn filled_with(lim: Limits, tables: Tables, m: ManifestRow, len: usize) -> Option<Fill>
    requires { l1_of lim (lent_of tables) m ≡ true }
    ensures { result ≡ add_of lim.fill (manifest_fill (manifest_in (lent_of tables.entry) m)) (new_fill len) }
{
    let f = measure(lim, tables, m)?;
    let more = Fill {
        segments: 1,
        views: 0,
        runs: 0,
        borrows: 0,
        ids: 0,
        bytes: len,
    };
    add(lim.fill, f, more)
}

// Enters an empty tree at the place of a prefix that is neither held nor nested.
fn enter(
    lim: Limits,
    tables: Tables,
    m: ManifestRow,
    prefix: &[u8],
    place: usize,
    out_segments: &mut [u64],
    out_views: &mut [u64],
    out_runs: &mut [u64],
    out_borrows: &mut [u64],
    out_ids: &mut [u64],
    out_pool: &mut [u8],
) -> Result<Inserted, Refusal>
    requires m_value { l1_of lim (lent_of tables) m ≡ true }
    requires place_value { place ≡ place_of (prefixes_in tables.segments.now tables.pool.now m.segments) prefix.now }
    ensures { record { answer = result; out = record { segments = out_segments.new; views = out_views.new; runs = out_runs.new; borrows = out_borrows.new; ids = out_ids.new; pool = out_pool.new } } ≡ laid_entry (record { segments = out_segments.old; views = out_views.old; runs = out_runs.old; borrows = out_borrows.old; ids = out_ids.old; pool = out_pool.old }) (entered_of lim (room_of (record { segments = out_segments.old; views = out_views.old; runs = out_runs.old; borrows = out_borrows.old; ids = out_ids.old; pool = out_pool.old })) (manifest_in (lent_of tables.entry) m) prefix.now) }
{
    let result = filled_with(lim, tables, m, prefix.len()).ok_or(Refusal::NoRoom)?;
    let room = Fill {
        segments: out_segments.len() / 12,
        views: out_views.len() / 16,
        runs: out_runs.len() / 3,
        borrows: out_borrows.len() / 9,
        ids: out_ids.len() / 2,
        bytes: out_pool.len(),
    };
    if !fits_in(result, room) {
        return Err(Refusal::NoRoom);
    }
    let row = put_entered(
        tables,
        m,
        place,
        prefix,
        out_segments,
        out_views,
        out_runs,
        out_borrows,
        out_ids,
        out_pool,
    );
    Ok(Inserted::Entered(place, row))
}

// Insert where the manifest was judged, and the prefix is not over its limit.
// inner
pub fn insert_judged(
    lim: Limits,
    tables: Tables,
    m: ManifestRow,
    prefix: &[u8],
    out_segments: &mut [u64],
    out_views: &mut [u64],
    out_runs: &mut [u64],
    out_borrows: &mut [u64],
    out_ids: &mut [u64],
    out_pool: &mut [u8],
) -> Result<Inserted, Refusal>
    requires m_value { judged_of lim (lent_of tables) m ≡ Ok tt }
    requires prefix_len_bound { length prefix.now ≤ lim.prefix }
    ensures { record { answer = result; out = record { segments = out_segments.new; views = out_views.new; runs = out_runs.new; borrows = out_borrows.new; ids = out_ids.new; pool = out_pool.new } } ≡ laid_entry (record { segments = out_segments.old; views = out_views.old; runs = out_runs.old; borrows = out_borrows.old; ids = out_ids.old; pool = out_pool.old }) (inserted_of lim (room_of (record { segments = out_segments.old; views = out_views.old; runs = out_runs.old; borrows = out_borrows.old; ids = out_ids.old; pool = out_pool.old })) (manifest_in (lent_of tables.entry) m) prefix.now) }
{
    let w = m.segments;
    let place = find_place(tables.segments, tables.pool, w, prefix);
    if is_held(tables.segments, tables.pool, w, prefix, place) {
        return Ok(Inserted::Found(place));
    }
    match check_segment_prefix_antichain(tables.segments, tables.pool, w, prefix, place) {
        Some(i) => Err(Refusal::Nests(i)),
        None => enter(
            lim,
            tables,
            m,
            prefix,
            place,
            out_segments,
            out_views,
            out_runs,
            out_borrows,
            out_ids,
            out_pool,
        ),
    }
}

// The prefix's segment: found where it is held, else entered with an empty tree at its sorted place.
pub fn maybe_insert_tree(
    lim: Limits,
    tables: Tables,
    m: ManifestRow,
    prefix: &[u8],
    out_segments: &mut [u64],
    out_views: &mut [u64],
    out_runs: &mut [u64],
    out_borrows: &mut [u64],
    out_ids: &mut [u64],
    out_pool: &mut [u8],
) -> Result<Inserted, Refusal>
    ensures { record { answer = result; out = record { segments = out_segments.new; views = out_views.new; runs = out_runs.new; borrows = out_borrows.new; ids = out_ids.new; pool = out_pool.new } } ≡ insert_of lim (lent_of tables.entry) m prefix.now (record { segments = out_segments.old; views = out_views.old; runs = out_runs.old; borrows = out_borrows.old; ids = out_ids.old; pool = out_pool.old }) }
{
    if lim.prefix < prefix.len() {
        return Err(Refusal::OverLimit);
    }
    // A `match`: the proof answers each of its arms.
    match lawful(lim, tables, m) {
        Ok(()) => insert_judged(
            lim,
            tables,
            m,
            prefix,
            out_segments,
            out_views,
            out_runs,
            out_borrows,
            out_ids,
            out_pool,
        ),
        Err(rule) => Err(Refusal::Unlawful(rule)),
    }
}
