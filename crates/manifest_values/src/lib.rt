// Values of a manifest at a place of its MessagePack: each key stays where it is, and its row says where that is in the input.
#![tactic(auto)]

ghost use Rattle.std.specs.Prelude.{◌≡◌};
ghost use Rattle.manifest_values.specs.Read.{mark_at, numbers_at, epochs_at};
ghost use Rattle.manifest_values.specs.Rows.{place_at, bound_by, bound_at, visible_at, optional_place_at, view_at, got, got_place, got_bound, got_visible, got_view, got_numbers, got_epochs};

use ids::{Id, SstId, ViewId};
use keys::{Bound, Range};
use records::{Place, ViewRow};

// What was read and the place after it, or the place of what is wrong.
pub type Got<T> = Result<(T, usize), usize>;

// ---- one value at a place: its row and the place after it, or the start of the first wrong value

// inner
pub fn place_row(s: &[u8], at: usize) -> Got<Place>
    ensures { got_place result ≡ place_at s.now at }
{
    let (from, len, p) = msgpack::bin_at(s, at)?;
    Ok((Place { at: from, len }, p))
}

#[tactic(auto, using(crate::proofs::Places::bound_by_rest))]
fn bound_by(kind: u64, k: Place) -> Bound
    ensures { result ≡ bound_by kind k }
{
    match kind {
        0 => Bound::Included(k.at, k.len),
        _ => Bound::Excluded(k.at, k.len),
    }
}

// inner
#[tactic(auto, unfolding(crate::specs::Rows::bound_at))]
pub fn bound_row(s: &[u8], at: usize) -> Got<Bound>
    ensures { got_bound result ≡ bound_at s.now at }
{
    if let Some(p) = msgpack::optional_at(s, at) {
        return Ok((Bound::Unbounded, p));
    }
    let (n, p) = msgpack::group_at(s, at, 2)?;
    let (kind, q) = msgpack::uint_at(s, p, 1)?;
    let (k, r) = place_row(s, q)?;
    let e = msgpack::rest_at(s, r, n, 2)?;
    Ok((bound_by(kind, k), e))
}

// inner
#[tactic(auto, unfolding(crate::specs::Rows::visible_at))]
pub fn visible_row(s: &[u8], at: usize) -> Got<Option<Range>>
    ensures { got_visible result ≡ visible_at s.now at }
{
    if let Some(p) = msgpack::optional_at(s, at) {
        return Ok((None, p));
    }
    let (n, p) = msgpack::group_at(s, at, 2)?;
    let (start, q) = bound_row(s, p)?;
    let (end, r) = bound_row(s, q)?;
    let e = msgpack::rest_at(s, r, n, 2)?;
    Ok((Some(Range { start, end }), e))
}

// What may be absent: the place of a last key or of a name.
// inner
pub fn optional_place_row(s: &[u8], at: usize) -> Got<Option<Place>>
    ensures { got result ≡ optional_place_at s.now at }
{
    if let Some(p) = msgpack::optional_at(s, at) {
        return Ok((None, p));
    }
    let (k, p) = place_row(s, at)?;
    Ok((Some(k), p))
}

// inner
#[tactic(auto, unfolding(crate::specs::Rows::view_at))]
pub fn view_row(s: &[u8], at: usize) -> Got<ViewRow>
    ensures { got_view result ≡ view_at s.now at }
{
    let (n, p0) = msgpack::group_at(s, at, 5)?;
    let (vh, vl, p1) = msgpack::id_at(s, p0)?;
    let (sh, sl, p2) = msgpack::id_at(s, p1)?;
    let (first, p3) = place_row(s, p2)?;
    let (last, p4) = optional_place_row(s, p3)?;
    let (visible, p5) = visible_row(s, p4)?;
    let e = msgpack::rest_at(s, p5, n, 5)?;
    let row = ViewRow {
        id: ViewId(vh, vl),
        sst: SstId(sh, sl),
        first,
        last,
        visible,
    };
    Ok((row, e))
}

// What may be absent: an id of one of the types.
// inner
pub fn mark_row<I: Id>(s: &[u8], at: usize) -> Got<Option<I>>
    ensures { got result ≡ mark_at I.of s.now at }
{
    if let Some(p) = msgpack::optional_at(s, at) {
        return Ok((None, p));
    }
    let (high, low, p) = msgpack::id_at(s, at)?;
    Ok((Some(I::of(high, low)), p))
}

// The numbers between the extractor's name and the borrows.
#[derive(Clone, Copy)]
pub struct Numbers {
    pub next_wal_sst_id: u64,
    pub replay_after_wal_id: u64,
    pub last_l0_clock_tick: i64,
    pub last_l0_seq: u64,
    pub recent_snapshot_min_seq: u64,
}

const MOST: u64 = 0xffff_ffff_ffff_ffff;

// inner
#[tactic(auto, using(crate::proofs::Fits::numbers_held, crate::proofs::Fits::int_fits), unfolding(crate::specs::Read::numbers_at))]
pub fn numbers_row(s: &[u8], at: usize) -> Got<Numbers>
    ensures { got_numbers result ≡ numbers_at s.now at }
{
    let (next_wal_sst_id, p0) = msgpack::uint_at(s, at, MOST)?;
    let (replay_after_wal_id, p1) = msgpack::uint_at(s, p0, MOST)?;
    let (last_l0_clock_tick, p2) = msgpack::int_at(s, p1)?;
    let (last_l0_seq, p3) = msgpack::uint_at(s, p2, MOST)?;
    let (recent_snapshot_min_seq, p4) = msgpack::uint_at(s, p3, MOST)?;
    let numbers = Numbers {
        next_wal_sst_id,
        replay_after_wal_id,
        last_l0_clock_tick,
        last_l0_seq,
        recent_snapshot_min_seq,
    };
    Ok((numbers, p4))
}

#[derive(Clone, Copy)]
pub struct Epochs {
    pub writer: u64,
    pub compactor: u64,
}

// inner
#[tactic(auto, unfolding(crate::specs::Read::epochs_at))]
pub fn epochs_row(s: &[u8], at: usize) -> Got<Epochs>
    ensures { got_epochs result ≡ epochs_at s.now at }
{
    let (writer, p0) = msgpack::uint_at(s, at, MOST)?;
    let (compactor, p1) = msgpack::uint_at(s, p0, MOST)?;
    Ok((Epochs { writer, compactor }, p1))
}
