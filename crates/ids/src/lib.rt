// ULIDs and UUIDs: 16 bytes, held as two halves, the high one first.
#![tactic(auto)]

ghost use Rattle.std.specs.Prelude.{◌≡◌, ℕ, refl};
ghost use Rattle.keys.specs.Key.{order_of};
ghost use Rattle.ids.specs.Id.{same_halves, marks_of, bytes_of, view_halves, view_of, sst_halves, sst_of, uuid_halves, uuid_of};
ghost use Rattle.ids.specs.Names.{ids_of, names_of};

use std::cmp::Ordering;

// The ULID of a view.
#[derive(Clone, Copy)]
pub struct ViewId(pub u64, pub u64);

// The ULID of an SST.
#[derive(Clone, Copy)]
pub struct SstId(pub u64, pub u64);

// The UUID of a checkpoint.
#[derive(Clone, Copy)]
pub struct Uuid(pub u64, pub u64);

// An id of one of the types: two halves, the high one first. Its impls are written out, since one made by a macro is refused.
pub trait Id: Copy {
    ghost halves: { Self → ℕ × ℕ };

    ghost of: { ℕ → ℕ → Self };

    // The id of two halves.
    fn of(high: u64, low: u64) -> Self
        ensures { result ≡ of high low };

    // The high half and the low one.
    fn halves(self) -> (u64, u64)
        ensures { result ≡ halves self };

    ghost halves_of: { (high low : ℕ) → halves (of high low) ≡ (high, low) };

    ghost of_halves: { (x : Self) → of (halves x).0 (halves x).1 ≡ x };
}

impl Id for ViewId {
    ghost halves = { view_halves };

    ghost of = { view_of };

    ghost halves_of = { λ high low. refl };

    ghost of_halves = { λ x. refl };

    fn of(high: u64, low: u64) -> ViewId {
        ViewId(high, low)
    }

    fn halves(self) -> (u64, u64) {
        (self.0, self.1)
    }
}

impl Id for SstId {
    ghost halves = { sst_halves };

    ghost of = { sst_of };

    ghost halves_of = { λ high low. refl };

    ghost of_halves = { λ x. refl };

    fn of(high: u64, low: u64) -> SstId {
        SstId(high, low)
    }

    fn halves(self) -> (u64, u64) {
        (self.0, self.1)
    }
}

impl Id for Uuid {
    ghost halves = { uuid_halves };

    ghost of = { uuid_of };

    ghost halves_of = { λ high low. refl };

    ghost of_halves = { λ x. refl };

    fn of(high: u64, low: u64) -> Uuid {
        Uuid(high, low)
    }

    fn halves(self) -> (u64, u64) {
        (self.0, self.1)
    }
}

// Whether two ids of one type are one.
pub fn same<I: Id>(a: I, b: I) -> bool
    ensures { result ≡ same_halves (I.halves a) (I.halves b) }
{
    a.halves() == b.halves()
}

// Whether a watermark is there and is `x`.
pub fn marks<I: Id>(m: Option<I>, x: I) -> bool
    ensures { result ≡ marks_of (λ w v. same_halves (I.halves w) (I.halves v)) m x }
{
    match m {
        None => false,
        Some(w) => same(w, x),
    }
}

// How two ids of one type stand, as 16 bytes.
pub fn order<I: Id>(a: I, b: I) -> Ordering
    ensures { result ≡ order_of (bytes_of (I.halves a)) (bytes_of (I.halves b)) }
{
    let x = a.halves();
    let y = b.halves();
    x.cmp(&y)
}

// Whether `x` is among the ids of a list of words, two words an id.
pub fn names(ids: &[u64], x: SstId) -> bool
    ensures { result ≡ names_of (ids_of ids.now) x }
{
    for words in ids.chunks_exact(2) {
        if same(SstId(words[0], words[1]), x) {
            return true;
        }
    }
    false
}
