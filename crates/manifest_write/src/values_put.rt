// One value, and what may be absent.
ghost use Rattle.std.specs.Prelude.{◌≡◌, [], ◌∷◌, ◌+◌, ◌<◌, leb, length};
ghost use Rattle.keys.specs.Pool.{part_of, edge_of};
ghost use Rattle.records.specs.Decode.{last_in, seen_in, name_in};
ghost use Rattle.msgpack_put.specs.Write.{uint_bytes, array_bytes, head_bytes, bin_bytes, id_part, group_bytes};
ghost use Rattle.manifest_write.specs.Bytes.{mark_bytes, edge_bytes, seen_bytes, last_bytes, name_bytes};
ghost use Rattle.manifest_write.specs.Wrote.{capped, Wrote};

use ids::Id;
use keys::{Bound, Range, part};
use msgpack_put::Head;
use records::Place;
use tables::{Window, lies_in};

// The place n bytes on, or the last there is.
fn past(at: usize, n: usize) -> usize
    ensures { result ≡ capped (at + n) }
{
    if 0xffff_ffff_ffff_ffff - at < n {
        return 0xffff_ffff_ffff_ffff;
    }
    at + n
}

// Whether n bytes from `at` on lie within `len`.
fn has(len: usize, at: usize, n: usize) -> bool
    ensures { result ≡ leb (at + n) len }
{
    lies_in(
        Window {
            first: at,
            count: n,
        },
        len,
    )
}

// A nil, a flag, a number, or the head of an array.
#[inline(always)]
pub fn add_head(h: Head, out: &mut [u8], at: usize) -> usize
    ensures { Wrote out.old at (head_bytes h) result out.new }
{
    let n = msgpack_put::head_len(h);
    if has(out.len(), at, n) {
        return msgpack_put::put_head(out, at, h);
    }
    past(at, n)
}

// The head of an array of n elements.
pub fn add_array(n: usize, out: &mut [u8], at: usize) -> usize
    ensures { Wrote out.old at (array_bytes n) result out.new }
{
    add_head(Head::Array(n as u64), out, at)
}

// An id of one of the types.
pub fn add_id<I: Id>(x: I, out: &mut [u8], at: usize) -> usize
    ensures { Wrote out.old at (id_part (I.halves x).0 (I.halves x).1) result out.new }
{
    let (high, low) = x.halves();
    if has(out.len(), at, 18) {
        return msgpack_put::put_id(out, at, high, low);
    }
    past(at, 18)
}

fn bin_len(k: &[u8]) -> usize
    ensures { result ≡ length (bin_bytes k.now) }
{
    let n = k.len();
    msgpack_put::head_len(Head::Bin(n as u64)) + n
}

fn add_bytes(k: &[u8], out: &mut [u8], at: usize) -> usize
    ensures { Wrote out.old at (bin_bytes k.now) result out.new }
{
    let n = bin_len(k);
    if has(out.len(), at, n) {
        return msgpack_put::put_bin(out, at, k, 0, k.len());
    }
    past(at, n)
}

// A byte string of the pool.
pub fn add_bin(pool: &[u8], from: usize, len: usize, out: &mut [u8], at: usize) -> usize
    ensures { Wrote out.old at (bin_bytes (part_of pool.now from len)) result out.new }
{
    add_bytes(part(pool, from, len), out, at)
}

// ---- what may be absent

// An id, or nil.
pub fn add_mark<I: Id>(x: Option<I>, out: &mut [u8], at: usize) -> usize
    ensures { Wrote out.old at (mark_bytes I.halves x) result out.new }
{
    match x {
        None => add_head(Head::Nil, out, at),
        Some(i) => add_id(i, out, at),
    }
}

// A last key or a name.
pub fn add_optional_bin(x: Option<Place>, pool: &[u8], out: &mut [u8], at: usize) -> usize
    ensures { (Wrote out.old at (last_bytes (last_in pool.now x)) result out.new) × (Wrote out.old at (name_bytes (name_in pool.now x)) result out.new) }
{
    match x {
        None => add_head(Head::Nil, out, at),
        Some(p) => add_bin(pool, p.at, p.len, out, at),
    }
}

// A bound that has a key: 0 included, 1 excluded, the numbers that the format has.
fn add_keyed(kind: u64, pool: &[u8], from: usize, len: usize, out: &mut [u8], at: usize) -> usize
    ensures { Wrote out.old at (group_bytes (uint_bytes kind ∷ bin_bytes (part_of pool.now from len) ∷ [])) result out.new }
{
    let p = add_array(2, out, at);
    let q = add_head(Head::Uint(kind), out, p);
    add_bin(pool, from, len, out, q)
}

fn add_bound(x: Bound, pool: &[u8], out: &mut [u8], at: usize) -> usize
    ensures { Wrote out.old at (edge_bytes (edge_of pool.now x)) result out.new }
{
    match x {
        Bound::Unbounded => add_head(Head::Nil, out, at),
        Bound::Included(from, len) => add_keyed(0, pool, from, len, out, at),
        Bound::Excluded(from, len) => add_keyed(1, pool, from, len, out, at),
    }
}

fn add_range(start: Bound, end: Bound, pool: &[u8], out: &mut [u8], at: usize) -> usize
    ensures { Wrote out.old at (group_bytes (edge_bytes (edge_of pool.now start) ∷ edge_bytes (edge_of pool.now end) ∷ [])) result out.new }
{
    let p = add_array(2, out, at);
    let q = add_bound(start, pool, out, p);
    add_bound(end, pool, out, q)
}

pub fn add_visible(x: Option<Range>, pool: &[u8], out: &mut [u8], at: usize) -> usize
    ensures { Wrote out.old at (seen_bytes (seen_in pool.now x)) result out.new }
{
    match x {
        None => add_head(Head::Nil, out, at),
        Some(r) => add_range(r.start, r.end, pool, out, at),
    }
}
