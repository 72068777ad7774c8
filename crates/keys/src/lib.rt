// Keys as byte strings: their order, prefixes, bounds and ranges. The floor that everything stands on.
#![tactic(auto)]

ghost use Rattle.std.specs.Prelude.{◌≡◌, [], ◌∷◌, ◌++◌, ◌+◌, length, leb};
ghost use Rattle.keys.specs.Key.{order_of, less_of, shared_of};
ghost use Rattle.keys.specs.Prefix.{begins_of, after, under_of, successor_of};
ghost use Rattle.keys.specs.Range.{low, empty_of};
ghost use Rattle.keys.specs.Meet.{start_order, end_order, beside};
ghost use Rattle.keys.specs.Pool.{part_of, edge_of, inside_of, later_in, earlier_in, meet_in};

use std::cmp::Ordering;

// Where a range starts or ends. A key is an offset and a length in a lent pool of bytes.
#[derive(Clone, Copy)]
pub enum Bound {
    Unbounded,
    Included(usize, usize),
    Excluded(usize, usize),
}

#[derive(Clone, Copy)]
pub struct Range {
    pub start: Bound,
    pub end: Bound,
}

// The length of the common start.
#[tactic(auto, using(crate::proofs::Shared::walk))]
pub fn common(a: &[u8], b: &[u8]) -> usize
    ensures { result ≡ shared_of a.now b.now }
{
    let n = a.len().min(b.len());
    for i in 0..n {
        if a[i] != b[i] {
            return i;
        }
    }
    n
}

// The first byte that differs decides; of two keys one of which begins the other, the shorter is less: `cmp`, with the order of specs/.
#[tactic(auto, using(crate::proofs::Shared::order_is))]
pub fn compare(a: &[u8], b: &[u8]) -> Ordering
    ensures { result ≡ order_of a.now b.now }
{
    a.cmp(b)
}

// Whether `k` begins with `p`.
#[tactic(auto, using(crate::proofs::Shared::begins_is))]
pub fn begins(p: &[u8], k: &[u8]) -> bool
    ensures { result ≡ begins_of p.now k.now }
{
    k.starts_with(p)
}

// Whether `a` is below `b`.
pub fn is_less(a: &[u8], b: &[u8]) -> bool
    ensures { result ≡ less_of a.now b.now }
{
    compare(a, b).is_lt()
}

// A prefix's successor: so many of its first bytes, the last of them one more; none where all are FF. Trailing FF bytes are dropped.
#[tactic(auto, using(crate::proofs::Grows::grow))]
pub fn successor_of(p: &[u8]) -> Option<usize>
    ensures { result ≡ successor_of p.now }
{
    for i in (0..p.len()).rev() {
        if p[i] < 255 {
            return Some(i + 1);
        }
    }
    None
}

// Whether `k` is below the successor of `p`, with no successor made: below `p`, or begun by it.
#[tactic(auto, using(crate::proofs::Arms::nears))]
pub fn below_successor(k: &[u8], p: &[u8]) -> bool
    ensures { result ≡ under_of k.now (after p.now) }
{
    is_less(k, p) || begins(p, k)
}

// Whether `len` bytes from `at` on lie within `n`. No sum is made that could wrap.
fn fits(n: usize, at: usize, len: usize) -> bool
    ensures { result ≡ leb (at + len) n }
{
    at <= n && len <= n - at
}

// The `len` bytes of `pool` from `at` on; none where they do not lie within it.
#[tactic(auto, using(crate::proofs::Places::parts))]
pub fn part(pool: &[u8], at: usize, len: usize) -> &[u8]
    ensures { result.now ≡ part_of pool.now at len }
{
    if fits(pool.len(), at, len) {
        let end = at + len;
        return &pool[at..end];
    }
    &pool[0..0]
}

// Whether the place that `b` names lies within a pool of `n` bytes.
#[tactic(auto, using(crate::proofs::Places::inside))]
pub fn is_inside(n: usize, b: Bound) -> bool
    ensures { result ≡ inside_of n b }
{
    match b {
        Bound::Unbounded => true,
        Bound::Included(at, len) => fits(n, at, len),
        Bound::Excluded(at, len) => fits(n, at, len),
    }
}

// How the key `k` stands beside a bound; the three orders say what no bound and equal keys give.
fn key_beside(
    k: &[u8],
    pool: &[u8],
    b: Bound,
    none: Ordering,
    inc: Ordering,
    exc: Ordering,
) -> Ordering
    ensures { result ≡ beside k.now (edge_of pool.now b) none inc exc }
{
    match b {
        Bound::Unbounded => none,
        Bound::Included(at, len) => compare(k, part(pool, at, len)).then(inc),
        Bound::Excluded(at, len) => compare(k, part(pool, at, len)).then(exc),
    }
}

// Starts: unbounded, then by key, included before excluded.
#[tactic(auto, using(crate::proofs::Arms::starts))]
pub fn start_order(pa: &[u8], a: Bound, pb: &[u8], b: Bound) -> Ordering
    ensures { result ≡ start_order (edge_of pa.now a) (edge_of pb.now b) }
{
    match a {
        Bound::Unbounded => match b {
            Bound::Unbounded => Ordering::Equal,
            Bound::Included(_, _) => Ordering::Less,
            Bound::Excluded(_, _) => Ordering::Less,
        },
        Bound::Included(at, len) => {
            let k = part(pa, at, len);
            key_beside(k, pb, b, Ordering::Greater, Ordering::Equal, Ordering::Less)
        }
        Bound::Excluded(at, len) => {
            let k = part(pa, at, len);
            key_beside(
                k,
                pb,
                b,
                Ordering::Greater,
                Ordering::Greater,
                Ordering::Equal,
            )
        }
    }
}

// Ends: by key, excluded before included, then unbounded.
#[tactic(auto, using(crate::proofs::Arms::ends))]
pub fn end_order(pa: &[u8], a: Bound, pb: &[u8], b: Bound) -> Ordering
    ensures { result ≡ end_order (edge_of pa.now a) (edge_of pb.now b) }
{
    match a {
        Bound::Unbounded => match b {
            Bound::Unbounded => Ordering::Equal,
            Bound::Included(_, _) => Ordering::Greater,
            Bound::Excluded(_, _) => Ordering::Greater,
        },
        Bound::Included(at, len) => {
            let k = part(pa, at, len);
            key_beside(k, pb, b, Ordering::Less, Ordering::Equal, Ordering::Greater)
        }
        Bound::Excluded(at, len) => {
            let k = part(pa, at, len);
            key_beside(k, pb, b, Ordering::Less, Ordering::Less, Ordering::Equal)
        }
    }
}

// Whether the least key above `a`, which is `a` and a 0, is below `b`.
#[tactic(auto, using(crate::proofs::Past::pasts))]
fn passes(a: &[u8], b: &[u8]) -> bool
    ensures { result ≡ less_of (a.now ++ 0 ∷ []) b.now }
{
    if !is_less(a, b) {
        return false;
    }
    let n = a.len();
    b.len() != n + 1 || b[n] != 0 || !begins(a, b)
}

// Whether the least key that `s` lets in is below `b`.
#[tactic(auto, using(crate::proofs::Emptying::belows))]
fn starts_below(pool: &[u8], s: Bound, b: &[u8]) -> bool
    ensures { result ≡ less_of (low (edge_of pool.now s)) b.now }
{
    match s {
        Bound::Unbounded => 0 < b.len(),
        Bound::Included(at, len) => is_less(part(pool, at, len), b),
        Bound::Excluded(at, len) => passes(part(pool, at, len), b),
    }
}

// Whether the least key that `s` lets in is at most `b`.
#[tactic(auto, using(crate::proofs::Emptying::bys))]
fn starts_by(pool: &[u8], s: Bound, b: &[u8]) -> bool
    ensures { result ≡ less_of (low (edge_of pool.now s)) (b.now ++ 0 ∷ []) }
{
    match s {
        Bound::Unbounded => true,
        Bound::Included(at, len) => !is_less(b, part(pool, at, len)),
        Bound::Excluded(at, len) => is_less(part(pool, at, len), b),
    }
}

// Whether no key lies between a start and an end, each with its own pool.
#[tactic(auto, using(crate::proofs::Emptying::empties))]
pub fn is_empty_between(ps: &[u8], s: Bound, pe: &[u8], e: Bound) -> bool
    ensures { result ≡ empty_of (edge_of ps.now s) (edge_of pe.now e) }
{
    match e {
        Bound::Unbounded => false,
        Bound::Included(at, len) => !starts_by(ps, s, part(pe, at, len)),
        Bound::Excluded(at, len) => !starts_below(ps, s, part(pe, at, len)),
    }
}

// Whether no key is in the range.
pub fn is_empty(pool: &[u8], r: Range) -> bool
    ensures { result ≡ empty_of (edge_of pool.now r.start) (edge_of pool.now r.end) }
{
    is_empty_between(pool, r.start, pool, r.end)
}

// The later of two starts, of equal ones the first.
fn later_start(pool: &[u8], s: Bound, t: Bound) -> Bound
    ensures { result ≡ later_in pool.now s t }
{
    if start_order(pool, s, pool, t).is_lt() {
        return t;
    }
    s
}

// The earlier of two ends, of equal ones the first.
fn earlier_end(pool: &[u8], s: Bound, t: Bound) -> Bound
    ensures { result ≡ earlier_in pool.now s t }
{
    if end_order(pool, t, pool, s).is_lt() {
        return t;
    }
    s
}

// The keys in both ranges: the later start and the earlier end.
pub fn meet(pool: &[u8], a: Range, b: Range) -> Range
    ensures { result ≡ meet_in pool.now a b }
{
    Range {
        start: later_start(pool, a.start, b.start),
        end: earlier_end(pool, a.end, b.end),
    }
}
