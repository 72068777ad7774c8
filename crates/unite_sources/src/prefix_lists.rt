// The prefixes: a list of places, two words each, whose bytes ascend.
ghost use Rattle.std.specs.Prelude.{◌≡◌, true, ◌&&◌, [], ◌∷◌, ◌+◌, ◌-◌, ◌*◌, ◌/◌, ◌≤◌, ◌<◌, ltb, length, take, drop};
ghost use Rattle.keys.specs.Key.{less_of};
ghost use Rattle.keys.specs.Prefix.{begins_of};
ghost use Rattle.tables.specs.Layout.{write};
ghost use Rattle.tables.specs.Window.{held_of};
ghost use Rattle.records.specs.Row.{at, place_at, window_at};
ghost use Rattle.records.specs.Decode.{bytes_in};
ghost use Rattle.lawful.specs.Steps.{prefix_at};
ghost use Rattle.segments.specs.Prefixes.{prefixes_in, leading};
ghost use Rattle.segments.specs.Lookup.{same_of};
ghost use Rattle.merge.specs.Merge.{nests, among};
ghost use Rattle.unite_sources.specs.Prefixed.{among_all};
ghost use Rattle.unite_sources.specs.Rows.{begins as beginsAt, counts_within, places_in, prefixes_of_all};

use crate::window_in;
use keys::{begins, compare, is_less, part};
use records::{Place, place_at, segment_at};
use shift::shift_words;
use tables::{Window, held, ix, put};

// Whether the bytes of row `i` are below `p`.
fn is_under(list: &[u64], i: usize, p: &[u8], pool: &[u8]) -> bool
    requires { (i + 1) * 2 ≤ length list.now }
    ensures { result ≡ less_of (bytes_in pool.now (place_at list.now (i * 2))) p.now }
{
    let q = place_at(list, i * 2);
    is_less(part(pool, q.at, q.len), p)
}

// How many of the first `n` rows stand before the first that is not below `p`: at most one comparison a row.
fn place_of(list: &[u64], n: usize, p: &[u8], pool: &[u8]) -> usize
    requires { n * 2 ≤ length list.now }
    ensures { result ≡ leading (λ q. less_of q p.now) (places_in list.now pool.now n) }
{
    for k in 0..n {
        if !is_under(list, k, p, pool) {
            return k;
        }
    }
    n
}

// Whether the bytes of row `i` are `p`: `is_eq`, with the contract that the loop cites.
fn is_same(list: &[u64], i: usize, p: &[u8], pool: &[u8]) -> bool
    requires { (i + 1) * 2 ≤ length list.now }
    ensures { result ≡ same_of p.now (bytes_in pool.now (place_at list.now (i * 2))) }
{
    let q = place_at(list, i * 2);
    compare(p, part(pool, q.at, q.len)).is_eq()
}

// Whether row `i` is one of the first `n` and its bytes are `p`.
fn is_held(list: &[u64], n: usize, i: usize, p: &[u8], pool: &[u8]) -> bool
    requires { n * 2 ≤ length list.now }
    ensures { result ≡ (ltb i n && same_of p.now (bytes_in pool.now (place_at list.now (i * 2)))) }
{
    if n <= i {
        return false;
    }
    is_same(list, i, p, pool)
}

// Puts `p` at row `i` of the first `n`, those from there on one place to the right.
fn put_place(list: &mut [u64], n: usize, i: usize, p: Place)
    requires n_in_bounds { (n + 1) * 2 ≤ length list.old }
    requires i_le_n { i ≤ n }
    ensures { list.new ≡ write (write list.old (i * 2 + 2) (take (n * 2 - i * 2) (drop (i * 2) list.old))) (i * 2) (p.at ∷ p.len ∷ []) }
{
    shift_words(list, i * 2, n * 2, 2);
    let row = [p.at as u64, p.len as u64];
    put(&row, list, i * 2);
}

// Enters a prefix among the first `n`, which ascend, if it is not there. It answers how many there are then.
fn enter_prefix(list: &mut [u64], n: usize, p: Place, pool: &[u8]) -> usize
    requires { (n + 1) * 2 ≤ length list.old }
    ensures result_after { places_in list.new pool.now result ≡ among (bytes_in pool.now p) (places_in list.old pool.now n) }
    ensures upper_bound { result ≤ n + 1 }
    ensures list_len_unchanged { length list.new ≡ length list.old }
{
    let bytes = part(pool, p.at, p.len);
    let i = place_of(list, n, bytes, pool);
    if is_held(list, n, i, bytes, pool) {
        return n;
    }
    put_place(list, n, i, p);
    n + 1
}

// Enters the prefix of segment `i` of a table.
fn enter_segment(segments: &[u64], i: usize, pool: &[u8], list: &mut [u64], n: usize) -> usize
    requires i_in_bounds { i < length segments.now / 12 }
    requires n_in_bounds { (n + 1) * 2 ≤ length list.old }
    ensures result_after { places_in list.new pool.now result ≡ among (prefix_at segments.now pool.now i) (places_in list.old pool.now n) }
    ensures upper_bound { result ≤ n + 1 }
    ensures list_len_unchanged { length list.new ≡ length list.old }
{
    let s = segment_at(segments, i);
    let p = s.prefix;
    enter_prefix(list, n, p, pool)
}

// Enters the prefixes of the segments of a window: each is compared with those entered before it.
fn enter_prefixes(segments: &[u64], w: Window, pool: &[u8], list: &mut [u64], n: usize) -> usize
    requires { (n + held_of w (length segments.now / 12)) * 2 ≤ length list.old }
    ensures result_after { places_in list.new pool.now result ≡ among_all (places_in list.old pool.now n) (prefixes_in segments.now pool.now w) }
    ensures upper_bound { result ≤ n + held_of w (length segments.now / 12) }
    ensures list_len_unchanged { length list.new ≡ length list.old }
{
    let m = held(w, segments.len() / 12);
    let first = w.first;
    let mut count = n;
    for k in 0..m {
        count = enter_segment(segments, first + k, pool, list, count);
    }
    count
}

// The segments of used source `i`.
pub fn segments_of(sources: &[u64], order: &[u64], i: usize) -> Window
    requires { (i + 1) * 7 ≤ length order.now }
    ensures { result ≡ window_at sources.now (at order.now (i * 7) + 10) }
{
    window_in(sources, ix(order[i * 7]), 10)
}

// The prefixes of the used sources' segments, at most `most` of each source, ascending, each once. It answers how many. With 8 sources
// of 64 segments that is at most 512 entered, each compared with at most those before it.
// inner
pub fn all_prefixes(
    sources: &[u64],
    order: &[u64],
    n: usize,
    segments: &[u64],
    pool: &[u8],
    most: usize,
    prefixes: &mut [u64],
) -> usize
    requires n_in_bounds { n * 7 ≤ length order.now }
    requires n_value { counts_within most segments.now sources.now (beginsAt order.now n) ≡ true }
    requires most_in_bounds { n * most * 2 ≤ length prefixes.old }
    ensures result_after { places_in prefixes.new pool.now result ≡ prefixes_of_all [] segments.now pool.now sources.now (beginsAt order.now n) }
    ensures result_in_bounds { result * 2 ≤ length prefixes.new }
{
    let mut count = 0;
    for i in 0..n {
        let w = segments_of(sources, order, i);
        count = enter_prefixes(segments, w, pool, prefixes, count);
    }
    count
}

// Whether prefix `k` begins the next.
fn begins_next(prefixes: &[u64], k: usize, pool: &[u8]) -> bool
    requires { (k + 2) * 2 ≤ length prefixes.now }
    ensures { result ≡ begins_of (bytes_in pool.now (place_at prefixes.now (k * 2))) (bytes_in pool.now (place_at prefixes.now ((k + 1) * 2))) }
{
    let p = place_at(prefixes, k * 2);
    let q = place_at(prefixes, (k + 1) * 2);
    begins(part(pool, p.at, p.len), part(pool, q.at, q.len))
}

// Whether one of the first `n` prefixes begins the next: each is compared with the next alone.
// inner
pub fn prefixes_nest(prefixes: &[u64], n: usize, pool: &[u8]) -> bool
    requires { n * 2 ≤ length prefixes.now }
    ensures { result ≡ nests (places_in prefixes.now pool.now n) }
{
    for k in 0..n.saturating_sub(1) {
        if begins_next(prefixes, k, pool) {
            return true;
        }
    }
    false
}
