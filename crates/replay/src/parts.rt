// What stands in the input: parts, numbers and ids.
ghost use Rattle.std.specs.Prelude.{◌<◌};

use keys::part;

fn wide(b: u8) -> usize
    ensures { result < 256 }
{
    b as usize
}

// Two bytes as a number, 0 where they are missing.
pub fn number_at(s: &[u8], at: usize) -> usize
    ensures { result < 65536 }
{
    if at < s.len() {
        if 2 <= s.len() - at {
            return wide(s[at]) * 256 + wide(s[at + 1]);
        }
    }
    0
}

// What stands in the first part.
pub fn first(s: &[u8]) -> &[u8] {
    part(s, 2, number_at(s, 0))
}

// What comes after the first part.
fn rest(s: &[u8]) -> &[u8] {
    let from = 2 + number_at(s, 0);
    if s.len() < from {
        return &s[0..0];
    }
    &s[from..]
}

// The part behind `k` others.
pub fn part_of(s: &[u8], k: usize) -> &[u8] {
    let mut from = s;
    for _ in 0..k {
        from = rest(from);
    }
    first(from)
}

// Six numbers of two bytes.
pub fn six_numbers(s: &[u8]) -> [u64; 6] {
    [
        number_at(s, 0) as u64,
        number_at(s, 2) as u64,
        number_at(s, 4) as u64,
        number_at(s, 6) as u64,
        number_at(s, 8) as u64,
        number_at(s, 10) as u64,
    ]
}

// As many numbers of two bytes as there are: how many.
pub fn numbers(s: &[u8], to: &mut [u64; 512]) -> usize {
    for i in 0..512 {
        if s.len() <= 2 * i {
            return i;
        }
        to[i] = number_at(s, 2 * i) as u64;
    }
    512
}

// Eight bytes as a number.
fn word_of(s: &[u8]) -> u64 {
    let high = number_at(s, 0) * 65536 + number_at(s, 2);
    let low = number_at(s, 4) * 65536 + number_at(s, 6);
    high as u64 * 4294967296 + low as u64
}

// As many numbers of eight bytes as there are: how many.
pub fn words(s: &[u8], to: &mut [u64; 512]) -> usize {
    for i in 0..512 {
        if s.len() <= 8 * i {
            return i;
        }
        to[i] = word_of(part(s, 8 * i, 8));
    }
    512
}

pub fn at_most(s: &[u64], n: usize) -> &[u64] {
    &s[..n.min(s.len())]
}

// The first words of a table.
pub fn front(s: &[u64; 512], n: usize) -> &[u64] {
    at_most(s, n)
}

// The two words of an id.
pub fn id_of(s: &[u8]) -> [u64; 2] {
    [word_of(part(s, 0, 8)), word_of(part(s, 8, 8))]
}

// Whether a part has some byte.
fn is_given(s: &[u8]) -> u64 {
    !s.is_empty() as u64
}

// What a projection is asked for, by the parts of its global range, its filter and its own ranges.
pub fn asked_of(global: &[u8], filter: &[u8], own: &[u8]) -> [u64; 5] {
    [
        is_given(global),
        is_given(filter),
        number_at(filter, 0) as u64,
        word_of(part(filter, 2, 8)),
        is_given(own),
    ]
}
