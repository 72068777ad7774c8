// Values of one kind: what was read and the place after it, or the start of the wrong value.
ghost use Rattle.std.specs.Prelude.{◌≡◌, ◌+◌, ◌^◌, ◌<◌, pos, negsuc};
ghost use Rattle.msgpack.specs.Read.{uint_at, int_at, flag_at, bin_at, id_at, group_at, list_at, optional_at};

use crate::first_bytes::{head_at, number};
use crate::{HALF, Head};

// A number from 0 to `most`.
pub fn uint_at(s: &[u8], at: usize, most: u64) -> Result<(u64, usize), usize>
    ensures { result ≡ uint_at s.now at most }
{
    match head_at(s, at) {
        Head::Uint(x, p) => { if x <= most { Ok((x, p)) } else { Err(at) } }
        _ => Err(at),
    }
}

fn plus(n: u64) -> i64
    requires { n < 2 ^ 63 }
    ensures { result ≡ pos n }
{
    n as i64
}

fn minus(m: u64) -> i64
    requires { m < 2 ^ 63 }
    ensures { result ≡ negsuc m }
{
    -1 - (m as i64)
}

pub fn int_at(s: &[u8], at: usize) -> Result<(i64, usize), usize>
    ensures { result ≡ int_at s.now at }
{
    match head_at(s, at) {
        Head::Uint(x, p) => { if x < HALF { Ok((plus(x), p)) } else { Err(at) } }
        Head::Minus(m, p) => { if m < HALF { Ok((minus(m), p)) } else { Err(at) } }
        _ => Err(at),
    }
}

pub fn flag_at(s: &[u8], at: usize) -> Result<(bool, usize), usize>
    ensures { result ≡ flag_at s.now at }
{
    match head_at(s, at) {
        Head::Flag(b, p) => Ok((b, p)),
        _ => Err(at),
    }
}

// A bin: the first place and the length of its bytes, which stay where they are.
pub fn bin_at(s: &[u8], at: usize) -> Result<(usize, usize, usize), usize>
    ensures { result ≡ bin_at s.now at }
{
    match head_at(s, at) {
        Head::Bin(from, n, p) => Ok((from, n, p)),
        _ => Err(at),
    }
}

// The halves of 16 bytes, the high one first.
pub fn id_at(s: &[u8], at: usize) -> Result<(u64, u64, usize), usize>
    ensures { result ≡ id_at s.now at }
{
    let (from, n, p) = bin_at(s, at)?;
    if n == 16 {
        Ok((number(s, from, 8), number(s, from + 8, 8), p))
    } else {
        Err(at)
    }
}

// An array of at least so many elements: a record has one for each of its fields, and may have more. It gives the count of the elements and the
// place of the first.
pub fn group_at(s: &[u8], at: usize, least: u64) -> Result<(u64, usize), usize>
    ensures { result ≡ group_at s.now at least }
{
    match head_at(s, at) {
        Head::Array(n, p) => { if least <= n { Ok((n, p)) } else { Err(at) } }
        _ => Err(at),
    }
}

pub fn list_at(s: &[u8], at: usize) -> Result<(u64, usize), usize>
    ensures { result ≡ list_at s.now at }
{
    group_at(s, at, 0)
}

// The place after a nil; none where something else stands, or nothing whole.
pub fn optional_at(s: &[u8], at: usize) -> Option<usize>
    ensures { result ≡ optional_at s.now at }
{
    match head_at(s, at) {
        Head::Nil(p) => Some(p),
        _ => None,
    }
}
