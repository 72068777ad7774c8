// Values skipped, and whether some bytes are one whole value; the answer is the place after what was skipped, or the start of the first innermost
// bad value.
ghost use Rattle.std.specs.Prelude.{◌≡◌, ◌<◌};
ghost use Rattle.msgpack.specs.Skip.{many_of, value_of, rest_at, whole_of};

use crate::first_bytes::head_at;
use crate::{DEEPEST, Head};

// n values in a row, which may open `room` levels of arrays and maps each. A loop, so that a long array takes no more stack.
#[cycle(skip_many_skip_value)]
pub fn skip_many(s: &[u8], at: usize, room: usize, n: u64) -> Result<usize, usize>
    ensures { result ≡ many_of (value_of s.now room) n at }
{
    let mut p = at;
    let mut left = n;
    // No `for`: what falls is the bytes that are left, and not the count, which a head of five bytes may put at four billion.
    while 0 < left {
        p = skip_value(s, p, room)?;
        left -= 1;
    }
    Ok(p)
}

// One value. A map's n keys and n values are skipped as n values twice: 2n could wrap.
#[cycle(skip_many_skip_value)]
pub fn skip_value(s: &[u8], at: usize, room: usize) -> Result<usize, usize>
    ensures { result ≡ value_of s.now room at }
{
    match head_at(s, at) {
        Head::Cut => Err(at),
        Head::Never => Err(at),
        Head::Nil(next) => Ok(next),
        Head::Flag(_, next) => Ok(next),
        Head::Uint(_, next) => Ok(next),
        Head::Minus(_, next) => Ok(next),
        Head::Bin(_, _, next) => Ok(next),
        Head::Other(next) => Ok(next),
        Head::Array(n, next) => {
            if room == 0 {
                Err(at)
            } else {
                skip_many(s, next, room - 1, n)
            }
        }
        Head::Map(n, next) => {
            if room == 0 {
                Err(at)
            } else {
                let p = skip_many(s, next, room - 1, n)?;
                skip_many(s, p, room - 1, n)
            }
        }
    }
}

// Of a record's n elements, those after the named ones are skipped.
pub fn rest_at(s: &[u8], at: usize, n: u64, named: u64) -> Result<usize, usize>
    ensures { result ≡ rest_at s.now at n named }
{
    if n < named {
        return Ok(at);
    }
    skip_many(s, at, DEEPEST, n - named)
}

// The whole input is one well-formed value; else where it is bad, or where what is left over starts.
pub fn well_formed(s: &[u8]) -> Result<(), usize>
    ensures { result ≡ whole_of s.now }
{
    let p = skip_value(s, 0, DEEPEST)?;
    if p < s.len() { Err(p) } else { Ok(()) }
}
