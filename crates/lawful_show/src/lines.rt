// What stands in a line: parts and numbers.
ghost use Rattle.std.specs.Prelude.{◌≤◌, length};

// Where `b` stands first; the length of `s` where it is missing.
pub fn find(s: &[u8], b: u8) -> usize
    ensures { result ≤ length s.now }
{
    s.iter().position(|x| *x == b).unwrap_or(s.len())
}

// What stands before the first `b`.
pub fn before(s: &[u8], b: u8) -> &[u8] {
    let n = find(s, b);
    &s[0..n]
}

// What stands after the first `b`; nothing where it is missing.
pub fn after(s: &[u8], b: u8) -> &[u8] {
    let n = find(s, b);
    if n < s.len() {
        return &s[n + 1..];
    }
    &s[n..]
}

// `n` with the digit `b` behind it, and `n` itself where `b` is no digit. What does not fit 64 bits reads as some other number.
fn digit(n: u64, b: u8) -> u64 {
    if b < b'0' {
        return n;
    }
    if b'9' < b {
        return n;
    }
    if 1844674407370955161 < n {
        return n;
    }
    (n * 10).wrapping_add((b - b'0') as u64)
}

// The number between the k-th space of `s` and the next, 0 where there is none. Bytes that are no digits do not count.
pub fn number(s: &[u8], k: usize) -> u64 {
    let mut left = k;
    let mut n = 0;
    for b in s {
        if *b == b' ' {
            if left == 0 {
                return n;
            }
            left -= 1;
        } else if left == 0 {
            n = digit(n, *b);
        }
    }
    n
}
