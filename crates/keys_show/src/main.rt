// Prints what the functions of `keys` answer on a written list of corners, one line for a call.
//
// The lines in stdout were worked out from document 01 and not taken from this program: keys compared as byte
// strings, a range called empty where none of all keys of up to four bytes over the bytes in play lies in it, bounds
// ordered as the text words it, a successor as the least byte string above all that begin with the prefix.
#![tactic(auto)]

use keys::{Bound, Range};
use std::cmp::Ordering;
use std::io;

// The bytes in hexadecimal, two digits each.
fn put_bytes(rt: &impl Print, k: &[u8]) -> io::Result<()> {
    for b in k {
        print!(rt; "{b:02x}")?;
    }
    Ok(())
}

fn put_key(rt: &impl Print, k: &[u8]) -> io::Result<()> {
    if k.is_empty() {
        return print!(rt; "the empty key");
    }
    put_bytes(rt, k)
}

fn put_pair(rt: &impl Print, a: &[u8], word: &str, b: &[u8]) -> io::Result<()> {
    put_key(rt, a)?;
    print!(rt; "{word}")?;
    put_key(rt, b)
}

fn put_order(rt: &impl Print, o: Ordering) -> io::Result<()> {
    let word = match o {
        Ordering::Less => "less",
        Ordering::Equal => "equal",
        Ordering::Greater => "greater",
    };
    println!(rt; ": {word}")
}

fn put_answer(rt: &impl Print, yes: bool) -> io::Result<()> {
    println!(rt; ": {}", if yes { "yes" } else { "no" })
}

fn put_bound(rt: &impl Print, pool: &[u8], b: Bound) -> io::Result<()> {
    match b {
        Bound::Unbounded => print!(rt; "unbounded"),
        Bound::Included(at, len) => {
            print!(rt; "included ")?;
            put_key(rt, keys::part(pool, at, len))
        }
        Bound::Excluded(at, len) => {
            print!(rt; "excluded ")?;
            put_key(rt, keys::part(pool, at, len))
        }
    }
}

fn put_bounds(rt: &impl Print, pool: &[u8], a: Bound, word: &str, b: Bound) -> io::Result<()> {
    put_bound(rt, pool, a)?;
    print!(rt; "{word}")?;
    put_bound(rt, pool, b)
}

fn range(start: Bound, end: Bound) -> Range {
    Range { start, end }
}

fn put_range(rt: &impl Print, pool: &[u8], r: Range) -> io::Result<()> {
    put_bounds(rt, pool, r.start, " to ", r.end)
}

fn show_compare(rt: &impl Print, a: &[u8], b: &[u8]) -> io::Result<()> {
    print!(rt; "compare ")?;
    put_pair(rt, a, " with ", b)?;
    put_order(rt, keys::compare(a, b))
}

fn show_common(rt: &impl Print, a: &[u8], b: &[u8]) -> io::Result<()> {
    print!(rt; "common start of ")?;
    put_pair(rt, a, " and ", b)?;
    println!(rt; ": {}", keys::common(a, b))
}

fn show_begins(rt: &impl Print, p: &[u8], k: &[u8]) -> io::Result<()> {
    put_pair(rt, p, " begins ", k)?;
    put_answer(rt, keys::begins(p, k))
}

fn show_successor(rt: &impl Print, p: &[u8]) -> io::Result<()> {
    print!(rt; "successor of ")?;
    put_key(rt, p)?;
    match keys::successor_of(p) {
        None => println!(rt; ": none"),
        Some(n) => {
            print!(rt; ": ")?;
            if 0 < n {
                if n <= p.len() {
                    let last = p[n - 1];
                    put_bytes(rt, keys::part(p, 0, n - 1))?;
                    if last < 255 {
                        print!(rt; "{:02x}", last + 1)?;
                    }
                }
            }
            println!(rt)
        }
    }
}

fn show_below(rt: &impl Print, k: &[u8], p: &[u8]) -> io::Result<()> {
    put_pair(rt, k, " below the successor of ", p)?;
    put_answer(rt, keys::below_successor(k, p))
}

fn show_bounds(
    rt: &impl Print,
    word: &str,
    pool: &[u8],
    a: Bound,
    b: Bound,
    o: Ordering,
) -> io::Result<()> {
    print!(rt; "{word}")?;
    put_bounds(rt, pool, a, " beside ", b)?;
    put_order(rt, o)
}

fn show_starts(rt: &impl Print, pool: &[u8], a: Bound, b: Bound) -> io::Result<()> {
    show_bounds(
        rt,
        "start ",
        pool,
        a,
        b,
        keys::start_order(pool, a, pool, b),
    )
}

fn show_ends(rt: &impl Print, pool: &[u8], a: Bound, b: Bound) -> io::Result<()> {
    show_bounds(rt, "end ", pool, a, b, keys::end_order(pool, a, pool, b))
}

fn show_empty(rt: &impl Print, pool: &[u8], r: Range) -> io::Result<()> {
    put_range(rt, pool, r)?;
    print!(rt; " is empty")?;
    put_answer(rt, keys::is_empty(pool, r))
}

fn show_meet(rt: &impl Print, pool: &[u8], a: Range, b: Range) -> io::Result<()> {
    put_range(rt, pool, a)?;
    print!(rt; " met with ")?;
    put_range(rt, pool, b)?;
    print!(rt; ": ")?;
    put_range(rt, pool, keys::meet(pool, a, b))?;
    println!(rt)
}

fn comparisons(rt: &impl Print) -> io::Result<()> {
    show_compare(rt, b"", b"")?;
    show_compare(rt, b"", b"\x00")?;
    show_compare(rt, b"a", b"a\x00")?;
    show_compare(rt, b"b/", b"b")?;
    show_compare(rt, b"b/9", b"b0")?;
    show_compare(rt, b"\x7f", b"\x80")?;
    show_compare(rt, b"\xff", b"\xfe\xff")?;
    show_common(rt, b"b/1", b"b/9")?;
    show_common(rt, b"b/", b"b/9")?;
    show_common(rt, b"a", b"b")
}

fn prefixes(rt: &impl Print) -> io::Result<()> {
    show_begins(rt, b"", b"a")?;
    show_begins(rt, b"b/", b"b/1")?;
    show_begins(rt, b"b/", b"b")?;
    show_begins(rt, b"b/", b"b0")?;
    show_begins(rt, b"b/", b"b/")?;
    show_successor(rt, b"")?;
    show_successor(rt, b"b/")?;
    show_successor(rt, b"a\xff\xff")?;
    show_successor(rt, b"\xff\xff")?;
    show_successor(rt, b"\xff\x00\xff")?;
    show_below(rt, b"b/\xff", b"b/")?;
    show_below(rt, b"b0", b"b/")?;
    show_below(rt, b"\xff\xff\xff", b"\xff")
}

fn orders(rt: &impl Print, pool: &[u8]) -> io::Result<()> {
    show_starts(rt, pool, Bound::Unbounded, Bound::Included(0, 0))?;
    show_starts(rt, pool, Bound::Included(0, 1), Bound::Excluded(0, 1))?;
    show_starts(rt, pool, Bound::Excluded(0, 1), Bound::Included(0, 2))?;
    show_ends(rt, pool, Bound::Excluded(0, 1), Bound::Included(0, 1))?;
    show_ends(rt, pool, Bound::Included(8, 2), Bound::Unbounded)?;
    show_ends(rt, pool, Bound::Included(0, 1), Bound::Excluded(0, 2))
}

fn empties(rt: &impl Print, pool: &[u8]) -> io::Result<()> {
    show_empty(rt, pool, range(Bound::Unbounded, Bound::Unbounded))?;
    show_empty(rt, pool, range(Bound::Unbounded, Bound::Excluded(0, 0)))?;
    show_empty(rt, pool, range(Bound::Unbounded, Bound::Included(0, 0)))?;
    show_empty(
        rt,
        pool,
        range(Bound::Excluded(0, 1), Bound::Excluded(0, 2)),
    )?;
    show_empty(
        rt,
        pool,
        range(Bound::Excluded(0, 1), Bound::Included(0, 2)),
    )?;
    show_empty(
        rt,
        pool,
        range(Bound::Included(0, 1), Bound::Excluded(0, 2)),
    )?;
    show_empty(
        rt,
        pool,
        range(Bound::Included(2, 1), Bound::Included(2, 1)),
    )?;
    show_empty(
        rt,
        pool,
        range(Bound::Excluded(2, 1), Bound::Included(2, 1)),
    )?;
    show_empty(
        rt,
        pool,
        range(Bound::Excluded(2, 2), Bound::Excluded(8, 2)),
    )?;
    show_empty(
        rt,
        pool,
        range(Bound::Included(8, 2), Bound::Included(2, 1)),
    )?;
    show_empty(
        rt,
        pool,
        range(Bound::Included(12, 1), Bound::Excluded(11, 2)),
    )
}

fn meets(rt: &impl Print, pool: &[u8]) -> io::Result<()> {
    let all = range(Bound::Unbounded, Bound::Unbounded);
    let from = range(Bound::Included(2, 3), Bound::Unbounded);
    let upto = range(Bound::Unbounded, Bound::Included(5, 3));
    let inner = range(Bound::Excluded(2, 3), Bound::Excluded(5, 3));
    let later = range(Bound::Included(10, 2), Bound::Excluded(8, 2));
    show_meet(rt, pool, all, all)?;
    show_meet(rt, pool, from, upto)?;
    show_meet(rt, pool, from, inner)?;
    show_meet(rt, pool, upto, inner)?;
    show_meet(rt, pool, inner, later)
}

fn main(rt: HostRuntime) -> io::Result<()> {
    comparisons(&rt)?;
    prefixes(&rt)?;
    // The bounds' keys: 61 and 6100 at 0, 62, 622f and 622f31 at 2, 622f39 at 5, 632f at 8, 6230 at 10; none from 12 on.
    let pool = b"a\x00b/1b/9c/b0";
    orders(&rt, pool)?;
    empties(&rt, pool)?;
    meets(&rt, pool)
}
