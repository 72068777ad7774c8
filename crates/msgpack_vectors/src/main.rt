// Reads the vectors of tools/vectors.py, each behind its length in two bytes, and says of each whether it is well-formed and
// what it is, or where it is bad; the file stdout is what the outside implementation said.
#![tactic(auto)]

use msgpack::Head;
use std::io;
use std::io::Read;

fn named(rt: &impl Print, name: &str, n: u64) -> io::Result<()> {
    print!(rt; "{name}{n}")
}

fn flag(rt: &impl Print, b: bool) -> io::Result<()> {
    print!(rt; "good {b}")
}

fn value(rt: &impl Print, s: &[u8]) -> io::Result<()> {
    match msgpack::head_at(s, 0) {
        Head::Cut => print!(rt; "cut"),
        Head::Never => print!(rt; "never"),
        Head::Nil(_) => print!(rt; "good nil"),
        Head::Flag(b, _) => flag(rt, b),
        Head::Uint(x, _) => named(rt, "good uint ", x),
        Head::Minus(m, _) => named(rt, "good minus ", m),
        Head::Bin(_, n, _) => named(rt, "good bin ", n as u64),
        Head::Other(_) => print!(rt; "good other"),
        Head::Array(n, _) => named(rt, "good array ", n),
        Head::Map(n, _) => named(rt, "good map ", n),
    }
}

fn vector(rt: &impl Print, s: &[u8]) -> io::Result<()> {
    match msgpack::well_formed(s) {
        Ok(()) => value(rt, s)?,
        Err(p) => named(rt, "bad ", p as u64)?,
    }
    println!(rt)
}

fn vectors(rt: &impl Print, s: &[u8]) -> io::Result<()> {
    let mut rest = s;
    while let [high, low, behind @ ..] = rest {
        let n = *high as usize * 256 + *low as usize;
        if behind.len() < n {
            return Ok(());
        }
        vector(rt, &behind[..n])?;
        rest = &behind[n..];
    }
    Ok(())
}

// What is past 65,536 bytes is not read.
fn main(rt: HostRuntime) -> io::Result<()> {
    let mut input = Vec::new(rt.alloc());
    rt.reader().take(65536).read_to_end(&mut input)?;
    vectors(&rt, input.as_slice())
}
