// Prints what the table says of each of the 256 first bytes, in the lines that tools/first_bytes.py has an outside
// implementation say; the file stdout is what that one said.
#![tactic(auto)]

use msgpack::{Form, Kind};
use std::io;

// A kind, then its number, or the width of the number after the first byte.
fn sized(rt: &impl Print, name: &str, w: usize, n: u64) -> io::Result<()> {
    print!(rt; "{name} {w}")?;
    if w == 0 {
        print!(rt; " {n}")?;
    }
    Ok(())
}

fn show(rt: &impl Print, b: u8) -> io::Result<()> {
    print!(rt; "{b:02x}")?;
    let Form(kind, w, n) = msgpack::form_of(b);
    match kind {
        Kind::Never => print!(rt; " never"),
        Kind::Nil => print!(rt; " nil"),
        Kind::False => print!(rt; " false"),
        Kind::True => print!(rt; " true"),
        Kind::Uint => sized(rt, " uint", w, n),
        Kind::Minus => print!(rt; " int 0 -{}", n.wrapping_add(1)),
        Kind::Sint => sized(rt, " int", w, n),
        Kind::Bin => sized(rt, " bin", w, n),
        Kind::Str => sized(rt, " str", w, n),
        Kind::Float => sized(rt, " float", w, n),
        Kind::Ext => sized(rt, " ext", w, n),
        Kind::Array => sized(rt, " array", w, n),
        Kind::Map => sized(rt, " map", w, n),
    }?;
    println!(rt)
}

fn main(rt: HostRuntime) -> io::Result<()> {
    for b in 0..=255 {
        show(&rt, b)?;
    }
    Ok(())
}
