// Answers, in the words of the line protocol.
use crate::parts::at_most;
use exports_forms::Answer;
use keys::part;
use std::io;

fn put_number(rt: &impl Print, word: &str, n: usize) -> io::Result<()> {
    print!(rt; "{word}{n}")
}

// In hexadecimal, two digits each.
fn put_bytes(rt: &impl Print, s: &[u8]) -> io::Result<()> {
    for b in s {
        print!(rt; "{b:02x}")?;
    }
    Ok(())
}

// A word of ids, which are two words each and joined with commas.
fn put_word(rt: &impl Print, i: usize, x: u64) -> io::Result<()> {
    if 0 < i && i % 2 == 0 {
        print!(rt; ",")?;
    }
    print!(rt; "{x:016x}")
}

fn put_ids(rt: &impl Print, s: &[u64]) -> io::Result<()> {
    for (i, x) in s.iter().enumerate() {
        put_word(rt, i, *x)?;
    }
    Ok(())
}

// So many ids of two words each.
fn pairs(s: &[u64], n: usize) -> &[u64] {
    at_most(s, n.saturating_mul(2))
}

fn put_looked(rt: &impl Print, a: Answer) -> io::Result<()> {
    match a.first {
        0 => print!(rt; "unsegmented"),
        1 => put_number(rt, "segment ", a.second),
        _ => print!(rt; "absent"),
    }
}

fn put_inserted(rt: &impl Print, a: Answer, out: &[u8]) -> io::Result<()> {
    if a.first == 0 {
        return put_number(rt, "found ", a.second);
    }
    put_number(rt, "entered ", a.second)?;
    print!(rt; " ")?;
    put_bytes(rt, part(out, 0, a.third))
}

fn put_selected(rt: &impl Print, a: Answer) -> io::Result<()> {
    if a.first == 0 {
        return print!(rt; "unsegmented");
    }
    put_number(rt, "window ", a.second)?;
    put_number(rt, " ", a.third)
}

fn put_projected(rt: &impl Print, a: Answer, out: &[u8]) -> io::Result<()> {
    put_number(rt, "", a.first)?;
    print!(rt; " ")?;
    put_bytes(rt, part(out, 0, a.second))
}

fn put_owned(rt: &impl Print, a: Answer, ids: &[u64]) -> io::Result<()> {
    if a.first == 0 {
        return print!(rt; ".");
    }
    put_ids(rt, pairs(ids, a.first))
}

// What an operation answered, with the bytes and the ids that it wrote.
pub fn put_answer(
    rt: &impl Print,
    operation: u8,
    a: Answer,
    out: &[u8],
    ids: &[u64],
) -> io::Result<()> {
    if a.number != 0 {
        put_number(rt, "refused ", a.number)?;
        return put_number(rt, " at ", a.first);
    }
    print!(rt; "ok ")?;
    match operation {
        1 => put_looked(rt, a),
        2 => put_inserted(rt, a, out),
        5 => put_selected(rt, a),
        6 => put_projected(rt, a, out),
        7 => put_owned(rt, a, ids),
        _ => put_bytes(rt, part(out, 0, a.first)),
    }
}
