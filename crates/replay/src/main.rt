// Plays a fixed list of calls through the entry points, so that the port is held against the original where there is no Rust
// as well. stdin has the calls of tests/data/replay.txt but for unions, which crates/replay_union plays, stdout the original's
// answers; tools/replay.py makes both of that list.
// Its form: a part is its length in two bytes, highest first, and so many bytes. stdin is a row of parts, one for each call; in
// it stand the operation's number in one byte and the operation's parts.
// replays: read lookup insert merge_from_writer merge_from_compactor select project owned clone
#![tactic(auto)]

mod answers;
mod parts;

use answers::put_answer;
use exports_forms::Answer;
use merge::Side;
use parts::{asked_of, front, id_of, numbers, part_of, six_numbers, words};
use std::io;
use std::io::Read;

// The room that a result is given: what L1 allows.
fn room() -> [u64; 6] {
    [64, 512, 128, 32, 512, 8192]
}

// ---- operations, each on its parts

// Tables are as large as L1 allows: 64, 512, 128, 32 and 512 rows, and 8,192 bytes; those that hold two manifests have twice the room.
// Each is lent once, to one call, and what a call wrote is printed by the caller: the prover's work grows with both.

fn read(s: &[u8], out: &mut [u8]) -> Answer {
    exports::manifest_read(
        part_of(s, 0),
        &room(),
        &mut [0u64; 768],
        &mut [0u64; 8192],
        &mut [0u64; 384],
        &mut [0u64; 288],
        &mut [0u64; 1024],
        out,
    )
}

fn lookup(s: &[u8]) -> Answer {
    exports::manifest_lookup(
        part_of(s, 0),
        part_of(s, 1),
        &mut [0u64; 768],
        &mut [0u64; 8192],
        &mut [0u64; 384],
        &mut [0u64; 288],
        &mut [0u64; 1024],
    )
}

fn insert(s: &[u8], out: &mut [u8]) -> Answer {
    exports::manifest_insert(
        part_of(s, 0),
        part_of(s, 1),
        &room(),
        &mut [0u64; 768],
        &mut [0u64; 8192],
        &mut [0u64; 384],
        &mut [0u64; 288],
        &mut [0u64; 1024],
        &mut [0u64; 768],
        &mut [0u64; 8192],
        &mut [0u64; 384],
        &mut [0u64; 288],
        &mut [0u64; 1024],
        &mut [0u8; 8192],
        out,
    )
}

fn merge(side: Side, s: &[u8], out: &mut [u8]) -> Answer {
    exports::manifest_merge(
        side,
        part_of(s, 0),
        part_of(s, 1),
        &room(),
        &mut [0u64; 768],
        &mut [0u64; 8192],
        &mut [0u64; 384],
        &mut [0u64; 288],
        &mut [0u64; 1024],
        &mut [0u64; 1536],
        &mut [0u64; 16384],
        &mut [0u64; 768],
        &mut [0u64; 576],
        &mut [0u64; 2048],
        &mut [0u8; 16384],
        &mut [0u8; 8192],
        out,
    )
}

fn select(s: &[u8]) -> Answer {
    exports::manifest_select(
        part_of(s, 0),
        part_of(s, 1),
        &six_numbers(part_of(s, 2)),
        &mut [0u64; 768],
        &mut [0u64; 8192],
        &mut [0u64; 384],
        &mut [0u64; 288],
        &mut [0u64; 1024],
    )
}

fn project(s: &[u8], out: &mut [u8]) -> Answer {
    let mut own = [0u64; 512];
    let n = numbers(part_of(s, 4), &mut own);
    exports::manifest_project(
        part_of(s, 0),
        part_of(s, 1),
        &asked_of(part_of(s, 2), part_of(s, 3), part_of(s, 4)),
        &six_numbers(part_of(s, 2)),
        front(&own, n),
        &room(),
        &mut [0u64; 768],
        &mut [0u64; 8192],
        &mut [0u64; 384],
        &mut [0u64; 288],
        &mut [0u64; 1024],
        &mut [0u64; 768],
        &mut [0u64; 8192],
        &mut [0u64; 384],
        &mut [0u64; 288],
        &mut [0u64; 1024],
        &mut [0u8; 16384],
        &mut [0u64; 1024],
        &mut [0u8; 8192],
        out,
    )
}

fn owned(s: &[u8], ids: &mut [u64]) -> Answer {
    exports::manifest_owned(
        part_of(s, 0),
        &mut [0u64; 768],
        &mut [0u64; 8192],
        &mut [0u64; 384],
        &mut [0u64; 288],
        &mut [0u64; 1024],
        ids,
    )
}

fn clone(s: &[u8], out: &mut [u8]) -> Answer {
    let mut fresh = [0u64; 512];
    let n = words(part_of(s, 3), &mut fresh);
    exports::manifest_clone(
        part_of(s, 0),
        part_of(s, 1),
        &id_of(part_of(s, 2)),
        front(&fresh, n),
        &room(),
        &mut [0u64; 768],
        &mut [0u64; 8192],
        &mut [0u64; 384],
        &mut [0u64; 288],
        &mut [0u64; 1024],
        &mut [0u64; 768],
        &mut [0u64; 8192],
        &mut [0u64; 384],
        &mut [0u64; 288],
        &mut [0u64; 1024],
        &mut [0u8; 8192],
        out,
    )
}

// ---- calls

// What an operation answers; bytes go to `out`, and the ids that a manifest owns to `ids`.
fn answer(operation: u8, s: &[u8], out: &mut [u8], ids: &mut [u64]) -> Answer {
    match operation {
        0 => read(s, out),
        1 => lookup(s),
        2 => insert(s, out),
        3 => merge(Side::Writer, s, out),
        4 => merge(Side::Compactor, s, out),
        5 => select(s),
        6 => project(s, out),
        7 => owned(s, ids),
        _ => clone(s, out),
    }
}

fn play(rt: &impl Print, operation: u8, s: &[u8]) -> io::Result<()> {
    let mut out = [0u8; 65536];
    let mut ids = [0u64; 1024];
    let a = answer(operation, s, &mut out, &mut ids);
    put_answer(rt, operation, a, &out, &ids)?;
    println!(rt)
}

fn call(rt: &impl Print, s: &[u8]) -> io::Result<()> {
    match s {
        [] => Ok(()),
        [operation, behind @ ..] => play(rt, *operation, behind),
    }
}

fn calls(rt: &impl Print, s: &[u8]) -> io::Result<()> {
    let mut rest = s;
    while let [high, low, behind @ ..] = rest {
        let n = *high as usize * 256 + *low as usize;
        if behind.len() < n {
            return Ok(());
        }
        call(rt, &behind[..n])?;
        rest = &behind[n..];
    }
    Ok(())
}

// What is past 65,536 bytes is not read.
fn main(rt: HostRuntime) -> io::Result<()> {
    let mut input = Vec::new(rt.alloc());
    rt.reader().take(65536).read_to_end(&mut input)?;
    calls(&rt, input.as_slice())
}
