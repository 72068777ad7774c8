// Plays the unions of a fixed list of calls through their entry point, as crates/replay does the other calls: of tests/data/replay.txt
// tools/replay.py makes stdin and, of the original's answers, stdout. It is a program by itself, since a call with some twenty slices costs
// the prover as much as many with fewer. Its form: stdin is a row of MessagePack's byte strings, one for each union. In it stand three
// more: the manifests one after the other, the paths so, and a row of numbers, which says where its four lists are.
// replays: union
#![tactic(auto)]

use exports_forms::Answer;
use keys::part;
use std::io;
use std::io::Read;

// The byte string behind `k` values; none where there is no such.
fn item(s: &[u8], k: usize) -> &[u8] {
    if let Ok(at) = msgpack::skip_many(s, 0, 0, k as u64) {
        if let Ok((from, len, _)) = msgpack::bin_at(s, at) {
            return part(s, from, len);
        }
    }
    part(s, 0, 0)
}

// The numbers that stand one after the other in `s`, as many as there is room for.
fn read_numbers(s: &[u8], to: &mut [u64; 512]) {
    let mut at = 0;
    for i in 0..512 {
        let Ok((x, next)) = msgpack::uint_at(s, at, 18446744073709551615) else {
            return;
        };
        to[i] = x;
        at = next;
    }
}

// The numbers from one place to another; none where they do not lie within.
fn between(s: &[u64], from: usize, to: usize) -> &[u64] {
    if from <= to {
        if to <= s.len() {
            return &s[from..to];
        }
    }
    &s[0..0]
}

// The k-th list: the first numbers say where each begins, which is where the one before it ends.
fn list(s: &[u64; 512], k: usize) -> &[u64] {
    if k < 511 {
        return between(s, s[k] as usize, s[k + 1] as usize);
    }
    between(s, 0, 0)
}

// Number and place of a refusal; or 0 and how many bytes were written, and these.
fn put_answer(rt: &impl Print, a: Answer, out: &[u8]) -> io::Result<()> {
    println!(rt; "{} {}", a.number, a.first)?;
    if a.number == 0 {
        rt.write_all(part(out, 0, a.first))?;
        println!(rt)?;
    }
    Ok(())
}

// The call, with what L1 allows as room, in tables for one source, for all of eight with 512 bytes of paths, for 512 words of fresh
// ids and twice a manifest's borrows, for the ids of its groups, and for the result's bytes. Each is lent once, and the caller
// prints: what is lent again, or passed on by one function more, costs the prover as much again.
fn unite(
    s: &[u8],
    ends: &[u64],
    paths: &[u8],
    path_ends: &[u64],
    checkpoints: &[u64],
    fresh: &[u64],
    out: &mut [u8],
) -> Answer {
    exports_union::manifest_union(
        s,
        ends,
        paths,
        path_ends,
        checkpoints,
        fresh,
        &[64, 512, 128, 32, 512, 8192],
        &mut [0u64; 768],
        &mut [0u64; 8192],
        &mut [0u64; 384],
        &mut [0u64; 288],
        &mut [0u64; 1024],
        &mut [0u64; 6144],
        &mut [0u64; 65536],
        &mut [0u64; 3072],
        &mut [0u64; 2304],
        &mut [0u64; 8192],
        &mut [0u8; 66048],
        &mut [0u64; 576],
        &mut [0u64; 16384],
        &mut [0u8; 8192],
        out,
    )
}

fn play(rt: &impl Print, s: &[u8]) -> io::Result<()> {
    let mut numbers = [0u64; 512];
    let mut out = [0u8; 65536];
    read_numbers(item(s, 2), &mut numbers);
    let a = unite(
        item(s, 0),
        list(&numbers, 0),
        item(s, 1),
        list(&numbers, 1),
        list(&numbers, 2),
        list(&numbers, 3),
        &mut out,
    );
    put_answer(rt, a, &out)
}

fn calls(rt: &impl Print, s: &[u8]) -> io::Result<()> {
    for i in 0..s.len() {
        let c = item(s, i);
        if c.len() == 0 {
            return Ok(());
        }
        play(rt, c)?;
    }
    Ok(())
}

// What is past 65,536 bytes is not read.
fn main(rt: HostRuntime) -> io::Result<()> {
    let mut input = Vec::new(rt.alloc());
    rt.reader().take(65536).read_to_end(&mut input)?;
    calls(&rt, input.as_slice())
}
