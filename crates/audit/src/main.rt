// The audit program: reads a manifest as MessagePack on standard input and writes five lines, or why it is refused.
#![tactic(auto)]

use records::{Fill, Refusal, Tables};
use std::io;
use std::io::Read;

// A word, a number, and the end of the line.
fn put_line(rt: &impl Print, word: &str, n: usize) -> io::Result<()> {
    println!(rt; "{word} {n}")
}

fn put_refusal(rt: &impl Print, r: Refusal) -> io::Result<()> {
    let t = records::tell(r);
    println!(rt; "refused {} at {}", t.number, t.place)
}

fn put_fill(rt: &impl Print, f: Fill) -> io::Result<()> {
    println!(rt; "manifest ok")?;
    put_line(rt, "segments", f.segments)?;
    put_line(rt, "views", f.views)?;
    put_line(rt, "runs", f.runs)?;
    put_line(rt, "borrows", f.borrows)
}

// What reading says of the input, in tables as large as L1 allows: 64, 512, 128, 32 and 512 rows, and 8,192 bytes.
fn audit(rt: &impl Print, s: &[u8]) -> io::Result<()> {
    let mut rows_of_segments = [0u64; 768];
    let mut rows_of_views = [0u64; 8192];
    let mut rows_of_runs = [0u64; 384];
    let mut rows_of_borrows = [0u64; 288];
    let mut rows_of_ids = [0u64; 1024];
    let mut segments = [0u64; 768];
    let mut views = [0u64; 8192];
    let mut runs = [0u64; 384];
    let mut borrows = [0u64; 288];
    let mut ids = [0u64; 1024];
    let mut pool = [0u8; 8192];
    let lim = records::limits_01();
    match manifest_read::read(
        lim,
        s,
        &mut rows_of_segments,
        &mut rows_of_views,
        &mut rows_of_runs,
        &mut rows_of_borrows,
        &mut rows_of_ids,
        &mut segments,
        &mut views,
        &mut runs,
        &mut borrows,
        &mut ids,
        &mut pool,
    ) {
        Err(r) => put_refusal(rt, r),
        Ok(m) => match measure::measure(
            lim,
            Tables {
                segments: &segments,
                views: &views,
                runs: &runs,
                borrows: &borrows,
                ids: &ids,
                pool: &pool,
            },
            m,
        ) {
            Some(f) => put_fill(rt, f),
            None => put_refusal(rt, Refusal::Unlawful(1)),
        },
    }
}

// A manifest of more than 65,536 bytes is refused, so no more than 65,537 are read.
fn main(rt: HostRuntime) -> io::Result<()> {
    let mut input = Vec::new(rt.alloc());
    rt.reader().take(65537).read_to_end(&mut input)?;
    audit(&rt, input.as_slice())
}
