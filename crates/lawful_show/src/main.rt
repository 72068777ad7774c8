// Prints for a written list of manifests the number of the first rule that each breaks, 0 for a lawful one: at every limit
// of L1 and one past each, outside each table and the pool, with a code that stands for nothing, and against L2 to L5.
// All of them stand in one set of tables. The lines in stdout were worked out by hand from document 01.
// stdin has the rows of the tables and then the manifests, and says at its top how a line is written. Of a line that is
// written otherwise what can be read counts: a missing number is 0, a row outside its table is not set, a line of no kind
// is skipped.
#![tactic(auto)]

mod lines;

ghost use Rattle.std.specs.Prelude.{◌≤◌};

use lines::{after, before, find, number};
use records::{ManifestRow, Place, Tables, TreeRow, limits_01};
use std::io;
use std::io::Read;
use tables::{Window, ix};

// ---- the tables, which stand one after the other in `t`

fn least(a: usize, b: usize) -> usize
    ensures { result ≤ b }
{
    if a < b { a } else { b }
}

// Where a row begins, by the first letter of its table: 100 segments, 680 views, 150 runs, 45 borrows, 513 ids. A row past the
// end begins at the end, so that no line writes into another table.
fn place(letter: u8, row: usize) -> usize {
    match letter {
        b's' => least(row, 100) * 12,
        b'v' => 1200 + least(row, 680) * 16,
        b'r' => 12080 + least(row, 150) * 3,
        b'b' => 12530 + least(row, 45) * 9,
        b'i' => 12935 + least(row, 513) * 2,
        _ => 0,
    }
}

// How many words a row has.
fn width(letter: u8) -> usize {
    match letter {
        b's' => 12,
        b'v' => 16,
        b'r' => 3,
        b'b' => 9,
        _ => 2,
    }
}

// All rows of a table. None has 1,000.
fn table(t: &[u64], letter: u8) -> &[u64] {
    let from = place(letter, 0);
    let past = place(letter, 1000);
    if past < from {
        return &t[0..0];
    }
    if t.len() < past {
        return &t[0..0];
    }
    &t[from..past]
}

fn next(column: usize, width: usize) -> usize {
    if column < width { column + 1 } else { 1 }
}

// Puts the numbers of `s` into the words from `from` on, before `past`: one to a word, and the same again for each row.
fn set(t: &mut [u64], s: &[u8], width: usize, from: usize, past: usize) {
    let mut column = 1;
    for i in from..past {
        if t.len() <= i {
            return;
        }
        t[i] = number(s, column);
        column = next(column, width);
    }
}

// A line of rows: from which on, how many, and behind the colon their words.
fn set_rows(t: &mut [u64], letter: u8, s: &[u8]) {
    let first = number(s, 1);
    let past = first.wrapping_add(number(s, 2));
    set(
        t,
        after(s, b':'),
        width(letter),
        place(letter, ix(first)),
        place(letter, ix(past)),
    );
}

// ---- the manifests

// The two numbers after the letter: the first row and how many. Both are 0 where the letter is missing.
fn window(s: &[u8], letter: u8) -> Window {
    let w = after(s, letter);
    Window {
        first: ix(number(w, 1)),
        count: ix(number(w, 2)),
    }
}

// The extractor's name: its place in the pool and its length, or none.
fn name(s: &[u8]) -> Option<Place> {
    if find(s, b'n') == s.len() {
        return None;
    }
    let w = window(s, b'n');
    Some(Place {
        at: w.first,
        len: w.count,
    })
}

fn manifest(s: &[u8]) -> ManifestRow {
    ManifestRow {
        initialized: true,
        tree: TreeRow {
            view: None,
            sst: None,
            l0: window(s, b'v'),
            compacted: window(s, b'r'),
        },
        segments: window(s, b's'),
        segment_extractor_name: name(s),
        next_wal_sst_id: 1,
        replay_after_wal_id: 0,
        last_l0_clock_tick: 0,
        last_l0_seq: 0,
        recent_snapshot_min_seq: 0,
        external_dbs: window(s, b'b'),
        writer_epoch: 0,
        compactor_epoch: 0,
    }
}

// The number of the broken rule, 0 for none.
fn rule(j: Result<(), usize>) -> u64 {
    match j {
        Ok(()) => 0,
        Err(rule) => rule as u64,
    }
}

// The pool has 94 bytes in ascending order, with a at place 64, and after them a and 0.
fn judge(t: &[u64], m: ManifestRow) -> u64 {
    let pool =
        b"!\"#$%&'()*+,-./0123456789:;<=>?@ABCDEFGHIJKLMNOPQRSTUVWXYZ[\\]^_`abcdefghijklmnopqrstuvwxyz{|}~a\0";
    let tables = Tables {
        segments: table(t, b's'),
        views: table(t, b'v'),
        runs: table(t, b'r'),
        borrows: table(t, b'b'),
        ids: table(t, b'i'),
        pool,
    };
    rule(lawful::lawful(limits_01(), tables, m))
}

// A manifest's line, from its name on.
fn show(rt: &impl Print, t: &[u64], s: &[u8]) -> io::Result<()> {
    rt.write_all(before(s, b':'))?;
    println!(rt; ": {}", judge(t, manifest(after(s, b':'))))
}

// ---- the lines

fn line(rt: &impl Print, t: &mut [u64], s: &[u8]) -> io::Result<()> {
    if s.is_empty() {
        return Ok(());
    }
    if s[0] == b'c' {
        show(rt, t, after(s, b' '))?;
    } else {
        set_rows(t, s[0], s);
    }
    Ok(())
}

fn play(rt: &impl Print, t: &mut [u64], s: &[u8]) -> io::Result<()> {
    for x in s.split(|b| *b == b'\n') {
        line(rt, t, x)?;
    }
    Ok(())
}

// What is past 65,536 bytes is not read.
fn main(rt: HostRuntime) -> io::Result<()> {
    let mut t = [0u64; 13961];
    let mut input = Vec::new(rt.alloc());
    rt.reader().take(65536).read_to_end(&mut input)?;
    play(&rt, &mut t, input.as_slice())
}
