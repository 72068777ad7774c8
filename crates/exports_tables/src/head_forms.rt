// A manifest's own value as words, and the numbers that the calls answer.
ghost use Rattle.std.specs.Prelude.{◌≡◌, ◌&&◌, leb};
ghost use Rattle.keys.specs.Pick.{pick};
ghost use Rattle.records.specs.Row.{optional};
ghost use Rattle.exports_tables.specs.Head.{head_at, head_segments, nowhere, name_word, name_place, flag_word, tree_row, rest_words};
ghost use Rattle.exports_tables.specs.Calls.{bare, headed, copied_laid, inserted_laid};

use crate::Laid;
use exports_forms::{Answer, given, refused_answer};
use insert::Inserted;
use records::{ManifestRow, Place, Refusal, SegmentRow, segment_at, segment_words};
use tables::{Window, ix};

fn name_of(code: u64, p: Place) -> Option<Place>
    ensures { result ≡ optional None Some code p }
{
    match code {
        0 => None,
        _ => Some(p),
    }
}

fn window(first: u64, count: u64) -> Window
    ensures { result ≡ record { first = first; count = count } }
{
    Window {
        first: ix(first),
        count: ix(count),
    }
}

// Whether it is a code, 0 or 1.
fn is_code(x: u64) -> bool
    ensures { result ≡ leb x 1 }
{
    x <= 1
}

fn are_both(a: bool, b: bool) -> bool
    ensures { result ≡ (a && b) }
{
    a && b
}

// The segments' window, or one that lies in no table where the codes are not known.
fn window_if(known: bool, first: u64, count: u64) -> Window
    ensures { result ≡ pick known (record { first = first; count = count }) nowhere }
{
    if known {
        return window(first, count);
    }
    Window {
        first: 18446744073709551615,
        count: 1,
    }
}

fn head_segments(tree: &[u64; 12], rest: &[u64; 12]) -> Window
    ensures { result ≡ head_segments tree.now rest.now }
{
    let view = is_code(tree[2]);
    let sst = is_code(tree[5]);
    let marks = are_both(view, sst);
    let name = is_code(rest[0]);
    let initialized = is_code(rest[5]);
    let flags = are_both(name, initialized);
    let known = are_both(marks, flags);
    window_if(known, rest[1], rest[2])
}

pub fn head_at(tree: &[u64; 12], rest: &[u64; 12], tick: i64) -> ManifestRow
    ensures { result ≡ head_at tree.now rest.now tick }
{
    let segments = head_segments(tree, rest);
    let s = segment_at(tree, 0);
    let p = s.prefix;
    let tree = s.tree;
    let segment_extractor_name = name_of(rest[0], p);
    let external_dbs = window(rest[3], rest[4]);
    ManifestRow {
        initialized: 0 < rest[5],
        tree,
        segments,
        segment_extractor_name,
        next_wal_sst_id: rest[6],
        replay_after_wal_id: rest[7],
        last_l0_clock_tick: tick,
        last_l0_seq: rest[8],
        recent_snapshot_min_seq: rest[9],
        external_dbs,
        writer_epoch: rest[10],
        compactor_epoch: rest[11],
    }
}

fn name_word(x: Option<Place>) -> u64
    ensures { result ≡ name_word x }
{
    x.is_some() as u64
}

fn name_place(x: Option<Place>) -> Place
    ensures { result ≡ name_place x }
{
    x.unwrap_or(Place { at: 0, len: 0 })
}

fn flag_word(b: bool) -> u64
    ensures { result ≡ flag_word b }
{
    b as u64
}

fn tree_row(m: ManifestRow) -> SegmentRow
    ensures { result ≡ tree_row m }
{
    let x = m.segment_extractor_name;
    let tree = m.tree;
    SegmentRow {
        prefix: name_place(x),
        tree,
    }
}

fn rest_words(m: ManifestRow) -> [u64; 12]
    ensures { result ≡ rest_words m }
{
    let x = m.segment_extractor_name;
    let name = name_word(x);
    let initialized = flag_word(m.initialized);
    [
        name,
        m.segments.first as u64,
        m.segments.count as u64,
        m.external_dbs.first as u64,
        m.external_dbs.count as u64,
        initialized,
        m.next_wal_sst_id,
        m.replay_after_wal_id,
        m.last_l0_seq,
        m.recent_snapshot_min_seq,
        m.writer_epoch,
        m.compactor_epoch,
    ]
}

fn bare_answer(answer: Answer) -> Laid
    ensures { result ≡ bare answer }
{
    Laid {
        answer,
        tree: [0; 12],
        rest: [0; 12],
        tick: 0,
    }
}

fn headed_answer(answer: Answer, m: ManifestRow) -> Laid
    ensures { result ≡ headed answer m }
{
    Laid {
        answer,
        tree: segment_words(tree_row(m)),
        rest: rest_words(m),
        tick: m.last_l0_clock_tick,
    }
}

pub fn copied_answer(x: Result<ManifestRow, Refusal>) -> Laid
    ensures { result ≡ copied_laid x }
{
    match x {
        Ok(m) => headed_answer(given(0, 0, 0), m),
        Err(r) => bare_answer(refused_answer(r)),
    }
}

pub fn inserted_answer(x: Result<Inserted, Refusal>) -> Laid
    ensures { result ≡ inserted_laid x }
{
    match x {
        Ok(Inserted::Found(i)) => bare_answer(given(0, i, 0)),
        Ok(Inserted::Entered(i, m)) => headed_answer(given(1, i, 0), m),
        Err(r) => bare_answer(refused_answer(r)),
    }
}
