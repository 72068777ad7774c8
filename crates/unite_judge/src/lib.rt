// The arguments of a union: its sources' rows read and judged, and what all sources say together.
#![tactic(auto)]

ghost use Rattle.std.specs.Prelude.{◌≡◌, true, ◌+◌, ◌*◌, ◌≤◌, length};
ghost use Rattle.records.specs.Decode.{lent_of};
ghost use Rattle.records.specs.Row.{place_at};
ghost use Rattle.measure.specs.Placed.{opened};
ghost use Rattle.unite_sources.specs.Source.{greater};
ghost use Rattle.unite_sources.specs.Rows.{manifest_at_word};
ghost use Rattle.unite_judge.specs.Judging.{path_over, some_path_over, codes_known, source_judged, sources_judged, work_short};
ghost use Rattle.unite_judge.specs.Words.{greatest_at, name_at, agreed_at};

use lawful::lawful;
use records::{Limits, ManifestRow, Place, Tables, place_at, tree_at, window_at};

// ---- a source's row: 22 words

fn name_at(t: &[u64], b: usize) -> Option<Place>
    requires { b + 22 ≤ length t.now }
    ensures { result ≡ name_at t.now b }
{
    let p = place_at(t, b + 13);
    match t[b + 12] {
        0 => None,
        _ => Some(p),
    }
}

// The manifest of the source whose row begins at word `b`.
// inner
pub fn source_manifest(t: &[u64], b: usize) -> ManifestRow
    requires { b + 22 ≤ length t.now }
    ensures { result ≡ manifest_at_word t.now b }
{
    let tree = tree_at(t, b);
    let segments = window_at(t, b + 10);
    let name = name_at(t, b);
    let seq = t[b + 15];
    let borrows = window_at(t, b + 16);
    ManifestRow {
        initialized: true,
        tree,
        segments,
        segment_extractor_name: name,
        next_wal_sst_id: 1,
        replay_after_wal_id: 0,
        last_l0_clock_tick: -9223372036854775808,
        last_l0_seq: seq,
        recent_snapshot_min_seq: 0,
        external_dbs: borrows,
        writer_epoch: 0,
        compactor_epoch: 0,
    }
}

// ---- 2

// Whether a path is too long, or points outside the pool of `n` bytes.
fn path_over(most: usize, n: usize, p: Place) -> bool
    ensures { result ≡ path_over most n p }
{
    if most < p.len {
        return true;
    }
    if n < p.len {
        return true;
    }
    n - p.len < p.at
}

fn path_at_over(most: usize, n: usize, t: &[u64], i: usize) -> bool
    requires { (i + 1) * 22 ≤ length t.now }
    ensures { result ≡ path_over most n (place_at t.now (i * 22 + 18)) }
{
    let p = place_at(t, i * 22 + 18);
    path_over(most, n, p)
}

// Whether the path of some source among the first `k` is.
// inner
pub fn some_path_over(most: usize, n: usize, t: &[u64], k: usize) -> bool
    requires { k * 22 ≤ length t.now }
    ensures { result ≡ some_path_over most n t.now k }
{
    for i in 0..k {
        if path_at_over(most, n, t, i) {
            return true;
        }
    }
    false
}

// Whether the lent working memory is too short for some eight sources within L1. No product is made that could wrap.
// inner
pub fn work_short(lim: Limits, prefixes: usize, owned: usize, groups: usize, sets: usize) -> bool
    ensures { result ≡ work_short lim prefixes owned groups sets }
{
    let f = lim.fill;
    if prefixes / 16 < f.segments {
        return true;
    }
    if owned / 2 < f.views {
        return true;
    }
    if groups / 48 <= f.borrows {
        return true;
    }
    if sets / 16 < f.ids {
        return true;
    }
    sets / 16 - f.ids < f.views
}

// ---- 1

fn is_code(x: u64) -> bool
    ensures { result ≡ opened x true }
{
    x <= 1
}

// Whether the codes of the row that begins at word `b` stand for something.
fn codes_known(t: &[u64], b: usize) -> bool
    requires { b + 22 ≤ length t.now }
    ensures { result ≡ codes_known t.now b }
{
    if !is_code(t[b]) {
        return false;
    }
    if !is_code(t[b + 3]) {
        return false;
    }
    is_code(t[b + 12])
}

fn source_judged(lim: Limits, sources: &[u64], b: usize, tables: Tables) -> Result<(), usize>
    requires { b + 22 ≤ length sources.now }
    ensures { result ≡ source_judged lim (lent_of tables.entry) sources.now b }
{
    if !codes_known(sources, b) {
        return Err(1);
    }
    let m = source_manifest(sources, b);
    lawful(lim, tables, m)
}

// The first rule that one of the first `n` sources breaks, in the order given.
// inner
pub fn sources_judged(lim: Limits, sources: &[u64], n: usize, tables: Tables) -> Result<(), usize>
    requires { n * 22 ≤ length sources.now }
    ensures { result ≡ sources_judged lim (lent_of tables.entry) sources.now n }
{
    for i in 0..n {
        let j = source_judged(lim, sources, i * 22, tables);
        match j {
            Ok(()) => {}
            Err(rule) => {
                return Err(rule);
            }
        }
    }
    Ok(())
}

// ---- what all sources say

fn greater_of(a: u64, b: u64) -> u64
    ensures { result ≡ greater a b }
{
    if a < b {
        return b;
    }
    a
}

// The greatest `last_l0_seq` of the first `n` sources.
// inner
pub fn greatest_seq(t: &[u64], n: usize) -> u64
    requires { n * 22 ≤ length t.now }
    ensures { result ≡ greatest_at t.now n }
{
    let mut x = 0;
    for i in 0..n {
        x = greater_of(x, t[i * 22 + 15]);
    }
    x
}

// The name of the first of `n` sources.
// inner
pub fn agreed_name(t: &[u64], n: usize) -> Option<Place>
    requires { n * 22 ≤ length t.now }
    ensures { result ≡ agreed_at t.now n }
{
    if n == 0 {
        return None;
    }
    name_at(t, 0)
}
