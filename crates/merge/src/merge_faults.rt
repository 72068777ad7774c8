// Refusals 6 and 7: data that only the compactor has, and kept prefixes that nest.
ghost use Rattle.std.specs.Prelude.{◌≡◌, true, ◌+◌, ◌/◌, ◌^◌, ◌<◌};
ghost use Rattle.keys.specs.Key.{less_of};
ghost use Rattle.records.specs.Decode.{segments_in};
ghost use Rattle.measure.specs.Tests.{chain};
ghost use Rattle.segments.specs.Prefixes.{prefixes, prefixes_in};
ghost use Rattle.merge.specs.Merge.{from_compactor};
ghost use Rattle.merge.specs.Finds.{fault_of, data_step, only_of, first_only, first_nest, nest_step, nest_count, nest_found};

use crate::merge_steps::{advance, is_empty_tree, merge_step, next_kept};
use crate::{MergeStep, Nest, Only, Side};
use keys::{begins, part};
use records::{Refusal, SegmentRow};
use tables::{Window, held};

fn has_data(views: &[u64], runs: &[u64], step: MergeStep) -> bool
    ensures { result ≡ data_step views.now runs.now step }
{
    match step {
        MergeStep::End => false,
        MergeStep::WriterOnly(_) => false,
        MergeStep::CompactorOnly(c) => {
            let t = c.tree;
            !is_empty_tree(views, runs, t)
        }
        MergeStep::Both(_, _) => false,
    }
}

fn next_only(
    segments: &[u64],
    views: &[u64],
    runs: &[u64],
    pool: &[u8],
    w: Window,
    c: Window,
    i: usize,
    j: usize,
) -> Only
    requires { (i + 1 < 2 ^ 64) × (j + 1 < 2 ^ 64) }
    ensures { result ≡ only_of segments.now views.now runs.now pool.now w c i j }
{
    let step = merge_step(segments, pool, w, c, i, j);
    let alone = has_data(views, runs, step);
    let past = advance(step, i, j);
    Only {
        alone,
        i: past.i,
        j: past.j,
    }
}

// The first of the compactor's segments with data whose prefix the writer has not.
fn find_only(
    segments: &[u64],
    runs: &[u64],
    views: &[u64],
    pool: &[u8],
    w: Window,
    c: Window,
) -> Option<usize>
    requires { (chain less_of (prefixes_in segments.now pool.now w) ≡ true) × (chain less_of (prefixes_in segments.now pool.now c) ≡ true) }
    ensures { result ≡ first_only 0 (segments_in segments.now runs.now views.now pool.now w) (segments_in segments.now runs.now views.now pool.now c) }
{
    let n = held(w, segments.len() / 12);
    let m = held(c, segments.len() / 12);
    let end = n + m;
    let mut i = 0;
    let mut j = 0;
    // A `while`: two places move, one of them or both at each step, and there is no single counter.
    while i + j < end {
        let s = next_only(segments, views, runs, pool, w, c, i, j);
        if s.alone {
            return Some(j);
        }
        i = s.i;
        j = s.j;
    }
    None
}

fn nest_step(pool: &[u8], nest: Nest, keep: Option<SegmentRow>) -> Nest
    requires { nest_count nest < 2 ^ 64 }
    ensures { result ≡ nest_step pool.now nest keep }
{
    match keep {
        None => nest,
        Some(s) => {
            let q = s.prefix;
            match nest {
                Nest::Clear => Nest::Last(0, q),
                Nest::Last(k, p) => {
                    if begins(part(pool, p.at, p.len), part(pool, q.at, q.len)) {
                        return Nest::At(k);
                    }
                    Nest::Last(k + 1, q)
                }
                Nest::At(k) => Nest::At(k),
            }
        }
    }
}

fn nest_found(nest: Nest) -> Option<usize>
    ensures { result ≡ nest_found nest }
{
    match nest {
        Nest::Clear => None,
        Nest::Last(_, _) => None,
        Nest::At(k) => Some(k),
    }
}

// The first of the segments that merge from compactor keeps whose prefix begins the next.
fn find_nest(
    segments: &[u64],
    runs: &[u64],
    views: &[u64],
    pool: &[u8],
    w: Window,
    c: Window,
) -> Option<usize>
    requires { (chain less_of (prefixes_in segments.now pool.now w) ≡ true) × (chain less_of (prefixes_in segments.now pool.now c) ≡ true) }
    ensures { result ≡ first_nest 0 (prefixes (from_compactor (segments_in segments.now runs.now views.now pool.now w) (segments_in segments.now runs.now views.now pool.now c))) }
{
    let n = held(w, segments.len() / 12);
    let m = held(c, segments.len() / 12);
    let end = n + m;
    let mut nest = Nest::Clear;
    let mut i = 0;
    let mut j = 0;
    // A `while`: two places move, one of them or both at each step, and there is no single counter.
    while i + j < end {
        let s = next_kept(Side::Compactor, segments, views, runs, pool, w, c, i, j);
        let keep = s.keep;
        nest = nest_step(pool, nest, keep);
        i = s.i;
        j = s.j;
    }
    nest_found(nest)
}

// The refusal that is a merge's own: 6 from the writer's manifest, 7 from the compactor's.
pub fn own_fault(
    side: Side,
    segments: &[u64],
    views: &[u64],
    runs: &[u64],
    pool: &[u8],
    w: Window,
    c: Window,
) -> Option<Refusal>
    requires { (chain less_of (prefixes_in segments.now pool.now w) ≡ true) × (chain less_of (prefixes_in segments.now pool.now c) ≡ true) }
    ensures { result ≡ fault_of side (segments_in segments.now runs.now views.now pool.now w) (segments_in segments.now runs.now views.now pool.now c) }
{
    match side {
        Side::Writer => {
            let k = find_only(segments, runs, views, pool, w, c)?;
            Some(Refusal::CompactorOnly(k))
        }
        Side::Compactor => {
            let k = find_nest(segments, runs, views, pool, w, c)?;
            Some(Refusal::KeptNest(k))
        }
    }
}
