// What a projection asks of each tree: the filter, the own ranges, and what becomes of the tree. Every bound is a place in the
// manifest's own pool; the own ranges stand in a table of six words a row.
#![tactic(auto)]

mod range_faults;
mod ranges_owned;
mod what_is_asked;

ghost use Rattle.std.specs.Prelude.{◌≡◌};
ghost use Rattle.records.specs.Decode.{bytes_in};
ghost use Rattle.project_views.specs.Reach.{reach_of};
ghost use Rattle.project_ranges.specs.Action.{action_of};
ghost use Rattle.project_ranges.specs.Args.{asked_in, config_in, action_in};
ghost use Rattle.project_ranges.specs.Steps.{met_with, sole_row};

use keys::Range;
use project_views::{Reach, Until, holds_none, meet_reach};
pub use range_faults::own_fault;
pub use ranges_owned::config_over;
use ranges_owned::{canonicalize_segment_range, end_or, own_at};
use records::Place;
use what_is_asked::passes;
pub use what_is_asked::{global_empty, highest_bit, is_noop, mask_over, names_count};

// What is asked for: the global range, where one is set; the filter, where there is one: a flag for the unsegmented tree, and a mask with a
// bit for each segment; and whether there is a table of own ranges, which is lent beside it.
#[derive(Clone, Copy)]
pub struct ProjectionConfig {
    pub global_range: Option<Range>,
    pub segment_filter: Option<(bool, u64)>,
    pub segment_projection: bool,
}

// What becomes of a tree.
#[derive(Clone, Copy)]
pub enum SegmentAction {
    Drop,
    Project(Reach),
    PassThrough,
}

// ---- what becomes of a tree

// A tree with an own range, which is met with the global one.
fn met_action(pool: &[u8], q: Reach, g: Option<Range>) -> SegmentAction
    ensures { action_in pool.now result ≡ met_with (reach_of pool.now q) (asked_in pool.now g) }
{
    match g {
        None => SegmentAction::Project(q),
        Some(a) => {
            let m = meet_reach(pool, a, q);
            if holds_none(pool, m) {
                return SegmentAction::Drop;
            }
            SegmentAction::Project(m)
        }
    }
}

// A tree with none.
fn sole_action(g: Option<Range>) -> SegmentAction
    ensures { result ≡ sole_row g }
{
    match g {
        None => SegmentAction::PassThrough,
        Some(a) => {
            let start = a.start;
            let e = a.end;
            let end = end_or(e, Until::Unbounded);
            SegmentAction::Project(Reach { start, end })
        }
    }
}

// What becomes of the tree at a place: 0 the unsegmented one, whose prefix is empty, i + 1 that of segment i.
// inner
pub fn resolve_segment_action(
    pool: &[u8],
    prefix: Place,
    place: usize,
    c: ProjectionConfig,
    own: &[u64],
) -> SegmentAction
    ensures { action_in pool.now result ≡ action_of (config_in pool.now c own.now) place (bytes_in pool.now prefix) }
{
    let f = c.segment_filter;
    if !passes(f, place) {
        return SegmentAction::Drop;
    }
    let g = c.global_range;
    if c.segment_projection {
        let r = own_at(own, place);
        let q = canonicalize_segment_range(prefix, r);
        return met_action(pool, q, g);
    }
    sole_action(g)
}
