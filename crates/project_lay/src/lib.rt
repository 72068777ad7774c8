// Projection's trees and segments, by what becomes of each: measured, the SST ids of their views listed, and laid out.
#![tactic(auto)]

mod left_laid;
mod left_listed;
mod left_measured;

pub use left_laid::put_trees_after;
pub use left_listed::list_used;
pub use left_measured::measure_narrowed;
