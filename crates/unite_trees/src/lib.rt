// Trees joined in order into one, its runs numbered anew. A tree stands in ten words of the table `t`, at the word that the first word
// of a row of `rows` names; `rows` has seven words a row (crate unite_ranges).
#![tactic(auto)]

mod trees_laid;
mod trees_measured;

pub use trees_laid::put_joined;
pub use trees_measured::measure_joined;
