// Owned ids and clone.
#![tactic(auto)]

mod clone_answers;
mod clone_lenders;
mod clone_rows;
mod ids_owned;

pub use clone_answers::{cloned, cloned_judged};
pub use clone_lenders::lacks_final;
pub use clone_rows::clone_fill;
pub use ids_owned::{first_naming, own_all, owned_judged, owned_ssts};
use records::{ManifestRow, Refusal};
