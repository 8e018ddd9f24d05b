#![tactic(auto)]

// Worked facts, in plain numbers.
mod kinds;
mod lines;

pub use kinds::{mask_has, pair_has, pair_only_65, single_has, sizes};
pub use lines::worked_lines;
