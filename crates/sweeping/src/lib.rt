#![tactic(auto)]

// Sweeps: visits of every pair of a table, each keeps what the rule of simulations keeps.
mod judging;
mod visiting;

use families::Family;
pub use visiting::sweep;

// The families of the two sides. By the rule of simulations a pair keeps the variants in which each step of the
// left state is answered by a step of the right one.
#[derive(Drop)]
struct Sides<'f, S> {
    left: &'f Family<'f, S>,
    right: &'f Family<'f, S>,
}
