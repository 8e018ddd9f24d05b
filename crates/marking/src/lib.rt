#![tactic(auto)]

// Marking: whether a candidate is a branching bisimulation in every listed variant, or its first fault.
ghost use Rattle.std.specs.Prelude.{◌≡◌, Some};
ghost use Rattle.following.specs.Views.{side_of};
ghost use Rattle.theory.specs.Marks.{kind_of};
ghost use Rattle.marking.specs.Faults.{rule_number, fault_text};

use families::Family;
use following::Side;
use std::error::Error;
use std::fmt;
use tables::Grid;

mod checking;
mod judging;

pub use checking::mark;

// The rule that a candidate breaks; they stand in the order of their numbers, from 1.
#[derive(Clone, Copy, Debug, PartialEq, Eq)]
pub enum Rule {
    Start,
    Left,
    Right,
}

impl Rule {
    // The number by which the rule is known.
    pub fn number(self) -> u8
        ensures { result ≡ rule_number self }
    {
        self as u8 + 1
    }
}

// The rule that a side's steps are followed.
impl From<Side> for Rule {
    ghost from_gives = { λ side rule. rule_number rule ≡ kind_of (side_of side) };

    fn from(side: Side) -> Rule {
        match side {
            Side::Left => Rule::Left,
            Side::Right => Rule::Right,
        }
    }
}

// A fault: the rule, the pair, the place of the step in its family's list, and the least variant that fails.
#[derive(Clone, Copy, Debug, PartialEq, Eq)]
pub struct Fault {
    pub rule: Rule,
    pub left: u8,
    pub right: u8,
    pub step: usize,
    pub variant: u32,
}

impl fmt::Display for Fault {
    ghost output = { λ f. Some (fault_text f) };

    fn fmt<W: fmt::Write>(&self, f: &mut fmt::Formatter<W>) -> fmt::Result {
        let Fault {
            rule,
            left,
            right,
            step,
            variant,
        } = *self;
        let kind = rule.number();
        write!(
            f,
            "fault of kind {kind} at pair ({left},{right}), step {step}, variant {variant}"
        )
    }
}

impl Error for Fault {}

// What marking a candidate gives: it is accepted, or its first fault.
pub type Marked = Result<(), Fault>;

// A candidate for two families, with a row for each left state and a column for each right state, and the silent
// reach of both families, by which it is judged.
#[derive(Drop)]
struct Marking<'m, S> {
    left: &'m Family<'m, S>,
    right: &'m Family<'m, S>,
    candidate: Grid<'m, S>,
    left_reach: Grid<'m, S>,
    right_reach: Grid<'m, S>,
    ghost rows: { candidate.rows ≡ left.now.parts.states },
    ghost cols: { candidate.cols ≡ right.now.parts.states },
}
