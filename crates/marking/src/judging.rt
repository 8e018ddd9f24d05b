// The first fault of a candidate.
ghost use Rattle.std.specs.Prelude.{◌≡◌, [], ◌∷◌};
ghost use Rattle.theory.specs.Answers.{granted};
ghost use Rattle.theory.specs.Marks.{mover};
ghost use Rattle.families.specs.Drafts.{model};
ghost use Rattle.following.specs.Views.{side_of};
ghost use Rattle.marking.specs.Faults.{rule_number, fault_answer};
ghost use Rattle.marking.specs.Judgements.{left_of, right_of, Reads, Stands, LapsesAt, JudgesSteps, JudgesSide, JudgesPair, JudgesPairs, JudgesStarts, Judges};

use crate::{Fault, Marked, Marking, Rule};
use families::{Family, Step};
use following::{Position, Side, View};
use tables::Grid;
use variants::VariantSet;

// A step that is not followed: its place in the list, and the least variant in which it is not.
#[derive(Clone, Copy)]
pub struct Lapse {
    pub(crate) step: usize,
    pub(crate) variant: u32,
}

impl Lapse {
    // The fault that a side's lapse is, at the pair.
    fn fault(self, rule: Rule, left: u8, right: u8) -> Fault
        ensures { fault_answer result ≡ granted (rule_number rule ∷ left ∷ right ∷ self.step ∷ self.variant ∷ []) }
    {
        Fault {
            rule,
            left,
            right,
            step: self.step,
            variant: self.variant,
        }
    }
}

// The lapse that the step at a place is, if it is not followed from the position.
fn lapse_at<S: VariantSet>(position: &Position<S>, place: usize, step: Step<S>) -> Option<Lapse>
    ensures { LapsesAt S.VariantSet position.now place step result }
{
    let variant = position.lacking(step)?;
    Some(Lapse {
        step: place,
        variant,
    })
}

// The first step of the mover that is not followed from the position.
fn unfollowed<S: VariantSet>(position: &Position<S>, mover: &Family<S>) -> Option<Lapse>
    ensures { JudgesSteps S.VariantSet position.now mover.now result }
{
    let mut steps = mover.steps_from(position.own);
    steps.find_map(|(place, step)| lapse_at(position, place, step))
}

impl<'m, S: VariantSet> Marking<'m, S> {
    // The sets in memory as a candidate and as both reaches, row by row.
    pub(crate) fn new(
        left: &'m Family<'m, S>,
        right: &'m Family<'m, S>,
        candidate: &'m [S],
        left_reach: &'m [S],
        right_reach: &'m [S],
    ) -> Marking<'m, S>
        ensures { Reads S.VariantSet result left.now right.now candidate.now left_reach.now right_reach.now }
    {
        let rows = left.states();
        let cols = right.states();
        Marking {
            left,
            right,
            candidate: Grid {
                rows,
                cols,
                cells: candidate,
            },
            left_reach: Grid {
                rows,
                cols: rows,
                cells: left_reach,
            },
            right_reach: Grid {
                rows: cols,
                cols,
                cells: right_reach,
            },
        }
    }

    // Where a side stands at the pair of `s` and `t`.
    fn position(&self, side: Side, s: u8, t: u8) -> Position<S>
        ensures { Stands S.VariantSet self.now (side_of side) s t result }
    {
        let view = View {
            side,
            grid: self.candidate,
        };
        match side {
            Side::Left => Position {
                view,
                own: s,
                other: t,
                follower: self.right,
                reach: self.right_reach.row(t),
            },
            Side::Right => Position {
                view,
                own: t,
                other: s,
                follower: self.left,
                reach: self.left_reach.row(s),
            },
        }
    }

    // The family whose steps are to be followed.
    fn mover(&self, side: Side) -> &Family<S>
        ensures { model S.VariantSet result.now ≡ mover (side_of side) (left_of S.VariantSet self.now) (right_of S.VariantSet self.now) }
    {
        match side {
            Side::Left => self.left,
            Side::Right => self.right,
        }
    }

    // The first fault of a side's steps at the pair.
    fn side_fault(&self, side: Side, s: u8, t: u8) -> Marked
        ensures { JudgesSide S.VariantSet self.now (side_of side) s t result }
    {
        match unfollowed(&self.position(side, s, t), self.mover(side)) {
            Some(lapse) => Err(lapse.fault(Rule::from(side), s, t)),
            None => Ok(()),
        }
    }

    // The first fault at the pair.
    fn pair_fault(&self, s: u8, t: u8) -> Marked
        ensures { JudgesPair S.VariantSet self.now s t result }
    {
        self.side_fault(Side::Left, s, t)?;
        self.side_fault(Side::Right, s, t)
    }

    // The first fault at any pair.
    #[tactic(auto, using(crate::proofs::Walks::clear_row))]
    fn pairs_fault(&self) -> Marked
        ensures { JudgesPairs S.VariantSet self.now result }
    {
        for s in 0..self.left.states() {
            for t in 0..self.right.states() {
                self.pair_fault(s, t)?;
            }
        }
        Ok(())
    }

    // The fault of the pair of starts, at the least listed variant that it lacks.
    fn start_fault(&self, list: S) -> Marked
        ensures { JudgesStarts S.VariantSet self.now list result }
    {
        let left = self.left.start();
        let right = self.right.start();
        let paired = self.candidate.at(left, right);
        match list.without(paired).least() {
            Some(variant) => Err(Fault {
                rule: Rule::Start,
                left,
                right,
                step: 0,
                variant,
            }),
            None => Ok(()),
        }
    }

    // The start rule first, then every pair.
    #[tactic(auto, using(crate::proofs::Walks::found_all))]
    pub(crate) fn judge(&self, list: S) -> Marked
        ensures { Judges S.VariantSet self.now list result }
    {
        self.start_fault(list)?;
        self.pairs_fault()
    }
}
