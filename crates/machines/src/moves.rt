// The machine of one variant, step by step.
ghost use Rattle.std.specs.Prelude.{◌≡◌, ◌<◌, map, IfOk};
ghost use Rattle.theory.specs.Systems.{machine};
ghost use Rattle.families.specs.Drafts.{model};
ghost use Rattle.machines.specs.Moves.{move_of, bare_move};

use families::{Family, Step};
use std::alloc::{AllocError, Global};
use std::fmt;
use variants::VariantSet;

// A step of one machine.
#[derive(Clone, Copy)]
pub struct Move {
    from: u8,
    action: u8,
    to: u8,
}

impl<S: Copy> From<Step<S>> for Move {
    ghost from_gives = { λ x m. m ≡ bare_move x };

    fn from(step: Step<S>) -> Move {
        Move {
            from: step.from,
            action: step.action,
            to: step.to,
        }
    }
}

impl fmt::Display for Move {
    fn fmt<W: fmt::Write>(&self, f: &mut fmt::Formatter<W>) -> fmt::Result {
        let Move { from, action, to } = *self;
        write!(f, "{from} --{action}--> {to}")
    }
}

// The steps that the machine of `variant` has, in the order of the family's list.
pub fn moves_of<S: VariantSet>(
    heap: Global,
    family: &Family<S>,
    variant: u32,
) -> Result<Vec<Move>, AllocError>
    ensures { IfOk result (λ m. variant < 1024 → map move_of m.items ≡ (machine (model S.VariantSet family.now) variant).steps) }
{
    family
        .steps()
        .iter()
        .copied()
        .filter(|step| step.set.has(variant))
        .map(Move::from)
        .collect(heap)
}
