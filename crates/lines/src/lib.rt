#![tactic(auto)]

// The worked lines as steps of Masks: each function lists the steps of the family that the worked theorem has
// under the same name.
ghost use Rattle.std.specs.Prelude.{◌≡◌, true};
ghost use Rattle.masks.specs.Words.{word};
ghost use Rattle.worked.specs.Words.{set_of, step as written};
ghost use Rattle.worked.specs.Lines.{first_left, first_right, crossed_left, crossed_right, second_left, second_right};
ghost use Rattle.lines.specs.Meanings.{all_below_64, meaning, Lists};

use families::Step;
use masks::Mask;
use variants::VariantSet;

// The set of the numbers.
fn set_of(numbers: &[u32]) -> Mask
    requires { all_below_64 numbers.now ≡ true }
    ensures { word result.bits ≡ set_of numbers.now }
{
    numbers
        .iter()
        .fold(Mask::none(), |set, v| set.either(Mask::only(*v)))
}

// A step as it is written: leaves, action, enters, set.
fn step(from: u8, action: u8, to: u8, set: &[u32]) -> Step<Mask>
    requires { all_below_64 set.now ≡ true }
    ensures { meaning result ≡ written from action to set.now }
{
    Step {
        from,
        action,
        to,
        set: set_of(set),
    }
}

// The first line, left: after action 1 comes 2 in variant 0 and 3 in variant 1.
pub fn first_left() -> [Step<Mask>; 3]
    ensures { Lists result first_left }
{
    [
        step(0, 1, 1, &[0, 1]),
        step(1, 2, 0, &[0]),
        step(1, 3, 0, &[1]),
    ]
}

// The first line, right: after action 1 comes 2 in both variants.
pub fn first_right() -> [Step<Mask>; 2]
    ensures { Lists result first_right }
{
    [step(0, 1, 1, &[0, 1]), step(1, 2, 0, &[0, 1])]
}

// The crossed line, left: action 1, then 2.
pub fn crossed_left() -> [Step<Mask>; 2]
    ensures { Lists result crossed_left }
{
    [step(0, 1, 1, &[0, 1]), step(1, 2, 2, &[0, 1])]
}

// The crossed line, right: each variant's reply to action 1 leads where only the other variant goes on.
pub fn crossed_right() -> [Step<Mask>; 4]
    ensures { Lists result crossed_right }
{
    [
        step(0, 1, 1, &[0]),
        step(0, 1, 2, &[1]),
        step(1, 2, 3, &[1]),
        step(2, 2, 3, &[0]),
    ]
}

// The second line, left: action 1.
pub fn second_left() -> [Step<Mask>; 1]
    ensures { Lists result second_left }
{
    [step(0, 1, 1, &[0, 1])]
}

// The second line, right: in variant 1 a silent step comes before action 1.
pub fn second_right() -> [Step<Mask>; 3]
    ensures { Lists result second_right }
{
    [
        step(0, 0, 1, &[1]),
        step(0, 1, 2, &[0]),
        step(1, 1, 2, &[1]),
    ]
}
