#![tactic(auto)]

// Why calls refuse.
ghost use Rattle.std.specs.Prelude.{◌≡◌};
ghost use Rattle.refusals.specs.Numbers.{number_of};

use std::error::Error;
use std::fmt;

// A refusal; it makes nothing and changes nothing. They stand in the order of their numbers, from 1.
#[derive(Clone, Copy, Debug, PartialEq, Eq)]
pub enum Refusal {
    StatesOutOfRange,
    StartOutOfRange,
    OtherFamilies,
    NoSuchState,
    NoRoomForStep,
    KindTooLarge,
    TableTooShort,
    NoSuchVariant,
    NotSettled,
    ScratchTooShort,
    UnlistedVariant,
}

impl Refusal {
    // The number by which the refusal is known.
    pub fn number(self) -> u8
        ensures { result ≡ number_of self }
    {
        self as u8 + 1
    }
}

impl fmt::Display for Refusal {
    fn fmt<W: fmt::Write>(&self, f: &mut fmt::Formatter<W>) -> fmt::Result {
        let why = match self {
            Refusal::StatesOutOfRange => "a family has 1 to 64 states",
            Refusal::StartOutOfRange => "the start is not one of the states",
            Refusal::OtherFamilies => "a family differs from its side in its states or its start",
            Refusal::NoSuchState => "there is no such state",
            Refusal::NoRoomForStep => "there is no room for one more step",
            Refusal::KindTooLarge => "the kind has more than 1,024 variants",
            Refusal::TableTooShort => "the table has fewer places than there are pairs of states",
            Refusal::NoSuchVariant => "there is no such variant",
            Refusal::NotSettled => "no sweep was made, or the last one struck something",
            Refusal::ScratchTooShort => "the scratch has too few places for both silent reaches",
            Refusal::UnlistedVariant => "the candidate holds a variant that is not listed",
        };
        write!(f, "refused by number {}: {why}", self.number())
    }
}

impl Error for Refusal {}
