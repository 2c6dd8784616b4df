// What every crate of the sorter shares: the name of a destination, a chute, and why a call was refused.
// The rules of 01 are in specs/, in plain finite sets: Sets; Pass with Table; Board (calls, answers, refusals); Refusals (their numbers and places);
// Trial (what a trial keeps); Cases and Sample are worked out. What follows from them is in proofs/: Sound (the pass), CallLaws and WellFormed (every call), Trials (demand 3);
// Tests, SetLaws, InOrder, RowLaws and Loops serve those who build on it.
#![tactic(auto)]

ghost use Rattle.std.specs.Prelude.{◌≡◌};
ghost use Rattle.rules.specs.Refusals.{number_of, place_of};

use std::error::Error;
use std::fmt;

// A destination. No chute can stand in its place: the compiler keeps the two apart.
#[derive(Clone, Copy, Debug, PartialEq, Eq)]
pub struct Variable(pub u32);

// A chute.
#[derive(Clone, Copy, Debug, PartialEq, Eq)]
pub struct Value(pub i32);

// What a propagation answers: whether it took a chute from a destination, and whether it left none without a chute.
#[derive(Clone, Copy, Debug, PartialEq, Eq)]
pub struct Pair {
    pub changed: bool,
    pub consistent: bool,
}

// Why a call was refused: a variant for each row of 01's table, in its order. A place counts from 0, in a list of ids or in a sheet's bytes.
#[derive(Clone, Copy, Debug, PartialEq, Eq)]
pub enum Refusal {
    Broken,
    Full,
    TrialOpen,
    TooDeep,
    NoMark,
    Unknown(usize),
    Repeated(usize),
    TooLong,
    TooWide,
    Short,
    Empty,
    BadState,
    OtherUniverse,
    NoRoom,
    BadSheet(usize),
}

impl Refusal {
    // The number in 01's table, as the wave program prints it.
    pub fn number(self) -> u32
        ensures { result ≡ number_of self }
    {
        match self {
            Refusal::Broken => 1,
            Refusal::Full => 2,
            Refusal::TrialOpen => 3,
            Refusal::TooDeep => 4,
            Refusal::NoMark => 5,
            Refusal::Unknown(_) => 6,
            Refusal::Repeated(_) => 7,
            Refusal::TooLong => 8,
            Refusal::TooWide => 9,
            Refusal::Short => 10,
            Refusal::Empty => 11,
            Refusal::BadState => 12,
            Refusal::OtherUniverse => 13,
            Refusal::NoRoom => 14,
            Refusal::BadSheet(_) => 15,
        }
    }

    // The place that it names, and 0 where it names none.
    pub fn place(self) -> usize
        ensures { result ≡ place_of self }
    {
        match self {
            Refusal::Unknown(at) | Refusal::Repeated(at) | Refusal::BadSheet(at) => at,
            _ => 0,
        }
    }
}

impl fmt::Display for Refusal {
    fn fmt<W: fmt::Write>(&self, f: &mut fmt::Formatter<W>) -> fmt::Result {
        write!(f, "refused: {} {}", self.number(), self.place())
    }
}

impl Error for Refusal {}
