//! Why a call is declined: one closed list of reasons, each with its number and a sentence.
#![tactic(auto)]

ghost use Rattle.refusal.specs.Numbers.{number_of};
ghost use Rattle.std.specs.Prelude.{◌≡◌};

use std::fmt;

/// Why a call is declined. Of several reasons the one with the smallest number is given.
#[derive(Clone, Copy, PartialEq, Eq, Debug)]
pub enum Refusal {
    Torn = 1,
    Digit = 2,
    Frame = 3,
    Turn = 4,
    Shape = 5,
    Column = 6,
    Price = 7,
    Owners = 8,
    Blocks = 9,
    Ceiling = 10,
    Table = 11,
    Count = 12,
    NoCut = 13,
    Short = 14,
    Unequal = 15,
    Capacity = 16,
}

impl Refusal {
    /// The number by which programs tell the reasons apart.
    pub fn number(self) -> u8
        ensures { result ≡ number_of self }
    {
        self as u8
    }
}

/// The reason in a sentence.
// As it is: a derive of such sentences would put one crate of the toolchain more under every crate here.
impl fmt::Display for Refusal {
    fn fmt<W: fmt::Write>(&self, f: &mut fmt::Formatter<W>) -> fmt::Result {
        f.write_str(match self {
            Refusal::Torn => "the line is torn",
            Refusal::Digit => "a byte of the line is no digit",
            Refusal::Frame => "the tag is unknown or the line has the wrong length for it",
            Refusal::Turn => "the line is not taken at this stage",
            Refusal::Shape => "the sizes or the row starts are wrong",
            Refusal::Column => "a column is out of range or out of order",
            Refusal::Price => "a price is out of range, or the pattern is not square",
            Refusal::Owners => "the list of owners is not as long as there are columns",
            Refusal::Blocks => "the number of blocks is not from 1 to 1024",
            Refusal::Ceiling => "the cost asked for is too high",
            Refusal::Table => "the table memory is too short or holds another table",
            Refusal::Count => "the number of trials is out of range",
            Refusal::NoCut => "no cut stands yet",
            Refusal::Short => "the buffer is too short for the boundaries",
            Refusal::Unequal => "the costs differ in their number of rows",
            Refusal::Capacity => "the matrix is too large for this program",
        })
    }
}

/// A declined call that was brought something: why it was declined, and what was brought, unchanged.
#[derive(Drop)]
pub struct Declined<T> {
    pub reason: Refusal,
    pub brought: T,
}
