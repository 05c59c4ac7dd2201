// Why a call does nothing: each reason once, for every crate.
ghost use Rattle.std.specs.Prelude.{◌≡◌, Some};
ghost use Rattle.keys.specs.Refusals.{number_of, refusal_text};

use std::error::Error;
use std::fmt;

#[derive(Clone, Copy, Debug, PartialEq, Eq)]
pub enum Refusal {
    // a size, or a rule's own condition on the number of buckets, is broken
    Size,
    // the bank has fewer slots than the table
    BankShort,
    // the lent work area or list is too short
    LentShort,
    // no assignment seats the new key and all held keys; how many slots the blocking set has
    Full(usize),
    // the bank has no such slot
    NoSlot,
    // the key to drop is not held
    NotHeld,
    // a name has no byte, or more than 15
    NameLength,
    // a line does not have the form of one, or is too long
    BadLine,
    // a command before an accepted `open`, or an `open` after one
    OutOfTurn,
}

impl Refusal {
    // The number by which users know the refusal; inside the library the enum stands for it.
    pub fn number(&self) -> u8
        ensures { result ≡ number_of self.now }
    {
        match self {
            Refusal::Size => 1,
            Refusal::BankShort => 2,
            Refusal::LentShort => 3,
            Refusal::Full(_) => 4,
            Refusal::NoSlot => 5,
            Refusal::NotHeld => 6,
            Refusal::NameLength => 7,
            Refusal::BadLine => 8,
            Refusal::OutOfTurn => 9,
        }
    }
}

impl fmt::Display for Refusal {
    ghost output = { λ r. Some (refusal_text r) };

    fn fmt<W: fmt::Write>(&self, f: &mut fmt::Formatter<W>) -> fmt::Result {
        let number = self.number();
        match self {
            Refusal::Full(slots) => write!(f, "refused {number} {slots}"),
            _ => write!(f, "refused {number}"),
        }
    }
}

impl Error for Refusal {}
