// Our own rules by name, so that a program can take one at run time.
mod rule;

use places::{Digits, Two, Xor};

#[derive(Clone, Copy, Debug, PartialEq, Eq)]
pub enum RuleName {
    Two,
    Dig2,
    Dig3,
    Xor,
}

// An enum of the rules, since a function may not make a `dyn` rule and hand it out.
#[derive(Clone, Copy, Debug, PartialEq, Eq)]
pub enum Builtin {
    Two(Two),
    Digits(Digits),
    Xor(Xor),
}
