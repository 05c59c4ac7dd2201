// A cuckoo table with a stash, over any bank and any place rule.
#![tactic(auto)]

ghost use Rattle.std.specs.Prelude.{◌≤◌};

use banks::Bank;
use keys::Refusal;
use places::Rule;

mod blank;
mod dropping;
mod frontier;
mod getting;
mod looks;
mod making;
mod path_search;
mod putting;
mod sizes;
mod stash;

// A table: 1 to 4 slots a bucket, and up to 8 stash slots behind the buckets.
pub struct Table<B: Bank, R: Rule<B::Key>> {
    bank: B,
    rule: R,
    width: usize,
    stash: usize,
    ghost some: { 1 ≤ width },
    ghost narrow: { width ≤ 4 },
    ghost few: { stash ≤ 8 },
}

// Why no table was made, with the bank and the rule given back.
#[derive(Debug, PartialEq, Eq)]
pub struct Unmade<B, R> {
    pub refusal: Refusal,
    pub bank: B,
    pub rule: R,
}

// How many held keys moved, and how many keys are in the stash then.
#[derive(Clone, Copy, Debug, PartialEq, Eq)]
pub struct Moves {
    pub moved: usize,
    pub stashed: usize,
}

// What a put did. Both outcomes have names, since a `None` would not say that the key was renewed.
#[derive(Clone, Copy, Debug, PartialEq, Eq)]
pub enum Seated {
    // the key is new
    In(Moves),
    // the key was held, and has another value now
    Renewed,
}

// What was found, and how many slots were looked at.
#[derive(Clone, Copy, Debug, PartialEq, Eq)]
pub struct Looked<T> {
    pub found: Option<T>,
    pub looks: usize,
}
