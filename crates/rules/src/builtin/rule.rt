// A rule by its name: made, and as a place rule.
ghost use Rattle.rules.specs.Builtins.{NameSize, name_choices, builtin_count, builtin_degree, builtin_places};
ghost use Rattle.places.specs.Made.{MadeUnder, ChoosesBy};
ghost use Rattle.rules.specs.BuiltinRuleLemmas;

use crate::builtin::{Builtin, RuleName};
use keys::{Kind, Refusal};
use places::{Choices, DigitCount, Digits, Rule, Two, Xor};

impl Builtin {
    // The rule of this name, under the name's own condition on the number of buckets.
    pub fn new(name: RuleName, buckets: usize, seed: u32) -> Result<Builtin, Refusal>
        ensures { MadeUnder (NameSize name buckets) (ChoosesBy builtin_count builtin_places (name_choices name) buckets seed) result }
    {
        match name {
            RuleName::Two => Ok(Builtin::Two(Two::new(buckets, seed)?)),
            RuleName::Dig2 => Ok(Builtin::Digits(Digits::new(DigitCount::Two, buckets, seed)?)),
            RuleName::Dig3 => Ok(Builtin::Digits(Digits::new(DigitCount::Three, buckets, seed)?)),
            RuleName::Xor => Ok(Builtin::Xor(Xor::new(buckets, seed)?)),
        }
    }
}

// By matches, since a function may not make a `dyn` rule and hand it out.
impl<K: Kind> Rule<K> for Builtin {
    ghost count = { builtin_count };

    ghost degree = { builtin_degree };

    ghost places = { builtin_places };

    ghost sized = { BuiltinRuleLemmas.sized };

    ghost placed = { BuiltinRuleLemmas.placed };

    fn buckets(&self) -> usize {
        match self {
            Builtin::Two(rule) => <Two as Rule<K>>::buckets(rule),
            Builtin::Digits(rule) => <Digits as Rule<K>>::buckets(rule),
            Builtin::Xor(rule) => <Xor as Rule<K>>::buckets(rule),
        }
    }

    fn choice_count(&self) -> usize {
        match self {
            Builtin::Two(rule) => <Two as Rule<K>>::choice_count(rule),
            Builtin::Digits(rule) => <Digits as Rule<K>>::choice_count(rule),
            Builtin::Xor(rule) => <Xor as Rule<K>>::choice_count(rule),
        }
    }

    fn choices(&self, key: &K) -> Choices {
        match self {
            Builtin::Two(rule) => <Two as Rule<K>>::choices(rule, key),
            Builtin::Digits(rule) => <Digits as Rule<K>>::choices(rule, key),
            Builtin::Xor(rule) => <Xor as Rule<K>>::choices(rule, key),
        }
    }
}
