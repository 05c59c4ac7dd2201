// `dig2` and `dig3` made, and as place rules.
ghost use Rattle.std.specs.Prelude.{◌≡◌};
ghost use Rattle.places.specs.Choices.{listed};
ghost use Rattle.places.specs.DigitCounts.{digit_choices};
ghost use Rattle.places.specs.Made.{MadeUnder, ChoosesBy};
ghost use Rattle.places.specs.Meanings.{digits_count, digits_degree, digits_places};
ghost use Rattle.places.specs.Rules.{DigitSize};
ghost use Rattle.places.specs.Laws.{digits_sized, digits_placed};

use crate::choices::Choices;
use crate::digits::{DigitCount, Digits};
use crate::rule::Rule;
use crate::word::fnv1a;
use keys::{Kind, Refusal};

impl Digits {
    // The rule with 1 to 512 buckets.
    pub fn new(count: DigitCount, buckets: usize, seed: u32) -> Result<Digits, Refusal>
        ensures { MadeUnder (DigitSize buckets) (ChoosesBy digits_count digits_places (digit_choices count) buckets seed) result }
    {
        if buckets < 1 || buckets > 512 {
            return Err(Refusal::Size);
        }
        Ok(Digits {
            count,
            buckets,
            seed,
        })
    }
}

#[tactic(auto, using(crate::proofs::Quotients::digit_zero, crate::proofs::Quotients::digit_one, crate::proofs::Quotients::digit_two))]
fn lowest(count: DigitCount, buckets: usize, word: u32) -> Choices
    requires { DigitSize buckets }
    ensures { listed result ≡ digit_choices count buckets word }
{
    // by `as`, since no `From` widens a `u32` to a `usize`
    let word = word as usize;
    let first = word % buckets;
    let second = word / buckets % buckets;
    let third = word / buckets / buckets % buckets;
    match count {
        DigitCount::Two => Choices::Two([first, second]),
        DigitCount::Three => Choices::Three([first, second, third]),
    }
}

// A generic rule would take the same ghost members from a second trait, and a test of sizes, so it is no plainer.
impl<K: Kind> Rule<K> for Digits {
    ghost count = { digits_count };

    ghost degree = { digits_degree };

    ghost places = { digits_places };

    ghost sized = { digits_sized };

    ghost placed = { digits_placed };

    fn buckets(&self) -> usize {
        self.buckets
    }

    fn choice_count(&self) -> usize {
        match self.count {
            DigitCount::Two => 2,
            DigitCount::Three => 3,
        }
    }

    fn choices(&self, key: &K) -> Choices {
        lowest(self.count, self.buckets, fnv1a(self.seed, key))
    }
}
