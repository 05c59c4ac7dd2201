// `xor` made, and as a place rule.
ghost use Rattle.std.specs.Prelude.{◌≡◌};
ghost use Rattle.places.specs.Choices.{listed};
ghost use Rattle.places.specs.Made.{MadeUnder, ChoosesBy};
ghost use Rattle.places.specs.Meanings.{xor_count, xor_places};
ghost use Rattle.places.specs.Rules.{XorSize, xor_choices};
ghost use Rattle.places.specs.Laws.{xor_sized, xor_placed};

use crate::choices::Choices;
use crate::rule::Rule;
use crate::word::{fnv1a, fnv1a_byte};
use crate::xor::Xor;
use keys::{Kind, Refusal};

impl Xor {
    // The rule with a power of two for the number of buckets, from 1 to 512.
    #[tactic(auto, using(crate::specs::Powers::tested_size, crate::specs::Powers::power_of_xor))]
    pub fn new(buckets: usize, seed: u32) -> Result<Xor, Refusal>
        ensures { MadeUnder (XorSize buckets) (ChoosesBy xor_count xor_places xor_choices buckets seed) result }
    {
        if buckets > 512 || !buckets.is_power_of_two() {
            return Err(Refusal::Size);
        }
        Ok(Xor { buckets, seed })
    }
}

fn partners(buckets: usize, word: u32) -> Choices
    requires { XorSize buckets }
    ensures { listed result ≡ xor_choices buckets word }
{
    // by `as`, since no `From` widens a `u32` to a `usize`
    let first = word as usize % buckets;
    let [high, ..] = word.to_be_bytes();
    let turn = fnv1a_byte(high) as usize % buckets;
    Choices::Two([first, first ^ turn])
}

// A generic rule would take the same ghost members from a second trait, and a test of sizes, so it is no plainer.
impl<K: Kind> Rule<K> for Xor {
    ghost count = { xor_count };

    ghost degree = { λ _. 2 };

    ghost places = { xor_places };

    ghost sized = { xor_sized };

    ghost placed = { xor_placed };

    fn buckets(&self) -> usize {
        self.buckets
    }

    fn choice_count(&self) -> usize {
        2
    }

    #[tactic(auto, using(crate::specs::Powers::tested_size))]
    fn choices(&self, key: &K) -> Choices {
        partners(self.buckets, fnv1a(self.seed, key))
    }
}
