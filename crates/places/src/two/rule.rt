// `two` made, and as a place rule.
ghost use Rattle.std.specs.Prelude.{◌≡◌};
ghost use Rattle.places.specs.Choices.{listed};
ghost use Rattle.places.specs.Made.{MadeUnder, ChoosesBy};
ghost use Rattle.places.specs.Meanings.{two_count, two_places};
ghost use Rattle.places.specs.Rules.{TwoSize, two_choices};
ghost use Rattle.places.specs.Laws.{two_sized, two_placed};

use crate::choices::Choices;
use crate::rule::Rule;
use crate::two::Two;
use crate::word::fnv1a;
use keys::{Kind, Refusal};

impl Two {
    // The rule with an even number of buckets, from 2 to 512.
    pub fn new(buckets: usize, seed: u32) -> Result<Two, Refusal>
        ensures { MadeUnder (TwoSize buckets) (ChoosesBy two_count two_places two_choices buckets seed) result }
    {
        if buckets < 2 || buckets > 512 || buckets % 2 != 0 {
            return Err(Refusal::Size);
        }
        Ok(Two { buckets, seed })
    }
}

fn halves(buckets: usize, word: u32) -> Choices
    requires { TwoSize buckets }
    ensures { listed result ≡ two_choices buckets word }
{
    let half = buckets / 2;
    // by `as`, since no `From` widens a `u32` to a `usize`
    let word = word as usize;
    Choices::Two([word % half, half + word / half % half])
}

// A generic rule would take the same ghost members from a second trait, and a test of sizes, so it is no plainer.
impl<K: Kind> Rule<K> for Two {
    ghost count = { two_count };

    ghost degree = { λ _. 2 };

    ghost places = { two_places };

    ghost sized = { two_sized };

    ghost placed = { two_placed };

    fn buckets(&self) -> usize {
        self.buckets
    }

    fn choice_count(&self) -> usize {
        2
    }

    fn choices(&self, key: &K) -> Choices {
        halves(self.buckets, fnv1a(self.seed, key))
    }
}
