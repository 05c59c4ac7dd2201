// The customer's rule made, and as a place rule.
ghost use Rattle.std.specs.Prelude.{◌≡◌};
ghost use Rattle.places.specs.Made.{MadeUnder};
ghost use Rattle.places.specs.Rules.{DigitSize};
ghost use Rattle.unit_tests.specs.ByBytes.{byte_choices};
ghost use Rattle.std.proofs.Common.{rules};

use crate::by_bytes::ByBytes;
use keys::{Kind, Refusal};
use places::{Choices, Rule};

impl ByBytes {
    // The rule with 1 to 512 buckets.
    pub fn new(buckets: usize) -> Result<ByBytes, Refusal>
        ensures { MadeUnder (DigitSize buckets) (λ b. b.buckets ≡ buckets) result }
    {
        if buckets == 0 || buckets > 512 {
            return Err(Refusal::Size);
        }
        Ok(ByBytes { buckets })
    }
}

impl<K: Kind> Rule<K> for ByBytes {
    ghost count = { λ b. b.buckets };

    ghost degree = { λ _. 2 };

    ghost places = { λ b k. byte_choices b.buckets k };

    ghost sized = { Prim.search rules };

    ghost placed = { Prim.search rules };

    fn buckets(&self) -> usize {
        self.buckets
    }

    fn choice_count(&self) -> usize {
        2
    }

    fn choices(&self, key: &K) -> Choices {
        let n = self.buckets;
        Choices::Two([usize::from(key.byte(0)) % n, usize::from(key.byte(1)) % n])
    }
}
