// What a place rule is.
ghost use Rattle.std.specs.Prelude.{◌≡◌, ℕ, List};
ghost use Rattle.seating.specs.Layouts.{Key};
ghost use Rattle.places.specs.Choices.{listed};
ghost use Rattle.places.specs.Rules.{RuleSized, Placed};

use crate::choices::Choices;
use keys::Kind;

// A place rule for keys of the kind K. It never refuses, and a key's choices depend on the key's
// bytes alone.
pub trait Rule<K: Kind> {
    ghost count: { Self → ℕ };

    ghost degree: { Self → ℕ };

    ghost places: { Self → Key → List ℕ };

    // How many buckets there are.
    fn buckets(&self) -> usize
        ensures { result ≡ count self.now };

    // How many choices each key has.
    fn choice_count(&self) -> usize
        ensures { result ≡ degree self.now };

    // The buckets that the key chooses.
    fn choices(&self, key: &K) -> Choices
        ensures { listed result ≡ places self.now (K.Kind.bytes key.now) };

    ghost sized: { (r : Self) → RuleSized (count r) (degree r) };

    ghost placed: { (r : Self) (k : Key) → Placed (count r) (degree r) (places r k) };
}
