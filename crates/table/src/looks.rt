// Looking a key up: the slot and the value that were found, and how many slots were looked at.
ghost use Rattle.std.specs.Prelude.{◌≡◌, ℕ, ◌+◌, ◌*◌, ◌^◌, ◌<◌, ◌≤◌, List};
ghost use Rattle.std.specs.List.{range_with_len, flat_map};
ghost use Rattle.seating.specs.Lookups.{bucket_list, look_order};
ghost use Rattle.seating.specs.Slots.{at, value_at};
ghost use Rattle.table.specs.Looks.{Looks};
ghost use Rattle.table.specs.Shapes.{layout, contents};

use crate::{Looked, Table};
use banks::{Bank, content_at};
use keys::Kind;
use places::Rule;

#[derive(Clone, Copy, Debug, PartialEq, Eq)]
pub(crate) struct Hit {
    pub(crate) slot: usize,
    pub(crate) value: u64,
}

// The value that slot i has for the key.
fn value_at<B: Bank>(bank: &B, i: usize, key: &B::Key) -> Option<u64>
    ensures { result ≡ value_at (B.Key.Kind.bytes key.now) (at (B.Bank.slots bank.now) i) }
{
    let entry = content_at(bank, i)?;
    entry.key.same(key).then_some(entry.value)
}

// Looks at the slots from first on, count of them.
fn look_range<B: Bank>(bank: &B, key: &B::Key, first: usize, count: usize) -> Looked<Hit>
    requires { first + count < 2 ^ 32 }
    ensures { Looks (B.Bank.slots bank.now) (B.Key.Kind.bytes key.now) (range_with_len first count) result }
{
    // by index, which is the number of looks; by `find_map` it would be computed back from the slot
    for j in 0..count {
        let slot = first + j;
        if let Some(value) = value_at(bank, slot, key) {
            return Looked {
                found: Some(Hit { slot, value }),
                looks: j + 1,
            };
        }
    }
    Looked {
        found: None,
        looks: count,
    }
}

impl<B: Bank, R: Rule<B::Key>> Table<B, R> {
    // Looks at the candidates of the key, choice by choice.
    #[tactic(auto, using(crate::proofs::Looking::range_few))]
    fn look_near(&self, key: &B::Key) -> Looked<Hit>
        ensures looks { Looks (contents self.now) (B.Key.Kind.bytes key.now) (flat_map (bucket_list (layout self.now)) (R.Rule.places self.now.rule (B.Key.Kind.bytes key.now))) result }
        ensures few { result.looks ≤ 12 }
    {
        let choices = self.rule.choices(key);
        let mut looks = 0;
        for b in choices.as_slice() {
            // a product here and in the search: a method would have to ask that b is a bucket
            let here = look_range(&self.bank, key, b * self.width, self.width);
            looks += here.looks;
            if here.found.is_some() {
                return Looked {
                    found: here.found,
                    looks,
                };
            }
        }
        Looked { found: None, looks }
    }

    // Looks at the candidates of the key and then at the stash.
    #[tactic(auto, using(crate::proofs::Looking::range_few))]
    pub(crate) fn look_up(&self, key: &B::Key) -> Looked<Hit>
        ensures { Looks (contents self.now) (B.Key.Kind.bytes key.now) (look_order (layout self.now) (B.Key.Kind.bytes key.now)) result }
    {
        let near = self.look_near(key);
        if near.found.is_some() {
            return near;
        }
        let far = look_range(&self.bank, key, self.stash_start(), self.stash);
        Looked {
            found: far.found,
            looks: near.looks + far.looks,
        }
    }
}
