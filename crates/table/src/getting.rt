// A key looked up, and a slot read.
ghost use Rattle.std.specs.Prelude.{◌≡◌};
ghost use Rattle.std.specs.Result.{result_map_both};
ghost use Rattle.banks.specs.Slots.{content_of, read_of};
ghost use Rattle.seating.specs.Fronts.{front};
ghost use Rattle.table.specs.Shapes.{layout, contents};
ghost use Rattle.table.specs.Tables.{GetTells};

use crate::{Looked, Table};
use banks::{Bank, Entry};
use keys::Refusal;
use places::Rule;

impl<B: Bank, R: Rule<B::Key>> Table<B, R> {
    // The value of the key, if it is held, and how many slots were looked at: choice by choice, a
    // repeated choice again, then the stash.
    pub(crate) fn get(&self, key: &B::Key) -> Looked<u64>
        ensures { GetTells self.now (B.Key.Kind.bytes key.now) result }
    {
        let look = self.look_up(key);
        Looked {
            found: look.found.map(|hit| hit.value),
            looks: look.looks,
        }
    }

    // What slot i of the table holds.
    pub(crate) fn slot(&self, i: usize) -> Result<Option<Entry<B::Key>>, Refusal>
        ensures { result_map_both (content_of B.Key.Kind.bytes) (λ e. e) result ≡ read_of (front (layout self.now) (contents self.now)) i }
    {
        if i >= self.slot_count() {
            return Err(Refusal::NoSlot);
        }
        self.bank.read(i)
    }
}
