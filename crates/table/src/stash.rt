// The slots of a stash, looked at one after another; and the front of a bank, emptied.
ghost use Rattle.std.specs.Prelude.{◌≡◌, ℕ, ◌≤◌, ◌++◌, length, drop, replicate, MatchOption};
ghost use Rattle.seating.specs.Layouts.{vacant, Stash};
ghost use Rattle.seating.specs.Slots.{at, stashed};
ghost use Rattle.table.specs.Shapes.{layout, contents, is_vacant};

use crate::{Moves, Table};
use banks::{Bank, content_at};
use places::Rule;

// Whether slot i is vacant.
pub(crate) fn vacant_at<B: Bank>(bank: &B, i: usize) -> bool
    ensures { result ≡ is_vacant (at (B.Bank.slots bank.now) i) }
{
    content_at(bank, i).is_none()
}

// Empties the first n slots. `stays` relates the bank before and after, and so is no invariant.
pub(crate) fn empty_front<B: Bank>(bank: &mut B, n: usize)
    ensures after { n ≤ length (B.Bank.slots bank.old) → B.Bank.slots bank.new ≡ replicate n vacant ++ drop n (B.Bank.slots bank.old) }
    ensures stays { B.Bank.place bank.new ≡ B.Bank.place bank.old }
{
    for i in 0..n {
        let _ = bank.clear(i);
    }
}

impl<B: Bank, R: Rule<B::Key>> Table<B, R> {
    // The first vacant slot of the stash.
    pub(crate) fn vacant_stash(&self) -> Option<usize>
        ensures { MatchOption result ((i : ℕ) → Stash (layout self.now) i → at (contents self.now) i ≡ vacant → ⊥) (λ i. Stash (layout self.now) i × (at (contents self.now) i ≡ vacant)) }
    {
        self.stash_slots().find(|i| vacant_at(&self.bank, *i))
    }

    // How many keys sit in the stash.
    fn stashed(&self) -> usize
        ensures { result ≡ stashed (layout self.now) (contents self.now) }
    {
        self.stash_slots()
            .filter(|i| !vacant_at(&self.bank, *i))
            .count()
    }

    // So many moves, and what the stash holds now.
    pub(crate) fn moves(&self, moved: usize) -> Moves
        ensures moved { result.moved ≡ moved }
        ensures stashed { result.stashed ≡ stashed (layout self.now) (contents self.now) }
    {
        Moves {
            moved,
            stashed: self.stashed(),
        }
    }
}
