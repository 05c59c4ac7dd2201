// A way carried out by walking it back.
ghost use Rattle.std.specs.Prelude.{◌≡◌, ℕ, ◌+◌, ◌-◌, List, [], length};
ghost use Rattle.banks.specs.Slots.{content_of};
ghost use Rattle.search.specs.Roads.{Road};
ghost use Rattle.search.specs.Searches.{onto};
ghost use Rattle.seating.specs.Paths.{carry};

use crate::frontier::Frontier;
use banks::{Bank, Entry, content_at, set_content};

impl Frontier<'_> {
    // Moves what the slots of the way to the last entry hold along it, from its last slot back, and has
    // the first hold the content; the number of moves. Each step writes to the bank, so no chain of an
    // iterator is plainer.
    // `stays` relates the bank before and after, and so is no invariant.
    pub(crate) fn carry_out<B: Bank>(&self, bank: &mut B, content: Option<Entry<B::Key>>) -> usize
        requires { (w : List ℕ) × Road self.now (self.now.tail - 1) w }
        ensures after { (w : List ℕ) → Road self.now (self.now.tail - 1) w
            → (B.Bank.slots bank.new ≡ carry (B.Bank.slots bank.old) (onto w []) (content_of B.Key.Kind.bytes content)) × (result + 1 ≡ length w) }
        ensures stays { B.Bank.place bank.new ≡ B.Bank.place bank.old }
    {
        let mut p = self.len() - 1;
        let mut moved = 0;
        while let Some(before) = self.before(p) {
            moved += 1;
            let held = content_at(bank, self.slot(before));
            let _ = set_content(bank, self.slot(p), held);
            p = before;
        }
        let _ = set_content(bank, self.slot(p), content);
        moved
    }
}
