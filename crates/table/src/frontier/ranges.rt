// The slots of a range, appended.
ghost use Rattle.std.specs.Prelude.{◌≤◌, length};
ghost use Rattle.search.specs.Queues.{link_to};
ghost use Rattle.search.specs.Searches.{Toward, Between};
ghost use Rattle.table.specs.Views.{Stepped};

use crate::frontier::Frontier;
use crate::stash::vacant_at;
use banks::Bank;

impl Frontier<'_> {
    // Appends the slots from first to end that were not seen, up to the first vacant one; whether there
    // was one.
    // The range by its two ends, of which the clauses speak, as in a lookup.
    pub(crate) fn offer<B: Bank>(
        &mut self,
        bank: &B,
        first: usize,
        end: usize,
        from: Option<usize>,
    ) -> bool
        requires low { (first ≤ end) × (end ≤ length self.old.seen) }
        requires back { link_to from ≤ self.old.tail }
        ensures { Stepped (B.Bank.slots bank.now) (Toward (link_to from) (Between first end)) self.old self.new result }
    {
        // a field is read, from which the proof has that the queue is tidy
        let _ = &self.tail;
        // a `for` and no `any`: each step changes the queue
        for i in first..end {
            if self.push(i, from) && vacant_at(bank, i) {
                return true;
            }
        }
        false
    }
}
