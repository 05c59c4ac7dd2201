// The blocking set: all that a key without a path can reach, through the stash too.
ghost use Rattle.std.specs.Prelude.{ℕ, ◌+◌, ◌≤◌, length};
ghost use Rattle.search.specs.Queues.{Seen};
ghost use Rattle.search.specs.Searches.{Before, Closed, Exhausted, Flooding};
ghost use Rattle.seating.specs.Blocking.{blocking};
ghost use Rattle.seating.specs.Layouts.{Key, Candidate, Stash, slots};
ghost use Rattle.seating.specs.Slots.{Occupied};
ghost use Rattle.table.specs.Shapes.{layout, contents, scene};
ghost use Rattle.table.specs.Views.{Flooded, Listed};

use crate::path_search::PathSearch;
use banks::Bank;
use places::Rule;

impl<B: Bank, R: Rule<B::Key>> PathSearch<'_, '_, B, R> {
    // Expands every entry from the first on, also past vacant slots. The queue grows on the way, so this
    // is a `while`.
    fn drain(&mut self, first: usize)
        requires begun { Flooding (scene self.old.table.now) (Before self.old.frontier (first + 1)) self.old.frontier (first + 1) }
        requires entry { first ≤ self.old.frontier.tail }
        ensures { Flooded (Before self.old.frontier (first + 1)) self.old self.new }
    {
        let mut entry = first;
        while entry < self.frontier.len() {
            if !self.expand(entry) {
                entry += 1;
            }
        }
    }

    // After a search without a way: appends the slots of the stash, all of them held, and all that can be
    // reached from there.
    fn flood(&mut self)
        requires closed { Closed (scene self.old.table.now) self.old.frontier }
        requires filled { (i : ℕ) → Stash (layout self.old.table.now) i → Occupied (contents self.old.table.now) i }
        ensures { Flooded (Seen self.old.frontier) self.old self.new }
    {
        let first = self.frontier.len();
        self.offer_stash();
        self.drain(first);
    }

    // After a search for a key without a way: writes the blocking set of the key to the front of the
    // list; how many slots it has.
    pub(crate) fn list_blocking(&mut self, list: &mut [u32]) -> usize
        requires closed { Closed (scene self.old.table.now) self.old.frontier }
        requires filled { (i : ℕ) → Stash (layout self.old.table.now) i → Occupied (contents self.old.table.now) i }
        requires long { slots (layout self.old.table.now) ≤ length list.old }
        ensures { (k : Key) → Exhausted (scene self.old.table.now) (Candidate (layout self.old.table.now) k) self.old.frontier → Listed (blocking (layout self.old.table.now) (contents self.old.table.now) k) list.old result list.new }
    {
        self.flood();
        self.frontier.list_seen(list)
    }
}
