// A search for cuckoo paths in a table, breadth first.
ghost use Rattle.std.specs.Prelude.{◌≡◌, ◌*◌, ◌≤◌, length};
ghost use Rattle.search.specs.Queues.{Fresh};
ghost use Rattle.seating.specs.Layouts.{slots};
ghost use Rattle.table.specs.Shapes.{layout};

mod flood;
mod levels;
mod seek;
mod spread;

use crate::Table;
use crate::frontier::Frontier;
use banks::Bank;
use places::Rule;

// A table, and the slots of it that the search has come to, in rows as long as the table.
#[derive(Drop)]
pub(crate) struct PathSearch<'a, 'w, B: Bank, R: Rule<B::Key>> {
    pub(crate) table: &'a Table<B, R>,
    pub(crate) frontier: Frontier<'w>,
    ghost rows: { length frontier.seen ≡ slots (layout table.now) },
}

impl<'a, 'w, B: Bank, R: Rule<B::Key>> PathSearch<'a, 'w, B, R> {
    // A search of the table that has come to no slot yet, in the lent words. That they are long enough relates them to
    // the table, so it is asked, here and of the list, and is no invariant.
    pub(crate) fn new(table: &'a Table<B, R>, words: &'w mut [u32]) -> PathSearch<'a, 'w, B, R>
        requires { 3 * slots (layout table.now) ≤ length words.old }
        ensures table { result.table.now ≡ table.now }
        ensures fresh { Fresh result.frontier }
    {
        let frontier = Frontier::new(words, table.slot_count());
        PathSearch { table, frontier }
    }
}
