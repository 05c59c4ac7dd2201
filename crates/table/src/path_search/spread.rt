// The candidates of a key, appended up to the first vacant one; and the held slots of the stash.
ghost use Rattle.std.specs.Prelude.{◌≡◌, ◌≤◌};
ghost use Rattle.search.specs.Queues.{link_to};
ghost use Rattle.search.specs.Searches.{Spread, Toward, Waiting};
ghost use Rattle.seating.specs.Layouts.{Candidate};
ghost use Rattle.table.specs.Shapes.{layout, contents, scene};
ghost use Rattle.table.specs.Views.{Went};

use crate::path_search::PathSearch;
use crate::stash::vacant_at;
use banks::Bank;
use places::Rule;

impl<B: Bank, R: Rule<B::Key>> PathSearch<'_, '_, B, R> {
    // Appends the candidates of the key that were not seen, up to the first vacant one; whether there was
    // one. The entry that has the key is given, if one has.
    pub(crate) fn spread(&mut self, key: &B::Key, from: Option<usize>) -> bool
        requires { link_to from ≤ self.old.frontier.tail }
        ensures { Went (Toward (link_to from) (Candidate (layout self.old.table.now) (B.Key.Kind.bytes key.now))) self.old self.new result }
    {
        // a look at the frontier, from which the proof has that it is tidy
        let _ = self.frontier.len();
        let table = self.table;
        let choices = table.rule.choices(key);
        for b in choices.as_slice() {
            // as in a lookup
            let first = b * table.width;
            if self
                .frontier
                .offer(&table.bank, first, first + table.width, from)
            {
                return true;
            }
        }
        false
    }

    // Appends the slots of the stash that hold a key, as roots.
    pub(crate) fn offer_stash(&mut self)
        ensures table { self.new.table ≡ self.old.table }
        ensures spread { Spread (contents self.old.table.now) (Toward 0 (Waiting (scene self.old.table.now))) self.old.frontier self.new.frontier }
    {
        // a look at the frontier, from which the proof has that it is tidy
        let _ = self.frontier.len();
        let table = self.table;
        for i in table.stash_slots() {
            if !vacant_at(&table.bank, i) {
                self.frontier.push(i, None);
            }
        }
    }
}
