// A search from its roots on, level by level.
ghost use Rattle.std.specs.Prelude.{◌+◌, ◌<◌, ◌≤◌};
ghost use Rattle.search.specs.Queues.{Seen};
ghost use Rattle.search.specs.Searches.{Under, Roots};
ghost use Rattle.table.specs.Shapes.{contents, scene};
ghost use Rattle.table.specs.Views.{Went, Sought};

use crate::path_search::PathSearch;
use banks::{Bank, content_at};
use places::Rule;

impl<B: Bank, R: Rule<B::Key>> PathSearch<'_, '_, B, R> {
    // Appends the candidates of the key in the slot of an entry.
    pub(crate) fn expand(&mut self, entry: usize) -> bool
        requires { entry < self.old.frontier.tail }
        ensures { Went (Under (scene self.old.table.now) self.old.frontier entry (entry + 1)) self.old self.new result }
    {
        let Some(held) = content_at(&self.table.bank, self.frontier.slot(entry)) else {
            return false;
        };
        self.spread(&held.key, Some(entry))
    }

    // The same for the entries from the first on.
    fn level(&mut self, first: usize) -> bool
        requires { first ≤ self.old.frontier.tail }
        ensures { Went (Under (scene self.old.table.now) self.old.frontier first self.old.frontier.tail) self.old self.new result }
    {
        let end = self.frontier.len();
        for entry in first..end {
            if self.expand(entry) {
                return true;
            }
        }
        false
    }

    // Whether there is a way from the roots to a vacant slot; the last entry is then the end of a
    // shortest one. The queue grows on the way, so this is a `while`.
    pub(crate) fn levels(&mut self) -> bool
        requires { Roots (contents self.old.table.now) self.old.frontier }
        ensures { Sought (Seen self.old.frontier) self.old self.new result }
    {
        let mut first = 0;
        'levels: while first < self.frontier.len() {
            let next = self.frontier.len();
            if self.level(first) {
                return true;
            }
            first = next;
        }
        false
    }
}
