// The two searches: from a new key, and from the keys of the stash.
// Each answers a bool: the end is always the last entry, so an Option of it would say that twice.
ghost use Rattle.search.specs.Queues.{Fresh};
ghost use Rattle.search.specs.Searches.{Waiting};
ghost use Rattle.seating.specs.Layouts.{Candidate};
ghost use Rattle.table.specs.Shapes.{layout, scene};
ghost use Rattle.table.specs.Views.{Sought};

use crate::path_search::PathSearch;
use banks::Bank;
use places::Rule;

impl<B: Bank, R: Rule<B::Key>> PathSearch<'_, '_, B, R> {
    // Whether the key has a cuckoo path; the last entry is then the end of a shortest one. A vacant
    // candidate ends it at once.
    pub(crate) fn seek_key(&mut self, key: &B::Key) -> bool
        requires { Fresh self.old.frontier }
        ensures { Sought (Candidate (layout self.old.table.now) (B.Key.Kind.bytes key.now)) self.old self.new result }
    {
        self.spread(key, None) || self.levels()
    }

    // Whether a key of the stash has a cuckoo path; the way back from the last entry is then a shortest
    // one over all of them, and ends at the slot of its key.
    pub(crate) fn seek_stash(&mut self) -> bool
        requires { Fresh self.old.frontier }
        ensures { Sought (Waiting (scene self.old.table.now)) self.old self.new result }
    {
        self.offer_stash();
        self.levels()
    }
}
