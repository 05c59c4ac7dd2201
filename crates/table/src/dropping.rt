// Keys dropped from a table.
ghost use Rattle.std.specs.Prelude.{◌*◌, ◌≤◌, ◌⊎◌, length};
ghost use Rattle.seating.specs.Layouts.{slots};
ghost use Rattle.seating.specs.Steps.{Rested, Refilled};
ghost use Rattle.table.specs.Shapes.{layout, contents};
ghost use Rattle.table.specs.Tables.{Keeps, DropTells};

use crate::blank::Blank;
use crate::path_search::PathSearch;
use crate::{Moves, Table};
use banks::Bank;
use keys::Refusal;
use places::Rule;

impl<B: Bank, R: Rule<B::Key>> Table<B, R> {
    // Where a key of the stash has a path, carries out a shortest one over all of them and empties that
    // slot of the stash; the number of moves.
    // `keeps` relates the table before and after, and so is no invariant.
    fn settle(&mut self, work: &mut [u32]) -> usize
        requires { 3 * slots (layout self.old) ≤ length work.old }
        ensures keeps { Keeps self.old self.new }
        ensures settles { Rested (layout self.old) (contents self.old) result (contents self.new) ⊎ Refilled (layout self.old) (contents self.old) result (contents self.new) }
    {
        let mut search = PathSearch::new(self, work);
        let found = search.seek_stash();
        let PathSearch { table: _, frontier } = search;
        if found {
            return frontier.carry_out(&mut self.bank, None);
        }
        0
    }

    // Drops the key. The work area comes back blank, but if it is too short.
    pub(crate) fn drop(&mut self, key: &B::Key, work: &mut [u32]) -> Result<Moves, Refusal>
        ensures { DropTells self.old (B.Key.Kind.bytes key.now) work.old result self.new work.new }
    {
        if work.len() < 3 * self.slot_count() {
            return Err(Refusal::LentShort);
        }
        let guard = Blank(work);
        let Some(hit) = self.look_up(key).found else {
            return Err(Refusal::NotHeld);
        };
        let _ = self.bank.clear(hit.slot);
        let moved = self.settle(&mut *guard.0);
        Ok(self.moves(moved))
    }
}
