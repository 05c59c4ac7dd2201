// Keys put into a table.
ghost use Rattle.seating.specs.Steps.{Roomy};
ghost use Rattle.table.specs.Promises.{SeatDoes, PlaceDoes};
ghost use Rattle.table.specs.Shapes.{layout, contents};
ghost use Rattle.table.specs.Tables.{Keeps, PutTells, lent};

use crate::blank::Blank;
use crate::path_search::PathSearch;
use crate::{Seated, Table};
use banks::{Bank, Entry};
use keys::Refusal;
use places::Rule;

impl<B: Bank, R: Rule<B::Key>> Table<B, R> {
    // Seats a key that is not held: by a shortest path, else in the stash, else not at all.
    // `keeps` relates the table before and after, and so is no invariant.
    fn seat(
        &mut self,
        entry: Entry<B::Key>,
        work: &mut [u32],
        list: &mut [u32],
    ) -> Result<Seated, Refusal>
        requires { Roomy (layout self.old) (lent work.old list.old) }
        ensures keeps { Keeps self.old self.new }
        ensures seats { SeatDoes (layout self.old) (contents self.old) (B.Key.Kind.bytes entry.key) entry.value list.old result (contents self.new) list.new }
    {
        let mut search = PathSearch::new(self, work);
        let found = search.seek_key(&entry.key);
        if found {
            let PathSearch { table: _, frontier } = search;
            let moved = frontier.carry_out(&mut self.bank, Some(entry));
            return Ok(Seated::In(self.moves(moved)));
        }
        if let Some(i) = self.vacant_stash() {
            let _ = self.bank.write(i, entry.key, entry.value);
            return Ok(Seated::In(self.moves(0)));
        }
        Err(Refusal::Full(search.list_blocking(list)))
    }

    // Gives a held key its new value, or seats another.
    // `keeps` relates the table before and after, and so is no invariant.
    fn place(
        &mut self,
        entry: Entry<B::Key>,
        work: &mut [u32],
        list: &mut [u32],
    ) -> Result<Seated, Refusal>
        requires { Roomy (layout self.old) (lent work.old list.old) }
        ensures keeps { Keeps self.old self.new }
        ensures places { PlaceDoes (layout self.old) (contents self.old) (B.Key.Kind.bytes entry.key) entry.value list.old result (contents self.new) list.new }
    {
        let Some(hit) = self.look_up(&entry.key).found else {
            return self.seat(entry, work, list);
        };
        let _ = self.bank.write(hit.slot, entry.key, entry.value);
        Ok(Seated::Renewed)
    }

    // Puts the key with its value into the table. The work area comes back blank, but if it or the list
    // is too short; the list is changed only where the table is full.
    // Work area and list are lent apart, so they stay two slices; and how many slots stand in the list is told by `Full`.
    pub(crate) fn put(
        &mut self,
        key: B::Key,
        value: u64,
        work: &mut [u32],
        list: &mut [u32],
    ) -> Result<Seated, Refusal>
        ensures { PutTells self.old (B.Key.Kind.bytes key) value (lent work.old list.old) result self.new (lent work.new list.new) }
    {
        let n = self.slot_count();
        if work.len() < 3 * n || list.len() < n {
            return Err(Refusal::LentShort);
        }
        let guard = Blank(work);
        self.place(Entry { key, value }, &mut *guard.0, list)
    }
}
