// The sizes of a table.
ghost use Rattle.std.specs.Prelude.{◌≡◌, ◌<◌, ◌^◌};
ghost use Rattle.seating.specs.Layouts.{bucket_slots, slots};
ghost use Rattle.table.specs.Shapes.{layout};

use crate::Table;
use banks::Bank;
use places::Rule;
use std::ops::Range;

impl<B: Bank, R: Rule<B::Key>> Table<B, R> {
    // The first slot of the stash; the slots of the buckets come before it.
    pub(crate) fn stash_start(&self) -> usize
        ensures { result ≡ bucket_slots (layout self.now) }
    {
        self.rule.buckets() * self.width
    }

    // How many slots the table has.
    pub(crate) fn slot_count(&self) -> usize
        ensures count { result ≡ slots (layout self.now) }
        ensures few { slots (layout self.now) < 2 ^ 32 }
    {
        self.stash_start() + self.stash
    }

    // The slots of the stash.
    pub(crate) fn stash_slots(&self) -> Range<usize>
        ensures start { result.start ≡ bucket_slots (layout self.now) }
        ensures end { result.end ≡ slots (layout self.now) }
    {
        self.stash_start()..self.slot_count()
    }
}
