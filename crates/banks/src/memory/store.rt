// Lent slot records as a bank.
ghost use Rattle.std.specs.Prelude.{◌≡◌, [], ◌∷◌, map};
ghost use Rattle.banks.specs.Records.{record_means};

use crate::bank::{Bank, Entry};
use crate::memory::records::{set_slot, slot_at};
use crate::memory::{Memory, SlotRecord};
use keys::{Kind, Refusal};

impl<'a, K: Kind> Memory<'a, K> {
    // The bank over these records, as they stand.
    pub fn new(slots: &'a mut [SlotRecord<K::Record>]) -> Memory<'a, K>
        ensures value { result.slots.now ≡ slots.old }
        ensures lender { result.slots.ghost_name ≡ slots.entry.ghost_name }
    {
        Memory { slots }
    }
}

impl<'a, K: Kind> Bank for Memory<'a, K> {
    type Key = K;

    ghost slots = { λ m. map (record_means K.Kind.means) m.slots.now };

    ghost place = { λ m. m.slots.ghost_name ∷ [] };

    fn len(&self) -> usize {
        self.slots.len()
    }

    fn read(&self, i: usize) -> Result<Option<Entry<K>>, Refusal> {
        slot_at::<K>(self.slots, i)
    }

    #[tactic(auto, using(crate::proofs::Recorded::set_map))]
    fn write(&mut self, i: usize, key: K, value: u64) -> Result<(), Refusal> {
        let key = key.record();
        set_slot(self.slots, i, Some(Entry { key, value }))
    }

    #[tactic(auto, using(crate::proofs::Recorded::set_map))]
    fn clear(&mut self, i: usize) -> Result<(), Refusal> {
        set_slot(self.slots, i, None)
    }
}
