// A slice of slot records, read and written.
ghost use Rattle.std.specs.Prelude.{◌≡◌, map, length, if◌then◌else◌, Ok, Err, nat_lt, slice_set};
ghost use Rattle.std.specs.Result.{result_map_both};
ghost use Rattle.keys.specs.declared.refusal.Refusal.TheVariants.{NoSlot};
ghost use Rattle.banks.specs.Records.{record_means};
ghost use Rattle.banks.specs.Slots.{content_of, read_of};

use crate::bank::Entry;
use crate::memory::SlotRecord;
use keys::{Kind, Refusal};

// What a record holds: nothing, where it is that of no key.
fn told_by<K: Kind>(slot: SlotRecord<K::Record>) -> Option<Entry<K>>
    ensures { content_of K.Kind.bytes result ≡ record_means K.Kind.means slot }
{
    let Entry { key, value } = slot?;
    let key = K::restore(key)?;
    Some(Entry { key, value })
}

// What record i holds.
pub fn slot_at<K: Kind>(
    slots: &[SlotRecord<K::Record>],
    i: usize,
) -> Result<Option<Entry<K>>, Refusal>
    ensures { result_map_both (content_of K.Kind.bytes) (λ e. e) result ≡ read_of (map (record_means K.Kind.means) slots.now) i }
{
    let slot = slots.get(i).ok_or(Refusal::NoSlot)?;
    Ok(told_by::<K>(*slot))
}

// Puts a record at place i.
pub fn set_slot<R: Copy>(
    slots: &mut [SlotRecord<R>],
    i: usize,
    slot: SlotRecord<R>,
) -> Result<(), Refusal>
    ensures answer { result ≡ (if nat_lt i (length slots.old) then Ok tt else Err NoSlot) }
    ensures after { slots.new ≡ slice_set slots.old i slot }
{
    // by a test, since `get_mut` does not say what the slice ends as
    if i >= slots.len() {
        return Err(Refusal::NoSlot);
    }
    slots[i] = slot;
    Ok(())
}
