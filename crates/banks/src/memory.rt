// The memory bank: slot records that the caller lends.
mod records;
mod store;

use crate::bank::Entry;
use keys::Kind;

// A slot's record: none where the slot is marked empty, else the plain record of a key and the value.
pub type SlotRecord<R> = Option<Entry<R>>;

// A bank over a lent slice of slot records, for any kind of key.
#[derive(Drop)]
pub struct Memory<'a, K: Kind> {
    slots: &'a mut [SlotRecord<K::Record>],
}
