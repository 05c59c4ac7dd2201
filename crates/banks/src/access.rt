// Slots of any bank by their content, where a slot past the end is as good as a vacant one.
ghost use Rattle.std.specs.Prelude.{◌≡◌, slice_index_or, slice_set};
ghost use Rattle.seating.specs.Layouts.{vacant};
ghost use Rattle.banks.specs.Slots.{content_of, done_at};

use crate::bank::{Bank, Entry};
use keys::Refusal;

// What slot i holds; past the end nothing.
pub fn content_at<B: Bank>(bank: &B, i: usize) -> Option<Entry<B::Key>>
    ensures { content_of B.Key.Kind.bytes result ≡ slice_index_or (B.Bank.slots bank.now) i vacant }
{
    bank.read(i).unwrap_or(None)
}

// Has slot i hold the content, or empties it. `stays`, here and above a bank, relates the bank before and after, and so
// is no invariant.
pub fn set_content<B: Bank>(
    bank: &mut B,
    i: usize,
    content: Option<Entry<B::Key>>,
) -> Result<(), Refusal>
    ensures answer { result ≡ done_at (B.Bank.slots bank.old) i }
    ensures after { B.Bank.slots bank.new ≡ slice_set (B.Bank.slots bank.old) i (content_of B.Key.Kind.bytes content) }
    ensures stays { B.Bank.place bank.new ≡ B.Bank.place bank.old }
{
    match content {
        None => bank.clear(i),
        Some(entry) => bank.write(i, entry.key, entry.value),
    }
}
