// What a bank is: a list of slots of fixed length.
ghost use Rattle.std.specs.Borrow.{GName};
ghost use Rattle.std.specs.Prelude.{◌≡◌, List, length, slice_set};
ghost use Rattle.std.specs.Result.{result_map_both};
ghost use Rattle.seating.specs.Layouts.{Content, vacant, holding};
ghost use Rattle.banks.specs.Slots.{content_of, read_of, done_at};

use keys::{Kind, Refusal};

// A key, or a record of one, with its value, as a slot holds them.
#[derive(Clone, Copy, Debug, PartialEq, Eq)]
pub struct Entry<K> {
    pub key: K,
    pub value: u64,
}

// A bank means a list of slots. A call for a slot past the end is refused and changes nothing; no
// call is refused for another reason.
pub trait Bank {
    type Key: Kind;

    ghost slots: { Self → List Content };

    // the memory that the bank was lent, by name: it stays, so its lender knows what stands there
    ghost place: { Self → List GName };

    // How many slots the bank has.
    fn len(&self) -> usize
        ensures { result ≡ length (slots self.now) };

    // What slot i holds.
    fn read(&self, i: usize) -> Result<Option<Entry<Self::Key>>, Refusal>
        ensures { result_map_both (content_of Self.Key.Kind.bytes) (λ e. e) result ≡ read_of (slots self.now) i };

    // Has slot i hold the key and the value.
    fn write(&mut self, i: usize, key: Self::Key, value: u64) -> Result<(), Refusal>
        ensures answer { result ≡ done_at (slots self.old) i }
        ensures after { slots self.new ≡ slice_set (slots self.old) i (holding (Self.Key.Kind.bytes key) value) }
        ensures stays { place self.new ≡ place self.old };

    // Empties slot i.
    fn clear(&mut self, i: usize) -> Result<(), Refusal>
        ensures answer { result ≡ done_at (slots self.old) i }
        ensures after { slots self.new ≡ slice_set (slots self.old) i vacant }
        ensures stays { place self.new ≡ place self.old };
}
