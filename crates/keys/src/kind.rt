// What a kind of key is.
ghost use Rattle.std.specs.Prelude.{◌≡◌, ℕ, length, Some, Decides, Option, slice_index};
ghost use Rattle.std.specs.Option.{option_map};
ghost use Rattle.seating.specs.Layouts.{Key};
ghost use Rattle.keys.specs.Bytes.{KeySized};

// A kind of key. What a key means is its bytes; a plain record means the bytes of a key, or nothing.
pub trait Kind: Copy {
    // a record of a key, of plain data in which nothing need hold
    type Record: Copy;

    ghost bytes: { Self → Key };

    ghost means: { Self.Record → Option Key };

    // How many bytes the key has.
    fn len(&self) -> usize
        ensures { result ≡ length (bytes self.now) };

    // Byte i of the key, and 0 past its last byte.
    fn byte(&self, i: usize) -> u8
        ensures { result ≡ slice_index (bytes self.now) i };

    // Whether two keys are the same: exactly when their byte lists are equal.
    fn same(&self, other: &Self) -> bool
        ensures { Decides result (bytes self.now ≡ bytes other.now) };

    // The key's plain record.
    fn record(self) -> Self::Record
        ensures { means result ≡ Some (bytes self) };

    // The key of a record, or nothing where the record is that of no key.
    fn restore(record: Self::Record) -> Option<Self>
        ensures { option_map bytes result ≡ means «record» };

    ghost sized: { (k : Self) → KeySized (bytes k) };
}
