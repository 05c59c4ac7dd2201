// A key with its word and its choices, and the line that is printed of it.
ghost use Rattle.std.specs.Prelude.{◌≡◌, ◌++◌, Some, OnOk, codes};
ghost use Rattle.std.specs.List.{flat_map};
ghost use Rattle.places.specs.Choices.{listed};
ghost use Rattle.placing.specs.Shown.{hex_text, spaced, place_text};

use places::Choices;
use std::alloc::AllocError;
use std::fmt;
use text::Spelled;

// Room for the word and three buckets of three digits.
const LINE: usize = 24;

// A key, its word and the buckets that it chooses.
#[derive(Clone, Copy, Debug, PartialEq, Eq)]
pub(crate) struct Placed<K> {
    pub(crate) key: K,
    pub(crate) word: u32,
    pub(crate) choices: Choices,
}

// The buckets that a key chooses, each behind a space.
#[derive(Clone, Copy)]
struct Buckets<'a>(&'a [usize]);

impl fmt::Display for Buckets<'_> {
    ghost output = { λ b. Some (flat_map spaced b.0.now) };

    fn fmt<W: fmt::Write>(&self, f: &mut fmt::Formatter<W>) -> fmt::Result {
        for bucket in self.0 {
            write!(f, " {bucket}")?;
        }
        Ok(())
    }
}

impl<K: Spelled> Placed<K> {
    // Appends a line with the text of the key, its word and its choices.
    pub(crate) fn write_line(&self, out: &mut Vec<u8>) -> Result<(), AllocError>
        ensures { OnOk result (out.new.items ≡ out.old.items
            ++ (place_text (K.Spelled.text (K.Kind.bytes self.now.key)) self.now.word
            (listed self.now.choices) ++ codes "\n")) }
    {
        self.key.write(out)?;
        let word = self.word;
        let buckets = Buckets(self.choices.as_slice());
        // a text first, with room for the line at once: `write!` into the vector, piece by piece, is slower
        let mut text = String::with_capacity(*out.allocator(), LINE)?;
        write!(text, " 0x{word:08x}{buckets}\n")?;
        out.extend_from_slice(text.as_bytes())
    }
}
