// A name as a key.
ghost use Rattle.std.specs.Prelude.{◌≡◌, ◌≤◌, drop};
ghost use Rattle.names.specs.Blank.{blank};
ghost use Rattle.names.specs.Names.{name_bytes, name_of};
ghost use Rattle.names.specs.NamesLemmas.{name_sized};

use crate::name::make::is_name_length;
use crate::name::{Name, NameRecord};
use keys::Kind;

// Whether all bytes are zero.
fn all_zero(bytes: &[u8]) -> bool
    ensures { result ≡ blank bytes.now }
{
    bytes.iter().all(|b| *b == 0)
}

// Whether all from place n on is zero.
fn blank_from(text: &[u8; 15], n: usize) -> bool
    requires { n ≤ 15 }
    ensures { result ≡ blank (drop n text.now) }
{
    all_zero(&text[n..])
}

// `same`, `record` and `restore` by hand: they are of the trait that a customer's kind of key has too.
impl Kind for Name {
    type Record = NameRecord;

    ghost bytes = { name_bytes };

    ghost means = { name_of };

    ghost sized = { name_sized };

    fn len(&self) -> usize {
        self.as_bytes().len()
    }

    fn byte(&self, i: usize) -> u8 {
        self.as_bytes().get(i).copied().unwrap_or(0)
    }

    fn same(&self, other: &Name) -> bool {
        self.as_bytes() == other.as_bytes()
    }

    fn record(self) -> NameRecord {
        self.record
    }

    fn restore(record: NameRecord) -> Option<Name> {
        let NameRecord { text, len } = record;
        if !is_name_length(len) || !blank_from(&text, len) {
            return None;
        }
        Some(Name { record })
    }
}
