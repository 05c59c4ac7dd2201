// Names: texts of 1 to 15 bytes of any value.
ghost use Rattle.std.specs.Prelude.{◌≡◌, ℕ, ◌<◌, ◌≤◌, true, length, drop, slice_index};
ghost use Rattle.names.specs.Blank.{blank};

mod kind;
mod make;

// The plain record of a name. One with another length, or with something behind its last byte, is
// no name's. A row with a length beside it, for a record is plain data that lies in lent memory.
#[derive(Clone, Copy, Debug, PartialEq, Eq)]
pub struct NameRecord {
    pub text: [u8; 15],
    pub len: usize,
}

// A name keeps its bytes in front, and zeros behind its last byte.
#[derive(Clone, Copy, Debug)]
pub struct Name {
    record: NameRecord,
    ghost whole: { length record.text ≡ 15 },
    ghost octets: { (i : ℕ) → slice_index record.text i < 256 },
    ghost some: { 1 ≤ record.len },
    ghost few: { record.len ≤ 15 },
    ghost zeros: { blank (drop record.len record.text) ≡ true },
}
