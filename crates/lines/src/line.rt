// A line of input, with bounded memory.
ghost use Rattle.std.specs.Prelude.{◌≡◌, ◌≤◌, ℕ, List, [], ◌++◌, length, IfSome};
ghost use Rattle.std.specs.Option.{option_map};
ghost use Rattle.lines.specs.Lines.{line_text};
ghost use Rattle.lines.specs.Said.{said};

use arrayvec::ArrayVec;

// The bytes so far of a line that is being read, or nothing once it has more than 128.
#[derive(Drop)]
pub struct Line {
    text: Option<ArrayVec<u8, 128>>,
}

impl Line {
    // A line with no byte yet.
    pub(crate) fn new() -> Line
        ensures { said result ≡ line_text [] }
    {
        Line {
            text: Some(ArrayVec::new()),
        }
    }

    // These bytes more. Not inlined, so that the line stays in memory, and is not taken apart and put together.
    #[inline(never)]
    pub(crate) fn extend(&mut self, bytes: &[u8])
        ensures { (bs : List ℕ) → said self.old ≡ line_text bs → said self.new ≡ line_text (bs ++ bytes.now) }
    {
        if let Some(text) = &mut self.text {
            if text.try_extend_from_slice(bytes).is_err() {
                self.text = None;
            }
        }
    }

    // The bytes of the line, or nothing where it has more than 128.
    pub fn get(&self) -> Option<&[u8]>
        ensures value { option_map (λ x. x.now) result ≡ said self.now }
        ensures few { IfSome result (λ x. length x.now ≤ 128) }
    {
        self.text.as_ref().map(|text| text.as_slice())
    }
}
