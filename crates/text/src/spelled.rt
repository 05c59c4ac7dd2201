// Kinds of key with a text form.
ghost use Rattle.std.specs.Prelude.{◌≡◌, ℕ, List, ◌++◌, is_ok, if◌then◌else◌, Ok, Result};
ghost use Rattle.std.specs.Result.{result_map_both};
ghost use Rattle.seating.specs.Layouts.{Key};
ghost use Rattle.keys.specs.declared.refusal.Refusal.{Refusal};

use keys::{Kind, Refusal};
use std::alloc::AllocError;

mod flow;
mod name;

// A kind of key with a text form.
pub trait Spelled: Kind {
    // the text of a key
    ghost text: { Key → List ℕ };

    // what a text says: the bytes of a key, or a refusal
    ghost reads: { List ℕ → Result Key Refusal };

    // The key that a text says.
    fn read(s: &[u8]) -> Result<Self, Refusal>
        ensures { result_map_both Self.Kind.bytes (λ e. e) result ≡ reads s.now };

    // Appends the text of the key.
    fn write(&self, out: &mut Vec<u8>) -> Result<(), AllocError>
        ensures { out.new.items ≡ (if is_ok result then out.old.items ++ text (Self.Kind.bytes self.now) else out.old.items) };

    // a key that is written and read is that key
    ghost read_back: { (k : Self) → reads (text (Self.Kind.bytes k)) ≡ Ok (Self.Kind.bytes k) };

    // a text that is read is the text of what was read
    ghost exact: { (s : List ℕ) (k : Key) → reads s ≡ Ok k → text k ≡ s };
}
