// The text of a name: its bytes.
ghost use Rattle.names.specs.Names.{name_from};
ghost use Rattle.std.proofs.Common.{rules};

use crate::spelled::Spelled;
use keys::Refusal;
use names::Name;
use std::alloc::AllocError;

impl Spelled for Name {
    ghost text = { λ k. k };

    ghost reads = { name_from };

    ghost read_back = { Prim.search rules };

    ghost exact = { Prim.search rules };

    fn read(s: &[u8]) -> Result<Name, Refusal> {
        Name::new(s)
    }

    fn write(&self, out: &mut Vec<u8>) -> Result<(), AllocError> {
        out.extend_from_slice(self.as_bytes())
    }
}
