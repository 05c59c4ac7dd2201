// Names made from bytes, and read as bytes.
ghost use Rattle.std.specs.Prelude.{◌≡◌, ◌-◌, ◌≤◌, ◌++◌, length, replicate, Decides};
ghost use Rattle.std.specs.Result.{result_map_both};
ghost use Rattle.names.specs.Names.{name_bytes, name_from};

use crate::name::{Name, NameRecord};
use keys::Refusal;

// The bytes, and zeros behind them.
fn padded(bytes: &[u8]) -> [u8; 15]
    requires { length bytes.now ≤ 15 }
    ensures { result ≡ bytes.now ++ replicate (15 - length bytes.now) 0 }
{
    let mut text = [0; 15];
    text[..bytes.len()].copy_from_slice(bytes);
    text
}

// Whether a name may have so many bytes.
pub(crate) fn is_name_length(len: usize) -> bool
    ensures { Decides result ((1 ≤ len) × (len ≤ 15)) }
{
    1 <= len && len <= 15
}

impl Name {
    // The name of these bytes, or a refusal of none and of more than 15.
    pub fn new(bytes: &[u8]) -> Result<Name, Refusal>
        ensures { result_map_both name_bytes (λ e. e) result ≡ name_from bytes.now }
    {
        let len = bytes.len();
        if !is_name_length(len) {
            return Err(Refusal::NameLength);
        }
        let text = padded(bytes);
        Ok(Name {
            record: NameRecord { text, len },
        })
    }

    // The bytes of the name.
    pub fn as_bytes(&self) -> &[u8]
        ensures { result.now ≡ name_bytes self.now }
    {
        &self.record.text[..self.record.len]
    }
}
