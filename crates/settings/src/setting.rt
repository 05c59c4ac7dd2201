// A rule, its seed and a kind of key, made from a first line.
ghost use Rattle.std.specs.Option.{option_map};
ghost use Rattle.places.specs.Made.{MadeUnder};
ghost use Rattle.settings.specs.Settings.{HeaderSize, Asked, SettingOf};

use crate::header::{Header, KindName, read_header};
use keys::Refusal;
use rules::Builtin;

#[derive(Clone, Copy, Debug, PartialEq, Eq)]
pub struct Setting {
    pub rule: Builtin,
    pub seed: u32,
    pub kind: KindName,
}

// Makes the rule. A seed above 32 bits is refused as a size.
impl TryFrom<Header> for Setting {
    type Error = Refusal;

    ghost try_from_gives = { λ header made. MadeUnder (HeaderSize header) (Asked header) made };

    fn try_from(header: Header) -> Result<Setting, Refusal> {
        let seed = u32::try_from(header.seed).map_err(|_| Refusal::Size)?;
        let buckets = usize::try_from(header.buckets).map_err(|_| Refusal::Size)?;
        let rule = Builtin::new(header.rule, buckets, seed)?;
        Ok(Setting {
            rule,
            seed,
            kind: header.kind,
        })
    }
}

// The setting that a line says. A line that is too long has not the form of one.
pub fn read_setting(line: Option<&[u8]>) -> Result<Setting, Refusal>
    ensures { SettingOf (option_map (λ x. x.now) line.entry) result }
{
    line.and_then(read_header)
        .ok_or(Refusal::BadLine)?
        .try_into()
}
