// The first line: a rule, the number of buckets, a seed and a kind of key.
ghost use Rattle.std.specs.Prelude.{◌≡◌};
ghost use Rattle.std.specs.Option.{option_map};
ghost use Rattle.settings.specs.Headers.{rule_word_lem, kind_word_lem, header_of};

use numerals::cut;
use rules::RuleName;

#[derive(Clone, Copy, Debug, PartialEq, Eq)]
pub enum KindName {
    Flow,
    Name,
}

#[derive(Clone, Copy, Debug, PartialEq, Eq)]
pub struct Header {
    pub rule: RuleName,
    pub buckets: u64,
    pub seed: u64,
    pub kind: KindName,
}

// Numbers have at most 18 digits.
const ANY: u64 = 1_000_000_000_000_000_000;

// The rule in front, and what stands behind the space.
// By patterns, which give that too, as no `TryFrom` does.
fn rule_word<'a>(s: &'a [u8]) -> Option<(RuleName, &'a [u8])>
    ensures { option_map (λ p. (p.0, p.1.now)) result ≡ rule_word_lem s.now }
{
    match s {
        [b't', b'w', b'o', b' ', rest @ ..] => Some((RuleName::Two, rest)),
        [b'd', b'i', b'g', b'2', b' ', rest @ ..] => Some((RuleName::Dig2, rest)),
        [b'd', b'i', b'g', b'3', b' ', rest @ ..] => Some((RuleName::Dig3, rest)),
        [b'x', b'o', b'r', b' ', rest @ ..] => Some((RuleName::Xor, rest)),
        _ => None,
    }
}

// The kind that a word names; no `TryFrom`, since the header is read by `?` on Options.
fn kind_word(s: &[u8]) -> Option<KindName>
    ensures { result ≡ kind_word_lem s.now }
{
    match s {
        b"flow" => Some(KindName::Flow),
        b"name" => Some(KindName::Name),
        _ => None,
    }
}

// What a first line says, if it has the form of one.
pub(crate) fn read_header(s: &[u8]) -> Option<Header>
    ensures { result ≡ header_of s.now }
{
    let (rule, s) = rule_word(s)?;
    let (buckets, s) = cut(s, ANY, b' ')?;
    let (seed, s) = cut(s, ANY, b' ')?;
    let kind = kind_word(s)?;
    Some(Header {
        rule,
        buckets,
        seed,
        kind,
    })
}
