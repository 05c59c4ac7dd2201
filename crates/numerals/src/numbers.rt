// Numbers read from text.
ghost use Rattle.std.specs.Prelude.{◌≡◌};
ghost use Rattle.std.specs.Char.{is_ascii_digit};
ghost use Rattle.std.specs.List.{list_all};
ghost use Rattle.numerals.specs.Numbers.{number};

// Whether each byte is a digit.
fn all_digits(s: &[u8]) -> bool
    ensures { result ≡ list_all is_ascii_digit s.now }
{
    s.iter().all(|b| b.is_ascii_digit())
}

// The number that a text of 1 to 18 digits writes, with no leading zero but in `0` itself.
#[tactic(auto, using(crate::proofs::Digits::digits_utf8, crate::proofs::Digits::digits_parse))]
pub fn read_number(s: &[u8]) -> Option<u64>
    ensures { result ≡ number s.now }
{
    if s.is_empty() || s.len() > 18 || (s[0] == b'0' && s.len() > 1) || !all_digits(s) {
        return None;
    }
    str::from_utf8(s).ok()?.parse().ok()
}
