// Numbers read from a text one after another, each up to a mark.
ghost use Rattle.std.specs.Prelude.{◌≡◌, ◌<◌, ◌==◌, IfSome, position};
ghost use Rattle.std.specs.Option.{option_map};
ghost use Rattle.numerals.specs.Parts.{split, below, part};

use crate::numbers::read_number;

// Where the first mark stands.
fn find(s: &[u8], mark: u8) -> Option<usize>
    ensures { result ≡ position (λ b. b == mark) s.now }
{
    s.iter().position(|b| *b == mark)
}

// What stands before the first mark, and what stands behind it.
pub fn split_once<'a>(s: &'a [u8], mark: u8) -> Option<(&'a [u8], &'a [u8])>
    ensures { option_map (λ p. (p.0.now, p.1.now)) result ≡ split mark s.now }
{
    let at = find(s, mark)?;
    Some((&s[..at], &s[at + 1..]))
}

// The number that a text writes, if it is below the limit.
pub fn bounded(s: &[u8], limit: u64) -> Option<u64>
    ensures value { result ≡ below limit s.now }
    ensures small { IfSome result (λ n. n < limit) }
{
    read_number(s).filter(|n| *n < limit)
}

// The number below the limit before the first mark, and what stands behind the mark.
pub fn cut<'a>(s: &'a [u8], limit: u64, mark: u8) -> Option<(u64, &'a [u8])>
    ensures value { option_map (λ p. (p.0, p.1.now)) result ≡ part limit mark s.now }
    ensures small { IfSome result (λ p. p.0 < limit) }
{
    let (text, rest) = split_once(s, mark)?;
    Some((bounded(text, limit)?, rest))
}
