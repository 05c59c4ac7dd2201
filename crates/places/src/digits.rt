// The rules `dig2` and `dig3`: the choices are the lowest digits of the word to the base of the
// number of buckets.
ghost use Rattle.std.specs.Prelude.{◌≤◌};

mod rule;

// How many digits are taken.
#[derive(Clone, Copy, Debug, PartialEq, Eq)]
pub enum DigitCount {
    Two,
    Three,
}

#[derive(Clone, Copy, Debug, PartialEq, Eq)]
pub struct Digits {
    count: DigitCount,
    buckets: usize,
    seed: u32,
    ghost some: { 1 ≤ buckets },
    ghost few: { buckets ≤ 512 },
}
