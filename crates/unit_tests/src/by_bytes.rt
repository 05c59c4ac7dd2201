// A customer's rule: the first two bytes of the key are its buckets.
ghost use Rattle.std.specs.Prelude.{◌≤◌};

mod rule;

#[derive(Clone, Copy, Debug, PartialEq, Eq)]
pub struct ByBytes {
    buckets: usize,
    ghost some: { 1 ≤ buckets },
    ghost few: { buckets ≤ 512 },
}
