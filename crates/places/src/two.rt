// The rule `two`: one choice in each half of the buckets.
ghost use Rattle.std.specs.Prelude.{◌≡◌, ◌%◌, ◌≤◌};

mod rule;

#[derive(Clone, Copy, Debug, PartialEq, Eq)]
pub struct Two {
    buckets: usize,
    seed: u32,
    ghost some: { 2 ≤ buckets },
    ghost few: { buckets ≤ 512 },
    ghost even: { buckets % 2 ≡ 0 },
}
