// The rule `xor`: the second choice is the first, exclusive or a number made of the word's highest
// byte, so either choice and that byte tell the other.
ghost use Rattle.std.specs.Prelude.{◌≡◌, ◌≤◌, true};
ghost use Rattle.std.specs.Int.{is_power_of_two};

mod rule;

#[derive(Clone, Copy, Debug, PartialEq, Eq)]
pub struct Xor {
    buckets: usize,
    seed: u32,
    ghost few: { buckets ≤ 512 },
    ghost power: { is_power_of_two buckets ≡ true },
}
