// The counts of keys, bucket by bucket.
use arrayvec::ArrayVec;
use std::marker::Model;

mod notes;
mod reports;

pub use reports::Summary;

// How many keys chose each bucket. The counts of the 512 buckets at most lie in the value itself,
// so a spread cannot run out of memory.
#[derive(Drop)]
pub struct Spread {
    counts: ArrayVec<u64, 512>,
}

impl Model for Spread {
    ghost use Rattle.std.specs.Prelude.{ℕ, ◌≤◌, List, length};

    ghost Value = { List ℕ };

    ghost view = { λ s. s.counts.items };

    ghost invariant = { λ s. (1 ≤ length s.counts.items) × (length s.counts.items ≤ 512) };
}
