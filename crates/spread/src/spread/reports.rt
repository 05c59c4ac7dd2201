// What was noted, told in numbers.
ghost use Rattle.std.specs.Prelude.{◌≡◌, ◌*◌, ◌^◌, ◌<◌, ◌≤◌, length, sum};
ghost use Rattle.spread.specs.Spreads.{idle, Busiest};
ghost use Rattle.spread.specs.Summaries.{Tells};

use crate::spread::Spread;

// How many of the counts are zero.
fn zeros(counts: &[u64]) -> usize
    ensures { result ≡ idle counts.now }
{
    counts.iter().filter(|count| **count == 0).count()
}

// The place of the first of the largest counts.
fn largest(counts: &[u64]) -> usize
    requires { 0 < length counts.now }
    ensures { Busiest counts.now result }
{
    let most = counts.iter().copied().max().unwrap_or(0);
    counts.iter().position(|count| *count == most).unwrap_or(0)
}

fn total(counts: &[u64]) -> u128
    requires { length counts.now ≤ 512 }
    ensures value { result ≡ sum counts.now }
    ensures bound { result ≤ 512 * 2 ^ 64 }
{
    counts.iter().map(|count| u128::from(*count)).sum()
}

// What was noted, in numbers.
#[derive(Clone, Copy, Debug, PartialEq, Eq)]
pub struct Summary {
    pub buckets: usize,
    // how many buckets no key chose
    pub idle: usize,
    // the most chosen bucket, the lowest of several, and how many keys chose it
    pub busiest: usize,
    pub keys: u64,
    // how many keys chose a bucket on average, in hundredths
    pub mean: u128,
}

impl Spread {
    // How many buckets there are.
    pub fn buckets(&self) -> usize
        ensures value { result ≡ length self.now }
        ensures some { 1 ≤ length self.now }
        ensures few { length self.now ≤ 512 }
    {
        self.counts.len()
    }

    // What was noted so far, in numbers.
    pub fn summary(&self) -> Summary
        ensures tells { Tells self.now result }
        ensures some { 1 ≤ result.buckets }
        ensures few { result.buckets ≤ 512 }
    {
        let counts = self.counts.as_slice();
        let busiest = largest(counts);
        Summary {
            buckets: counts.len(),
            idle: zeros(counts),
            busiest,
            keys: counts[busiest],
            // by `as`, since no `From` widens a `usize`
            mean: total(counts) * 100 / counts.len() as u128,
        }
    }
}
