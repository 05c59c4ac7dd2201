// How keys spread over the buckets of a rule: how many keys chose each bucket.
#![tactic(auto)]

pub mod spread;

pub use spread::{Spread, Summary};
