// Tests of keys and places, and a rule as a customer would add one: in a crate of its own, by the
// public trait alone.
#![tactic(auto)]

pub mod by_bytes;
#[cfg(test)]
mod tests;
