// What a kind of key is, and the refusals of all crates.
#![tactic(auto)]

pub mod kind;
pub mod refusal;

pub use kind::Kind;
pub use refusal::Refusal;
