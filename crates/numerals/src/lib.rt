// Decimal numbers in text: one by itself, and several with marks between them.
#![tactic(auto)]

pub mod laws;
pub mod numbers;
pub mod parts;

pub use numbers::read_number;
pub use parts::{bounded, cut, split_once};
