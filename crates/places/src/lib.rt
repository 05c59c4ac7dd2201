// Places: the word of a key, and the rules by which a key chooses its buckets.
#![tactic(auto)]

pub mod choices;
pub mod digits;
pub mod rule;
pub mod two;
pub mod word;
pub mod xor;

pub use choices::Choices;
pub use digits::{DigitCount, Digits};
pub use rule::Rule;
pub use two::Two;
pub use word::fnv1a;
pub use xor::Xor;
