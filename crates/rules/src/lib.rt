// Our own place rules by name, so that a program can take one at run time, and the worked examples
// of words and choices.
#![tactic(auto)]

mod builtin;
mod examples;

pub use builtin::{Builtin, RuleName};
pub use examples::examples_hold;
