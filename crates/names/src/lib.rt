// Names, a kind of key.
#![tactic(auto)]

pub mod name;

pub use name::{Name, NameRecord};
