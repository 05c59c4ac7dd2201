// Banks: what slots are kept in. A table sees a bank through the trait `Bank` alone.
#![tactic(auto)]

pub mod access;
pub mod bank;
pub mod memory;

pub use access::{content_at, set_content};
pub use bank::{Bank, Entry};
pub use memory::{Memory, SlotRecord};
