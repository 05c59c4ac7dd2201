// What the program `flow_places` does with the line of a key: the key placed, noted and shown.
#![tactic(auto)]

mod placed;
mod placer;

pub use placer::{Outcome, Placer};
