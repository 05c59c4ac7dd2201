// The first line of `flow_places`: a rule with its seed, and a kind of key.
#![tactic(auto)]

mod header;
mod setting;

pub use header::KindName;
pub use setting::{Setting, read_setting};
