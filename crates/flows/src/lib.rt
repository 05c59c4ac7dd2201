// Flows, a kind of key.
#![tactic(auto)]

pub mod flow;

pub use flow::Flow;
