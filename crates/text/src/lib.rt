// Text of keys.
#![tactic(auto)]

pub mod laws;
pub mod spelled;

pub use spelled::Spelled;
