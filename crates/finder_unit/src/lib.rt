// A unit file that is taken as golden (document 02, L1): its bytes, and what was read of them.
#![tactic(auto)]

mod table;
mod unit;

pub use unit::GoldenUnit;
