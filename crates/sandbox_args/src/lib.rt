//! What a command line asks for.
#![tactic(auto)]

mod faults;
mod request;
mod table;
mod words;

pub use request::{Change, GivenTerminals, GuestLimits, Invocation, ListForm, Run, Task};
pub use words::invocation;
