//! Numbers of WebAssembly's types, as words of a command line write them and as a line prints them.
#![tactic(auto)]

mod printing;
mod reading;

pub use printing::{ValueLine, line_of};
pub use reading::{NoNumbers, numbers_of};
