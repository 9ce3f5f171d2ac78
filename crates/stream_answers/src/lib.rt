//! Streams, and what they answer.
#![tactic(auto)]

mod inlet;
mod lent;
mod memory;
mod outlet;
mod printing;
mod system;

pub use inlet::Inlet;
pub use outlet::Outlet;
pub use printing::print_all;
