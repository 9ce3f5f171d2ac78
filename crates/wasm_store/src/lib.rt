//! What a WebAssembly instance holds, and how a valid module is instantiated over a host.
#![tactic(auto)]

mod call;
mod fault;
mod globals;
mod host;
mod instantiation;
mod linked;
mod memory;
mod shown;
mod table;

pub use call::{Answer, Errno, HostCall};
pub use fault::InstanceFault;
pub use globals::Globals;
pub use host::Host;
pub use instantiation::{Allocated, Instantiated, MOST_PARAMETERS, allocate, instantiate};
pub use linked::Linked;
pub use memory::{Memory, PAGE_SIZE};
pub use shown::Shown;
pub use table::Table;
