//! The descriptors of a guest: a map from numbers to streams and to open entries of a volume.
#![tactic(auto)]

mod descriptor;
mod fault;
mod fd;
mod rights;
mod table;

pub use descriptor::{Descriptor, EntryKind, Opened, Stream};
pub use fault::DescriptorFault;
pub use fd::Fd;
pub use rights::Rights;
pub use table::{Descriptors, PLACES};
