//! What answers an import.

use crate::call::HostCall;

/// What answers an import.
#[derive(Clone, Copy, Debug, PartialEq, Eq)]
pub enum Linked {
    /// A call of the host.
    Host(HostCall),
    /// A function of whoever embeds the machine, by the import's index.
    Embedder(usize),
}
