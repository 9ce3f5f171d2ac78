//! Why a host is refused.

/// Why a host can't be made, or has no preopened directories.
#[derive(Clone, Copy, PartialEq, Eq)]
pub enum HostFault {
    /// The settings break a rule.
    Setting,
    /// A path to be preopened is no directory of the volume.
    Preopen,
    /// The volume has failed or fails.
    Device,
    /// Memory was refused.
    Memory,
}
