//! Why a session can't be made.

ghost use Rattle.std.specs.Prelude.{◌≡◌};
ghost use Rattle.sandbox_core.specs.internal.Faults.{of_host, of_instance};

use thiserror::Error;
use wasi_calls::HostFault;
use wasm_interp::InstanceFault;

/// Why a session can't be made.
#[derive(Clone, Copy, Debug, PartialEq, Eq, Error)]
pub enum SessionFault {
    /// The settings break a rule.
    #[error("fault 15")]
    Setting,
    /// The module can't be instantiated.
    #[error("{0}")]
    Instance(InstanceFault),
    /// The volume has failed or fails.
    #[error("fault 33")]
    Device,
    /// A path to be preopened is no directory of the volume.
    #[error("fault 16")]
    Preopen,
    /// Memory was refused.
    #[error("out of memory")]
    Memory,
}

/// The reason of a host's refusal.
pub fn of_host(fault: HostFault) -> SessionFault
    ensures { result ≡ of_host fault }
{
    match fault {
        HostFault::Setting => SessionFault::Setting,
        HostFault::Preopen => SessionFault::Preopen,
        HostFault::Device => SessionFault::Device,
        HostFault::Memory => SessionFault::Memory,
    }
}

/// The reason of a machine's refusal.
pub fn of_instance(fault: InstanceFault) -> SessionFault
    ensures { result ≡ of_instance fault }
{
    match fault {
        InstanceFault::Memory => SessionFault::Memory,
        fault => SessionFault::Instance(fault),
    }
}
