//! Sessions over a module that may have other owners.

ghost use Rattle.std.specs.Prelude.{◌≡◌};

use crate::kept::KeptOutput;
use sandbox_core::{SharedModule, SharedSession};
use sandbox_device::RecordedDevice;

/// A session of a prepared module, over its device, whose output is kept in memory.
pub type SharedHostSession<'a> = SharedSession<
    'a,
    'a,
    'a,
    RecordedDevice,
    &'a [u8],
    KeptOutput,
    KeptOutput,
>;

/// A session with the module that it is of, which comes back where it is finished.
#[derive(Drop)]
pub struct Sharing {
    pub session: SharedHostSession<'static>,
    pub ready: SharedModule<'static>,
    ghost of_module: { ready.valid ≡ session.machine.valid },
}
