//! Modules for instances, behind a handle.

ghost use Rattle.std.specs.Prelude.{◌≡◌, IfOk};
ghost use Rattle.sandbox_host.specs.Kinds.{ready_at};

use fed_session::FedPlugin;
use plugin_session::Plugin;
use sandbox_core::Valid;
use std::alloc::AllocError;

/// A module that is ready for instances, and may have other owners.
#[derive(Drop)]
pub enum HostPlugin {
    /// Its instances have all of their input at their opening.
    Plain(Plugin<'static>),
    /// Their input may go on.
    Fed(FedPlugin<'static>),
}

impl HostPlugin {
    /// The same module for one owner more.
    pub(crate) fn share(&self) -> Result<HostPlugin, AllocError>
        ensures { IfOk result (λ p. p ≡ self.now) }
    {
        match self {
            HostPlugin::Plain(plain) => {
                let shared = plain.share()?;
                Ok(HostPlugin::Plain(shared))
            }
            HostPlugin::Fed(fed) => {
                let shared = fed.share()?;
                Ok(HostPlugin::Fed(shared))
            }
        }
    }

    /// The module that was prepared.
    pub(crate) fn module(&self) -> &Valid<'static>
        ensures { result.now ≡ (ready_at self.now).valid }
    {
        match self {
            HostPlugin::Plain(plain) => plain.module(),
            HostPlugin::Fed(fed) => fed.module(),
        }
    }
}
