//! Loaded modules.

use sandbox_core::{SharedModule, Valid};

/// A loaded module.
#[derive(Drop)]
pub enum LoadedModule {
    /// It was decoded and validated, and goes into one session at a time.
    Plain(Valid<'static>),
    /// All that its sessions look up was made once, and it may have other owners.
    Prepared(SharedModule<'static>),
}
