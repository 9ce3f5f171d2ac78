//! Modules that are prepared once, for any number of sessions.

ghost use Rattle.std.specs.Prelude.{◌≡◌, ◌≢◌, ◌⊎◌, None, Some, IfOk, IfErr, IfSome, IsSomeAnd, is_none, false, true};
ghost use Rattle.sandbox_host.specs.Sessions.{loaded, prepared, bytes_of, has_module, IsLoaded, IsLoadedWith};
ghost use Rattle.sandbox_host.specs.Supplies.{most_pages, profile_of};
ghost use Rattle.sandbox_host.specs.Refusals.{NotReady, NotPrepared, NotPreparedWith};

use crate::handle::Handle;
use crate::held::HandleContent;
use crate::modules::LoadedModule;
use crate::numbers::{MISUSE, OUT_OF_MEMORY, SETTING, Why, session_number};
use crate::opening::{keep, load_with};
use crate::supplies::SessionLimits;
use sandbox_core::{SessionFault, SharedModule, Valid};
use sandbox_inspect::ModuleBytes;
use std::alloc::Global;

/// The pages that a memory has at most.
pub(crate) const MOST_PAGES: u32 = 65_536;

/// Makes all once that the sessions of a module with these limits look up.
fn make_ready<'a>(
    alloc: Global,
    valid: Valid<'a>,
    limits: &SessionLimits,
) -> Result<SharedModule<'a>, u32>
    ensures ready { IfOk result (λ m. (m.valid ≡ valid.entry) × (m.pages ≡ most_pages limits.now)) }
    ensures refused { IfErr result (NotReady valid.entry limits.now) }
    ensures some { IfErr result (λ number. number ≢ 0) }
{
    let pages = limits.most_pages();
    if !limits.is_known() || pages > MOST_PAGES {
        drop(valid);
        return Err(SETTING);
    }
    match SharedModule::new(alloc, valid, pages) {
        Ok(module) => Ok(module),
        Err(refused) => {
            let number = session_number(SessionFault::Instance(refused.fault));
            drop(refused);
            Err(number)
        }
    }
}

/// Loads a module and makes all once that its sessions look up, for sessions with the pages of these limits. Its bytes are kept
/// until it and each that shares it are unloaded, and their sessions closed.
pub fn prepare(
    alloc: Global,
    module: &mut Handle,
    bytes: &'static [u8],
    limits: &SessionLimits,
    why: &mut Why,
) -> u32
    ensures misuse { is_none «module».old.held ≡ false
        → (result ≡ MISUSE) × («module».new ≡ «module».old) × (why.new ≡ why.old) }
    ensures loaded { is_none «module».old.held ≡ true → result ≡ 0
        → IsSomeAnd (loaded «module».new.held) (IsLoaded bytes.now) × (why.new ≡ why.old) }
    ensures prepared { is_none «module».old.held ≡ true → result ≡ 0
        → IsSomeAnd (prepared «module».new.held) (λ ready. ready.pages ≡ most_pages limits.now) }
    ensures refused { is_none «module».old.held ≡ true → result ≢ 0 → («module».new.held ≡ None)
        × NotPrepared bytes.now limits.now result why.old why.new }
    ensures bytes { result ≡ 0 → bytes_of «module».new.held ≡ bytes.now }
{
    prepare_with(alloc, module, bytes, limits, 0, why)
}

/// The same of a module that may have floats, where that isn't 0.
pub fn prepare_with(
    alloc: Global,
    module: &mut Handle,
    bytes: &'static [u8],
    limits: &SessionLimits,
    floats: u32,
    why: &mut Why,
) -> u32
    ensures misuse { is_none «module».old.held ≡ false
        → (result ≡ MISUSE) × («module».new ≡ «module».old) × (why.new ≡ why.old) }
    ensures loaded { is_none «module».old.held ≡ true → result ≡ 0
        → IsSomeAnd (loaded «module».new.held) (IsLoadedWith (profile_of floats) bytes.now)
        × (why.new ≡ why.old) }
    ensures prepared { is_none «module».old.held ≡ true → result ≡ 0
        → IsSomeAnd (prepared «module».new.held) (λ ready. ready.pages ≡ most_pages limits.now) }
    ensures refused { is_none «module».old.held ≡ true → result ≢ 0 → («module».new.held ≡ None)
        × NotPreparedWith (profile_of floats) bytes.now limits.now result why.old why.new }
    ensures bytes { result ≡ 0 → bytes_of «module».new.held ≡ bytes.now }
{
    if !module.is_closed() {
        return MISUSE;
    }
    let valid = match load_with(alloc, bytes, floats) {
        Ok(valid) => valid,
        Err(told) => {
            *why = told;
            return told.fault;
        }
    };
    match make_ready(alloc, valid, limits) {
        Ok(ready) => {
            let loaded = LoadedModule::Prepared(ready);
            keep(
                alloc,
                module,
                HandleContent::Loaded(loaded, ModuleBytes::new(alloc, bytes)),
            )
        }
        Err(number) => number,
    }
}

/// The same prepared module behind another handle, which is closed until then.
fn share_into(
    alloc: Global,
    other: &mut Handle,
    ready: &SharedModule<'static>,
    bytes: &'static [u8],
) -> u32
    requires { is_none other.old.held ≡ true }
    ensures shared { result ≡ 0 → (loaded other.new.held ≡ Some ready.now.valid)
        × (prepared other.new.held ≡ Some ready.now) × (bytes_of other.new.held ≡ bytes.now) }
    ensures refused { result ≢ 0 → (result ≡ 40) × (other.new.held ≡ None) }
{
    match ready.share() {
        Ok(shared) => {
            let loaded = LoadedModule::Prepared(shared);
            keep(
                alloc,
                other,
                HandleContent::Loaded(loaded, ModuleBytes::new(alloc, bytes)),
            )
        }
        Err(_) => OUT_OF_MEMORY,
    }
}

/// Gives a closed handle the same prepared module: sessions of both are of what was made once. The other may go to another thread.
pub fn share(alloc: Global, other: &mut Handle, module: &mut Handle) -> u32
    ensures misuse { ((is_none other.old.held ≡ false) ⊎ (has_module «module».old.held ≡ false))
        ⊎ (is_none (prepared «module».old.held) ≡ true) → (result ≡ MISUSE)
        × (other.new.held ≡ other.old.held) }
    ensures shared { is_none other.old.held ≡ true → has_module «module».old.held ≡ true
        → IfSome (prepared «module».old.held)
        (λ ready. result ≡ 0 → (loaded other.new.held ≡ Some ready.valid)
        × (prepared other.new.held ≡ Some ready)) }
    ensures refused { is_none other.old.held ≡ true → has_module «module».old.held ≡ true
        → IfSome (prepared «module».old.held)
        (λ ready. result ≢ 0 → (result ≡ OUT_OF_MEMORY) × (other.new.held ≡ None)) }
    ensures bytes { result ≡ 0 → bytes_of other.new.held ≡ bytes_of «module».old.held }
    ensures kept { «module».new.held ≡ «module».old.held }
{
    if !other.is_closed() {
        return MISUSE;
    }
    let Some(held) = module.take(alloc) else {
        return MISUSE;
    };
    let answer = match &*held {
        HandleContent::Loaded(LoadedModule::Prepared(ready), bytes) => {
            share_into(alloc, other, ready, bytes.as_slice())
        }
        _ => MISUSE,
    };
    module.put(held);
    answer
}
