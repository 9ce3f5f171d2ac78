//! Modules that are loaded, and sessions that begin.

ghost use Rattle.std.specs.Prelude.{◌≡◌, ◌≢◌, ◌⊎◌, None, Some, IfOk, IfErr, IfSome, IsSomeAnd, is_none, true, false};
ghost use Rattle.sandbox_host.specs.Sessions.{running, running_in, loaded, loaded_in, prepared, prepared_in, bytes_of, bytes_in, module_of, ready_of, state_of, ready_with, IsLoaded, IsLoadedWith, Begins, BeginsFrom};
ghost use Rattle.sandbox_host.specs.Volumes.{origin_of};
ghost use Rattle.sandbox_host.specs.Supplies.{profile_of};
ghost use Rattle.sandbox_host.specs.Refusals.{NotLoaded, NotLoadedWith, NotBegun, NotBegunOf, NotOpened};

use crate::handle::Handle;
use crate::held::{HandleContent, OpenSession};
use crate::kept::KeptOutput;
use crate::modules::LoadedModule;
use crate::numbers::{
    MISUSE, OK, OUT_OF_MEMORY, SETTING, Why, session_number, volume_number, why_of,
};
use crate::session::{HostSession, OwnSession};
use crate::sharing::{SharedHostSession, Sharing};
use crate::supplies::{Supplies, profile_of};
use crate::volumes::{Origin, VolumeSource, open_volume};
use sandbox_core::{RefusedParts, RefusedSession, Session, SharedModule, SharedSession, Valid};
use sandbox_inspect::ModuleBytes;
use std::alloc::Global;

/// Why a session doesn't begin, with its module.
#[derive(Drop)]
pub(crate) struct HandedBack<'a> {
    pub(crate) valid: Valid<'a>,
    pub(crate) number: u32,
}

/// Decodes and validates a module, or says why not.
pub(crate) fn load<'a>(alloc: Global, bytes: &'a [u8]) -> Result<Valid<'a>, Why>
    ensures loaded { IfOk result (IsLoaded bytes.now) }
    ensures refused { IfErr result (NotLoaded bytes.now) }
    ensures some { IfErr result (λ why. why.fault ≢ 0) }
{
    load_with(alloc, bytes, 0)
}

/// The same of a module that may have floats, where that isn't 0.
pub(crate) fn load_with<'a>(alloc: Global, bytes: &'a [u8], floats: u32) -> Result<Valid<'a>, Why>
    ensures loaded { IfOk result (IsLoadedWith (profile_of floats) bytes.now) }
    ensures refused { IfErr result (NotLoadedWith (profile_of floats) bytes.now) }
    ensures some { IfErr result (λ why. why.fault ≢ 0) }
{
    match sandbox_core::load_with(alloc, bytes, profile_of(floats)) {
        Ok(valid) => Ok(valid),
        Err(fault) => Err(why_of(fault)),
    }
}

/// Makes a session of a module, over the volume that is named.
pub(crate) fn begin<'a>(
    alloc: Global,
    valid: Valid<'a>,
    supplies: &Supplies<'a>,
    origin: Origin<'_>,
) -> Result<OwnSession<'a>, HandedBack<'a>>
    ensures begins { IfOk result (Begins valid.entry supplies.now origin.entry) }
    ensures refused { IfErr result (λ r. NotBegun valid.entry supplies.now origin.entry r.number) }
    ensures module { IfErr result (λ r. r.valid ≡ valid.entry) }
    ensures some { IfErr result (λ r. r.number ≢ 0) }
{
    if !supplies.limits.is_known() {
        return Err(HandedBack {
            valid,
            number: SETTING,
        });
    }
    let volume = match open_volume(alloc, origin) {
        Ok(volume) => volume,
        Err(fault) => {
            return Err(HandedBack {
                valid,
                number: volume_number(fault),
            });
        }
    };
    let settings = supplies.settings();
    let most = supplies.limits.most_output();
    let (out, err) = (KeptOutput::new(alloc, most), KeptOutput::new(alloc, most));
    match Session::new(alloc, valid, settings, volume, supplies.input, out, err) {
        Ok(mut session) => {
            session.limit_values(supplies.limits.most_values() as usize);
            Ok(session)
        }
        Err(
            RefusedSession {
                valid,
                parts,
                fault,
            },
        ) => {
            drop(parts);
            Err(HandedBack {
                valid,
                number: session_number(fault),
            })
        }
    }
}

/// Makes a session of a prepared module, as `begin` does: its limits have the pages that the module was prepared for.
fn begin_shared<'a>(
    alloc: Global,
    ready: &SharedModule<'a>,
    supplies: &Supplies<'a>,
    origin: Origin<'_>,
) -> Result<SharedHostSession<'a>, u32>
    ensures begins { IfOk result (Begins ready.now.valid supplies.now origin.entry) }
    ensures refused { IfErr result (NotBegunOf (Some ready.now) ready.now.valid supplies.now
        origin.entry) }
    ensures some { IfErr result (λ number. number ≢ 0) }
{
    if !supplies.limits.is_known() {
        return Err(SETTING);
    }
    if ready.pages() != supplies.limits.most_pages() {
        return Err(SETTING);
    }
    let volume = match open_volume(alloc, origin) {
        Ok(volume) => volume,
        Err(fault) => return Err(volume_number(fault)),
    };
    let settings = supplies.settings();
    let most = supplies.limits.most_output();
    let out = KeptOutput::new(alloc, most);
    let err = KeptOutput::new(alloc, most);
    match SharedSession::new(alloc, ready, settings, volume, supplies.input, out, err) {
        Ok(mut session) => {
            session.limit_values(supplies.limits.most_values() as usize);
            Ok(session)
        }
        Err(RefusedParts { parts, fault }) => {
            drop(parts);
            Err(session_number(fault))
        }
    }
}

/// Puts something into a closed handle, or says that memory was refused.
pub(crate) fn keep(alloc: Global, handle: &mut Handle, held: HandleContent) -> u32
    requires { is_none handle.old.held ≡ true }
    ensures kept { result ≡ 0 → handle.new.held ≡ Some held }
    ensures refused { result ≢ 0 → (result ≡ 40) × (handle.new.held ≡ None) }
{
    match Box::new(alloc, held) {
        Ok(held) => {
            handle.put(held);
            OK
        }
        Err(failed) => {
            drop(failed.value);
            OUT_OF_MEMORY
        }
    }
}

/// Makes a session of the module that the bytes spell, or gives the number of the refusal.
pub(crate) fn begin_from<'a>(
    alloc: Global,
    module: &'a [u8],
    supplies: &Supplies<'a>,
    origin: Origin<'_>,
    why: &mut Why,
) -> Result<OwnSession<'a>, u32>
    ensures begins { IfOk result (λ s. BeginsFrom «module».now supplies.now origin.entry s
        × (why.new ≡ why.old)) }
    ensures refused { IfErr result (λ number.
        NotOpened «module».now supplies.now origin.entry number why.old why.new) }
    ensures some { IfErr result (λ number. number ≢ 0) }
{
    let valid = match load(alloc, module) {
        Ok(valid) => valid,
        Err(told) => {
            *why = told;
            return Err(told.fault);
        }
    };
    match begin(alloc, valid, supplies, origin) {
        Ok(session) => Ok(session),
        Err(HandedBack { valid, number }) => {
            drop(valid);
            Err(number)
        }
    }
}

/// Makes a session behind a closed handle.
fn open_from(
    alloc: Global,
    handle: &mut Handle,
    module: &'static [u8],
    supplies: &Supplies<'static>,
    origin: Origin<'_>,
    why: &mut Why,
) -> u32
    requires { is_none handle.old.held ≡ true }
    ensures opened { result ≡ 0 → IsSomeAnd (running handle.new.held)
        (BeginsFrom «module».now supplies.now origin.entry) × (why.new ≡ why.old) }
    ensures refused { result ≢ 0 → (handle.new.held ≡ None)
        × NotOpened «module».now supplies.now origin.entry result why.old why.new }
    ensures bytes { result ≡ 0 → bytes_of handle.new.held ≡ «module».now }
{
    match begin_from(alloc, module, supplies, origin, why) {
        Ok(begun) => {
            let session = HostSession::Own(begun);
            let bytes = ModuleBytes::new(alloc, module);
            keep(
                alloc,
                handle,
                HandleContent::Running(OpenSession { session, bytes }),
            )
        }
        Err(number) => number,
    }
}

/// Makes a session, which has used nothing: decodes and validates the module, opens the volume, and opens the guest's
/// directories. The module and all that the supplies lead to are kept until the session is closed.
pub fn open(
    alloc: Global,
    session: &mut Handle,
    module: &'static [u8],
    supplies: &Supplies<'static>,
    volume: &VolumeSource<'_>,
    why: &mut Why,
) -> u32
    ensures misuse { (is_none session.old.held ≡ false) ⊎ (is_none (origin_of volume.now) ≡ true)
        → (result ≡ MISUSE) × (session.new ≡ session.old) × (why.new ≡ why.old) }
    ensures opened { is_none session.old.held ≡ true
        → IfSome (origin_of volume.now) (λ origin. result ≡ 0
        → IsSomeAnd (running session.new.held) (BeginsFrom «module».now supplies.now origin)
        × (why.new ≡ why.old)) }
    ensures refused { is_none session.old.held ≡ true
        → IfSome (origin_of volume.now) (λ origin. result ≢ 0 → (session.new.held ≡ None)
        × NotOpened «module».now supplies.now origin result why.old why.new) }
    ensures bytes { result ≡ 0 → bytes_of session.new.held ≡ «module».now }
{
    let Some(origin) = volume.origin() else {
        return MISUSE;
    };
    if !session.is_closed() {
        return MISUSE;
    }
    open_from(alloc, session, module, supplies, origin, why)
}

/// Decodes and validates a module once, for many sessions one after another. Its bytes are kept until it is unloaded.
pub fn load_module(alloc: Global, module: &mut Handle, bytes: &'static [u8], why: &mut Why) -> u32
    ensures misuse { is_none «module».old.held ≡ false
        → (result ≡ MISUSE) × («module».new ≡ «module».old) × (why.new ≡ why.old) }
    ensures loaded { is_none «module».old.held ≡ true → result ≡ 0
        → IsSomeAnd (loaded «module».new.held) (IsLoaded bytes.now)
        × (prepared «module».new.held ≡ None) × (why.new ≡ why.old) }
    ensures refused { is_none «module».old.held ≡ true → result ≢ 0 → («module».new.held ≡ None)
        × (((result ≡ why.new.fault) × NotLoaded bytes.now why.new)
        ⊎ ((result ≡ 40) × (why.new ≡ why.old))) }
    ensures bytes { result ≡ 0 → bytes_of «module».new.held ≡ bytes.now }
{
    load_module_with(alloc, module, bytes, 0, why)
}

/// The same of a module that may have floats, where that isn't 0.
pub fn load_module_with(
    alloc: Global,
    module: &mut Handle,
    bytes: &'static [u8],
    floats: u32,
    why: &mut Why,
) -> u32
    ensures misuse { is_none «module».old.held ≡ false
        → (result ≡ MISUSE) × («module».new ≡ «module».old) × (why.new ≡ why.old) }
    ensures loaded { is_none «module».old.held ≡ true → result ≡ 0
        → IsSomeAnd (loaded «module».new.held) (IsLoadedWith (profile_of floats) bytes.now)
        × (prepared «module».new.held ≡ None) × (why.new ≡ why.old) }
    ensures refused { is_none «module».old.held ≡ true → result ≢ 0 → («module».new.held ≡ None)
        × (((result ≡ why.new.fault) × NotLoadedWith (profile_of floats) bytes.now why.new)
        ⊎ ((result ≡ 40) × (why.new ≡ why.old))) }
    ensures bytes { result ≡ 0 → bytes_of «module».new.held ≡ bytes.now }
{
    if !module.is_closed() {
        return MISUSE;
    }
    match load_with(alloc, bytes, floats) {
        Ok(valid) => {
            let loaded = LoadedModule::Plain(valid);
            keep(
                alloc,
                module,
                HandleContent::Loaded(loaded, ModuleBytes::new(alloc, bytes)),
            )
        }
        Err(told) => {
            *why = told;
            told.fault
        }
    }
}

/// Makes a session of a loaded module, or hands it back with the number of the refusal.
fn begin_of(
    alloc: Global,
    loaded: LoadedModule,
    supplies: &Supplies<'static>,
    origin: Origin<'_>,
) -> Result<HostSession, (LoadedModule, u32)>
    ensures begins { IfOk result (λ s. Begins (module_of loaded) supplies.now origin.entry
        (state_of s) × (ready_with s ≡ ready_of loaded)) }
    ensures refused { IfErr result (λ r. NotBegunOf (ready_of loaded) (module_of loaded)
        supplies.now origin.entry r.1) }
    ensures module { IfErr result (λ r. r.0 ≡ loaded) }
    ensures some { IfErr result (λ r. r.1 ≢ 0) }
{
    match loaded {
        LoadedModule::Plain(valid) => match begin(alloc, valid, supplies, origin) {
            Ok(session) => Ok(HostSession::Own(session)),
            Err(HandedBack { valid, number }) => Err((LoadedModule::Plain(valid), number)),
        },
        LoadedModule::Prepared(ready) => match begin_shared(alloc, &ready, supplies, origin) {
            Ok(session) => Ok(HostSession::Shared(Sharing { session, ready })),
            Err(number) => Err((LoadedModule::Prepared(ready), number)),
        },
    }
}

/// What a loaded module becomes: a session that begins, or itself where it is refused.
fn begun(
    alloc: Global,
    held: HandleContent,
    supplies: &Supplies<'static>,
    origin: Origin<'_>,
) -> (HandleContent, u32)
    ensures begins { IfSome (loaded_in held)
        (λ m. result.1 ≡ 0 → IsSomeAnd (running_in result.0) (Begins m supplies.now origin.entry)
        × (prepared_in result.0 ≡ prepared_in held)) }
    ensures refused { IfSome (loaded_in held) (λ m. result.1 ≢ 0
        → (result.0 ≡ held) × NotBegunOf (prepared_in held) m supplies.now origin.entry result.1) }
    ensures other { is_none (loaded_in held) ≡ true → (result.1 ≡ 100) × (result.0 ≡ held) }
    ensures bytes { bytes_in result.0 ≡ bytes_in held }
{
    match held {
        HandleContent::Loaded(loaded, bytes) => match begin_of(alloc, loaded, supplies, origin) {
            Ok(session) => (HandleContent::Running(OpenSession { session, bytes }), OK),
            Err((loaded, number)) => (HandleContent::Loaded(loaded, bytes), number),
        },
        other => (other, MISUSE),
    }
}

/// Makes a session of a loaded module, which goes into it: the module's handle is closed then. Where that is refused, it has
/// the module as before.
pub fn open_loaded(
    alloc: Global,
    session: &mut Handle,
    module: &mut Handle,
    supplies: &Supplies<'static>,
    volume: &VolumeSource<'_>,
) -> u32
    ensures misuse { ((is_none session.old.held ≡ false) ⊎ (is_none (origin_of volume.now) ≡ true))
        ⊎ (is_none (loaded «module».old.held) ≡ true) → (result ≡ MISUSE)
        × (session.new.held ≡ session.old.held) × («module».new.held ≡ «module».old.held) }
    ensures opened { is_none session.old.held ≡ true
        → IfSome (origin_of volume.now) (λ origin. IfSome (loaded «module».old.held)
        (λ m. result ≡ 0 → IsSomeAnd (running session.new.held) (Begins m supplies.now origin)
        × («module».new.held ≡ None) × (prepared session.new.held ≡ prepared «module».old.held))) }
    ensures refused { is_none session.old.held ≡ true
        → IfSome (origin_of volume.now) (λ origin. IfSome (loaded «module».old.held)
        (λ m. result ≢ 0 → (session.new.held ≡ session.old.held)
        × («module».new.held ≡ «module».old.held) × NotBegunOf (prepared «module».old.held) m
        supplies.now origin result)) }
    ensures bytes { result ≡ 0 → bytes_of session.new.held ≡ bytes_of «module».old.held }
{
    let Some(origin) = volume.origin() else {
        return MISUSE;
    };
    if !session.is_closed() {
        return MISUSE;
    }
    let Some(mut held) = module.take(alloc) else {
        return MISUSE;
    };
    let (after, number) = begun(
        alloc,
        Box::replace(&mut held, HandleContent::Nothing),
        supplies,
        origin,
    );
    drop(Box::replace(&mut held, after));
    if number == OK {
        session.put(held);
    } else {
        module.put(held);
    }
    number
}
