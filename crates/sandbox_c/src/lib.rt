//! What C calls (`include/sandbox.h`). Each export is one call of `sandbox_host`, under its contract.
#![tactic(auto)]

ghost use Rattle.std.specs.Prelude.{◌≡◌, ◌≢◌, ◌⊎◌, None, Some, IfSome, IsSomeAnd, is_none, true, false, length, drop, slice_get, if◌then◌else◌, ◌-◌, ◌^◌};
ghost use Rattle.wasm_interp.specs.Frames.{frames_of};
ghost use Rattle.vol_sector.specs.Record.{image_of};
ghost use Rattle.vol_inode.specs.declared.version.Version.TheVariants.{Four};
ghost use Rattle.vol_tree.specs.Fresh.{fresh, fresh_as};
ghost use Rattle.vol_tree.specs.Stands.{StandsAs, empty_tree};
ghost use Rattle.wasm_syntax.specs.declared.module.Module.{Module as ModuleValue};
ghost use Rattle.sandbox_host.specs.Sessions.{running, finished, loaded, prepared, bytes_of, has_session, has_module, module_of, output, most_of, was_filled, sectors};
ghost use Rattle.sandbox_host.specs.Sessions.{IsLoaded, IsLoadedWith, IsShown, Begins, BeginsFrom, Paused, Finishes};
ghost use Rattle.sandbox_host.specs.Recording.{recorded, operation_of, told_operation};
ghost use Rattle.sandbox_host.specs.Supplies.{most_pages, profile_of};
ghost use Rattle.sandbox_host.specs.Frames.{TellsFrame, machine_of, name_of};
ghost use Rattle.sandbox_host.specs.Volumes.{origin_of};
ghost use Rattle.sandbox_host.specs.Refusals.{NotLoaded, NotLoadedWith, NotBegunOf, NotOpened, NotPrepared, NotPreparedWith};
ghost use Rattle.sandbox_host.specs.Whole.{Ran, IsUnformatted};
ghost use Rattle.sandbox_host.specs.Texts.{text_of};
ghost use Rattle.sandbox_host.specs.declared.volumes.Origin.TheVariants.{Fresh};
ghost use Rattle.sandbox_host.specs.Sessions.{has_plugin};
ghost use Rattle.sandbox_host.specs.Kinds.{goes_on_at, machine_at, ready_at};
ghost use Rattle.sandbox_host.specs.Instances.{Answered, Answers, BeginsInstance, Does, EndsInput, FinishesInstance, Invokes, IsFed, IsHandedOver, IsNamed, IsRead, NoAnswer, NoCall, NoGoing, NoLettingGo, NoWrite, NotBegunInstance, NotPluggedWith, Went, left, living, memory, plugin_of};
ghost use Rattle.plugin_core.specs.Handling as acts;
ghost use Rattle.wasm_store.specs.Bytes.{written};

use sandbox_host::{
    FunctionFrame, Handle, SessionLimits, Supplies, Told, VolumeOperation, VolumeSource, Why,
};
use std::alloc::Global;
use vol_sector::Sector;

/// The version of the archive.
#[unsafe(no_mangle)]
pub extern "C" fn sandbox_version() -> u32
    ensures { result ≡ 9018 }
{
    sandbox_host::VERSION
}

/// Copies the text of a number.
#[unsafe(no_mangle)]
pub extern "C" fn sandbox_text(kind: u32, number: u32, room: &mut [u8]) -> usize
    ensures length { result ≡ length (text_of kind number) }
    ensures shown { IsShown (text_of kind number) room.old room.new }
{
    sandbox_host::text(kind, number, room)
}

/// Decodes and validates a module.
#[unsafe(no_mangle)]
pub extern "C" fn sandbox_check(alloc: Global, module: &[u8], why: &mut Why) -> u32
    ensures valid { result ≡ 0 → ((m : ModuleValue) × IsLoaded «module».now m)
        × (why.new ≡ why.old) }
    ensures refused { result ≢ 0 → (result ≡ why.new.fault) × NotLoaded «module».now why.new }
{
    sandbox_host::check(alloc, module, why)
}

/// Runs a module with this much fuel over a fresh volume.
#[unsafe(no_mangle)]
pub extern "C" fn sandbox_run(
    alloc: Global,
    module: &[u8],
    supplies: &Supplies<'_>,
    fuel: u64,
    out: &mut [u8],
    out_length: &mut usize,
    ended: &mut Told,
    why: &mut Why,
) -> u32
    ensures ran { result ≡ 0 → Ran «module».now supplies.now fuel ended.new out_length.new out.old
        out.new × (why.new ≡ why.old) }
    ensures refused { result ≢ 0 → NotOpened «module».now supplies.now Fresh result why.old why.new
        × (out.new ≡ out.old) × (out_length.new ≡ out_length.old) × (ended.new ≡ ended.old) }
{
    sandbox_host::run(alloc, module, supplies, fuel, out, out_length, ended, why)
}

/// Makes a session.
#[unsafe(no_mangle)]
pub extern "C" fn sandbox_open(
    alloc: Global,
    session: &mut Handle,
    module: &'static [u8],
    supplies: &Supplies<'static>,
    volume: &VolumeSource<'_>,
    why: &mut Why,
) -> u32
    ensures misuse { (is_none session.old.held ≡ false) ⊎ (is_none (origin_of volume.now) ≡ true)
        → (result ≡ 100) × (session.new ≡ session.old) × (why.new ≡ why.old) }
    ensures opened { is_none session.old.held ≡ true
        → IfSome (origin_of volume.now) (λ origin. result ≡ 0
        → IsSomeAnd (running session.new.held) (BeginsFrom «module».now supplies.now origin)
        × (why.new ≡ why.old)) }
    ensures refused { is_none session.old.held ≡ true
        → IfSome (origin_of volume.now) (λ origin. result ≢ 0 → (session.new.held ≡ None)
        × NotOpened «module».now supplies.now origin result why.old why.new) }
    ensures bytes { result ≡ 0 → bytes_of session.new.held ≡ «module».now }
{
    sandbox_host::open(alloc, session, module, supplies, volume, why)
}

/// Loads a module for many sessions.
#[unsafe(no_mangle)]
pub extern "C" fn sandbox_load(
    alloc: Global,
    module: &mut Handle,
    bytes: &'static [u8],
    why: &mut Why,
) -> u32
    ensures misuse { is_none «module».old.held ≡ false
        → (result ≡ 100) × («module».new ≡ «module».old) × (why.new ≡ why.old) }
    ensures loaded { is_none «module».old.held ≡ true → result ≡ 0
        → IsSomeAnd (loaded «module».new.held) (IsLoaded bytes.now)
        × (prepared «module».new.held ≡ None) × (why.new ≡ why.old) }
    ensures refused { is_none «module».old.held ≡ true → result ≢ 0 → («module».new.held ≡ None)
        × (((result ≡ why.new.fault) × NotLoaded bytes.now why.new)
        ⊎ ((result ≡ 40) × (why.new ≡ why.old))) }
    ensures bytes { result ≡ 0 → bytes_of «module».new.held ≡ bytes.now }
{
    sandbox_host::load_module(alloc, module, bytes, why)
}

/// Loads a module that may have floats, where that isn't 0, for many sessions.
#[unsafe(no_mangle)]
pub extern "C" fn sandbox_load_with(
    alloc: Global,
    module: &mut Handle,
    bytes: &'static [u8],
    floats: u32,
    why: &mut Why,
) -> u32
    ensures misuse { is_none «module».old.held ≡ false
        → (result ≡ 100) × («module».new ≡ «module».old) × (why.new ≡ why.old) }
    ensures loaded { is_none «module».old.held ≡ true → result ≡ 0
        → IsSomeAnd (loaded «module».new.held) (IsLoadedWith (profile_of floats) bytes.now)
        × (prepared «module».new.held ≡ None) × (why.new ≡ why.old) }
    ensures refused { is_none «module».old.held ≡ true → result ≢ 0 → («module».new.held ≡ None)
        × (((result ≡ why.new.fault) × NotLoadedWith (profile_of floats) bytes.now why.new)
        ⊎ ((result ≡ 40) × (why.new ≡ why.old))) }
    ensures bytes { result ≡ 0 → bytes_of «module».new.held ≡ bytes.now }
{
    sandbox_host::load_module_with(alloc, module, bytes, floats, why)
}

/// Loads a module and makes all once that its sessions look up.
#[unsafe(no_mangle)]
pub extern "C" fn sandbox_prepare(
    alloc: Global,
    module: &mut Handle,
    bytes: &'static [u8],
    limits: &SessionLimits,
    why: &mut Why,
) -> u32
    ensures misuse { is_none «module».old.held ≡ false
        → (result ≡ 100) × («module».new ≡ «module».old) × (why.new ≡ why.old) }
    ensures loaded { is_none «module».old.held ≡ true → result ≡ 0
        → IsSomeAnd (loaded «module».new.held) (IsLoaded bytes.now) × (why.new ≡ why.old) }
    ensures prepared { is_none «module».old.held ≡ true → result ≡ 0
        → IsSomeAnd (prepared «module».new.held) (λ ready. ready.pages ≡ most_pages limits.now) }
    ensures refused { is_none «module».old.held ≡ true → result ≢ 0 → («module».new.held ≡ None)
        × NotPrepared bytes.now limits.now result why.old why.new }
    ensures bytes { result ≡ 0 → bytes_of «module».new.held ≡ bytes.now }
{
    sandbox_host::prepare(alloc, module, bytes, limits, why)
}

/// The same of a module that may have floats, where that isn't 0.
#[unsafe(no_mangle)]
pub extern "C" fn sandbox_prepare_with(
    alloc: Global,
    module: &mut Handle,
    bytes: &'static [u8],
    limits: &SessionLimits,
    floats: u32,
    why: &mut Why,
) -> u32
    ensures misuse { is_none «module».old.held ≡ false
        → (result ≡ 100) × («module».new ≡ «module».old) × (why.new ≡ why.old) }
    ensures loaded { is_none «module».old.held ≡ true → result ≡ 0
        → IsSomeAnd (loaded «module».new.held) (IsLoadedWith (profile_of floats) bytes.now)
        × (why.new ≡ why.old) }
    ensures prepared { is_none «module».old.held ≡ true → result ≡ 0
        → IsSomeAnd (prepared «module».new.held) (λ ready. ready.pages ≡ most_pages limits.now) }
    ensures refused { is_none «module».old.held ≡ true → result ≢ 0 → («module».new.held ≡ None)
        × NotPreparedWith (profile_of floats) bytes.now limits.now result why.old why.new }
    ensures bytes { result ≡ 0 → bytes_of «module».new.held ≡ bytes.now }
{
    sandbox_host::prepare_with(alloc, module, bytes, limits, floats, why)
}

/// Gives a second handle the same prepared module.
#[unsafe(no_mangle)]
pub extern "C" fn sandbox_module_share(
    alloc: Global,
    other: &mut Handle,
    module: &mut Handle,
) -> u32
    ensures misuse { ((is_none other.old.held ≡ false) ⊎ (has_module «module».old.held ≡ false))
        ⊎ (is_none (prepared «module».old.held) ≡ true) → (result ≡ 100)
        × (other.new.held ≡ other.old.held) }
    ensures shared { is_none other.old.held ≡ true → has_module «module».old.held ≡ true
        → IfSome (prepared «module».old.held)
        (λ ready. result ≡ 0 → (loaded other.new.held ≡ Some ready.valid)
        × (prepared other.new.held ≡ Some ready)) }
    ensures refused { is_none other.old.held ≡ true → has_module «module».old.held ≡ true
        → IfSome (prepared «module».old.held)
        (λ ready. result ≢ 0 → (result ≡ 40) × (other.new.held ≡ None)) }
    ensures bytes { result ≡ 0 → bytes_of other.new.held ≡ bytes_of «module».old.held }
    ensures kept { «module».new.held ≡ «module».old.held }
{
    sandbox_host::share(alloc, other, module)
}

/// Makes a session of a loaded module.
#[unsafe(no_mangle)]
pub extern "C" fn sandbox_open_loaded(
    alloc: Global,
    session: &mut Handle,
    module: &mut Handle,
    supplies: &Supplies<'static>,
    volume: &VolumeSource<'_>,
) -> u32
    ensures misuse { ((is_none session.old.held ≡ false) ⊎ (is_none (origin_of volume.now) ≡ true))
        ⊎ (is_none (loaded «module».old.held) ≡ true) → (result ≡ 100)
        × (session.new.held ≡ session.old.held) × («module».new.held ≡ «module».old.held) }
    ensures opened { is_none session.old.held ≡ true
        → IfSome (origin_of volume.now) (λ origin. IfSome (loaded «module».old.held)
        (λ m. result ≡ 0 → IsSomeAnd (running session.new.held) (Begins m supplies.now origin)
        × («module».new.held ≡ None) × (prepared session.new.held ≡ prepared «module».old.held))) }
    ensures refused { is_none session.old.held ≡ true
        → IfSome (origin_of volume.now) (λ origin. IfSome (loaded «module».old.held)
        (λ m. result ≢ 0 → (session.new.held ≡ session.old.held)
        × («module».new.held ≡ «module».old.held) × NotBegunOf (prepared «module».old.held) m
        supplies.now origin result)) }
    ensures bytes { result ≡ 0 → bytes_of session.new.held ≡ bytes_of «module».old.held }
{
    sandbox_host::open_loaded(alloc, session, module, supplies, volume)
}

/// Lets the guest go on.
#[unsafe(no_mangle)]
pub extern "C" fn sandbox_resume(
    alloc: Global,
    session: &mut Handle,
    units: u64,
    told: &mut Told,
) -> u32
    ensures misuse { is_none (running session.old.held) ≡ true
        → (result ≡ 100) × (session.new.held ≡ session.old.held) × (told.new ≡ told.old) }
    ensures resumed { IfSome (running session.old.held) (λ old. (result ≡ 0)
        × IsSomeAnd (running session.new.held) (λ new. Paused units old new told.new)) }
    ensures prepared { prepared session.new.held ≡ prepared session.old.held }
    ensures bytes { bytes_of session.new.held ≡ bytes_of session.old.held }
{
    sandbox_host::resume(alloc, session, units, told)
}

/// Copies what the guest has written.
#[unsafe(no_mangle)]
pub extern "C" fn sandbox_output(
    alloc: Global,
    session: &mut Handle,
    descriptor: u32,
    from: usize,
    room: &mut [u8],
) -> usize
    ensures length { result ≡ length (output session.old.held descriptor) }
    ensures shown { IsShown (drop from (output session.old.held descriptor)) room.old room.new }
    ensures kept { session.new.held ≡ session.old.held }
{
    sandbox_host::output(alloc, session, descriptor, from, room)
}

/// Whether a write was refused since the guest has written as much as it may.
#[unsafe(no_mangle)]
pub extern "C" fn sandbox_full(alloc: Global, session: &mut Handle, descriptor: u32) -> u32
    ensures told { result ≡ (if was_filled session.old.held descriptor then 1 else 0) }
    ensures filled { result ≡ 1
        → length (output session.old.held descriptor) ≡ most_of session.old.held descriptor }
    ensures kept { session.new.held ≡ session.old.held }
{
    sandbox_host::full(alloc, session, descriptor)
}

/// Tells a function at work.
#[unsafe(no_mangle)]
pub extern "C" fn sandbox_frame_at(
    alloc: Global,
    session: &mut Handle,
    number: usize,
    told: &mut FunctionFrame,
) -> u32
    ensures misuse { is_none (machine_of session.old.held) ≡ true → (result ≡ 100)
        × (told.new ≡ told.old) }
    ensures none { IfSome (machine_of session.old.held) (λ m. slice_get (frames_of m) number ≡ None
        → (result ≡ 101) × (told.new ≡ told.old)) }
    ensures told { IfSome (machine_of session.old.held)
        (λ m. IfSome (slice_get (frames_of m) number)
        (λ frame. (result ≡ 0) × TellsFrame (bytes_of session.old.held) m.valid number frame
        told.new)) }
    ensures kept { session.new.held ≡ session.old.held }
{
    sandbox_host::frame_at(alloc, session, number, told)
}

/// Copies what a function is called.
#[unsafe(no_mangle)]
pub extern "C" fn sandbox_function_name(module: &[u8], function: u32, room: &mut [u8]) -> usize
    ensures length { result ≡ length (name_of «module».now function) }
    ensures shown { IsShown (name_of «module».now function) room.old room.new }
{
    sandbox_host::function_name(module, function, room)
}

/// Commits, and ends the run.
#[unsafe(no_mangle)]
pub extern "C" fn sandbox_finish(alloc: Global, session: &mut Handle) -> u32
    ensures misuse { is_none (running session.old.held) ≡ true
        → (result ≡ 100) × (session.new.held ≡ session.old.held) }
    ensures finished { IfSome (running session.old.held) (λ s.
        IsSomeAnd (finished session.new.held) (λ e. Finishes s e result)) }
    ensures prepared { prepared session.new.held ≡ prepared session.old.held }
    ensures bytes { bytes_of session.new.held ≡ bytes_of session.old.held }
{
    sandbox_host::finish(alloc, session)
}

/// Copies the volume's sectors.
#[unsafe(no_mangle)]
pub extern "C" fn sandbox_volume_out(
    alloc: Global,
    session: &mut Handle,
    room: &mut [Sector],
) -> usize
    ensures length { result ≡ length (sectors session.old.held) }
    ensures shown { IsShown (sectors session.old.held) room.old room.new }
    ensures kept { session.new.held ≡ session.old.held }
{
    sandbox_host::volume_out(alloc, session, room)
}

/// Tells what was done to the volume.
#[unsafe(no_mangle)]
pub extern "C" fn sandbox_operation_at(
    alloc: Global,
    session: &mut Handle,
    number: usize,
    told: &mut VolumeOperation,
) -> u32
    ensures misuse { is_none (recorded session.old.held) ≡ true → (result ≡ 100)
        × (told.new ≡ told.old) }
    ensures lost { IfSome (recorded session.old.held)
        (λ d. d.is_whole ≡ false → (result ≡ 40) × (told.new ≡ told.old)) }
    ensures told { IfSome (recorded session.old.held) (λ d. d.is_whole ≡ true
        → (result ≡ 0) × (told.new ≡ told_operation (operation_of d number) told.old)) }
    ensures kept { session.new.held ≡ session.old.held }
{
    sandbox_host::operation_at(alloc, session, number, told)
}

/// Discards a session.
#[unsafe(no_mangle)]
pub extern "C" fn sandbox_close(alloc: Global, session: &mut Handle) -> u32
    ensures misuse { has_session session.old.held ≡ false
        → (result ≡ 100) × (session.new.held ≡ session.old.held) }
    ensures closed { has_session session.old.held ≡ true → (result ≡ 0)
        × (session.new.held ≡ None) }
{
    sandbox_host::close(alloc, session)
}

/// Discards a finished session, and keeps its module.
#[unsafe(no_mangle)]
pub extern "C" fn sandbox_close_loaded(
    alloc: Global,
    session: &mut Handle,
    module: &mut Handle,
) -> u32
    ensures misuse { (is_none (finished session.old.held) ≡ true)
        ⊎ (is_none «module».old.held ≡ false) → (result ≡ 100)
        × (session.new.held ≡ session.old.held) × («module».new.held ≡ «module».old.held) }
    ensures closed { IfSome (finished session.old.held)
        (λ e. is_none «module».old.held ≡ true → (result ≡ 0) × (session.new.held ≡ None)
        × (loaded «module».new.held ≡ Some (module_of e.loaded))
        × (prepared «module».new.held ≡ prepared session.old.held)) }
    ensures bytes { result ≡ 0 → bytes_of «module».new.held ≡ bytes_of session.old.held }
{
    sandbox_host::close_loaded(alloc, session, module)
}

/// Discards a loaded module.
#[unsafe(no_mangle)]
pub extern "C" fn sandbox_unload(alloc: Global, module: &mut Handle) -> u32
    ensures misuse { has_module «module».old.held ≡ false
        → (result ≡ 100) × («module».new.held ≡ «module».old.held) }
    ensures closed { has_module «module».old.held ≡ true → (result ≡ 0)
        × («module».new.held ≡ None) }
{
    sandbox_host::unload(alloc, module)
}

/// Makes sectors an empty volume.
#[unsafe(no_mangle)]
pub extern "C" fn sandbox_format(alloc: Global, sectors: &mut [Sector], slots: u32) -> u32
    ensures formatted { result ≡ 0 → StandsAs (image_of sectors.new)
        (fresh (length sectors.old) slots) (empty_tree slots) }
    ensures refused { result ≢ 0 → IsUnformatted (fresh (length sectors.old) slots) result
        × (sectors.new ≡ sectors.old) }
    ensures kept { length sectors.new ≡ length sectors.old }
{
    sandbox_host::format(alloc, sectors, slots)
}

/// Makes sectors an empty volume of version 4.
#[unsafe(no_mangle)]
pub extern "C" fn sandbox_format_huge(alloc: Global, sectors: &mut [Sector], slots: u32) -> u32
    ensures formatted { result ≡ 0 → StandsAs (image_of sectors.new)
        (fresh_as Four (length sectors.old) slots) (empty_tree slots) }
    ensures refused { result ≢ 0 → IsUnformatted (fresh_as Four (length sectors.old) slots) result
        × (sectors.new ≡ sectors.old) }
    ensures kept { length sectors.new ≡ length sectors.old }
{
    sandbox_host::format_huge(alloc, sectors, slots)
}

/// Loads a module for instances.
#[unsafe(no_mangle)]
pub extern "C" fn sandbox_plugin_load(
    alloc: Global,
    plugin: &mut Handle,
    bytes: &'static [u8],
    limits: &SessionLimits,
    floats: u32,
    why: &mut Why,
) -> u32
    ensures misuse { is_none plugin.old.held ≡ false
        → (result ≡ 100) × (plugin.new ≡ plugin.old) × (why.new ≡ why.old) }
    ensures loaded { is_none plugin.old.held ≡ true → result ≡ 0
        → IsSomeAnd (plugin_of plugin.new.held)
        (λ p. IsLoadedWith (profile_of floats) bytes.now (ready_at p).valid
        × ((ready_at p).pages ≡ most_pages limits.now) × (goes_on_at p ≡ false))
        × (why.new ≡ why.old) }
    ensures refused { is_none plugin.old.held ≡ true → result ≢ 0 → (plugin.new.held ≡ None)
        × NotPluggedWith false (profile_of floats) bytes.now limits.now result why.old why.new }
    ensures bytes { result ≡ 0 → bytes_of plugin.new.held ≡ bytes.now }
{
    sandbox_host::load_plugin(alloc, plugin, bytes, limits, floats, why)
}

/// Loads a module for instances whose input may go on.
#[unsafe(no_mangle)]
pub extern "C" fn sandbox_plugin_load_fed(
    alloc: Global,
    plugin: &mut Handle,
    bytes: &'static [u8],
    limits: &SessionLimits,
    floats: u32,
    why: &mut Why,
) -> u32
    ensures misuse { is_none plugin.old.held ≡ false
        → (result ≡ 100) × (plugin.new ≡ plugin.old) × (why.new ≡ why.old) }
    ensures loaded { is_none plugin.old.held ≡ true → result ≡ 0
        → IsSomeAnd (plugin_of plugin.new.held)
        (λ p. IsLoadedWith (profile_of floats) bytes.now (ready_at p).valid
        × ((ready_at p).pages ≡ most_pages limits.now) × (goes_on_at p ≡ true))
        × (why.new ≡ why.old) }
    ensures refused { is_none plugin.old.held ≡ true → result ≢ 0 → (plugin.new.held ≡ None)
        × NotPluggedWith true (profile_of floats) bytes.now limits.now result why.old why.new }
    ensures bytes { result ≡ 0 → bytes_of plugin.new.held ≡ bytes.now }
{
    sandbox_host::load_plugin_fed(alloc, plugin, bytes, limits, floats, why)
}

/// Gives a second handle the same module for instances.
#[unsafe(no_mangle)]
pub extern "C" fn sandbox_plugin_share(
    alloc: Global,
    other: &mut Handle,
    plugin: &mut Handle,
) -> u32
    ensures misuse { (is_none other.old.held ≡ false) ⊎ (is_none (plugin_of plugin.old.held) ≡ true)
        → (result ≡ 100) × (other.new.held ≡ other.old.held) }
    ensures shared { is_none other.old.held ≡ true → IfSome (plugin_of plugin.old.held)
        (λ ready. result ≡ 0 → plugin_of other.new.held ≡ Some ready) }
    ensures refused { is_none other.old.held ≡ true
        → IfSome (plugin_of plugin.old.held)
        (λ ready. result ≢ 0 → (result ≡ 40) × (other.new.held ≡ None)) }
    ensures bytes { result ≡ 0 → bytes_of other.new.held ≡ bytes_of plugin.old.held }
    ensures kept { plugin.new.held ≡ plugin.old.held }
{
    sandbox_host::share_plugin(alloc, other, plugin)
}

/// Copies the name of an import or an export.
#[unsafe(no_mangle)]
pub extern "C" fn sandbox_plugin_name(
    alloc: Global,
    plugin: &mut Handle,
    part: u32,
    index: usize,
    room: &mut [u8],
) -> usize
    ensures named { IfSome (plugin_of plugin.old.held)
        (λ p. IsNamed (ready_at p).valid part index room.old room.new result) }
    ensures misuse { is_none (plugin_of plugin.old.held) ≡ true → (result ≡ 2 ^ 64 - 1)
        × (room.new ≡ room.old) }
    ensures kept { plugin.new.held ≡ plugin.old.held }
{
    sandbox_host::plugin_name(alloc, plugin, part, index, room)
}

/// Discards a module for instances.
#[unsafe(no_mangle)]
pub extern "C" fn sandbox_plugin_unload(alloc: Global, plugin: &mut Handle) -> u32
    ensures misuse { has_plugin plugin.old.held ≡ false
        → (result ≡ 100) × (plugin.new.held ≡ plugin.old.held) }
    ensures closed { has_plugin plugin.old.held ≡ true → (result ≡ 0) × (plugin.new.held ≡ None) }
{
    sandbox_host::unload_plugin(alloc, plugin)
}

/// Makes an instance.
#[unsafe(no_mangle)]
pub extern "C" fn sandbox_instance_open(
    alloc: Global,
    instance: &mut Handle,
    plugin: &mut Handle,
    supplies: &Supplies<'static>,
    volume: &VolumeSource<'_>,
) -> u32
    ensures misuse { ((is_none instance.old.held ≡ false) ⊎ (is_none (origin_of volume.now) ≡ true))
        ⊎ (is_none (plugin_of plugin.old.held) ≡ true) → (result ≡ 100)
        × (instance.new.held ≡ instance.old.held) }
    ensures opened { is_none instance.old.held ≡ true → IfSome (origin_of volume.now) (λ origin.
        IfSome (plugin_of plugin.old.held) (λ ready. result ≡ 0
        → IsSomeAnd (living instance.new.held) (BeginsInstance ready supplies.now origin))) }
    ensures refused { is_none instance.old.held ≡ true → IfSome (origin_of volume.now) (λ origin.
        IfSome (plugin_of plugin.old.held) (λ ready. result ≢ 0
        → (instance.new.held ≡ None) × NotBegunInstance ready supplies.now origin result)) }
    ensures bytes { result ≡ 0 → bytes_of instance.new.held ≡ bytes_of plugin.old.held }
    ensures kept { plugin.new.held ≡ plugin.old.held }
{
    sandbox_host::open_instance(alloc, instance, plugin, supplies, volume)
}

/// Is about to enter an exported function.
#[unsafe(no_mangle)]
pub extern "C" fn sandbox_invoke(
    alloc: Global,
    instance: &mut Handle,
    name: &[u8],
    arguments: &[u64],
) -> u32
    ensures misuse { is_none (living instance.old.held) ≡ true
        → (result ≡ 100) × (instance.new.held ≡ instance.old.held) }
    ensures invoked { IfSome (living instance.old.held)
        (λ old. IsSomeAnd (living instance.new.held)
        (λ new. Answered result old new (Invokes old new name.now arguments.now)
        (NoCall old name.now arguments.now))) }
    ensures bytes { bytes_of instance.new.held ≡ bytes_of instance.old.held }
{
    sandbox_host::invoke(alloc, instance, name, arguments)
}

/// Lets the guest of an instance go on.
#[unsafe(no_mangle)]
pub extern "C" fn sandbox_go(
    alloc: Global,
    instance: &mut Handle,
    units: u64,
    told: &mut Told,
) -> u32
    ensures misuse { is_none (living instance.old.held) ≡ true
        → (result ≡ 100) × (instance.new.held ≡ instance.old.held) × (told.new ≡ told.old) }
    ensures went { IfSome (living instance.old.held)
        (λ old. IsSomeAnd (living instance.new.held)
        (λ new. Answered result old new (Went units old new told.new) (NoGoing old)
        × (result ≢ 0 → told.new ≡ told.old))) }
    ensures bytes { bytes_of instance.new.held ≡ bytes_of instance.old.held }
{
    sandbox_host::go(alloc, instance, units, told)
}

/// Copies the arguments of the host's function that is called, or the result.
#[unsafe(no_mangle)]
pub extern "C" fn sandbox_values(alloc: Global, instance: &mut Handle, room: &mut [u64]) -> usize
    ensures shown { IfSome (living instance.old.held)
        (λ s. IsHandedOver s room.old room.new result) }
    ensures none { is_none (living instance.old.held) ≡ true → (result ≡ 0)
        × (room.new ≡ room.old) }
    ensures kept { instance.new.held ≡ instance.old.held }
{
    sandbox_host::values(alloc, instance, room)
}

/// Answers the function of the host that was called.
#[unsafe(no_mangle)]
pub extern "C" fn sandbox_answer(alloc: Global, instance: &mut Handle, results: &[u64]) -> u32
    ensures misuse { is_none (living instance.old.held) ≡ true
        → (result ≡ 100) × (instance.new.held ≡ instance.old.held) }
    ensures answered { IfSome (living instance.old.held)
        (λ old. IsSomeAnd (living instance.new.held)
        (λ new. Answered result old new (Answers old new results.now) (NoAnswer old results.now))) }
    ensures bytes { bytes_of instance.new.held ≡ bytes_of instance.old.held }
{
    sandbox_host::answer(alloc, instance, results)
}

/// Lets what is at work go.
#[unsafe(no_mangle)]
pub extern "C" fn sandbox_abandon(alloc: Global, instance: &mut Handle) -> u32
    ensures misuse { is_none (living instance.old.held) ≡ true
        → (result ≡ 100) × (instance.new.held ≡ instance.old.held) }
    ensures abandoned { IfSome (living instance.old.held)
        (λ old. IsSomeAnd (living instance.new.held)
        (λ new. Answered result old new (Does old acts.abandoned new) (NoLettingGo old))) }
    ensures bytes { bytes_of instance.new.held ≡ bytes_of instance.old.held }
{
    sandbox_host::abandon(alloc, instance)
}

/// How many bytes memory has.
#[unsafe(no_mangle)]
pub extern "C" fn sandbox_memory_size(alloc: Global, instance: &mut Handle) -> usize
    ensures size { result ≡ length (memory instance.old.held) }
    ensures kept { instance.new.held ≡ instance.old.held }
{
    sandbox_host::memory_size(alloc, instance)
}

/// Reads bytes of memory.
#[unsafe(no_mangle)]
pub extern "C" fn sandbox_memory_read(
    alloc: Global,
    instance: &mut Handle,
    address: u32,
    room: &mut [u8],
) -> u32
    ensures misuse { is_none (living instance.old.held) ≡ true → (result ≡ 100)
        × (room.new ≡ room.old) }
    ensures read { IfSome (living instance.old.held)
        (λ s. IsRead (machine_at s).memory address room.old room.new result) }
    ensures kept { instance.new.held ≡ instance.old.held }
{
    sandbox_host::memory_read(alloc, instance, address, room)
}

/// Writes bytes into memory.
#[unsafe(no_mangle)]
pub extern "C" fn sandbox_memory_write(
    alloc: Global,
    instance: &mut Handle,
    address: u32,
    bytes: &[u8],
) -> u32
    ensures misuse { is_none (living instance.old.held) ≡ true
        → (result ≡ 100) × (instance.new.held ≡ instance.old.held) }
    ensures written { IfSome (living instance.old.held)
        (λ old. IsSomeAnd (living instance.new.held)
        (λ new. Answered result old new (Does old
        (acts.wrote (written (machine_at old).memory address bytes.now)) new)
        (NoWrite old address bytes.now))) }
    ensures bytes { bytes_of instance.new.held ≡ bytes_of instance.old.held }
{
    sandbox_host::memory_write(alloc, instance, address, bytes)
}

/// Hands over bytes of an instance's input.
#[unsafe(no_mangle)]
pub extern "C" fn sandbox_feed(alloc: Global, instance: &mut Handle, bytes: &[u8]) -> u32
    ensures misuse { is_none (living instance.old.held) ≡ true
        → (result ≡ 100) × (instance.new.held ≡ instance.old.held) }
    ensures fed { IfSome (living instance.old.held)
        (λ old. IsSomeAnd (living instance.new.held) (λ new. IsFed result old new bytes.now)) }
    ensures bytes { bytes_of instance.new.held ≡ bytes_of instance.old.held }
{
    sandbox_host::feed(alloc, instance, bytes)
}

/// Says that no more bytes of an instance's input come.
#[unsafe(no_mangle)]
pub extern "C" fn sandbox_feed_end(alloc: Global, instance: &mut Handle) -> u32
    ensures misuse { is_none (living instance.old.held) ≡ true
        → (result ≡ 100) × (instance.new.held ≡ instance.old.held) }
    ensures ended { IfSome (living instance.old.held)
        (λ old. (result ≡ 0) × IsSomeAnd (living instance.new.held) (EndsInput old)) }
    ensures bytes { bytes_of instance.new.held ≡ bytes_of instance.old.held }
{
    sandbox_host::feed_end(alloc, instance)
}

/// Commits an instance's calls, and ends it.
#[unsafe(no_mangle)]
pub extern "C" fn sandbox_instance_finish(alloc: Global, instance: &mut Handle) -> u32
    ensures misuse { is_none (living instance.old.held) ≡ true
        → (result ≡ 100) × (instance.new.held ≡ instance.old.held) }
    ensures finished { IfSome (living instance.old.held) (λ s.
        IsSomeAnd (left instance.new.held) (λ e. FinishesInstance s e result)) }
    ensures bytes { bytes_of instance.new.held ≡ bytes_of instance.old.held }
{
    sandbox_host::finish_instance(alloc, instance)
}
