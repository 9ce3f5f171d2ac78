//! Modules for instances whose exported functions are called.

ghost use Rattle.std.specs.Prelude.{◌≡◌, ◌≢◌, ◌⊎◌, ◌-◌, ◌^◌, None, Some, IfOk, IfErr, IfSome, IsSomeAnd, is_none, option_map, false, true};
ghost use Rattle.sandbox_host.specs.Sessions.{bytes_of, has_plugin, IsLoadedWith};
ghost use Rattle.sandbox_host.specs.Kinds.{goes_on_at, ready_at};
ghost use Rattle.sandbox_host.specs.Instances.{HasNone, IsNamed, NotPlugged, NotPluggedWith, name_in, plugin_of};
ghost use Rattle.sandbox_host.specs.Supplies.{most_pages, profile_of};

use crate::handle::Handle;
use crate::held::HandleContent;
use crate::host_plugin::HostPlugin;
use crate::numbers::{MISUSE, OK, OUT_OF_MEMORY, SETTING, Why, session_number};
use crate::opening::{keep, load_with};
use crate::preparing::MOST_PAGES;
use crate::showing::show;
use crate::supplies::SessionLimits;
use fed_session::FedPlugin;
use plugin_session::Plugin;
use sandbox_core::{SessionFault, Valid};
use sandbox_inspect::ModuleBytes;
use std::alloc::Global;
use wasm_module::Module;
use wasm_store::InstanceFault;

/// Makes all once that the instances of a module look up, whose input is there.
fn make_plain(alloc: Global, valid: Valid<'static>, pages: u32) -> Result<HostPlugin, InstanceFault>
    ensures ready { IfOk result (λ p. ((ready_at p).valid ≡ valid.entry)
        × ((ready_at p).pages ≡ pages) × (goes_on_at p ≡ false)) }
    ensures refused { IfErr result (HasNone false pages valid.entry) }
{
    match Plugin::new(alloc, valid, pages) {
        Ok(plugin) => Ok(HostPlugin::Plain(plugin)),
        Err(refused) => {
            let fault = refused.fault;
            drop(refused);
            Err(fault)
        }
    }
}

/// The same where their input may go on.
fn make_fed(alloc: Global, valid: Valid<'static>, pages: u32) -> Result<HostPlugin, InstanceFault>
    ensures ready { IfOk result (λ p. ((ready_at p).valid ≡ valid.entry)
        × ((ready_at p).pages ≡ pages) × (goes_on_at p ≡ true)) }
    ensures refused { IfErr result (HasNone true pages valid.entry) }
{
    match FedPlugin::new(alloc, valid, pages, true) {
        Ok(plugin) => Ok(HostPlugin::Fed(plugin)),
        Err(refused) => {
            let fault = refused.fault;
            drop(refused);
            Err(fault)
        }
    }
}

/// Either.
fn make_for(
    alloc: Global,
    valid: Valid<'static>,
    pages: u32,
    goes_on: bool,
) -> Result<HostPlugin, InstanceFault>
    ensures ready { IfOk result (λ p. ((ready_at p).valid ≡ valid.entry)
        × ((ready_at p).pages ≡ pages) × (goes_on_at p ≡ goes_on)) }
    ensures refused { IfErr result (HasNone goes_on pages valid.entry) }
{
    if goes_on {
        make_fed(alloc, valid, pages)
    } else {
        make_plain(alloc, valid, pages)
    }
}

/// Makes all once that the instances of a module with these limits look up.
fn make_plugin(
    alloc: Global,
    valid: Valid<'static>,
    limits: &SessionLimits,
    goes_on: bool,
) -> Result<HostPlugin, u32>
    ensures ready { IfOk result (λ p. ((ready_at p).valid ≡ valid.entry)
        × ((ready_at p).pages ≡ most_pages limits.now) × (goes_on_at p ≡ goes_on)) }
    ensures refused { IfErr result (NotPlugged goes_on valid.entry limits.now) }
    ensures some { IfErr result (λ number. number ≢ 0) }
{
    let pages = limits.most_pages();
    if !limits.is_known() || pages > MOST_PAGES {
        drop(valid);
        return Err(SETTING);
    }
    match make_for(alloc, valid, pages, goes_on) {
        Ok(plugin) => Ok(plugin),
        Err(fault) => Err(session_number(SessionFault::Instance(fault))),
    }
}

/// Loads a module for instances whose input is there, or may go on.
fn load_for(
    alloc: Global,
    plugin: &mut Handle,
    bytes: &'static [u8],
    limits: &SessionLimits,
    floats: u32,
    goes_on: bool,
    why: &mut Why,
) -> u32
    ensures misuse { is_none plugin.old.held ≡ false
        → (result ≡ MISUSE) × (plugin.new ≡ plugin.old) × (why.new ≡ why.old) }
    ensures loaded { is_none plugin.old.held ≡ true → result ≡ 0
        → IsSomeAnd (plugin_of plugin.new.held)
        (λ p. IsLoadedWith (profile_of floats) bytes.now (ready_at p).valid
        × ((ready_at p).pages ≡ most_pages limits.now) × (goes_on_at p ≡ goes_on))
        × (why.new ≡ why.old) }
    ensures refused { is_none plugin.old.held ≡ true → result ≢ 0 → (plugin.new.held ≡ None)
        × NotPluggedWith goes_on (profile_of floats) bytes.now limits.now result why.old why.new }
    ensures bytes { result ≡ 0 → bytes_of plugin.new.held ≡ bytes.now }
{
    if !plugin.is_closed() {
        return MISUSE;
    }
    let valid = match load_with(alloc, bytes, floats) {
        Ok(valid) => valid,
        Err(told) => {
            *why = told;
            return told.fault;
        }
    };
    match make_plugin(alloc, valid, limits, goes_on) {
        Ok(ready) => keep(
            alloc,
            plugin,
            HandleContent::Plugin(ready, ModuleBytes::new(alloc, bytes)),
        ),
        Err(number) => number,
    }
}

/// Loads a module, which may have floats where that isn't 0, and makes all once that its instances look up, for such with the pages
/// of these limits. An import that isn't WASI's is a function of the host, and a module without `_start` is taken. The bytes are
/// kept until it and each that shares it are unloaded, and their instances closed.
pub fn load_plugin(
    alloc: Global,
    plugin: &mut Handle,
    bytes: &'static [u8],
    limits: &SessionLimits,
    floats: u32,
    why: &mut Why,
) -> u32
    ensures misuse { is_none plugin.old.held ≡ false
        → (result ≡ MISUSE) × (plugin.new ≡ plugin.old) × (why.new ≡ why.old) }
    ensures loaded { is_none plugin.old.held ≡ true → result ≡ 0
        → IsSomeAnd (plugin_of plugin.new.held)
        (λ p. IsLoadedWith (profile_of floats) bytes.now (ready_at p).valid
        × ((ready_at p).pages ≡ most_pages limits.now) × (goes_on_at p ≡ false))
        × (why.new ≡ why.old) }
    ensures refused { is_none plugin.old.held ≡ true → result ≢ 0 → (plugin.new.held ≡ None)
        × NotPluggedWith false (profile_of floats) bytes.now limits.now result why.old why.new }
    ensures bytes { result ≡ 0 → bytes_of plugin.new.held ≡ bytes.now }
{
    load_for(alloc, plugin, bytes, limits, floats, false, why)
}

/// The same, for instances whose input may go on: a guest that reads more of it than is there waits until the host has handed more
/// over, or has said that no more come.
pub fn load_plugin_fed(
    alloc: Global,
    plugin: &mut Handle,
    bytes: &'static [u8],
    limits: &SessionLimits,
    floats: u32,
    why: &mut Why,
) -> u32
    ensures misuse { is_none plugin.old.held ≡ false
        → (result ≡ MISUSE) × (plugin.new ≡ plugin.old) × (why.new ≡ why.old) }
    ensures loaded { is_none plugin.old.held ≡ true → result ≡ 0
        → IsSomeAnd (plugin_of plugin.new.held)
        (λ p. IsLoadedWith (profile_of floats) bytes.now (ready_at p).valid
        × ((ready_at p).pages ≡ most_pages limits.now) × (goes_on_at p ≡ true))
        × (why.new ≡ why.old) }
    ensures refused { is_none plugin.old.held ≡ true → result ≢ 0 → (plugin.new.held ≡ None)
        × NotPluggedWith true (profile_of floats) bytes.now limits.now result why.old why.new }
    ensures bytes { result ≡ 0 → bytes_of plugin.new.held ≡ bytes.now }
{
    load_for(alloc, plugin, bytes, limits, floats, true, why)
}

/// The same module behind another handle, which is closed until then.
fn share_into(alloc: Global, other: &mut Handle, ready: &HostPlugin, bytes: &'static [u8]) -> u32
    requires { is_none other.old.held ≡ true }
    ensures shared { result ≡ 0 → (plugin_of other.new.held ≡ Some ready.now)
        × (bytes_of other.new.held ≡ bytes.now) }
    ensures refused { result ≢ 0 → (result ≡ 40) × (other.new.held ≡ None) }
{
    match ready.share() {
        Ok(shared) => keep(
            alloc,
            other,
            HandleContent::Plugin(shared, ModuleBytes::new(alloc, bytes)),
        ),
        Err(_) => OUT_OF_MEMORY,
    }
}

/// Gives a closed handle the same module for instances. The other may go to another thread.
pub fn share_plugin(alloc: Global, other: &mut Handle, plugin: &mut Handle) -> u32
    ensures misuse { (is_none other.old.held ≡ false) ⊎ (is_none (plugin_of plugin.old.held) ≡ true)
        → (result ≡ MISUSE) × (other.new.held ≡ other.old.held) }
    ensures shared { is_none other.old.held ≡ true → IfSome (plugin_of plugin.old.held)
        (λ ready. result ≡ 0 → plugin_of other.new.held ≡ Some ready) }
    ensures refused { is_none other.old.held ≡ true
        → IfSome (plugin_of plugin.old.held)
        (λ ready. result ≢ 0 → (result ≡ OUT_OF_MEMORY) × (other.new.held ≡ None)) }
    ensures bytes { result ≡ 0 → bytes_of other.new.held ≡ bytes_of plugin.old.held }
    ensures kept { plugin.new.held ≡ plugin.old.held }
{
    if !other.is_closed() {
        return MISUSE;
    }
    let Some(held) = plugin.take(alloc) else {
        return MISUSE;
    };
    let answer = match &*held {
        HandleContent::Plugin(ready, bytes) => share_into(alloc, other, ready, bytes.as_slice()),
        _ => MISUSE,
    };
    plugin.put(held);
    answer
}

/// A name of a module: of an import that of its module (0) and its own (1), of an export its own (2).
fn name_in<'m>(module: &'m Module, part: u32, index: usize) -> Option<&'m str>
    ensures { option_map (λ name. name.now) result ≡ name_in «module».now part index }
{
    match part {
        0 => {
            let import = module.imports.as_slice().get(index)?;
            Some(import.module_name.as_str())
        }
        1 => {
            let import = module.imports.as_slice().get(index)?;
            Some(import.name.as_str())
        }
        2 => {
            let export = module.exports.as_slice().get(index)?;
            Some(export.name.as_str())
        }
        _ => None,
    }
}

/// Copies a name of a module, as far as there is room, and says how long it is.
fn show_name(module: &Module, part: u32, index: usize, room: &mut [u8]) -> usize
    ensures { IsNamed «module».now part index room.old room.new result }
{
    match name_in(module, part, index) {
        Some(name) => {
            let bytes = name.as_bytes();
            show(bytes, room);
            bytes.len()
        }
        None => usize::MAX,
    }
}

/// Copies a name of a module for instances, as far as there is room, and says how long it is: 0 the module name of an import, 1 the
/// name of an import, 2 that of an export, by its index among them; `usize::MAX` past the last.
pub fn plugin_name(
    alloc: Global,
    plugin: &mut Handle,
    part: u32,
    index: usize,
    room: &mut [u8],
) -> usize
    ensures named { IfSome (plugin_of plugin.old.held)
        (λ p. IsNamed (ready_at p).valid part index room.old room.new result) }
    ensures misuse { is_none (plugin_of plugin.old.held) ≡ true → (result ≡ 2 ^ 64 - 1)
        × (room.new ≡ room.old) }
    ensures kept { plugin.new.held ≡ plugin.old.held }
{
    let Some(held) = plugin.take(alloc) else {
        return usize::MAX;
    };
    let length = match &*held {
        HandleContent::Plugin(ready, _) => show_name(ready.module().module(), part, index, room),
        _ => usize::MAX,
    };
    plugin.put(held);
    length
}

/// Discards a module for instances.
pub fn unload_plugin(alloc: Global, plugin: &mut Handle) -> u32
    ensures misuse { has_plugin plugin.old.held ≡ false
        → (result ≡ MISUSE) × (plugin.new.held ≡ plugin.old.held) }
    ensures closed { has_plugin plugin.old.held ≡ true → (result ≡ OK) × (plugin.new.held ≡ None) }
{
    let Some(held) = plugin.take(alloc) else {
        return MISUSE;
    };
    if !held.is_plugin() {
        plugin.put(held);
        return MISUSE;
    }
    drop(held);
    OK
}
