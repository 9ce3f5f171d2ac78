//! Instances that begin, and their ends.

ghost use Rattle.std.specs.Prelude.{◌≡◌, ◌≢◌, ◌⊎◌, None, Some, IfOk, IfErr, IfSome, IsSomeAnd, is_none, true, false};
ghost use Rattle.sandbox_host.specs.Sessions.{bytes_in, bytes_of};
ghost use Rattle.sandbox_host.specs.Instances.{BeginsFed, BeginsInstance, BeginsPlain, FinishesInstance, NotBegunFed, NotBegunInstance, NotBegunPlain, first_input, left, left_in, living, living_in, plugin_of};
ghost use Rattle.sandbox_host.specs.Volumes.{origin_of};

use crate::handle::Handle;
use crate::held::HandleContent;
use crate::host_plugin::HostPlugin;
use crate::instance::{FeedableInstance, HostInstance, Living, PlainInstance, SessionLeft};
use crate::kept::KeptOutput;
use crate::numbers::{MISUSE, OK, OUT_OF_MEMORY, SETTING, session_number, volume_number};
use crate::opening::keep;
use crate::running::handed_back;
use crate::supplies::Supplies;
use crate::volumes::{Origin, VolumeSource, open_volume};
use fed_session::{FedInput, FedInstance, FedPlugin, NotFed};
use plugin_session::{Instance, Plugin};
use sandbox_core::RefusedParts;
use sandbox_inspect::ModuleBytes;
use std::alloc::Global;

/// Makes an instance whose input is there, over the volume that is named: its limits have the pages that the module was made ready for.
fn begin_plain<'a>(
    alloc: Global,
    plugin: &Plugin<'a>,
    supplies: &Supplies<'a>,
    origin: Origin<'_>,
) -> Result<PlainInstance<'a>, u32>
    ensures begins { IfOk result (BeginsPlain plugin.now.valid supplies.now origin.entry) }
    ensures refused { IfErr result (NotBegunPlain plugin.now supplies.now origin.entry) }
    ensures some { IfErr result (λ number. number ≢ 0) }
{
    if !supplies.limits.is_known() {
        return Err(SETTING);
    }
    if plugin.pages() != supplies.limits.most_pages() {
        return Err(SETTING);
    }
    let volume = match open_volume(alloc, origin) {
        Ok(volume) => volume,
        Err(fault) => return Err(volume_number(fault)),
    };
    let settings = supplies.settings();
    let most = supplies.limits.most_output();
    let out = KeptOutput::new(alloc, most);
    let err = KeptOutput::new(alloc, most);
    match Instance::new(alloc, plugin, settings, volume, supplies.input, out, err) {
        Ok(mut instance) => {
            instance.limit_values(supplies.limits.most_values() as usize);
            Ok(instance)
        }
        Err(RefusedParts { parts, fault }) => {
            drop(parts);
            Err(session_number(fault))
        }
    }
}

/// The bytes that are there at the opening of an instance whose input goes on.
fn first_input(alloc: Global, supplies: &Supplies<'_>) -> Result<FedInput, NotFed>
    ensures first { IfOk result (λ f. f ≡ first_input supplies.now) }
{
    let mut input = FedInput::new(alloc);
    input.feed(supplies.input)?;
    Ok(input)
}

/// The same of one whose input may go on.
fn begin_fed<'a>(
    alloc: Global,
    plugin: &FedPlugin<'a>,
    supplies: &Supplies<'a>,
    origin: Origin<'_>,
) -> Result<FeedableInstance<'a>, u32>
    ensures begins { IfOk result (BeginsFed plugin.now.goes_on plugin.now.ready.valid supplies.now
        origin.entry) }
    ensures refused { IfErr result (NotBegunFed plugin.now supplies.now origin.entry) }
    ensures some { IfErr result (λ number. number ≢ 0) }
{
    if !supplies.limits.is_known() {
        return Err(SETTING);
    }
    if plugin.pages() != supplies.limits.most_pages() {
        return Err(SETTING);
    }
    let volume = match open_volume(alloc, origin) {
        Ok(volume) => volume,
        Err(fault) => return Err(volume_number(fault)),
    };
    let Ok(input) = first_input(alloc, supplies) else {
        drop(volume);
        return Err(OUT_OF_MEMORY);
    };
    let settings = supplies.settings();
    let most = supplies.limits.most_output();
    let out = KeptOutput::new(alloc, most);
    let err = KeptOutput::new(alloc, most);
    match FedInstance::new(alloc, plugin, settings, volume, input, out, err) {
        Ok(mut instance) => {
            instance.limit_values(supplies.limits.most_values() as usize);
            Ok(instance)
        }
        Err(RefusedParts { parts, fault }) => {
            drop(parts);
            Err(session_number(fault))
        }
    }
}

/// Makes an instance, as its module was made ready for.
fn begin_instance(
    alloc: Global,
    plugin: &HostPlugin,
    supplies: &Supplies<'static>,
    origin: Origin<'_>,
) -> Result<HostInstance, u32>
    ensures begins { IfOk result (BeginsInstance plugin.now supplies.now origin.entry) }
    ensures refused { IfErr result (NotBegunInstance plugin.now supplies.now origin.entry) }
    ensures some { IfErr result (λ number. number ≢ 0) }
{
    match plugin {
        HostPlugin::Plain(ready) => match begin_plain(alloc, ready, supplies, origin) {
            Ok(instance) => Ok(HostInstance::Plain(instance)),
            Err(number) => Err(number),
        },
        HostPlugin::Fed(ready) => match begin_fed(alloc, ready, supplies, origin) {
            Ok(instance) => Ok(HostInstance::Fed(instance)),
            Err(number) => Err(number),
        },
    }
}

/// Makes an instance behind a closed handle.
fn open_into(
    alloc: Global,
    handle: &mut Handle,
    plugin: &HostPlugin,
    bytes: &'static [u8],
    supplies: &Supplies<'static>,
    origin: Origin<'_>,
) -> u32
    requires { is_none handle.old.held ≡ true }
    ensures opened { result ≡ 0 → IsSomeAnd (living handle.new.held)
        (BeginsInstance plugin.now supplies.now origin.entry)
        × (bytes_of handle.new.held ≡ bytes.now) }
    ensures refused { result ≢ 0 → (handle.new.held ≡ None)
        × NotBegunInstance plugin.now supplies.now origin.entry result }
{
    match begin_instance(alloc, plugin, supplies, origin) {
        Ok(instance) => {
            let bytes = ModuleBytes::new(alloc, bytes);
            keep(
                alloc,
                handle,
                HandleContent::Instance(Living { instance, bytes }),
            )
        }
        Err(number) => number,
    }
}

/// Makes an instance, which has used nothing: opens the volume, and the guest's directories. Its start function and its
/// `_initialize` are about to run. All that the supplies lead to, and the module's bytes, are kept until it is closed.
pub fn open_instance(
    alloc: Global,
    instance: &mut Handle,
    plugin: &mut Handle,
    supplies: &Supplies<'static>,
    volume: &VolumeSource<'_>,
) -> u32
    ensures misuse { ((is_none instance.old.held ≡ false) ⊎ (is_none (origin_of volume.now) ≡ true))
        ⊎ (is_none (plugin_of plugin.old.held) ≡ true) → (result ≡ MISUSE)
        × (instance.new.held ≡ instance.old.held) }
    ensures opened { is_none instance.old.held ≡ true → IfSome (origin_of volume.now) (λ origin.
        IfSome (plugin_of plugin.old.held) (λ ready. result ≡ 0
        → IsSomeAnd (living instance.new.held) (BeginsInstance ready supplies.now origin))) }
    ensures refused { is_none instance.old.held ≡ true → IfSome (origin_of volume.now) (λ origin.
        IfSome (plugin_of plugin.old.held) (λ ready. result ≢ 0
        → (instance.new.held ≡ None) × NotBegunInstance ready supplies.now origin result)) }
    ensures bytes { result ≡ 0 → bytes_of instance.new.held ≡ bytes_of plugin.old.held }
    ensures kept { plugin.new.held ≡ plugin.old.held }
{
    let Some(origin) = volume.origin() else {
        return MISUSE;
    };
    if !instance.is_closed() {
        return MISUSE;
    }
    let Some(held) = plugin.take(alloc) else {
        return MISUSE;
    };
    let answer = match &*held {
        HandleContent::Plugin(ready, bytes) => {
            open_into(alloc, instance, ready, bytes.as_slice(), supplies, origin)
        }
        _ => MISUSE,
    };
    plugin.put(held);
    answer
}

/// Commits an instance's calls of WASI. What is left of it, and whether its device failed.
fn end_instance(living: Living) -> (SessionLeft, u32)
    ensures finishes { FinishesInstance living.instance result.0 result.1 }
    ensures bytes { result.0.bytes ≡ living.bytes }
{
    let Living { instance, bytes } = living;
    let (volume, out, err) = instance.finish();
    let (device, number) = handed_back(volume);
    (
        SessionLeft {
            bytes,
            device,
            out,
            err,
        },
        number,
    )
}

/// What an instance becomes where it is finished.
fn ended_instance(held: HandleContent) -> (HandleContent, u32)
    ensures finished { IfSome (living_in held)
        (λ s. IsSomeAnd (left_in result.0) (λ e. FinishesInstance s e result.1)) }
    ensures other { is_none (living_in held) ≡ true → (result.1 ≡ 100) × (result.0 ≡ held) }
    ensures bytes { bytes_in result.0 ≡ bytes_in held }
{
    match held {
        HandleContent::Instance(living) => {
            let (left, number) = end_instance(living);
            (HandleContent::SessionLeft(left), number)
        }
        other => (other, MISUSE),
    }
}

/// Commits the guest's calls of WASI to its volume, and ends the instance: what is at work is let go. Its output and its volume can
/// be read until it is closed. Where the device fails, what was synced before is on it.
pub fn finish_instance(alloc: Global, instance: &mut Handle) -> u32
    ensures misuse { is_none (living instance.old.held) ≡ true
        → (result ≡ MISUSE) × (instance.new.held ≡ instance.old.held) }
    ensures finished { IfSome (living instance.old.held) (λ s.
        IsSomeAnd (left instance.new.held) (λ e. FinishesInstance s e result)) }
    ensures bytes { bytes_of instance.new.held ≡ bytes_of instance.old.held }
{
    let Some(mut held) = instance.take(alloc) else {
        return MISUSE;
    };
    let (after, answer) = ended_instance(Box::replace(&mut held, HandleContent::Nothing));
    drop(Box::replace(&mut held, after));
    instance.put(held);
    answer
}
