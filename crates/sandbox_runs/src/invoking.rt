//! `run --invoke`: an exported function that is called once, in the place of `_start`.

ghost use Rattle.std.specs.Prelude.{◌≡◌, MatchResult, None, Some, slice_get};
ghost use Rattle.sandbox_args.specs.Request.{texts};
ghost use Rattle.wasi_calls.specs.declared.host.wasi_host.HostParts.{HostParts as PartsValue};
ghost use Rattle.wasi_bodies.specs.host.Worlds.{hearing};
ghost use Rattle.sandbox_telling.specs.declared.stopping.Stopped.{Stopped};
ghost use Rattle.sandbox_runs.specs.Execution.{InvokesOn};
ghost use Rattle.sandbox_runs.specs.Flushing.{BothAnswered, RunAnswered};
ghost use Rattle.sandbox_runs.specs.Invoking.{AreArguments, BlamesCall, HasNoArguments, IsToldOfCall, LaunchesCall, PrintsLine, PrintsResult, PrintsValue, TellsCall, fault_of};
ghost use Rattle.sandbox_telling.specs.Profiling.{TellsUse};
ghost use Rattle.sandbox_telling.specs.Reporting.{counting};
ghost use Rattle.sandbox_telling.specs.Stopping.{AreLinesBy};
ghost use Rattle.sandbox_telling.specs.Supplies.{terminals_of};
ghost use Rattle.sandbox_runs.specs.internal.Invoking.{CallsInstance, with_seed, with_terminals};
ghost use Rattle.sandbox_telling.specs.internal.Supplies.{AreSupplies};
ghost use Rattle.plugin_core.specs.declared.stage.Stage.TheVariants as stages;
ghost use Rattle.plugin_session.specs.Instance.{used_by};

use crate::opening::open_for_run;
use crate::program::{Executed, FAULT, no_session, no_volume, reported, volume_of};
use crate::sessions::{fuel_use_of, imports_of, parts_of};
use invoked_run::{CallEnd, CalledOnce, call_once, exported_type};
use observed_run::FuelProfile;
use plugin_session::{Instance, Plugin, instance_headline};
use sandbox_args::Run;
use sandbox_core::laws::turns_are_safe;
use sandbox_core::{
    Frame, HostParts, Outcome, RefusedParts, Report, SessionFault, Tally, Valid, of_instance,
};
use sandbox_report::{Counted, End, Fault, Summary};
use sandbox_telling::output::NOT_COMMITTED;
use sandbox_telling::profiling::FuelUse;
use sandbox_telling::stopping::{lines_of, no_lines, room_for, stopped_with};
use sandbox_telling::streams::Streams;
use sandbox_telling::supplies::{GuestTexts, terminals_of};
use std::alloc::Global;
use stream_answers::{Inlet, Outlet, print_all};
use value_words::{NoNumbers, line_of, numbers_of};
use vol_sector::Device;
use wasm_interp::{OwnMeaning, own_meaning_tells_stores};
use wasm_module::{FuncType, Module, ValueType};
use wasm_store::InstanceFault;

/// What a function is called with, and the type of its result, if it has one.
#[derive(Drop)]
struct CallArguments {
    numbers: Vec<u64>,
    value_type: Option<ValueType>,
}

/// The type of a function's result, if it has one.
fn value_type_of(func_type: &FuncType) -> Option<ValueType>
    ensures { result ≡ slice_get func_type.now.results 0 }
{
    func_type.results.as_slice().first().copied()
}

/// The fault of words that write no numbers.
fn fault_of(why: NoNumbers) -> SessionFault
    ensures { result ≡ fault_of why }
{
    match why {
        NoNumbers::Memory => SessionFault::Memory,
        NoNumbers::Count | NoNumbers::Word(_) => SessionFault::Setting,
    }
}

/// The numbers that the words of a run write for the exported function of this name.
fn arguments_of(
    alloc: Global,
    run: &Run<'_>,
    name: &str,
    guest: &Module<'_>,
) -> Result<CallArguments, SessionFault>
    ensures { MatchResult result (λ a. AreArguments guest.now name.now (texts run.now.words.items)
        a.numbers.items a.value_type) (HasNoArguments guest.now name.now
        (texts run.now.words.items)) }
{
    let Some(func_type) = exported_type(guest, name) else {
        return Err(SessionFault::Setting);
    };
    let (types, words) = (func_type.params.as_slice(), run.words.as_slice());
    match numbers_of(alloc, types, words) {
        Ok(numbers) => Ok(CallArguments {
            numbers,
            value_type: value_type_of(func_type),
        }),
        Err(why) => Err(fault_of(why)),
    }
}

/// Prints a line. Tells the fault of an output that doesn't take it.
fn print_line<W: Outlet>(out: &mut W, line: &[u8]) -> Option<Fault>
    ensures { PrintsLine line.now (W.contents out.old) (W.contents out.new) result }
{
    match print_all(out, line) {
        Ok(()) => None,
        Err(_) => Some(Fault::File),
    }
}

/// Prints the line of a value. Tells the fault of an output that doesn't take it.
#[tactic(auto, using(crate::proofs::Results::nothing_printed))]
fn print_value<W: Outlet>(out: &mut W, value_type: ValueType, value: u64) -> Option<Fault>
    ensures { PrintsValue value_type value (W.contents out.old) (W.contents out.new) result }
{
    match line_of(value_type, value) {
        Ok(line) => print_line(out, line.as_slice()),
        Err(_) => Some(Fault::File),
    }
}

/// Prints the line of a result, where there is one. Tells the fault of an output that doesn't take it.
#[tactic(auto, using(crate::proofs::Results::keeps))]
fn print_result<W: Outlet>(
    out: &mut W,
    value: Option<u64>,
    value_type: Option<ValueType>,
) -> Option<Fault>
    ensures { PrintsResult value value_type (W.contents out.old) (W.contents out.new) result }
{
    let Some(value) = value else {
        return None;
    };
    match value_type {
        Some(value_type) => print_value(out, value_type, value),
        None => None,
    }
}

/// Prints what a call has given, and tells how a run ended so: by which outcome, and by which fault where none tells of it.
#[tactic(auto, using(crate::proofs::Results::keeps))]
fn tell_call<W: Outlet>(
    out: &mut W,
    end: CallEnd,
    value_type: Option<ValueType>,
) -> (Outcome, Option<Fault>)
    ensures { TellsCall end value_type (W.contents out.old) (W.contents out.new) result.0 result.1 }
{
    let done = Outcome::Exited(0);
    match end {
        CallEnd::Returned(value) => (done, print_result(out, value, value_type)),
        CallEnd::Ended(outcome) => (outcome, None),
        CallEnd::Unanswered => (done, Some(Fault::Instance(InstanceFault::Import))),
        CallEnd::Refused(_) => (done, Some(Fault::Setting)),
    }
}

/// What is said of a run that ended by a fault.
fn blamed(summary: Option<Summary>, fault: Fault, status: u8) -> Option<Summary> {
    let summary = summary?;
    Some(Summary {
        end: End::Refused(fault),
        status,
        ..summary
    })
}

/// What a run has left that ended by this fault, if there is one, and whose calls couldn't be committed, or could.
fn with_fault<D: Drop, R: Drop, W1: Drop, W2: Drop>(
    left: Executed<D, R, W1, W2>,
    fault: Option<Fault>,
    failed: bool,
) -> Executed<D, R, W1, W2>
    ensures { BlamesCall fault failed left result }
{
    let Some(fault) = fault else {
        return left;
    };
    let mut left = left;
    let status = if failed { NOT_COMMITTED } else { FAULT };
    left.summary = blamed(left.summary, fault, status);
    left.status = status;
    left
}

/// Ends a run whose function was called: prints what it has given, and says how the run ended.
fn ended_call<D: Device + Drop, R: Inlet + Drop, W1: Outlet + Drop, W2: Outlet + Drop>(
    run: &Run<'_>,
    called: CalledOnce<D, Counted<R>, Counted<W1>, Counted<W2>>,
    value_type: Option<ValueType>,
    room: Vec<Frame>,
    fuel_use: Option<FuelUse>,
) -> Executed<D, R, W1, W2>
    ensures told { IsToldOfCall D.honest D.disk D.size D.failures D.goes_on R.remaining W1.contents
        W2.contents (hearing R.gave R.refused W1.took W1.refused W2.took W2.refused) value_type
        called room.items result }
    ensures fuel_use { (s : Stopped) × (result.stopped ≡ Some s) × (s.fuel_use ≡ fuel_use) }
    ensures answered { BothAnswered W1.flushed W1.refuses W2.flushed W2.refuses result.flushed
        result.out result.err }
{
    let CalledOnce {
        end,
        used,
        pages,
        broken,
        depth,
        volume,
        input,
        out,
        err,
    } = called;
    let mut out = out;
    let (outcome, fault) = tell_call(&mut out.stream, end, value_type);
    let failed = volume.is_err();
    let stopped = stopped_with(depth, room, Tally::none().answers, fuel_use);
    let report = Report {
        outcome,
        used,
        pages,
        broken,
        volume,
        input,
        out,
        err,
    };
    with_fault(reported(run, report, Tally::none(), stopped), fault, failed)
}

/// Gives an instance the random bytes of a seed, where the words of a run name one.
fn seed<D, R, W1, W2>(run: &Run<'_>, instance: &mut Instance<'_, '_, '_, D, R, W1, W2>)
where
    D: Device + Drop,
    R: Inlet + Drop,
    W1: Outlet + Drop,
    W2: Outlet + Drop,
    requires { instance.old.host.generator ≡ None }
    ensures { instance.new ≡ with_seed run.now.seed instance.old }
{
    if let Some(seed) = run.seed {
        instance.seed(seed);
    }
}

/// Makes an instance interactive, where the words of a run say so.
fn interact<D, R, W1, W2>(run: &Run<'_>, instance: &mut Instance<'_, '_, '_, D, R, W1, W2>)
where
    D: Device + Drop,
    R: Inlet + Drop,
    W1: Outlet + Drop,
    W2: Outlet + Drop,
    requires { instance.old.host.interactive ≡ None }
    ensures { instance.new ≡ with_terminals (terminals_of run.now) instance.old }
{
    if let Some(terminals) = terminals_of(run) {
        instance.interact(terminals);
    }
}

/// Calls the function of an instance that has used nothing, within the limits of a run.
fn call_within<D: Device + Drop, R: Inlet + Drop, W1: Outlet + Drop, W2: Outlet + Drop>(
    alloc: Global,
    run: &Run<'_>,
    name: &str,
    instance: Instance<'_, '_, '_, D, Counted<R>, Counted<W1>, Counted<W2>>,
    arguments: &CallArguments,
    fuel_use: Option<FuelUse>,
) -> Executed<D, R, W1, W2>
    requires begun { (used_by instance ≡ 0) × (instance.stage ≡ stages.Opening)
        × (instance.host.generator ≡ None) × (instance.host.interactive ≡ None) }
    ensures called { CallsInstance D.honest D.disk D.size D.failures D.goes_on R.remaining
        W1.contents W2.contents (hearing R.gave R.refused W1.took W1.refused W2.took W2.refused)
        run.now name.now arguments.now.numbers.items arguments.now.value_type instance.entry
        result }
    ensures fuel_use { (s : Stopped) × (result.stopped ≡ Some s) × (s.fuel_use ≡ fuel_use) }
    ensures answered { BothAnswered W1.flushed W1.refuses W2.flushed W2.refuses result.flushed
        result.out result.err }
{
    let mut instance = instance;
    instance.limit_values(run.limits.values as usize);
    seed(run, &mut instance);
    interact(run, &mut instance);
    let mut room = room_for(alloc, run);
    let numbers = arguments.numbers.as_slice();
    let fuel = run.limits.fuel;
    let called = call_once(instance, name, numbers, fuel, room.as_mut_slice());
    ended_call(run, called, arguments.value_type, room, fuel_use)
}

/// Opens an instance of a module with these settings on an open volume, and calls its function. Gives the volume's device back.
fn launch_instance<D: Device + Drop, R: Inlet + Drop, W1: Outlet + Drop, W2: Outlet + Drop>(
    alloc: Global,
    run: &Run<'_>,
    name: &str,
    plugin: &Plugin<'_>,
    arguments: &CallArguments,
    parts: HostParts<'_, '_, D, Counted<R>, Counted<W1>, Counted<W2>>,
    stacks: Option<FuelProfile>,
) -> Executed<D, R, W1, W2>
    requires pages { parts.settings.pages ≡ plugin.now.pages }
    requires arguments { AreArguments plugin.now.valid name.now (texts run.now.words.items)
        arguments.now.numbers.items arguments.now.value_type }
    ensures fuel_use { TellsUse stacks result.stopped }
    ensures launches { (its : PartsValue D R W1 W2) → parts.entry ≡ counting run.now its
        → LaunchesCall D.honest D.disk D.size D.failures D.goes_on R.remaining W1.contents
        W2.contents (hearing R.gave R.refused W1.took W1.refused W2.took W2.refused) name.now
        plugin.now.valid run.now its result }
    ensures answered { RunAnswered W1.flushed W1.refuses W2.flushed W2.refuses result }
{
    // laws for the contract
    instance_headline::<OwnMeaning, D, Counted<R>, Counted<W1>, Counted<W2>>();
    turns_are_safe::<D, Counted<R>, Counted<W1>, Counted<W2>>();
    own_meaning_tells_stores();
    let imported = imports_of(plugin.module().module());
    match Instance::of_parts(alloc, plugin, parts) {
        Ok(instance) => {
            let fuel_use = fuel_use_of(stacks, imported);
            call_within(alloc, run, name, instance, arguments, fuel_use)
        }
        Err(RefusedParts { parts, fault }) => no_session(run, parts, fault),
    }
}

/// Makes a valid module ready for an instance, and calls its function on an open volume. Gives the volume's device back, and the
/// lines that tell where it stopped.
fn launch_call<D: Device + Drop, R: Inlet + Drop, W1: Outlet + Drop, W2: Outlet + Drop>(
    alloc: Global,
    run: &Run<'_>,
    name: &str,
    bytes: &[u8],
    valid: Valid<'_>,
    parts: HostParts<'_, '_, D, Counted<R>, Counted<W1>, Counted<W2>>,
    stacks: Option<FuelProfile>,
) -> (Executed<D, R, W1, W2>, Vec<u8>)
    requires pages { parts.settings.pages ≡ run.now.limits.pages }
    ensures fuel_use { TellsUse stacks result.0.stopped }
    ensures launches { (its : PartsValue D R W1 W2) → parts.entry ≡ counting run.now its
        → LaunchesCall D.honest D.disk D.size D.failures D.goes_on R.remaining W1.contents
        W2.contents (hearing R.gave R.refused W1.took W1.refused W2.took W2.refused) name.now
        valid.entry run.now its result.0 }
    ensures answered { RunAnswered W1.flushed W1.refuses W2.flushed W2.refuses result.0 }
    ensures lines { AreLinesBy bytes.now valid.entry run.now.frames result.0.stopped
        result.1.items }
{
    let arguments = match arguments_of(alloc, run, name, valid.module()) {
        Ok(arguments) => arguments,
        Err(fault) => return (no_session(run, parts, fault), no_lines(alloc, run)),
    };
    match Plugin::new(alloc, valid, run.limits.pages) {
        Ok(plugin) => {
            let left = launch_instance(alloc, run, name, &plugin, &arguments, parts, stacks);
            let guest = plugin.module();
            let lines = lines_of(alloc, run, bytes, guest.module(), &left.stopped);
            (left, lines)
        }
        Err(refused) => {
            let fault = of_instance(refused.fault);
            (no_session(run, parts, fault), no_lines(alloc, run))
        }
    }
}

/// Calls an exported function of a valid module on the volume of a device, with random bytes. Gives the device back, and the lines
/// that tell where it stopped. Where there are stacks, they stay empty: a call has no profile.
pub(crate) fn invoke_valid<D: Device + Drop, R: Inlet + Drop, W1: Outlet + Drop, W2: Outlet + Drop>(
    alloc: Global,
    run: &Run<'_>,
    name: &str,
    bytes: &[u8],
    valid: Valid<'_>,
    supplies: &GuestTexts<'_>,
    random: &[u8],
    device: D,
    streams: Streams<R, W1, W2>,
    stacks: Option<FuelProfile>,
) -> (Executed<D, R, W1, W2>, Vec<u8>)
    requires supplied { AreSupplies run.now supplies.now }
    ensures fuel_use { TellsUse stacks result.0.stopped }
    ensures invokes { InvokesOn D.honest D.disk D.size D.failures D.goes_on R.remaining W1.contents
        W2.contents (hearing R.gave R.refused W1.took W1.refused W2.took W2.refused) name.now
        run.now valid.entry random.now device streams.input streams.out streams.err result.0 }
    ensures answered { RunAnswered W1.flushed W1.refuses W2.flushed W2.refuses result.0 }
    ensures lines { AreLinesBy bytes.now valid.entry run.now.frames result.0.stopped
        result.1.items }
{
    match open_for_run(alloc, volume_of(run), device) {
        Ok(volume) => {
            let parts = parts_of(run, supplies, random, volume, streams);
            launch_call(alloc, run, name, bytes, valid, parts, stacks)
        }
        Err(refused) => (no_volume(run, refused, streams), no_lines(alloc, run)),
    }
}
