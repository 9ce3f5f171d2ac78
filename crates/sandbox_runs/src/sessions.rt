//! Sessions of a run: how one is made, of a module that is prepared or not, and how it runs.

ghost use Rattle.std.specs.Prelude.{◌≡◌, None, IfSome, Some, length};
ghost use Rattle.sandbox_core.specs.Devices.{devices};
ghost use Rattle.sandbox_core.specs.Session.{given, limited_to, used_by};
ghost use Rattle.wasi_calls.specs.declared.host.wasi_host.HostParts.{HostParts as PartsValue};
ghost use Rattle.wasi_bodies.specs.host.Worlds.{hearing};
ghost use Rattle.sandbox_runs.specs.Flushing.{BothAnswered, RunAnswered};
ghost use Rattle.sandbox_telling.specs.Profiling.{IsThere, IsUseWith, ReportsCharged, TellsUse, no_stacks, slice_of};
ghost use Rattle.sandbox_telling.specs.Reporting.{counting, output_of};
ghost use Rattle.sandbox_runs.specs.Running.{Launches};
ghost use Rattle.sandbox_telling.specs.Supplies.{AreSettings, terminals_of};
ghost use Rattle.sandbox_telling.specs.internal.Supplies.{AreSupplies};
ghost use Rattle.sandbox_runs.specs.internal.Seeds.{prepared_by, with_seed, with_terminals};
ghost use Rattle.sandbox_runs.specs.internal.Sessions.{RunsSession};

use crate::program::{Executed, no_session, reported};
use observed_run::{FuelProfile, ToldRun, run_profiled, run_told};
use sandbox_args::Run;
use sandbox_core::{
    Frame, HostParts, RefusedParts, RefusedSession, Resumable, Session, SharedModule,
    SharedSession, Valid, Volume,
};
use sandbox_report::Counted;
use sandbox_telling::profiling::{FuelUse, slice_of};
use sandbox_telling::stopping::{room_for, stopped_with};
use sandbox_telling::streams::Streams;
use sandbox_telling::supplies::{GuestTexts, settings, terminals_of};
use std::alloc::Global;
use stream_answers::{Inlet, Outlet};
use vol_sector::Device;
use wasm_module::Module;

/// Gives a session the random bytes of a seed, where the words of a run name one.
fn seed<S, D, R, W1, W2>(run: &Run<'_>, session: &mut S)
where
    S: Resumable<D, R, W1, W2>,
    D: Device,
    R: Inlet,
    W1: Outlet,
    W2: Outlet,
    requires { (S.state session.old).host.generator ≡ None }
    ensures { S.state session.new ≡ with_seed run.now.seed (S.state session.old) }
{
    if let Some(seed) = run.seed {
        session.seed(seed);
    }
}

/// Makes a session interactive, where the words of a run say so.
fn interact<S, D, R, W1, W2>(run: &Run<'_>, session: &mut S)
where
    S: Resumable<D, R, W1, W2>,
    D: Device,
    R: Inlet,
    W1: Outlet,
    W2: Outlet,
    requires { (S.state session.old).host.interactive ≡ None }
    ensures { S.state session.new ≡ with_terminals (terminals_of run.now) (S.state session.old) }
{
    if let Some(terminals) = terminals_of(run) {
        session.interact(terminals);
    }
}

/// Runs a session that has used nothing with the fuel of a run, of which these stacks get each unit.
// A function of its own, so that what it needs isn't on the stack of a run without a profile.
#[inline(never)]
fn run_into_stacks<S, D, R, W1, W2>(
    alloc: Global,
    run: &Run<'_>,
    session: S,
    mut stacks: FuelProfile,
    room: &mut [Frame],
) -> (ToldRun<S::Kept, D, R, W1, W2>, FuelProfile)
where
    S: Resumable<D, R, W1, W2>,
    D: Device + Drop,
    R: Inlet + Drop,
    W1: Outlet + Drop,
    W2: Outlet + Drop,
    requires unused { used_by (S.state session) ≡ 0 }
    requires new { stacks ≡ no_stacks }
    ensures kept { S.gives_back (S.state session).machine.valid result.0.kept }
    ensures told { ReportsCharged (devices D.Device R.Read W1.Write W2.Write R.gave R.refused
        W1.took W1.refused W2.took W2.refused) (S.state session) run.now.limits.fuel
        (slice_of run.now) result.0.report result.0.tally room.new result.0.depth (Some result.1) }
{
    let fuel = run.limits.fuel;
    let slice = slice_of(run);
    let told = run_profiled(alloc, session, fuel, slice, &mut stacks, room);
    (told, stacks)
}

/// Runs a session that has used nothing with the fuel of a run. Gives back what is kept of its module, and the innermost functions
/// that were at work when it stopped into the room. Where there are stacks, they get its units.
fn run_charged<S, D, R, W1, W2>(
    alloc: Global,
    run: &Run<'_>,
    session: S,
    stacks: Option<FuelProfile>,
    room: &mut [Frame],
) -> (ToldRun<S::Kept, D, R, W1, W2>, Option<FuelProfile>)
where
    S: Resumable<D, R, W1, W2>,
    D: Device + Drop,
    R: Inlet + Drop,
    W1: Outlet + Drop,
    W2: Outlet + Drop,
    requires unused { used_by (S.state session) ≡ 0 }
    requires new { IfSome stacks (λ s. s ≡ no_stacks) }
    ensures kept { S.gives_back (S.state session).machine.valid result.0.kept }
    ensures told { ReportsCharged (devices D.Device R.Read W1.Write W2.Write R.gave R.refused
        W1.took W1.refused W2.took W2.refused) (S.state session) run.now.limits.fuel
        (slice_of run.now) result.0.report result.0.tally room.new result.0.depth result.1 }
    ensures stacks { IsThere stacks → IsThere result.1 }
{
    match stacks {
        Some(stacks) => {
            let (told, stacks) = run_into_stacks(alloc, run, session, stacks, room);
            (told, Some(stacks))
        }
        None => (run_told(session, run.limits.fuel, room), None),
    }
}

/// Runs a session that has used nothing within the limits of a run, with the random bytes of its seed, interactive where it is to be.
/// Gives back what is kept of its module, and the innermost functions that were at work when it stopped into the room. Where there are
/// stacks, they get its units.
fn run_within<S, D, R, W1, W2>(
    alloc: Global,
    run: &Run<'_>,
    session: S,
    stacks: Option<FuelProfile>,
    room: &mut [Frame],
) -> (ToldRun<S::Kept, D, R, W1, W2>, Option<FuelProfile>)
where
    S: Resumable<D, R, W1, W2>,
    D: Device + Drop,
    R: Inlet + Drop,
    W1: Outlet + Drop,
    W2: Outlet + Drop,
    requires begun { (used_by (S.state session) ≡ 0) × ((S.state session).host.generator ≡ None)
        × ((S.state session).host.interactive ≡ None) }
    requires new { IfSome stacks (λ s. s ≡ no_stacks) }
    ensures kept { S.gives_back (S.state session).machine.valid result.0.kept }
    ensures told { ReportsCharged (devices D.Device R.Read W1.Write W2.Write R.gave R.refused
        W1.took W1.refused W2.took W2.refused)
        (prepared_by run.now (limited_to run.now.limits.values (S.state session)))
        run.now.limits.fuel (slice_of run.now) result.0.report result.0.tally room.new
        result.0.depth result.1 }
    ensures stacks { IsThere stacks → IsThere result.1 }
{
    let mut session = session;
    session.limit_values(run.limits.values as usize);
    seed(run, &mut session);
    interact(run, &mut session);
    run_charged(alloc, run, session, stacks, room)
}

/// How many functions a module imports.
pub(crate) fn imports_of(module: &Module<'_>) -> usize
    ensures { result ≡ length «module».now.imports }
{
    module.imports.as_slice().len()
}

/// Where the fuel of a run went, of a module with so many imported functions.
pub(crate) fn fuel_use_of(stacks: Option<FuelProfile>, imported: usize) -> Option<FuelUse>
    ensures { IsUseWith stacks imported result }
{
    match stacks {
        Some(stacks) => Some(FuelUse { stacks, imported }),
        None => None,
    }
}

/// Runs a session that has used nothing, whose streams are counted, of a module with so many imported functions, and says how the run
/// ended. Gives back what is kept of the module. Where there are stacks, they get the units of the run.
fn run_session<S, D, R, W1, W2>(
    alloc: Global,
    run: &Run<'_>,
    imported: usize,
    session: S,
    stacks: Option<FuelProfile>,
) -> (S::Kept, Executed<D, R, W1, W2>)
where
    S: Resumable<D, Counted<R>, Counted<W1>, Counted<W2>>,
    D: Device + Drop,
    R: Inlet + Drop,
    W1: Outlet + Drop,
    W2: Outlet + Drop,
    requires begun { (used_by (S.state session) ≡ 0) × ((S.state session).host.generator ≡ None)
        × ((S.state session).host.interactive ≡ None) }
    requires new { IfSome stacks (λ s. s ≡ no_stacks) }
    ensures kept { S.gives_back (S.state session).machine.valid result.0 }
    ensures fuel_use { TellsUse stacks result.1.stopped }
    ensures answered { BothAnswered W1.flushed W1.refuses W2.flushed W2.refuses result.1.flushed
        result.1.out result.1.err }
    ensures ran { RunsSession D.honest D.disk D.size D.failures D.goes_on R.remaining W1.contents
        W2.contents (hearing R.gave R.refused W1.took W1.refused W2.took W2.refused) run.now
        imported (S.state session) result.1 }
{
    let mut room = room_for(alloc, run);
    let (told, stacks) = run_within(alloc, run, session, stacks, room.as_mut_slice());
    let fuel_use = fuel_use_of(stacks, imported);
    let stopped = stopped_with(told.depth, room, told.tally.answers, fuel_use);
    (told.kept, reported(run, told.report, told.tally, stopped))
}

/// How many bytes each output of a run takes at most.
fn output_of(run: &Run<'_>) -> u64
    ensures { result ≡ output_of run.now }
{
    run.limits.output.unwrap_or(u64::MAX)
}

/// What the session of a run is made of beside its module. The streams are counted, and the outputs take so many bytes at most as
/// the words say.
pub(crate) fn parts_of<'a, 't, D: Device, R, W1, W2>(
    run: &Run<'t>,
    supplies: &'a GuestTexts<'t>,
    random: &'a [u8],
    volume: Volume<D>,
    streams: Streams<R, W1, W2>,
) -> HostParts<'a, 't, D, Counted<R>, Counted<W1>, Counted<W2>>
    requires { AreSupplies run.now supplies.now }
    ensures settings { AreSettings run.now random.now result.settings }
    ensures parts { result ≡ counting run.now (given result.settings volume streams.input
        streams.out streams.err) }
{
    let most = output_of(run);
    let Streams { input, out, err } = streams;
    HostParts {
        settings: settings(run, supplies, random),
        volume,
        input: Counted::new(input, u64::MAX),
        out: Counted::new(out, most),
        err: Counted::new(err, most),
    }
}

/// Runs a valid module, of which nothing is prepared, with these settings on an open volume, and with streams that are counted from
/// here on. Gives the module and the volume's device back. Where there are stacks, they get the units of the run.
pub fn launch_bare<'a, D: Device + Drop, R: Inlet + Drop, W1: Outlet + Drop, W2: Outlet + Drop>(
    alloc: Global,
    run: &Run<'_>,
    valid: Valid<'a>,
    parts: HostParts<'_, '_, D, Counted<R>, Counted<W1>, Counted<W2>>,
    stacks: Option<FuelProfile>,
) -> (Valid<'a>, Executed<D, R, W1, W2>)
    requires { IfSome stacks (λ s. s ≡ no_stacks) }
    ensures module { result.0 ≡ valid.entry }
    ensures fuel_use { TellsUse stacks result.1.stopped }
    ensures launches { (its : PartsValue D R W1 W2) → parts.entry ≡ counting run.now its
        → Launches D.honest D.disk D.size D.failures D.goes_on R.remaining W1.contents W2.contents
        (hearing R.gave R.refused W1.took W1.refused W2.took W2.refused) valid.entry run.now its
        result.1 }
    ensures answered { RunAnswered W1.flushed W1.refuses W2.flushed W2.refuses result.1 }
{
    let imported = imports_of(valid.module());
    match Session::of_parts(alloc, valid, parts) {
        Ok(session) => run_session(alloc, run, imported, session, stacks),
        Err(
            RefusedSession {
                valid,
                parts,
                fault,
            },
        ) => (valid, no_session(run, parts, fault)),
    }
}

/// Runs a prepared module in the same way. Gives the volume's device back.
pub fn launch_prepared<D: Device + Drop, R: Inlet + Drop, W1: Outlet + Drop, W2: Outlet + Drop>(
    alloc: Global,
    run: &Run<'_>,
    shared: &SharedModule<'_>,
    parts: HostParts<'_, '_, D, Counted<R>, Counted<W1>, Counted<W2>>,
    stacks: Option<FuelProfile>,
) -> Executed<D, R, W1, W2>
    requires pages { parts.settings.pages ≡ shared.now.pages }
    requires new { IfSome stacks (λ s. s ≡ no_stacks) }
    ensures fuel_use { TellsUse stacks result.stopped }
    ensures launches { (its : PartsValue D R W1 W2) → parts.entry ≡ counting run.now its
        → Launches D.honest D.disk D.size D.failures D.goes_on R.remaining W1.contents W2.contents
        (hearing R.gave R.refused W1.took W1.refused W2.took W2.refused) shared.now.valid run.now
        its result }
    ensures answered { RunAnswered W1.flushed W1.refuses W2.flushed W2.refuses result }
{
    let valid = shared.module();
    let imported = imports_of(valid.module());
    match SharedSession::of_parts(alloc, shared, parts) {
        Ok(session) => {
            let ((), left) = run_session(alloc, run, imported, session, stacks);
            left
        }
        Err(RefusedParts { parts, fault }) => no_session(run, parts, fault),
    }
}
