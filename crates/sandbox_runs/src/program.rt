//! What the program does once the command line is read, and with which status it ends.

ghost use Rattle.std.specs.Prelude.{◌≡◌, ◌⊎◌, ◌≤◌, true, Some, None, IfSome};
ghost use Rattle.std.specs.Io.KnownBytes.{Keeps};
ghost use Rattle.std.specs.IoError.{error_kind};
ghost use Rattle.clap.specs.Values.{kind_of};
ghost use Rattle.sandbox_report.specs.declared.fault.Fault.TheVariants as reason;
ghost use Rattle.wasi_bodies.specs.host.Worlds.{hearing};
ghost use Rattle.sandbox_runs.specs.StreamCalling.{calls_of};
ghost use Rattle.sandbox_runs.specs.Flushing.{Answered, BothAnswered, RunAnswered};
ghost use Rattle.sandbox_runs.specs.Status.{status_of, EndsWith, load_status, session_status};
ghost use Rattle.sandbox_runs.specs.Status.{volume_status, words_status, command_line_status};
ghost use Rattle.sandbox_telling.specs.Profiling.{TellsUse, no_stacks};
ghost use Rattle.sandbox_telling.specs.Modules.{profile_for};
ghost use Rattle.sandbox_telling.specs.Stopping.{TellsLines};
ghost use Rattle.sandbox_telling.specs.Streams.{AppendsSome};
ghost use Rattle.sandbox_telling.specs.Reporting.{broken_in, kept_where_not_begun, kept_where_refused, not_run, run_summary, session_reason, volume_of};
ghost use Rattle.sandbox_runs.specs.Running.{returned_device};
ghost use Rattle.sandbox_telling.specs.internal.Runnable.{IsReadyFor, module_in};
ghost use Rattle.sandbox_telling.specs.internal.Supplies.{AreSupplies};
ghost use Rattle.sandbox_runs.specs.Execution.{RunsOn, Runs, Executes, StaysWithin};

use crate::checking::ended_task;
use crate::ending::ended;
use crate::invoking::invoke_valid;
use crate::opening::open_for_run;
use crate::sessions::{launch_bare, launch_prepared, parts_of};
use observed_run::FuelProfile;
use sandbox_args::Run;
use sandbox_core::{HostParts, LoadFault, Outcome, Report, SessionFault, Tally, Volume, load_with};
use sandbox_report::{Counted, CutStreams, End, Fault, Summary, VolumeEnd};
use sandbox_telling::explaining::About;
use sandbox_telling::modules::profile_for;
use sandbox_telling::output::{
    GREATEST, NOT_COMMITTED, tell, tell_after, tell_fault, tell_outcome,
};
use sandbox_telling::reporting::{
    kept_after_run, kept_where_not_begun, kept_where_refused, not_run, receiver_of, session_reason,
};
use sandbox_telling::runnable::Runnable;
use sandbox_telling::stopping::{Stopped, lines_of, no_lines};
use sandbox_telling::streams::Streams;
use sandbox_telling::supplies::{GuestTexts, supplied};
use sandbox_telling::work::VolumeWork;
use std::alloc::Global;
use std::io;
use std::io::Write;
use stream_answers::{Inlet, Outlet};
use vol_commands::{export_from, format_where, import_into, perform};
use vol_sector::{Device, Refused, VolumeFault};

/// The status where a guest's own one is greater than `GREATEST`.
const OTHER_EXIT: u8 = 119;

const TRAPPED: u8 = 120;

const OUT_OF_FUEL: u8 = 121;

/// The status where memory was refused.
pub const OUT_OF_MEMORY: u8 = 122;

/// The status of a refusal that has a fault.
pub const FAULT: u8 = 124;

/// The status where the command line is refused, or help or the version is asked for.
const REFUSED: u8 = 125;

/// What an execution leaves: the exit status, the device of the volume, and the streams.
#[derive(Drop)]
pub struct Executed<D, R, W1, W2> {
    pub status: u8,
    /// What the report of a run says; there is none of a task and of formatting.
    pub summary: Option<Summary>,
    /// Whether no output that was flushed refused it. What isn't flushed refuses nothing.
    pub flushed: bool,
    /// Where a guest that ran stopped.
    pub stopped: Option<Stopped>,
    pub device: D,
    pub input: R,
    pub out: W1,
    pub err: W2,
}

/// The status of a module that is refused.
pub fn load_status(fault: LoadFault) -> u8
    ensures { result ≡ load_status fault }
{
    match fault {
        LoadFault::Memory => OUT_OF_MEMORY,
        _ => FAULT,
    }
}

/// The status of a run that gets no session.
pub fn session_status(fault: SessionFault) -> u8
    ensures { result ≡ session_status fault }
{
    match fault {
        SessionFault::Memory => OUT_OF_MEMORY,
        _ => FAULT,
    }
}

/// The status of a run whose volume is refused.
fn volume_status(fault: VolumeFault) -> u8
    ensures { result ≡ volume_status fault }
{
    match fault {
        VolumeFault::Memory => OUT_OF_MEMORY,
        _ => FAULT,
    }
}

/// Prints the line of words that can't be read, one that isn't UTF-8 among them, and gives the
/// status.
pub fn refuse_words<W: Outlet>(err: &mut W, error: &io::Error) -> u8
    ensures { result ≡ words_status (error_kind error.now) }
{
    if error.kind() == io::ErrorKind::OutOfMemory {
        return out_of_memory(err);
    }
    let _ = writeln!(err, "sandbox: {error}");
    REFUSED
}

/// Prints why a command line is refused, or what it asks for of help, and gives the status.
pub fn refuse_command_line<W: Outlet>(err: &mut W, refused: &clap::Error) -> u8
    ensures { result ≡ command_line_status (kind_of refused.now) }
{
    if refused.kind() == clap::error::ErrorKind::OutOfMemory {
        return out_of_memory(err);
    }
    let _ = write!(err, "{refused}");
    REFUSED
}

/// Prints that it is out of memory, and gives the status of that.
pub fn out_of_memory<W: Outlet>(err: &mut W) -> u8
    ensures status { result ≡ 122 }
    ensures line { AppendsSome (W.contents err.old) (W.contents err.new) }
{
    tell(err, "out of memory");
    OUT_OF_MEMORY
}

/// Prints the line of a file that can't be read, or of a stream that can't be flushed, and gives
/// its status.
pub fn refuse_file<W: Outlet>(err: &mut W) -> u8
    ensures status { result ≡ 124 }
    ensures line { AppendsSome (W.contents err.old) (W.contents err.new) }
{
    tell(err, "fault 41");
    FAULT
}

/// Prints the line of a wrong setting, and gives its status.
pub fn refuse_setting<W: Outlet>(err: &mut W) -> u8
    ensures status { result ≡ 124 }
    ensures line { AppendsSome (W.contents err.old) (W.contents err.new) }
{
    tell(err, "fault 15");
    FAULT
}

/// The status of an outcome.
fn outcome_status(outcome: Outcome) -> u8
    ensures { result ≡ status_of outcome }
{
    match outcome {
        Outcome::Exited(status) if status <= GREATEST => (status & 0xff) as u8,
        Outcome::Exited(_) => OTHER_EXIT,
        Outcome::Trapped(_) => TRAPPED,
        Outcome::OutOfFuel => OUT_OF_FUEL,
        Outcome::OutOfMemory => OUT_OF_MEMORY,
    }
}

/// Prints the line of how a run ended, if it has one: why it could not begin, or its outcome's.
fn tell_reason<W: Outlet>(err: &mut W, end: End)
    ensures { AppendsSome (W.contents err.old) (W.contents err.new) }
{
    match end {
        End::Refused(fault) => tell_fault(err, fault),
        End::Ran(outcome) => tell_outcome(err, outcome),
    }
}

/// Prints the lines of a run that ended so: why it could not begin, or the outcome's line, if it has one; and behind it
/// that its calls couldn't be committed or its output not be flushed.
pub fn tell_end<W: Outlet>(err: &mut W, summary: &Summary)
    ensures { AppendsSome (W.contents err.old) (W.contents err.new) }
{
    tell_reason(err, summary.end);
    tell_after(err, summary.status, summary.flushed);
}

/// Flushes the outputs of a guest, its errors where its output could be: whether both could be.
fn flush_both<W1: Outlet, W2: Outlet>(out: &mut W1, err: &mut W2) -> bool
    ensures out { Keeps (W1.contents out.old) (W1.contents out.new) }
    ensures err { Keeps (W2.contents err.old) (W2.contents err.new) }
    ensures answered { BothAnswered W1.flushed W1.refuses W2.flushed W2.refuses result out.new
        err.new }
{
    if !out.try_flush() {
        return false;
    }
    err.try_flush()
}

/// The status of a run: its outcome's, but where its calls couldn't be committed or the guest's output not be flushed. Gives the
/// device of the volume back.
fn settled<D: Device + Drop>(
    outcome: Outcome,
    volume: Result<Volume<D>, Refused<D>>,
    flushed: bool,
) -> (u8, D)
    ensures ends { EndsWith outcome volume flushed result.0 }
    ensures device { result.1 ≡ returned_device volume }
{
    let status = outcome_status(outcome);
    match volume {
        Ok(volume) if flushed => (status, volume.into_device()),
        Ok(volume) => (FAULT, volume.into_device()),
        Err(Refused { device, .. }) => (NOT_COMMITTED, device),
    }
}

/// Puts together what an execution leaves.
pub fn left_with<D: Drop, R: Drop, W1: Drop, W2: Drop>(
    status: u8,
    summary: Option<Summary>,
    flushed: bool,
    device: D,
    streams: Streams<R, W1, W2>,
) -> Executed<D, R, W1, W2>
    ensures status { result.status ≡ status }
    ensures summary { result.summary ≡ summary }
    ensures flushed { result.flushed ≡ flushed }
    ensures stopped { result.stopped ≡ None }
    ensures device { result.device ≡ device }
    ensures input { result.input ≡ streams.input }
    ensures out { result.out ≡ streams.out }
    ensures err { result.err ≡ streams.err }
{
    let Streams { input, out, err } = streams;
    Executed {
        status,
        summary,
        flushed,
        stopped: None,
        device,
        input,
        out,
        err,
    }
}

/// Which outputs of a run were refused more than they take.
fn cut_of<D: Device, R, W1, W2>(
    report: &Report<D, Counted<R>, Counted<W1>, Counted<W2>>,
) -> CutStreams
    ensures { result ≡ record { output = report.now.out.full; errors = report.now.err.full } }
{
    CutStreams {
        output: report.out.full,
        errors: report.err.full,
    }
}

/// Whether a stream of a run failed, which one that is cut doesn't.
fn is_broken<D: Device, R, W1, W2>(report: &Report<D, Counted<R>, Counted<W1>, Counted<W2>>) -> bool
    ensures { result ≡ broken_in report.now }
{
    if report.out.full || report.err.full {
        return report.input.failed || report.out.failed || report.err.failed;
    }
    report.broken
}

/// Ends a run whose streams were counted, and says what its report is. Gives the device of the volume and the streams back.
pub fn reported<D: Device + Drop, R: Drop, W1: Outlet + Drop, W2: Outlet + Drop>(
    run: &Run<'_>,
    report: Report<D, Counted<R>, Counted<W1>, Counted<W2>>,
    tally: Tally,
    stopped: Stopped,
) -> Executed<D, R, W1, W2>
    ensures stopped { result.stopped ≡ Some stopped }
    ensures ends { EndsWith report.outcome report.volume result.flushed result.status }
    ensures summary { result.summary ≡ Some (run_summary run.now report tally result.status
        result.flushed) }
    ensures device { result.device ≡ returned_device report.volume }
    ensures input { result.input ≡ report.input.stream }
    ensures out { Keeps (W1.contents report.out.stream) (W1.contents result.out) }
    ensures err { Keeps (W2.contents report.err.stream) (W2.contents result.err) }
    ensures answered { BothAnswered W1.flushed W1.refuses W2.flushed W2.refuses result.flushed
        result.out result.err }
{
    let (cut, broken) = (cut_of(&report), is_broken(&report));
    let Report {
        outcome,
        used,
        pages,
        volume,
        input,
        out,
        err,
        ..
    } = report;
    let (read, written, complained) = (input.count, out.count, err.count);
    let mut streams = Streams {
        input: input.stream,
        out: out.stream,
        err: err.stream,
    };
    let kept = kept_after_run(run.volume.or(receiver_of(run)), &volume);
    let flushed = flush_both(&mut streams.out, &mut streams.err);
    let (status, device) = settled(outcome, volume, flushed);
    let summary = Summary {
        end: End::Ran(outcome),
        status,
        units: used,
        fuel: run.limits.fuel,
        pages,
        read,
        written,
        complained,
        calls: tally.calls,
        syncs: tally.syncs,
        volume: kept,
        flushed,
        broken,
        cut,
    };
    let mut left = left_with(status, Some(summary), flushed, device, streams);
    left.stopped = Some(stopped);
    left
}

/// Ends a run that could not begin, and says why. Nothing is flushed. Gives the device of the volume and the streams back.
fn not_begun<D: Drop, R: Drop, W1: Drop, W2: Drop>(
    run: &Run<'_>,
    why: (u8, Fault, VolumeEnd),
    device: D,
    streams: Streams<R, W1, W2>,
) -> Executed<D, R, W1, W2>
    ensures status { result.status ≡ why.0 }
    ensures summary { result.summary ≡ Some (not_run run.now why.1 why.2 why.0) }
    ensures flushed { result.flushed ≡ true }
    ensures stopped { result.stopped ≡ None }
    ensures device { result.device ≡ device }
    ensures input { result.input ≡ streams.input }
    ensures out { result.out ≡ streams.out }
    ensures err { result.err ≡ streams.err }
{
    let (status, fault, kept) = why;
    let summary = not_run(run, fault, kept, status);
    left_with(status, Some(summary), true, device, streams)
}

/// Ends a run that gets no session. Gives the device of the volume and the streams back.
pub fn no_session<D: Device + Drop, R: Drop, W1: Drop, W2: Drop>(
    run: &Run<'_>,
    parts: HostParts<'_, '_, D, Counted<R>, Counted<W1>, Counted<W2>>,
    fault: SessionFault,
) -> Executed<D, R, W1, W2>
    ensures ends { result.status ≡ session_status fault }
    ensures flushed { result.flushed ≡ true }
    ensures stopped { result.stopped ≡ None }
    ensures summary { result.summary ≡ Some (not_run run.now (session_reason fault)
        (kept_where_not_begun run.now.volume fault) result.status) }
    ensures device { result.device ≡ parts.entry.volume.device }
    ensures input { result.input ≡ parts.entry.input.stream }
    ensures out { result.out ≡ parts.entry.out.stream }
    ensures err { result.err ≡ parts.entry.err.stream }
{
    let HostParts {
        volume,
        input,
        out,
        err,
        ..
    } = parts;
    let kept = kept_where_not_begun(run.volume, fault);
    let streams = Streams {
        input: input.stream,
        out: out.stream,
        err: err.stream,
    };
    let why = (session_status(fault), session_reason(fault), kept);
    not_begun(run, why, volume.into_device(), streams)
}

/// The file that a run finds its volume in, its own, an image or a tar stream.
pub(crate) fn volume_of<'a>(run: &Run<'a>) -> Option<&'a str>
    ensures { result ≡ volume_of run.now }
{
    run.volume.or(run.image.or(run.image_from))
}

/// Ends a run whose volume is refused. Gives the device and the streams back.
pub(crate) fn no_volume<D: Drop, R: Drop, W1: Drop, W2: Drop>(
    run: &Run<'_>,
    refused: Refused<D>,
    streams: Streams<R, W1, W2>,
) -> Executed<D, R, W1, W2>
    ensures ends { result.status ≡ volume_status refused.fault }
    ensures flushed { result.flushed ≡ true }
    ensures stopped { result.stopped ≡ None }
    ensures summary { result.summary ≡ Some (not_run run.now (reason.Volume refused.fault)
        (kept_where_refused refused.fault) result.status) }
    ensures device { result.device ≡ refused.device }
    ensures input { result.input ≡ streams.input }
    ensures out { result.out ≡ streams.out }
    ensures err { result.err ≡ streams.err }
{
    let Refused { device, fault } = refused;
    let kept = kept_where_refused(fault);
    let why = (volume_status(fault), Fault::Volume(fault), kept);
    not_begun(run, why, device, streams)
}

/// Runs a valid module on the volume of a device, with random bytes, and gives the module and the device back.
pub fn run_valid<'a, D: Device + Drop, R: Inlet + Drop, W1: Outlet + Drop, W2: Outlet + Drop>(
    alloc: Global,
    run: &Run<'_>,
    runnable: Runnable<'a>,
    supplies: &GuestTexts<'_>,
    random: &[u8],
    device: D,
    streams: Streams<R, W1, W2>,
    stacks: Option<FuelProfile>,
) -> (Runnable<'a>, Executed<D, R, W1, W2>)
    requires supplied { AreSupplies run.now supplies.now }
    requires ready { IsReadyFor run.now.limits.pages runnable }
    requires new { IfSome stacks (λ s. s ≡ no_stacks) }
    ensures module { result.0 ≡ runnable.entry }
    ensures fuel_use { TellsUse stacks result.1.stopped }
    ensures runs { RunsOn D.honest D.disk D.size D.failures D.goes_on R.remaining W1.contents
        W2.contents (hearing R.gave R.refused W1.took W1.refused W2.took W2.refused) run.now
        (module_in runnable.entry) random.now device streams.input streams.out streams.err
        result.1 }
    ensures answered { RunAnswered W1.flushed W1.refuses W2.flushed W2.refuses result.1 }
{
    match open_for_run(alloc, volume_of(run), device) {
        Ok(volume) => {
            let parts = parts_of(run, supplies, random, volume, streams);
            match runnable {
                Runnable::Prepared(shared) => {
                    let left = launch_prepared(alloc, run, &shared, parts, stacks);
                    (Runnable::Prepared(shared), left)
                }
                Runnable::Bare(valid) => {
                    let (valid, left) = launch_bare(alloc, run, valid, parts, stacks);
                    (Runnable::Bare(valid), left)
                }
            }
        }
        Err(refused) => (runnable, no_volume(run, refused, streams)),
    }
}

/// Runs a module on the volume of a device, with random bytes, and gives the device back, and the lines of its report that tell where
/// it stopped. Where there are stacks, they get the units of the run. It prints no line of the program's own: `tell_end` does that,
/// where the caller wants them.
pub fn run<D: Device + Drop, R: Inlet + Drop, W1: Outlet + Drop, W2: Outlet + Drop>(
    alloc: Global,
    run: &Run<'_>,
    module: &[u8],
    random: &[u8],
    device: D,
    streams: Streams<R, W1, W2>,
    stacks: Option<FuelProfile>,
) -> (Executed<D, R, W1, W2>, Vec<u8>)
    requires { IfSome stacks (λ s. s ≡ no_stacks) }
    ensures fuel_use { TellsUse stacks result.0.stopped }
    ensures runs { Runs D.honest D.disk D.size D.failures D.goes_on R.remaining W1.contents
        W2.contents (hearing R.gave R.refused W1.took W1.refused W2.took W2.refused) run.now
        «module».now random.now device streams.input streams.out streams.err result.0 }
    ensures answered { RunAnswered W1.flushed W1.refuses W2.flushed W2.refuses result.0 }
    ensures lines { TellsLines (profile_for run.now.floats) «module».now run.now.frames
        result.0.stopped result.1.items }
{
    let (status, fault) = match supplied(alloc, run) {
        Ok(supplies) => match load_with(alloc, module, profile_for(run.floats)) {
            Ok(valid) => {
                if let Some(name) = run.invoke {
                    return invoke_valid(
                        alloc, run, name, module, valid, &supplies, random, device, streams, stacks,
                    );
                }
                let once = Runnable::Bare(valid);
                let (ran, left) = run_valid(
                    alloc, run, once, &supplies, random, device, streams, stacks,
                );
                let lines = lines_of(alloc, run, module, ran.module(), &left.stopped);
                drop(ran);
                return (left, lines);
            }
            Err(fault) => (load_status(fault), Fault::Module(fault)),
        },
        Err(fault) => (session_status(fault), session_reason(fault)),
    };
    let left = not_begun(run, (status, fault, VolumeEnd::None), device, streams);
    (left, no_lines(alloc, run))
}

/// Does something with the volume on a device, and gives the exit status, the device and the streams. What is put into the
/// volume comes from the input, what is told of it goes to the output, and the program's own lines to the errors, which call the
/// volume by this name of its file.
pub fn execute<D: Device + Drop, R: Inlet + Drop, W1: Outlet + Drop, W2: Outlet + Drop>(
    alloc: Global,
    file: &str,
    work: VolumeWork<'_>,
    device: D,
    given: Streams<R, W1, W2>,
) -> Executed<D, R, W1, W2>
    ensures tells { Executes D.honest D.disk D.size D.failures D.goes_on R.remaining W1.contents
        W2.contents (calls_of R.gave R.refused) (calls_of W1.took W1.refused) work.entry device
        given.input given.out given.err result }
    ensures answered { Answered W1.flushed W1.refuses result.flushed result.out }
    ensures stays_within { StaysWithin D.honest D.disk D.size D.goes_on work.entry device
        result.device }
    ensures within { result.status ≤ 124 }
{
    let mut given = given;
    let about = About::of(file, work);
    match work {
        VolumeWork::Format {
            sectors,
            slots,
            version,
            new,
        } => {
            let (done, device) = format_where(device, version, sectors, slots, new);
            ended(done, device, given, &about)
        }
        VolumeWork::Task(task) => {
            let (done, device) = perform(alloc, device, task, &mut given.input, &mut given.out);
            ended_task(task, done, device, given, &about)
        }
        VolumeWork::Import { path } => {
            let (done, device) = import_into(alloc, device, path, &mut given.input);
            ended(done, device, given, &about)
        }
        VolumeWork::Export { path } => {
            let (done, device) = export_from(alloc, device, path, &mut given.out);
            ended(done, device, given, &about)
        }
    }
}
