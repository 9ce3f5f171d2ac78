//! The end of a run alone: the program's own lines, its volume handed out, its report, and all that it had given up.

ghost use Rattle.std.specs.Prelude.{◌≡◌, Ok, Some, IfErr, OnOk, false, option_and_then, option_map};
ghost use Rattle.std.specs.Io.KnownBytes.{Appends};
ghost use Rattle.std.specs.IoError.{error_kind};
ghost use Rattle.sandbox_report.specs.declared.end.End.TheVariants.{Ran};
ghost use Rattle.sandbox_telling.specs.declared.streams.Sink.{Sink as SinkValue};
ghost use Rattle.sandbox_report.specs.declared.summary.Summary.{Summary as SummaryValue};
ghost use Rattle.sandbox_args.specs.Request.{Text};
ghost use Rattle.wasm_steps.specs.declared.pause.Outcome.{Outcome};
ghost use Rattle.sandbox_command.specs.Alone.{Gives, Hands, HandsAll, IsHandedOver, IsProfiled, IsTold, PrintsProfile, kept_of, left_of, lost, of_buffer, ungiven, unprofiled};
ghost use Rattle.sandbox_command.specs.Beginning.{unread};
ghost use Rattle.sandbox_places.specs.Places.{IsOfName, Prints};
ghost use Rattle.sandbox_telling.specs.Profiling.{IsProfileOf, TellsUse};
ghost use Rattle.sandbox_telling.specs.Sources.{own_of, sink_contents};
ghost use Rattle.sandbox_runs.specs.Status.{export_status, file_status};
ghost use Rattle.sandbox_telling.specs.Streams.{AppendsSome};

use sandbox_args::Run;
use sandbox_device::{Hindrance, RamDevice};
use sandbox_places::places::Places;
use sandbox_places::possession::is_silent;
use sandbox_refusals::refusals::{tell_of_outcome, tell_of_refusal};
use sandbox_report::{End, Fault, Summary, VolumeEnd};
use sandbox_runs::ending::Failed;
use sandbox_runs::program;
use sandbox_runs::program::Executed;
use sandbox_telling::explaining::{About, tell_of_kind};
use sandbox_telling::output::tell_of_file;
use sandbox_telling::profiling::{FuelUse, StackNames};
use sandbox_telling::reporting::not_run;
use sandbox_telling::stopping::{Stopped, tell_frames};
use sandbox_telling::streams::{InputSource, Sink, SpareStreams, apart};
use sandbox_telling::work::VolumeWork;
use std::alloc::Global;
use std::io;
use std::io::ErrorKind;
use stream_answers::Outlet;
use vol_commands::{ExportFailure, export_from};
use vol_tar::TarReason;

/// The directory of a volume whose tree is given.
const ROOT: &str = "/";

/// All that a run had, when nothing more is done with it.
#[derive(Drop)]
pub(crate) struct RunLeft<D, I, O, R, W1, W2> {
    pub(crate) device: D,
    pub(crate) input: InputSource<I, R>,
    pub(crate) out: Sink<O, W1>,
    /// The file of the guest's errors, where the program's own lines go elsewhere.
    pub(crate) guest: Option<Sink<O, W2>>,
    /// Where the program's own lines go.
    pub(crate) own: Sink<O, W2>,
    pub(crate) spare_input: Option<R>,
    pub(crate) spare_out: Option<W1>,
}

/// How a run ended: its status, and what its report says.
#[derive(Clone, Copy)]
pub(crate) struct Ending {
    pub(crate) status: u8,
    pub(crate) summary: Option<Summary>,
}

/// Prints the lines of how a run of a module ended, and what they mean, if that is said.
fn tell_ending<W: Outlet>(
    alloc: Global,
    err: &mut W,
    run: &Run<'_>,
    module: &[u8],
    summary: &Option<Summary>,
)
    ensures { AppendsSome (W.contents err.old) (W.contents err.new) }
{
    let Some(summary) = summary else {
        return;
    };
    program::tell_end(err, summary);
    match summary.end {
        End::Refused(fault) => tell_of_refusal(alloc, err, run, module, fault),
        End::Ran(outcome) => tell_of_outcome(err, run, outcome),
    }
}

/// Prints the lines of how a run of a module ended, and gives that, where it stopped, and all that the run had.
pub(crate) fn finished<D: Drop, I: Drop, O: Outlet + Drop, R: Drop, W1: Drop, W2: Outlet + Drop>(
    alloc: Global,
    run: &Run<'_>,
    module: &[u8],
    ended: Executed<D, InputSource<I, R>, Sink<O, W1>, Sink<O, W2>>,
    lines: &[u8],
    spare: SpareStreams<R, W1, W2>,
) -> (Ending, Option<Stopped>, RunLeft<D, I, O, R, W1, W2>)
    ensures ending { (result.0.status ≡ ended.status) × (result.0.summary ≡ ended.summary) }
    ensures stopped { result.1 ≡ ended.stopped }
    ensures left { (own : SinkValue O W2) × AppendsSome
        (sink_contents O.contents W2.contents (own_of ended.err spare.err))
        (sink_contents O.contents W2.contents own) × (result.2 ≡ left_of ended spare own) }
{
    let Executed {
        status,
        summary,
        stopped,
        device,
        input,
        out,
        err,
        ..
    } = ended;
    let (mut own, guest) = apart(err, spare.err);
    tell_ending(alloc, &mut own, run, module, &summary);
    tell_frames(&mut own, &stopped, lines);
    let left = RunLeft {
        device,
        input,
        out,
        guest,
        own,
        spare_input: spare.input,
        spare_out: spare.out,
    };
    (Ending { status, summary }, stopped, left)
}

/// Whether a guest ran.
fn has_begun(summary: &Option<Summary>) -> bool
    ensures { result ≡ false → (outcome : Outcome) (s : SummaryValue) → summary.now ≡ Some s
        → s.end ≡ Ran outcome → ⊥ }
{
    match summary {
        Some(summary) => matches!(summary.end, End::Ran(_)),
        None => false,
    }
}

/// Says that a file was written in place, and why, where it was.
fn tell_hindrance<W: Outlet>(err: &mut W, path: &str, hindrance: Option<Hindrance>)
    ensures { AppendsSome (W.contents err.old) (W.contents err.new) }
{
    match hindrance {
        Some(Hindrance::Names) => {
            tell_of_file(err, path, "written in place, since it has several names");
        }
        Some(Hindrance::Folder) => tell_of_file(
            err,
            path,
            "written in place, since no file like it can be made beside it",
        ),
        Some(Hindrance::Name) => {
            tell_of_file(
                err,
                path,
                "written in place, since no other file can take its name",
            );
        }
        None => {}
    }
}

/// What is said of a run whose volume couldn't be handed out.
fn not_kept(summary: Option<Summary>) -> Option<Summary>
    ensures { result ≡ option_map lost summary }
{
    let summary = summary?;
    Some(Summary {
        status: program::FAULT,
        volume: VolumeEnd::Failed,
        ..summary
    })
}

/// Says how a run ended, in the place of this, of which this file couldn't get what it was to get.
fn undelivered<W: Outlet>(err: &mut W, path: &str, kind: ErrorKind, ending: Ending) -> Ending
    ensures status { result.status ≡ 124 }
    ensures summary { result.summary ≡ option_map lost ending.summary }
    ensures lines { AppendsSome (W.contents err.old) (W.contents err.new) }
{
    let status = program::refuse_file(err);
    tell_of_kind(err, path, kind);
    Ending {
        status,
        summary: not_kept(ending.summary),
    }
}

/// Hands out the volume of a run that began, as it has ended, where that is asked for.
pub(crate) fn handed_out<P: Places, W: Outlet>(
    places: &mut P,
    name: Option<&str>,
    device: &RamDevice,
    ending: Ending,
    err: &mut W,
) -> Ending
    ensures hands { Hands P.Places name.entry device.now ending.status ending.summary places.old
        places.new result.status result.summary }
    ensures lines { AppendsSome (W.contents err.old) (W.contents err.new) }
{
    let Some(path) = name else {
        return ending;
    };
    if !has_begun(&ending.summary) {
        return ending;
    }
    match places.hand_out(path, device) {
        Ok(hindrance) => {
            tell_hindrance(err, path, hindrance);
            ending
        }
        Err(error) => undelivered(err, path, error.kind(), ending),
    }
}

/// What refuses the bytes of a buffer is memory.
fn of_buffer(failure: ExportFailure) -> ExportFailure
    ensures { result ≡ of_buffer failure }
{
    match failure {
        ExportFailure::Stopped(TarReason::Stream) => ExportFailure::Stopped(TarReason::Memory),
        failure => failure,
    }
}

/// What became of a tree that couldn't be printed: the guest is to blame for a name that no tar stream can have.
fn kept_of(failure: ExportFailure) -> VolumeEnd
    ensures { result ≡ kept_of failure }
{
    match failure {
        ExportFailure::Stopped(TarReason::Tar(_)) => VolumeEnd::None,
        _ => VolumeEnd::Failed,
    }
}

/// What is said of a run whose tree couldn't be printed, and which ends with this status.
fn not_given(summary: Option<Summary>, failure: ExportFailure, status: u8) -> Option<Summary>
    requires { status ≡ export_status failure }
    ensures { result ≡ option_map (ungiven failure) summary }
{
    let summary = summary?;
    Some(Summary {
        status,
        volume: kept_of(failure),
        ..summary
    })
}

/// Says how a run ended, in the place of this, whose tree couldn't be printed for this file.
fn ungiven<W: Outlet>(err: &mut W, path: &str, failure: ExportFailure, ending: Ending) -> Ending
    ensures status { result.status ≡ export_status failure }
    ensures summary { result.summary ≡ option_map (ungiven failure) ending.summary }
    ensures lines { AppendsSome (W.contents err.old) (W.contents err.new) }
{
    let about = About {
        file: path,
        work: VolumeWork::Export { path: ROOT },
        stream: Some(path),
    };
    let status = failure.say(err, &about);
    Ending {
        status,
        summary: not_given(ending.summary, failure, status),
    }
}

/// Hands over all that an export printed, and gives how the run ended then.
fn given_over<P: Places, W: Outlet>(
    places: &mut P,
    path: &str,
    stream: &[u8],
    ending: Ending,
    err: &mut W,
) -> Ending
    ensures hands { IsHandedOver P.Places path.now stream.now (Ok tt) ending.status ending.summary
        places.old places.new result.status result.summary }
    ensures lines { AppendsSome (W.contents err.old) (W.contents err.new) }
{
    match places.hand_over(path, stream) {
        Ok(hindrance) => {
            tell_hindrance(err, path, hindrance);
            ending
        }
        Err(error) => undelivered(err, path, error.kind(), ending),
    }
}

/// Hands over what an export printed, where it printed all, and gives how the run ended then.
fn handed_over<P: Places, W: Outlet>(
    places: &mut P,
    path: &str,
    stream: &[u8],
    done: Result<(), ExportFailure>,
    ending: Ending,
    err: &mut W,
) -> Ending
    ensures hands { IsHandedOver P.Places path.now stream.now done ending.status ending.summary
        places.old places.new result.status result.summary }
    ensures lines { AppendsSome (W.contents err.old) (W.contents err.new) }
{
    match done {
        Ok(()) => given_over(places, path, stream, ending, err),
        Err(failure) => ungiven(err, path, of_buffer(failure), ending),
    }
}

/// Gives the tree of the volume of a run that began as a tar stream, as it has ended, where that is asked for. Gives the device back.
fn given<P: Places, W: Outlet>(
    alloc: Global,
    places: &mut P,
    name: Option<&str>,
    device: RamDevice,
    ending: Ending,
    err: &mut W,
) -> (Ending, RamDevice)
    ensures gives { Gives P.Places name.entry device ending.status ending.summary places.old
        places.new result.0.status result.0.summary result.1 }
    ensures lines { AppendsSome (W.contents err.old) (W.contents err.new) }
{
    let Some(path) = name else {
        return (ending, device);
    };
    if !has_begun(&ending.summary) {
        return (ending, device);
    }
    let mut stream = Vec::new(alloc);
    let (done, device) = export_from(alloc, device, ROOT, &mut stream);
    let ending = handed_over(places, path, stream.as_slice(), done, ending, err);
    (ending, device)
}

/// Hands out the volume of a run that began, and gives its tree, as it has ended, where that is asked for.
pub(crate) fn delivered<P: Places, R: Drop, W1: Drop, W2: Outlet + Drop>(
    alloc: Global,
    places: &mut P,
    run: &Run<'_>,
    left: RunLeft<RamDevice, P::Input, P::Output, R, W1, W2>,
    ending: Ending,
) -> (Ending, RunLeft<RamDevice, P::Input, P::Output, R, W1, W2>)
    ensures hands { HandsAll P.Places run.now left.device ending.status ending.summary places.old
        places.new result.0.status result.0.summary result.1.device }
    ensures rest { (own : SinkValue P.Output W2)
        × (result.1 ≡ record left { device = result.1.device; own = own })
        × AppendsSome (sink_contents P.Output.contents W2.contents left.own)
        (sink_contents P.Output.contents W2.contents own) }
{
    let RunLeft {
        device,
        input,
        out,
        guest,
        own,
        spare_input,
        spare_out,
    } = left;
    let mut own = own;
    let ending = handed_out(places, run.volume_out, &device, ending, &mut own);
    let (ending, device) = given(alloc, places, run.out_to, device, ending, &mut own);
    let left = RunLeft {
        device,
        input,
        out,
        guest,
        own,
        spare_input,
        spare_out,
    };
    (ending, left)
}

/// What is said of a run whose profile couldn't be printed.
fn unprofiled(summary: Option<Summary>) -> Option<Summary>
    ensures { result ≡ option_map unprofiled summary }
{
    let summary = summary?;
    Some(Summary {
        status: program::FAULT,
        flushed: false,
        ..summary
    })
}

/// Prints where the fuel of a run of a module of these bytes went into its file.
fn print_stacks<P: Places>(
    alloc: Global,
    places: &mut P,
    name: &str,
    module: &[u8],
    fuel_use: &FuelUse,
    file: &mut P::Output,
) -> io::Result<()>
    requires { P.is_output name.now file.old }
    ensures asked { P.asked (Prints name.now) places.old places.new }
    ensures refused { IfErr result (λ error. P.refused (Prints name.now) (error_kind error)
        places.old places.new) }
    ensures printed { OnOk result ((text : Text) × IsProfileOf «module».now fuel_use.now text
        × P.printed name.now text places.old places.new
        × Appends (P.Output.contents file.old) (P.Output.contents file.new) text) }
{
    let names = StackNames::of(alloc, module, fuel_use);
    places.print_profile(alloc, name, file, &fuel_use.stacks, &names)
}

/// Prints where the fuel of a run of a module of these bytes went into its file, and gives how the run ended then.
fn print_use<P: Places, W: Outlet>(
    alloc: Global,
    places: &mut P,
    name: &str,
    module: &[u8],
    fuel_use: &FuelUse,
    file: P::Output,
    ending: Ending,
    err: &mut W,
) -> Ending
    requires { P.is_output name.now file }
    ensures profile { PrintsProfile P.Places P.Output.Write «module».now fuel_use.now name.now file
        ending.status ending.summary places.old places.new result.status result.summary }
    ensures lines { AppendsSome (W.contents err.old) (W.contents err.new) }
{
    let mut file = file;
    let printed = print_stacks(alloc, places, name, module, fuel_use, &mut file);
    places.end(file);
    match printed {
        Ok(()) => ending,
        Err(error) => {
            let status = program::refuse_file(err);
            tell_of_kind(err, name, error.kind());
            Ending {
                status,
                summary: unprofiled(ending.summary),
            }
        }
    }
}

/// Where the fuel of a run went that stopped so, if it began and that is told.
fn fuel_use_in(stopped: Option<Stopped>) -> Option<FuelUse>
    ensures { result ≡ option_and_then (λ s. s.fuel_use) stopped }
{
    stopped?.fuel_use
}

/// Prints the profile of a run of a module of these bytes into its file, where one is named, and gives how the run ended then: with
/// the status 124 where it can't be printed. The file of a run that didn't begin is given up as it is.
pub(crate) fn profiled<P: Places, W: Outlet>(
    alloc: Global,
    places: &mut P,
    run: &Run<'_>,
    module: &[u8],
    stopped: Option<Stopped>,
    file: Option<P::Output>,
    ending: Ending,
    err: &mut W,
) -> Ending
    requires file { IsOfName P.is_output run.now.profile file }
    requires told { TellsUse file stopped }
    ensures profile { IsProfiled P.Places P.Output.Write «module».now stopped run.now.profile file
        ending.status ending.summary places.old places.new result.status result.summary }
    ensures lines { AppendsSome (W.contents err.old) (W.contents err.new) }
{
    let (Some(name), Some(file)) = (run.profile, file) else {
        return ending;
    };
    match fuel_use_in(stopped) {
        Some(fuel_use) => print_use(alloc, places, name, module, &fuel_use, file, ending, err),
        None => {
            places.end(file);
            ending
        }
    }
}

/// Prints the report of a run, with these lines of where it stopped, into its file, and gives the status: that of the run, or 124 where the report can't be printed.
pub(crate) fn told<P: Places, W: Outlet>(
    places: &mut P,
    name: Option<&str>,
    report: Option<P::Output>,
    ending: Ending,
    lines: &[u8],
    err: &mut W,
) -> u8
    requires { IsOfName P.is_output name report }
    ensures tells { IsTold P.Places P.Output.Write name.entry report ending.summary lines.now
        ending.status places.old places.new result }
    ensures lines { AppendsSome (W.contents err.old) (W.contents err.new) }
{
    let (Some(name), Some(mut report), Some(summary)) = (name, report, ending.summary) else {
        return ending.status;
    };
    let printed = places.print(name, &mut report, &summary, lines);
    places.end(report);
    match printed {
        Ok(()) => ending.status,
        Err(error) => {
            let status = program::refuse_file(err);
            tell_of_kind(err, name, error.kind());
            status
        }
    }
}

/// What the report says of a run one of whose files can't be read or made.
pub(crate) fn unread(run: &Run<'_>, error: &io::Error) -> Summary
    ensures { result ≡ unread run.now (error_kind error.now) }
{
    if error.kind() == ErrorKind::OutOfMemory {
        return not_run(run, Fault::Memory, VolumeEnd::None, program::OUT_OF_MEMORY);
    }
    not_run(run, Fault::File, VolumeEnd::None, program::FAULT)
}

/// Prints which file was refused, and why, where its name is known.
fn tell_refused<P: Places, W: Outlet>(places: &P, error: &io::Error, err: &mut W)
    ensures { AppendsSome (W.contents err.old) (W.contents err.new) }
{
    tell_of_kind(
        err,
        places.first_refused().unwrap_or("a file"),
        error.kind(),
    );
}

/// Refuses a file that can't be read or written, by lines that go into none of the command's files.
pub(crate) fn refuse<P: Places, W: Outlet>(places: &P, error: &io::Error, err: &mut W) -> u8
    ensures status { result ≡ file_status (error_kind error.now) }
    ensures line { AppendsSome (W.contents err.old) (W.contents err.new) }
{
    if error.kind() == ErrorKind::OutOfMemory {
        let status = program::out_of_memory(err);
        tell_refused(places, error, err);
        return status;
    }
    if is_silent(error) {
        return program::FAULT;
    }
    let status = program::refuse_file(err);
    tell_refused(places, error, err);
    status
}
