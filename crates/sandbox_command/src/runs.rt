//! A run alone on the files that its words name.

ghost use Rattle.std.specs.Prelude.{◌≡◌, ℕ, List, Err, Some};
ghost use Rattle.std.specs.IoError.{error_kind};
ghost use Rattle.sandbox_command.specs.Alone.{IsLedger, IsTold, IsUnfilled, KeepsIt, RunsAlone, RunsFilled, RunsInMemory, RunsOnMedium, RunsWith, file_of, stacks_of};
ghost use Rattle.sandbox_command.specs.Around.{EndsGiven, around, calling, flushing};
ghost use Rattle.sandbox_command.specs.Archive.{Fills};
ghost use Rattle.sandbox_command.specs.Beginning.{unread};
ghost use Rattle.sandbox_places.specs.Places.{IsOfName};
ghost use Rattle.sandbox_runs.specs.Status.{file_status};
ghost use Rattle.sandbox_telling.specs.Stopping.{AreLinesOfNone};
ghost use Rattle.sandbox_args.specs.Request.{Text};

use crate::archive::{filled, refuse_archive, unfilled};
use crate::closing::{Ending, RunLeft, delivered, finished, profiled, refuse, told, unread};
use crate::opening::{Ledger, Medium, RunFiles, made_report, open_all};
use observed_run::FuelProfile;
use sandbox_args::Run;
use sandbox_device::RamDevice;
use sandbox_places::places::Places;
use sandbox_runs::program;
use sandbox_telling::stopping::no_lines;
use sandbox_telling::streams::{
    InputSource, Sink, SpareStreams, Streams, apart, sink_of, source_of,
};
use std::alloc::Global;
use std::io;
use stream_answers::{Inlet, Outlet};
use vol_commands::ImportFailure;

/// What a run is given: the bytes of its files, its streams, and those that are spared.
#[derive(Drop)]
struct Wired<I, O, R, W1, W2> {
    module: Vec<u8>,
    random: Vec<u8>,
    streams: Streams<InputSource<I, R>, Sink<O, W1>, Sink<O, W2>>,
    spare: SpareStreams<R, W1, W2>,
    profile: Option<Ledger<O>>,
}

/// The stacks of a profile, and its file.
fn parted<O: Drop>(ledger: Option<Ledger<O>>) -> (Option<FuelProfile>, Option<O>)
    ensures stacks { result.0 ≡ stacks_of ledger }
    ensures file { result.1 ≡ file_of ledger }
{
    match ledger {
        Some(Ledger { stacks, file }) => (Some(stacks), Some(file)),
        None => (None, None),
    }
}

/// Opens the files of a run, makes its report, and runs it.
pub(crate) fn run_alone<P: Places, R: Inlet + Drop, W1: Outlet + Drop, W2: Outlet + Drop>(
    alloc: Global,
    places: &mut P,
    run: &Run<'_>,
    given: Streams<R, W1, W2>,
) -> u8
    ensures { RunsAlone (around P.Places P.Input.Read P.Output.Write P.Volume.Device R.Read W1.Write
        W2.Write (flushing P.Output.flushed P.Output.refuses W1.flushed W1.refuses W2.flushed
        W2.refuses) (calling P.Input.gave P.Input.refused P.Output.took P.Output.refused R.gave
        R.refused W1.took W1.refused W2.took W2.refused)) run.now given places.old places.new
        result }
{
    match open_all(alloc, places, run) {
        Ok(opened) => match made_report(places, run.report) {
            Ok(report) => run_opened(alloc, places, run, opened, report, given),
            Err(error) => end_refused(places, &error, given),
        },
        Err(error) => match made_report(places, run.report) {
            Ok(report) => end_unread(alloc, places, run, &error, report, given),
            Err(_) => end_refused(places, &error, given),
        },
    }
}

/// Says that a file is refused, and gives up the streams.
pub(crate) fn end_refused<P: Places, R: Inlet + Drop, W1: Outlet + Drop, W2: Outlet + Drop>(
    places: &mut P,
    error: &io::Error,
    given: Streams<R, W1, W2>,
) -> u8
    ensures status { result ≡ file_status (error_kind error.now) }
    ensures ends { EndsGiven (around P.Places P.Input.Read P.Output.Write P.Volume.Device R.Read
        W1.Write W2.Write (flushing P.Output.flushed P.Output.refuses W1.flushed W1.refuses
        W2.flushed W2.refuses) (calling P.Input.gave P.Input.refused P.Output.took P.Output.refused
        R.gave R.refused W1.took W1.refused W2.took W2.refused)) given places.old places.new }
{
    let mut given = given;
    let status = refuse(&*places, error, &mut given.err);
    places.end(given);
    status
}

/// Says that a file of a run is refused, also in its report, and gives up the streams.
fn end_unread<P: Places, R: Inlet + Drop, W1: Outlet + Drop, W2: Outlet + Drop>(
    alloc: Global,
    places: &mut P,
    run: &Run<'_>,
    error: &io::Error,
    report: Option<P::Output>,
    given: Streams<R, W1, W2>,
) -> u8
    requires { IsOfName P.is_output run.now.report report }
    ensures { (told : P) × (lines : Text) × AreLinesOfNone lines
        × IsTold P.Places P.Output.Write run.now.report report
        (Some (unread run.now (error_kind error.now))) lines (file_status (error_kind error.now))
        places.old told result × EndsGiven (around P.Places P.Input.Read P.Output.Write
        P.Volume.Device R.Read W1.Write W2.Write
        (flushing P.Output.flushed P.Output.refuses W1.flushed W1.refuses W2.flushed W2.refuses)
        (calling P.Input.gave P.Input.refused P.Output.took P.Output.refused R.gave R.refused
        W1.took W1.refused W2.took W2.refused)) given told places.new }
{
    let mut given = given;
    let ending = Ending {
        status: refuse(&*places, error, &mut given.err),
        summary: Some(unread(run, error)),
    };
    let lines = no_lines(alloc, run);
    let status = told(
        places,
        run.report,
        report,
        ending,
        lines.as_slice(),
        &mut given.err,
    );
    places.end(given);
    status
}

/// Says that the tar stream of a run's volume is refused, also in its report, and gives up all that was opened.
fn end_unfilled<P: Places, R: Inlet + Drop, W1: Outlet + Drop, W2: Outlet + Drop>(
    alloc: Global,
    places: &mut P,
    run: &Run<'_>,
    failure: ImportFailure,
    wired: Wired<P::Input, P::Output, R, W1, W2>,
    report: Option<P::Output>,
) -> u8
    requires report { IsOfName P.is_output run.now.report report }
    requires profile { IsLedger P.is_output run.now.profile wired.profile }
    ensures { (archive : List ℕ) → Fills archive (Err failure)
        → IsUnfilled (around P.Places P.Input.Read P.Output.Write P.Volume.Device R.Read W1.Write
        W2.Write (flushing P.Output.flushed P.Output.refuses W1.flushed W1.refuses W2.flushed
        W2.refuses) (calling P.Input.gave P.Input.refused P.Output.took P.Output.refused R.gave
        R.refused W1.took W1.refused W2.took W2.refused)) run.now archive wired.«module».items
        wired.streams wired.spare (file_of wired.profile) report places.old places.new result }
{
    let Wired {
        module,
        random,
        streams,
        spare,
        profile,
    } = wired;
    drop(random);
    let (stacks, file) = parted(profile);
    drop(stacks);
    let Streams { input, out, err } = streams;
    let (mut own, guest) = apart(err, spare.err);
    let status = refuse_archive(&mut own, run, &failure);
    let said = unfilled(run, &failure, status);
    let ending = Ending {
        status,
        summary: Some(said),
    };
    let lines = no_lines(alloc, run);
    let (module, lines) = (module.as_slice(), lines.as_slice());
    let ending = profiled(alloc, places, run, module, None, file, ending, &mut own);
    let status = told(places, run.report, report, ending, lines, &mut own);
    places.end(RunLeft {
        device: (),
        input,
        out,
        guest,
        own,
        spare_input: spare.input,
        spare_out: spare.out,
    });
    status
}

/// Runs a module on a volume in memory that is made of a tar stream of these bytes.
#[inline(never)]
fn run_filled<P: Places, R: Inlet + Drop, W1: Outlet + Drop, W2: Outlet + Drop>(
    alloc: Global,
    places: &mut P,
    run: &Run<'_>,
    archive: Vec<u8>,
    wired: Wired<P::Input, P::Output, R, W1, W2>,
    report: Option<P::Output>,
) -> u8
    requires report { IsOfName P.is_output run.now.report report }
    requires profile { IsLedger P.is_output run.now.profile wired.profile }
    ensures { RunsFilled (around P.Places P.Input.Read P.Output.Write P.Volume.Device R.Read
        W1.Write W2.Write (flushing P.Output.flushed P.Output.refuses W1.flushed W1.refuses
        W2.flushed W2.refuses) (calling P.Input.gave P.Input.refused P.Output.took P.Output.refused
        R.gave R.refused W1.took W1.refused W2.took W2.refused)) run.now archive.items
        wired.«module».items wired.random.items wired.streams wired.spare (file_of wired.profile)
        report places.old places.new result }
{
    let bytes = archive.as_slice();
    let made = filled(alloc, bytes);
    drop(archive);
    match made {
        Ok(device) => run_in_memory(alloc, places, run, device, wired, report),
        Err(failure) => end_unfilled(alloc, places, run, failure, wired, report),
    }
}

/// Runs a module on the files that were opened.
fn run_opened<P: Places, R: Inlet + Drop, W1: Outlet + Drop, W2: Outlet + Drop>(
    alloc: Global,
    places: &mut P,
    run: &Run<'_>,
    opened: RunFiles<P::Input, P::Output, P::Volume>,
    report: Option<P::Output>,
    given: Streams<R, W1, W2>,
) -> u8
    requires report { IsOfName P.is_output run.now.report report }
    requires profile { IsLedger P.is_output run.now.profile opened.profile }
    ensures { RunsOnMedium (around P.Places P.Input.Read P.Output.Write P.Volume.Device R.Read
        W1.Write W2.Write (flushing P.Output.flushed P.Output.refuses W1.flushed W1.refuses
        W2.flushed W2.refuses) (calling P.Input.gave P.Input.refused P.Output.took P.Output.refused
        R.gave R.refused W1.took W1.refused W2.took W2.refused)) opened.medium run.now opened given
        report places.old places.new result }
{
    let RunFiles {
        module,
        random,
        medium,
        stdin,
        stdout,
        stderr,
        profile,
    } = opened;
    let Streams { input, out, err } = given;
    let (input, spare_input) = source_of(stdin, input);
    let (out, spare_out) = sink_of(stdout, out);
    let (err, spare_err) = sink_of(stderr, err);
    let wired = Wired {
        module,
        random,
        streams: Streams { input, out, err },
        spare: SpareStreams {
            input: spare_input,
            out: spare_out,
            err: spare_err,
        },
        profile,
    };
    match medium {
        Medium::File(device) => run_in_file(alloc, places, run, device, wired, report),
        Medium::Memory(device) => run_in_memory(alloc, places, run, device, wired, report),
        Medium::Archive(archive) => run_filled(alloc, places, run, archive, wired, report),
    }
}

/// Runs a module on the file of a volume.
// A function of its own, so that what a run needs for the one device isn't on the stack below the other.
#[inline(never)]
fn run_in_file<P: Places, R: Inlet + Drop, W1: Outlet + Drop, W2: Outlet + Drop>(
    alloc: Global,
    places: &mut P,
    run: &Run<'_>,
    device: P::Volume,
    wired: Wired<P::Input, P::Output, R, W1, W2>,
    report: Option<P::Output>,
) -> u8
    requires report { IsOfName P.is_output run.now.report report }
    requires profile { IsLedger P.is_output run.now.profile wired.profile }
    ensures { RunsWith (around P.Places P.Input.Read P.Output.Write P.Volume.Device R.Read W1.Write
        W2.Write (flushing P.Output.flushed P.Output.refuses W1.flushed W1.refuses W2.flushed
        W2.refuses) (calling P.Input.gave P.Input.refused P.Output.took P.Output.refused R.gave
        R.refused W1.took W1.refused W2.took W2.refused)) P.Volume.Device
        (λ left before said p q status summary after. KeepsIt P.Places left before said p q status
        summary after) run.now wired.«module».items wired.random.items device wired.streams
        wired.spare (file_of wired.profile) report places.old places.new result }
{
    let Wired {
        module,
        random,
        streams,
        spare,
        profile,
    } = wired;
    let (module, random) = (module.as_slice(), random.as_slice());
    let (stacks, file) = parted(profile);
    let (ended, lines) = program::run(alloc, run, module, random, device, streams, stacks);
    let lines = lines.as_slice();
    let (ending, stopped, mut left) = finished(alloc, run, module, ended, lines, spare);
    let own = &mut left.own;
    let ending = profiled(alloc, places, run, module, stopped, file, ending, own);
    let status = told(places, run.report, report, ending, lines, &mut left.own);
    places.end(left);
    status
}

/// Runs a module on a volume in memory, and hands it out, or gives its tree, where that is asked for.
#[inline(never)]
fn run_in_memory<P: Places, R: Inlet + Drop, W1: Outlet + Drop, W2: Outlet + Drop>(
    alloc: Global,
    places: &mut P,
    run: &Run<'_>,
    device: RamDevice,
    wired: Wired<P::Input, P::Output, R, W1, W2>,
    report: Option<P::Output>,
) -> u8
    requires report { IsOfName P.is_output run.now.report report }
    requires profile { IsLedger P.is_output run.now.profile wired.profile }
    ensures { RunsInMemory (around P.Places P.Input.Read P.Output.Write P.Volume.Device R.Read
        W1.Write W2.Write (flushing P.Output.flushed P.Output.refuses W1.flushed W1.refuses
        W2.flushed W2.refuses) (calling P.Input.gave P.Input.refused P.Output.took P.Output.refused
        R.gave R.refused W1.took W1.refused W2.took W2.refused)) run.now wired.«module».items
        wired.random.items device wired.streams wired.spare (file_of wired.profile) report
        places.old places.new result }
{
    let Wired {
        module,
        random,
        streams,
        spare,
        profile,
    } = wired;
    let (module, random) = (module.as_slice(), random.as_slice());
    let (stacks, file) = parted(profile);
    let (ended, lines) = program::run(alloc, run, module, random, device, streams, stacks);
    let lines = lines.as_slice();
    let (ending, stopped, left) = finished(alloc, run, module, ended, lines, spare);
    let (ending, mut left) = delivered(alloc, places, run, left, ending);
    let own = &mut left.own;
    let ending = profiled(alloc, places, run, module, stopped, file, ending, own);
    let status = told(places, run.report, report, ending, lines, &mut left.own);
    places.end(left);
    status
}
