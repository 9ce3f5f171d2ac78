//! Commands on the files that they name.

ghost use Rattle.std.specs.Prelude.{◌≡◌, ◌≤◌, MatchResult};
ghost use Rattle.std.specs.IoError.{error_kind};
ghost use Rattle.std.specs.Process.{exit_status};
ghost use Rattle.sandbox_command.specs.Around.{EndsGiven, around, calling, flushing};
ghost use Rattle.sandbox_command.specs.Files.{HasExecuted, IsAnswered, IsPerformed, IsPerformedOnSystem, DoesInspect};
ghost use Rattle.stream_answers.specs.System.{HasRefused, WasGiven};
ghost use Rattle.sandbox_runs.specs.Flushing.{FileFlushed};
ghost use Rattle.sandbox_places.specs.System.{FileRefused, FileTook};
ghost use Rattle.sandbox_runs.specs.Status.{file_status};

use crate::inspecting::inspect;
use crate::list_of_tests::run_list;
use crate::opening::MODULE_READ;
use crate::refused_line::refuse_line;
use crate::runs::{end_refused, run_alone};
use sandbox_args::{GivenTerminals, Invocation, invocation};
use sandbox_places::clashing::clashes;
use sandbox_places::host_places::HostPlaces;
use sandbox_places::places::Places;
use sandbox_refusals::refusals::tell_of_clash;
use sandbox_runs::program;
use sandbox_telling::formatting::{room_for, version_for};
use sandbox_telling::modules::profile_for;
use sandbox_telling::streams::Streams;
use sandbox_telling::work::VolumeWork;
use std::alloc::Global;
use std::io::IsTerminal;
use std::process::ExitCode;
use std::{env, io};
use stream_answers::{Inlet, Outlet};

/// The words that the program was called with. One that isn't UTF-8 is refused.
fn words_given(rt: &HostRuntime) -> io::Result<Vec<String>> {
    Ok(env::args(rt)?.collect(rt.alloc())?)
}

/// Which of the program's streams are terminals.
fn terminals(rt: &HostRuntime) -> GivenTerminals {
    GivenTerminals {
        input: rt.stdin().is_terminal(),
        output: rt.stdout().is_terminal(),
        error: rt.stderr().is_terminal(),
    }
}

/// Does what the words of the command line ask for, with these streams, and gives the exit status.
/// The statuses from 126 on are those of shells and of the script that builds the program, so that
/// none of them comes from here.
pub fn exit_code<R: Inlet + Drop, W1: Outlet + Drop, W2: Outlet + Drop>(
    rt: &HostRuntime,
    input: R,
    out: W1,
    mut err: W2,
) -> ExitCode
    ensures tells { IsAnswered R.Read W1.Write W2.Write
        (flushing FileFlushed FileRefused W1.flushed W1.refuses W2.flushed W2.refuses)
        (calling WasGiven HasRefused FileTook FileRefused R.gave R.refused W1.took W1.refused W2.took
        W2.refused) (record { input = input; out = out; err = err }) (exit_status result) }
    ensures within { exit_status result ≤ 125 }
{
    let words = match words_given(rt) {
        Ok(words) => words,
        Err(error) => return ExitCode::from(program::refuse_words(&mut err, &error)),
    };
    match invocation(rt.alloc(), words.as_slice()) {
        Ok(mut invocation) => {
            invocation.note_terminals(terminals(rt));
            ExitCode::from(perform(rt, &invocation, input, out, err))
        }
        Err(refused) => ExitCode::from(refuse_line(
            rt.alloc(),
            &mut err,
            words.as_slice(),
            &refused,
        )),
    }
}

/// Does what an invocation asks for on the files of the system, with these streams, and gives the exit status.
pub fn perform<R: Inlet + Drop, W1: Outlet + Drop, W2: Outlet + Drop>(
    rt: &HostRuntime,
    invocation: &Invocation<'_>,
    input: R,
    out: W1,
    err: W2,
) -> u8
    ensures tells { IsPerformedOnSystem R.Read W1.Write W2.Write
        (flushing FileFlushed FileRefused W1.flushed W1.refuses W2.flushed W2.refuses)
        (calling WasGiven HasRefused FileTook FileRefused R.gave R.refused W1.took W1.refused W2.took
        W2.refused) invocation.now (record { input = input; out = out; err = err }) result }
    ensures within { result ≤ 124 }
{
    let mut places = HostPlaces::of(rt, invocation);
    perform_in(
        rt.alloc(),
        &mut places,
        invocation,
        Streams { input, out, err },
    )
}

/// Does what an invocation asks for on the files that it names: a run of a module, alone or on a list of tests, on its volume
/// and its streams; what is done with the volume in a file, which is made or lengthened to be formatted; or what a module is.
/// Where a file can't be read or written, the status is 124, or 122 where it is out of memory. Options of a run that don't go
/// together are refused before a file is asked for. All that it was given and all that it opened is given up at the end.
pub fn perform_in<P: Places, R: Inlet + Drop, W1: Outlet + Drop, W2: Outlet + Drop>(
    alloc: Global,
    places: &mut P,
    invocation: &Invocation<'_>,
    given: Streams<R, W1, W2>,
) -> u8
    ensures tells { IsPerformed (around P.Places P.Input.Read P.Output.Write P.Volume.Device R.Read
        W1.Write W2.Write (flushing P.Output.flushed P.Output.refuses W1.flushed W1.refuses
        W2.flushed W2.refuses) (calling P.Input.gave P.Input.refused P.Output.took P.Output.refused
        R.gave R.refused W1.took W1.refused W2.took W2.refused)) invocation.now given places.old
        places.new result }
    ensures within { result ≤ 124 }
{
    if clashes(invocation) {
        return end_clashing(places, invocation, given);
    }
    match invocation {
        Invocation::Run(run) => match run.tests {
            Some(list) => run_list(alloc, places, run, list, given),
            None => run_alone(alloc, places, run, given),
        },
        Invocation::Inspect { module, floats } => {
            inspect_file(alloc, places, module, *floats, given)
        },
        Invocation::Format {
            file,
            sectors,
            slots,
            large,
            huge,
            new,
        } => {
            let version = version_for(*large, *huge);
            let work = VolumeWork::Format {
                sectors: *sectors,
                slots: *slots,
                version,
                new: *new,
            };
            let room = room_for(version, *sectors);
            let device = places.lengthen(file, room, *new);
            execute_on(alloc, places, file, work, device, given)
        }
        Invocation::Volume { file, task } => {
            let device = places.lock(file);
            execute_on(alloc, places, file, VolumeWork::Task(*task), device, given)
        }
        Invocation::Import { file, path } => {
            let device = places.lock(file);
            execute_on(
                alloc,
                places,
                file,
                VolumeWork::Import { path },
                device,
                given,
            )
        }
        Invocation::Export { file, path } => {
            let device = places.lock(file);
            execute_on(
                alloc,
                places,
                file,
                VolumeWork::Export { path },
                device,
                given,
            )
        }
    }
}

/// Says that options don't go together, and gives up the streams.
fn end_clashing<P: Places, R: Inlet + Drop, W1: Outlet + Drop, W2: Outlet + Drop>(
    places: &mut P,
    invocation: &Invocation<'_>,
    given: Streams<R, W1, W2>,
) -> u8
    ensures status { result ≡ 124 }
    ensures ends { EndsGiven (around P.Places P.Input.Read P.Output.Write P.Volume.Device R.Read
        W1.Write W2.Write (flushing P.Output.flushed P.Output.refuses W1.flushed W1.refuses
        W2.flushed W2.refuses) (calling P.Input.gave P.Input.refused P.Output.took P.Output.refused
        R.gave R.refused W1.took W1.refused W2.took W2.refused)) given places.old places.new }
{
    let mut given = given;
    let status = program::refuse_setting(&mut given.err);
    tell_of_clash(&mut given.err, invocation);
    places.end(given);
    status
}

/// Does something with the volume on the device of its file, with the streams that were given.
// A function of its own, since its pieces of files would else be on the stack below a run, too.
#[inline(never)]
fn execute_on<P: Places, R: Inlet + Drop, W1: Outlet + Drop, W2: Outlet + Drop>(
    alloc: Global,
    places: &mut P,
    file: &str,
    work: VolumeWork<'_>,
    device: io::Result<P::Volume>,
    given: Streams<R, W1, W2>,
) -> u8
    ensures tells { MatchResult device (λ device. HasExecuted
        (around P.Places P.Input.Read P.Output.Write P.Volume.Device R.Read W1.Write W2.Write
        (flushing P.Output.flushed P.Output.refuses W1.flushed W1.refuses W2.flushed W2.refuses)
        (calling P.Input.gave P.Input.refused P.Output.took P.Output.refused R.gave R.refused
        W1.took W1.refused W2.took W2.refused)) work.entry device given places.old places.new
        result) (λ error. (result ≡ file_status (error_kind error))
        × EndsGiven (around P.Places P.Input.Read P.Output.Write P.Volume.Device R.Read W1.Write
        W2.Write (flushing P.Output.flushed P.Output.refuses W1.flushed W1.refuses W2.flushed
        W2.refuses) (calling P.Input.gave P.Input.refused P.Output.took P.Output.refused R.gave
        R.refused W1.took W1.refused W2.took W2.refused)) given places.old places.new) }
    ensures within { result ≤ 124 }
{
    match device {
        Ok(device) => {
            let left = program::execute(alloc, file, work, device, given);
            let status = left.status;
            places.end(left);
            status
        }
        Err(error) => end_refused(places, &error, given),
    }
}

/// Tells what the module in a file is.
// Likewise.
#[inline(never)]
fn inspect_file<P: Places, R: Inlet + Drop, W1: Outlet + Drop, W2: Outlet + Drop>(
    alloc: Global,
    places: &mut P,
    path: &str,
    floats: bool,
    given: Streams<R, W1, W2>,
) -> u8
    ensures tells { DoesInspect (around P.Places P.Input.Read P.Output.Write P.Volume.Device R.Read
        W1.Write W2.Write (flushing P.Output.flushed P.Output.refuses W1.flushed W1.refuses
        W2.flushed W2.refuses) (calling P.Input.gave P.Input.refused P.Output.took P.Output.refused
        R.gave R.refused W1.took W1.refused W2.took W2.refused)) floats path.now given places.old
        places.new result }
    ensures within { result ≤ 124 }
{
    match places.bytes(path, MODULE_READ) {
        Ok(module) => {
            let left = inspect(alloc, module.as_slice(), profile_for(floats), given);
            let status = left.status;
            places.end(left);
            status
        }
        Err(error) => end_refused(places, &error, given),
    }
}
