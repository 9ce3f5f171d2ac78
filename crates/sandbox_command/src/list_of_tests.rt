//! A module that is run on a list of tests.

ghost use Rattle.std.specs.Prelude.{◌≡◌, ◌⊎◌, ◌↔◌, ◌++◌, ◌∷◌, IfErr, IfOk, IsTrue, MatchOption, MatchResult, string_bytes};
ghost use Rattle.std.specs.IoError.{error_kind};
ghost use Rattle.sandbox_core.specs.declared.fault.SessionFault.TheVariants as opening;
ghost use Rattle.sandbox_runs.specs.StreamCalling.{calls_of};
ghost use Rattle.sandbox_command.specs.Around.{around, calling, flushing};
ghost use Rattle.sandbox_places.specs.Places.{IsRefusedAmong};
ghost use Rattle.sandbox_runs.specs.Status.{session_status};
ghost use Rattle.sandbox_command.specs.ListOfTests.{AreRead, HasFailed, HasNoTest, HasRun, IsNoTest, IsTest, IsTestedOrUnread, IsWord, LacksFiles, Lists, RunsLines, RunsList, RunsTests, line_of, list_accesses};
ghost use Rattle.sandbox_telling.specs.internal.Runnable.{IsReadyFor, module_in};
ghost use Rattle.sandbox_telling.specs.internal.Supplies.{AreSupplies};
ghost use Rattle.sandbox_command.specs.internal.Tests.{AllEndAs, BeginsWithNoWord, IsPrepared, IsTold, OneEndsAs};
ghost use Rattle.sandbox_telling.specs.Streams.{AppendsSome};

use crate::closing::{refuse, unread};
use crate::opening::{memory_of, read_files};
use sandbox_args::Run;
use sandbox_core::{SessionFault, load_with};
use sandbox_device::RamDevice;
use sandbox_places::places::Places;
use sandbox_refusals::refusals::{tell_of_line, tell_of_refusal};
use sandbox_report::{End, Fault, Summary};
use sandbox_runs::program::{load_status, refuse_file, run_valid, session_status};
use sandbox_telling::explaining::{tell_of_fault, tell_words};
use sandbox_telling::modules::profile_for;
use sandbox_telling::output::tell_fault;
use sandbox_telling::reporting::session_reason;
use sandbox_telling::runnable::Runnable;
use sandbox_telling::stopping::{lines_of, no_lines};
use sandbox_telling::streams::Streams;
use sandbox_telling::supplies::{GuestTexts, supplied};
use std::alloc::Global;
use std::io;
use stream_answers::{Inlet, Outlet};

/// The names of a test's files.
#[derive(Clone, Copy)]
struct TestFiles<'a> {
    input: &'a str,
    output: &'a str,
    errors: &'a str,
    report: &'a str,
}

/// The bytes that all tests share.
#[derive(Clone, Copy)]
struct Files<'a> {
    module: &'a [u8],
    random: &'a [u8],
}

/// What a test begins with: its sectors, and the files of its streams.
#[derive(Drop)]
struct PreparedTest<R, W> {
    device: RamDevice,
    streams: Streams<R, W, W>,
}

/// Whether a word is one.
fn is_word(word: &str) -> bool
    ensures { IsTrue result ↔ IsWord word.now }
{
    !word.is_empty() && word.as_bytes().iter().all(|byte| *byte != b' ')
}

/// The first word of a text, and what stands behind the blank after it.
fn word_and_rest(text: &str) -> Option<(&str, &str)>
    ensures { MatchOption result (BeginsWithNoWord text.now)
        (λ it. (text.now ≡ it.0.now ++ (32 ∷ it.1.now)) × IsWord it.0.now) }
{
    let (word, rest) = text.split_once(' ')?;
    if is_word(word) {
        Some((word, rest))
    } else {
        None
    }
}

/// The test of a line, which is four words with one blank between them.
fn test_of(line: &str) -> Option<TestFiles<'_>>
    ensures { MatchOption result (IsNoTest line.now)
        (λ test. (line_of test ≡ line.now) × IsTest test) }
{
    let (input, rest) = word_and_rest(line)?;
    let (output, rest) = word_and_rest(rest)?;
    let (errors, report) = word_and_rest(rest)?;
    if !is_word(report) {
        return None;
    }
    Some(TestFiles {
        input,
        output,
        errors,
        report,
    })
}

/// The tests of a list. A line that is none is refused as `Setting`.
fn tests_of(alloc: Global, list: &str) -> Result<Vec<TestFiles<'_>>, SessionFault>
    ensures tests { IfOk result (λ tests. Lists list.now tests.items) }
    ensures refused { IfErr result
        (λ fault. ((fault ≡ opening.Setting) × HasNoTest list.now) ⊎ (fault ≡ opening.Memory)) }
{
    let mut tests = Vec::new(alloc);
    for line in list.lines() {
        let Some(test) = test_of(line) else {
            return Err(SessionFault::Setting);
        };
        if tests.push(test).is_err() {
            return Err(SessionFault::Memory);
        }
    }
    Ok(tests)
}

/// Opens the input of a test, makes the files of its outputs, and has its sectors read or made.
fn prepare<P: Places>(
    alloc: Global,
    places: &mut P,
    run: &Run<'_>,
    test: TestFiles<'_>,
) -> io::Result<PreparedTest<P::Input, P::Output>>
    ensures { MatchResult result
        (λ prepared. IsPrepared P.Places run.now test.entry places.old places.new prepared)
        (λ error. LacksFiles P.Places run.now test.entry (error_kind error) places.old places.new) }
{
    let streams = Streams {
        input: places.open(test.input)?,
        out: places.make(test.output)?,
        err: places.make(test.errors)?,
    };
    let device = memory_of(alloc, places, run)?;
    Ok(PreparedTest { device, streams })
}

/// Runs the module on the files of a test. Gives it back, what the report of the test says, and its lines of where the run stopped.
fn tested<'m, P: Places>(
    alloc: Global,
    places: &mut P,
    run: &Run<'_>,
    runnable: Runnable<'m>,
    supplies: &GuestTexts<'_>,
    files: Files<'_>,
    test: TestFiles<'_>,
) -> (Runnable<'m>, Option<Summary>, Vec<u8>)
    requires supplied { AreSupplies run.now supplies.now }
    requires ready { IsReadyFor run.now.limits.pages runnable }
    ensures module { result.0 ≡ runnable.entry }
    ensures tested { IsTestedOrUnread P.Places P.Input.Read P.Output.Write P.Output.flushed
        P.Output.refuses (calls_of P.Input.gave P.Input.refused)
        (calls_of P.Output.took P.Output.refused) run.now files.entry.«module».now
        (module_in runnable.entry) files.entry.random.now test.entry places.old places.new result.1
        result.2.items }
{
    match prepare(alloc, places, run, test) {
        Ok(PreparedTest { device, streams }) => {
            let (runnable, left) = run_valid(
                alloc,
                run,
                runnable,
                supplies,
                files.random,
                device,
                streams,
                None,
            );
            let summary = left.summary;
            let frames = lines_of(alloc, run, files.module, runnable.module(), &left.stopped);
            places.end(left);
            (runnable, summary, frames)
        }
        Err(error) => (runnable, Some(unread(run, &error)), no_lines(alloc, run)),
    }
}

/// Prints the report of a test into its file, and gives that up: whether it could be printed, and a guest ran.
fn is_told_of_guest<P: Places>(
    places: &mut P,
    name: &str,
    report: P::Output,
    summary: &Summary,
    frames: &[u8],
) -> bool
    requires { P.is_output name.now report }
    ensures { IsTold P.Places P.Output.Write result name.now report summary.now frames.now
        places.old places.new }
{
    let mut report = report;
    let is_printed = places.print(name, &mut report, summary, frames).is_ok();
    places.end(report);
    match summary.end {
        End::Ran(_) => is_printed,
        End::Refused(_) => false,
    }
}

/// Makes the report of a test, runs the module on its files, and prints the report. Gives the module back, and whether a
/// guest ran and its report could be printed.
fn run_test<'m, P: Places>(
    alloc: Global,
    places: &mut P,
    run: &Run<'_>,
    runnable: Runnable<'m>,
    supplies: &GuestTexts<'_>,
    files: Files<'_>,
    test: TestFiles<'_>,
) -> (Runnable<'m>, bool)
    requires supplied { AreSupplies run.now supplies.now }
    requires ready { IsReadyFor run.now.limits.pages runnable }
    ensures module { result.0 ≡ runnable.entry }
    ensures ends { OneEndsAs (HasRun P.Places P.Input.Read P.Output.Write P.Output.flushed
        P.Output.refuses (calls_of P.Input.gave P.Input.refused)
        (calls_of P.Output.took P.Output.refused) run.now files.entry.«module».now
        (module_in runnable.entry) files.entry.random.now)
        (HasFailed P.Places P.Input.Read P.Output.Write P.Output.flushed P.Output.refuses
        (calls_of P.Input.gave P.Input.refused) (calls_of P.Output.took P.Output.refused) run.now
        files.entry.«module».now (module_in runnable.entry) files.entry.random.now) result.1
        test.entry places.old places.new }
{
    let Ok(report) = places.make(test.report) else {
        return (runnable, false);
    };
    let (runnable, said, frames) = tested(alloc, places, run, runnable, supplies, files, test);
    let Some(summary) = said else {
        return (runnable, false);
    };
    let has_run = is_told_of_guest(places, test.report, report, &summary, frames.as_slice());
    (runnable, has_run)
}

/// Runs the module on each of these tests, whatever became of those before it: whether a guest ran in each, and its report
/// could be printed.
fn run_all<'m, P: Places>(
    alloc: Global,
    places: &mut P,
    run: &Run<'_>,
    runnable: Runnable<'m>,
    supplies: &GuestTexts<'_>,
    files: Files<'_>,
    tests: &[TestFiles<'_>],
) -> bool
    requires supplied { AreSupplies run.now supplies.now }
    requires ready { IsReadyFor run.now.limits.pages runnable }
    ensures { AllEndAs (HasRun P.Places P.Input.Read P.Output.Write P.Output.flushed
        P.Output.refuses (calls_of P.Input.gave P.Input.refused)
        (calls_of P.Output.took P.Output.refused) run.now files.entry.«module».now
        (module_in runnable.entry) files.entry.random.now)
        (HasFailed P.Places P.Input.Read P.Output.Write P.Output.flushed P.Output.refuses
        (calls_of P.Input.gave P.Input.refused) (calls_of P.Output.took P.Output.refused) run.now
        files.entry.«module».now (module_in runnable.entry) files.entry.random.now) result tests.now
        places.old places.new }
{
    let mut runnable = runnable;
    let mut have_run = true;
    for test in tests {
        let (kept, has_run) = run_test(alloc, places, run, runnable, supplies, files, *test);
        runnable = kept;
        have_run = have_run && has_run;
    }
    drop(runnable);
    have_run
}

/// Prints the line of what refuses all tests of a module of these bytes, and what it means.
fn refuse_all<W: Outlet>(alloc: Global, err: &mut W, run: &Run<'_>, module: &[u8], fault: Fault)
    ensures { AppendsSome (W.contents err.old) (W.contents err.new) }
{
    tell_fault(err, fault);
    tell_of_refusal(alloc, err, run, module, fault);
}

/// The number of the first line of a list that is no test, from 1 on.
fn wrong_line(list: &str) -> Option<usize> {
    let mut number: usize = 0;
    for line in list.lines() {
        number = number.saturating_add(1);
        if test_of(line).is_none() {
            return Some(number);
        }
    }
    None
}

/// Prints which line of a list is no test, or what else the fault of a list means.
fn tell_of_list<W: Outlet>(err: &mut W, list: &str, text: &str, fault: Fault)
    ensures { AppendsSome (W.contents err.old) (W.contents err.new) }
{
    match (fault, wrong_line(text)) {
        (Fault::Setting, Some(number)) => tell_of_line(err, list, number),
        _ => tell_of_fault(err, list, fault),
    }
}

/// Prints the line of a list that isn't taken, and what it means, and gives the status.
fn refuse_list<W: Outlet>(err: &mut W, list: &str, text: &str, fault: SessionFault) -> u8
    ensures status { result ≡ session_status fault }
    ensures line { AppendsSome (W.contents err.old) (W.contents err.new) }
{
    tell_fault(err, session_reason(fault));
    tell_of_list(err, list, text, session_reason(fault));
    session_status(fault)
}

/// Prints that not each test has run, and gives the status.
fn refuse_tests<W: Outlet>(err: &mut W, run: &Run<'_>) -> u8
    ensures status { result ≡ 124 }
    ensures line { AppendsSome (W.contents err.old) (W.contents err.new) }
{
    let status = refuse_file(err);
    tell_words(
        err,
        run.tests.unwrap_or("the list"),
        "a test of it has not run, or has no report",
        "the reports say which, and why",
    );
    status
}

/// Decodes a module, prepares it once, and runs it on these tests, and gives the status.
fn run_tests<P: Places, W: Outlet>(
    alloc: Global,
    places: &mut P,
    run: &Run<'_>,
    module: &[u8],
    random: &[u8],
    tests: &[TestFiles<'_>],
    err: &mut W,
) -> u8
    ensures runs { RunsTests P.Places P.Input.Read P.Output.Write P.Output.flushed P.Output.refuses
        (calls_of P.Input.gave P.Input.refused) (calls_of P.Output.took P.Output.refused) run.now
        «module».now random.now tests.now places.old places.new result }
    ensures line { AppendsSome (W.contents err.old) (W.contents err.new) }
{
    let supplies = match supplied(alloc, run) {
        Ok(supplies) => supplies,
        Err(fault) => {
            refuse_all(alloc, err, run, module, session_reason(fault));
            return session_status(fault);
        }
    };
    match load_with(alloc, module, profile_for(run.floats)) {
        Ok(valid) => {
            let files = Files { module, random };
            let runnable = Runnable::new(alloc, run, valid);
            if run_all(alloc, places, run, runnable, &supplies, files, tests) {
                return 0;
            }
            refuse_tests(err, run)
        }
        Err(fault) => {
            refuse_all(alloc, err, run, module, Fault::Module(fault));
            load_status(fault)
        }
    }
}

/// The text of a list, and the bytes of a run's files.
fn list_and_files<P: Places>(
    alloc: Global,
    places: &mut P,
    run: &Run<'_>,
    list: &str,
) -> io::Result<(String, Vec<u8>, Vec<u8>)>
    ensures { MatchResult result (λ it. AreRead P.Places run.now list.now places.old places.new
        (string_bytes it.0) it.1.items it.2.items)
        (λ error. IsRefusedAmong P.asked P.refused (list_accesses run.now list.now)
        (error_kind error) places.old places.new) }
{
    let text = places.text(list)?;
    let (module, random) = read_files(alloc, places, run)?;
    Ok((text, module, random))
}

/// Runs a module on the tests of a list, each on the files that its line names. Where a line is no test, nothing is run. The
/// program's own line goes to `err`.
fn run_lines<P: Places, W: Outlet>(
    alloc: Global,
    places: &mut P,
    run: &Run<'_>,
    list: &str,
    err: &mut W,
) -> u8
    ensures runs { RunsLines P.Places P.Input.Read P.Output.Write P.Output.flushed P.Output.refuses
        (calls_of P.Input.gave P.Input.refused) (calls_of P.Output.took P.Output.refused) run.now
        list.now places.old places.new result }
    ensures line { AppendsSome (W.contents err.old) (W.contents err.new) }
{
    let (text, module, random) = match list_and_files(alloc, places, run, list) {
        Ok(files) => files,
        Err(error) => return refuse(&*places, &error, err),
    };
    match tests_of(alloc, text.as_str()) {
        Ok(tests) => run_tests(
            alloc,
            places,
            run,
            module.as_slice(),
            random.as_slice(),
            tests.as_slice(),
            err,
        ),
        Err(fault) => refuse_list(err, list, text.as_str(), fault),
    }
}

/// Runs a module on the tests of a list, each on the files that its line names, gives up the streams that it was given, of
/// which it uses `err` alone, and gives the status.
// A function of its own, since what it needs would else be on the stack below a run alone, too.
#[inline(never)]
pub fn run_list<P: Places, R: Inlet + Drop, W1: Outlet + Drop, W2: Outlet + Drop>(
    alloc: Global,
    places: &mut P,
    run: &Run<'_>,
    list: &str,
    given: Streams<R, W1, W2>,
) -> u8
    ensures { RunsList (around P.Places P.Input.Read P.Output.Write P.Volume.Device R.Read W1.Write
        W2.Write (flushing P.Output.flushed P.Output.refuses W1.flushed W1.refuses W2.flushed
        W2.refuses) (calling P.Input.gave P.Input.refused P.Output.took P.Output.refused R.gave
        R.refused W1.took W1.refused W2.took W2.refused)) run.now list.now given places.old
        places.new result }
{
    let mut given = given;
    let status = run_lines(alloc, places, run, list, &mut given.err);
    places.end(given);
    status
}
