//! What is said in words of a run that could not begin, or that ended for want of something.

ghost use Rattle.sandbox_telling.specs.Streams.{AppendsSome};

use crate::serving::Served;
use arrayvec::ArrayVec;
use meanings::{fault_cure, fault_text};
use sandbox_args::{Invocation, Run};
use sandbox_core::Outcome;
use sandbox_inspect::{add_function_at, add_refused_import};
use sandbox_report::Fault;
use sandbox_telling::explaining::{say_meaning, say_part, tell_of_fault, tell_words};
use sandbox_telling::features::feature_cure;
use sandbox_telling::modules::profile_for;
use sandbox_telling::output::{say, say_name, tell};
use std::alloc::Global;
use std::io;
use std::io::Write;
use stream_answers::Outlet;
use wasm_module::{LoadFault, Module, Profile, decode_with};
use wasm_store::InstanceFault;

/// What a wrong setting is.
const SETTING: &str = "a setting that can't be";

/// The greatest status that is the guest's own.
const GREATEST: u32 = 119;

/// Prints a line about a module and a part of it.
fn tell_of_part<W: Outlet>(err: &mut W, name: &str, part: &[u8], meaning: &str, cure: &str)
    ensures { AppendsSome (W.contents err.old) (W.contents err.new) }
{
    say(err, b"sandbox: ");
    say_name(err, name.as_bytes());
    say_part(err, part);
    say_meaning(err, meaning, cure);
}

/// Prints a word of the command line behind another one, as names are printed: it can't begin a line.
fn say_word<W: Outlet>(err: &mut W, word: &str)
    ensures { AppendsSome (W.contents err.old) (W.contents err.new) }
{
    say(err, b": ");
    say_name(err, word.as_bytes());
}

/// Prints that an option's word is no setting that can be.
fn tell_of_word<W: Outlet>(err: &mut W, option: &str, word: &str, cure: &str)
    ensures { AppendsSome (W.contents err.old) (W.contents err.new) }
{
    if word.is_empty() {
        return tell_of_part(err, option, b"", SETTING, cure);
    }
    say(err, b"sandbox: ");
    say_name(err, option.as_bytes());
    say_word(err, word);
    say_meaning(err, SETTING, cure);
}

/// The part of a module that is to blame for a fault, as `inspect` shows names; nothing where it isn't known.
fn culprit(alloc: Global, bytes: &[u8], profile: Profile, fault: Fault) -> io::Result<Vec<u8>> {
    let mut text = Vec::new(alloc);
    if let Some(offset) = fault.offset() {
        add_function_at(alloc, &mut text, bytes, profile, offset)?;
    }
    if let Fault::Instance(InstanceFault::Import) = fault {
        if let Ok(module) = decode_with(alloc, bytes, profile) {
            add_refused_import(&mut text, &Served, &module)?;
        }
    }
    Ok(text)
}

/// What helps against a fault of a module, of which this part is to blame: what is of a later feature has its name there.
fn cure_of(bytes: &[u8], part: &[u8], fault: Fault, number: u32) -> &'static str {
    if let Fault::Module(LoadFault::BadByte { offset }) = fault {
        if let Some(cure) = feature_cure(bytes, offset, !part.is_empty()) {
            return cure;
        }
    }
    fault_cure(number)
}

/// Prints what a fault of a module means, and which part of it is to blame.
fn tell_of_module<W: Outlet>(
    alloc: Global,
    err: &mut W,
    name: &str,
    bytes: &[u8],
    profile: Profile,
    fault: Fault,
)
    ensures { AppendsSome (W.contents err.old) (W.contents err.new) }
{
    match (fault.number(), culprit(alloc, bytes, profile, fault)) {
        (Some(number), Ok(part)) => tell_of_part(
            err,
            name,
            part.as_slice(),
            fault_text(number),
            cure_of(bytes, part.as_slice(), fault, number),
        ),
        _ => tell_of_fault(err, name, fault),
    }
}

/// The bytes of these texts, and of the NUL behind each.
fn bytes_of(texts: &[&str]) -> usize {
    let mut bytes: usize = 0;
    for text in texts {
        bytes = bytes.saturating_add(text.len()).saturating_add(1);
    }
    bytes
}

/// Whether these are more texts than a guest takes.
fn are_too_many(texts: &[&str], others: usize, more: usize) -> bool {
    texts.len().saturating_add(others) > 1_024 || bytes_of(texts).saturating_add(more) > 65_536
}

/// Whether a directory's word has its form.
fn is_cut(word: &str) -> bool {
    word.split_once('=').is_some()
}

/// The first directory of a run whose word has no `=`.
fn uncut_directory<'a>(run: &Run<'a>) -> Option<&'a str> {
    for word in &run.dirs {
        if !is_cut(word) {
            return Some(word);
        }
    }
    None
}

/// Whether a directory's word has a name that a guest takes.
fn is_named(word: &str) -> bool {
    match word.split_once('=') {
        Some((name, _)) => !name.is_empty() && name.len() <= 255,
        None => false,
    }
}

/// Whether a run has directories that a guest takes.
fn has_its_directories(run: &Run<'_>) -> bool {
    for word in &run.dirs {
        if !is_named(word) {
            return false;
        }
    }
    run.dirs.len() <= 64
}

/// Prints that no function can be called by this name with the words of a run.
fn tell_of_call<W: Outlet>(err: &mut W, name: &str)
    ensures { AppendsSome (W.contents err.old) (W.contents err.new) }
{
    tell_of_word(
        err,
        "--invoke",
        name,
        "it names an exported function, and the words are its numbers: sandbox inspect lists the exports",
    );
}

/// Prints which setting of a run is wrong.
fn tell_of_setting<W: Outlet>(err: &mut W, run: &Run<'_>)
    ensures { AppendsSome (W.contents err.old) (W.contents err.new) }
{
    let argument_0 = run.name.unwrap_or(run.module);
    let pages = run.limits.pages;
    if pages > 65_536 {
        tell(
            err,
            format_args!("--pages {pages}: {SETTING}: at most 65536"),
        );
    } else if let Some(word) = uncut_directory(run) {
        tell_of_word(err, "--dir", word, "its form is GUEST=PATH");
    } else if are_too_many(run.words.as_slice(), 1, argument_0.len() + 1) {
        tell_words(
            err,
            "arguments",
            SETTING,
            "at most 1024 of them, and 65536 bytes",
        );
    } else if are_too_many(run.env.as_slice(), 0, 0) {
        tell_words(
            err,
            "--env",
            SETTING,
            "at most 1024 texts NAME=VALUE, and 65536 bytes",
        );
    } else if let (Some(name), true) = (run.invoke, has_its_directories(run)) {
        tell_of_call(err, name);
    } else {
        tell_words(
            err,
            "--dir",
            SETTING,
            "at most 64, each with a name of 1 to 255 bytes",
        );
    }
}

/// Prints which line of a list of tests is none.
pub fn tell_of_line<W: Outlet>(err: &mut W, list: &str, number: usize)
    ensures { AppendsSome (W.contents err.old) (W.contents err.new) }
{
    let mut part = ArrayVec::<u8, 32>::new();
    let _ = write!(part, "line {number}");
    tell_of_part(
        err,
        list,
        part.as_slice(),
        SETTING,
        "a line is four names of files with one blank between them",
    );
}

/// Prints what it means that a run could not begin, whose module has these bytes.
pub fn tell_of_refusal<W: Outlet>(
    alloc: Global,
    err: &mut W,
    run: &Run<'_>,
    module: &[u8],
    fault: Fault,
)
    ensures { AppendsSome (W.contents err.old) (W.contents err.new) }
{
    match fault {
        Fault::Volume(_) => {
            let file = run.volume.or(run.image.or(run.image_from));
            let name = file.unwrap_or("its volume in memory");
            tell_of_fault(err, name, fault);
        }
        Fault::Setting => tell_of_setting(err, run),
        Fault::Preopen => tell_of_fault(err, "--dir", fault),
        Fault::Module(_) | Fault::Instance(_) | Fault::Memory => {
            tell_of_module(
                alloc,
                err,
                run.module,
                module,
                profile_for(run.floats),
                fault,
            );
        }
        Fault::File => {}
    }
}

/// Prints what it means that a guest ended so, where it ended for want of something, or with a status that can't be its own.
pub fn tell_of_outcome<W: Outlet>(err: &mut W, run: &Run<'_>, outcome: Outcome)
    ensures { AppendsSome (W.contents err.old) (W.contents err.new) }
{
    match outcome {
        Outcome::Exited(status) if status > GREATEST => tell_words(
            err,
            run.module,
            "a status of 120 or more is the program's own",
            "--report has the guest's",
        ),
        Outcome::OutOfFuel => tell_words(err, run.module, "its fuel is used", "--fuel gives more"),
        Outcome::OutOfMemory => tell_words(
            err,
            run.module,
            "its stack has more values than it may have, or the host has no memory for them",
            "--values gives more",
        ),
        Outcome::Exited(_) | Outcome::Trapped(_) => {}
    }
}

/// What helps where two options are one too many.
const ONE: &str = "give one of them";

/// Which options of a run would give it two volumes, or would give out what it leaves twice, and what helps.
fn clash_of_volumes(run: &Run<'_>) -> Option<(&'static str, &'static str)> {
    if run.image.is_some() && run.volume.is_some() {
        Some(("--image with --volume", ONE))
    } else if run.image_from.is_some() && run.volume.is_some() {
        Some(("--image-from with --volume", ONE))
    } else if run.image_from.is_some() && run.image.is_some() {
        Some(("--image-from with --image", ONE))
    } else if run.volume_out.is_some() && run.image.is_none() && run.image_from.is_none() {
        Some(("--volume-out without --image", "give both"))
    } else if run.out_to.is_some() && run.volume.is_some() {
        Some(("--out-to with --volume", "sandbox export prints its tree"))
    } else if run.out_to.is_some() && run.volume_out.is_some() {
        Some(("--out-to with --volume-out", ONE))
    } else {
        None
    }
}

/// Which option of a run tells of a command's run, where one of its functions is called, and what helps.
fn clash_of_call(run: &Run<'_>) -> Option<(&'static str, &'static str)> {
    const COMMAND: &str = "it tells of a command's run: call a function without it";
    if run.invoke.is_none() {
        None
    } else if run.tests.is_some() {
        Some(("--invoke with --tests", COMMAND))
    } else if run.report.is_some() {
        Some(("--invoke with --report", COMMAND))
    } else if run.profile.is_some() {
        Some(("--invoke with --profile", COMMAND))
    } else {
        None
    }
}

/// The options of a run that don't go together, and what helps.
fn clash_of(run: &Run<'_>) -> (&'static str, &'static str) {
    const LINE: &str = "a line of the list names it";
    if let Some(clash) = clash_of_volumes(run) {
        clash
    } else if let Some(clash) = clash_of_call(run) {
        clash
    } else if run.seed.is_some() && run.random.is_some() {
        ("--seed with --random", ONE)
    } else if run.profile_every.is_some() && run.profile.is_none() {
        ("--profile-every without --profile", "give both")
    } else if run.profile_every == Some(0) {
        ("--profile-every 0", "1 or more")
    } else if run.stdin.is_some() {
        ("--tests with --stdin", LINE)
    } else if run.stdout.is_some() {
        ("--tests with --stdout", LINE)
    } else if run.stderr.is_some() {
        ("--tests with --stderr", LINE)
    } else if run.report.is_some() {
        ("--tests with --report", LINE)
    } else if run.profile.is_some() {
        ("--tests with --profile", "profile one run alone")
    } else if run.image_from.is_some() {
        ("--tests with --image-from", "each test begins with --image")
    } else if run.out_to.is_some() {
        ("--tests with --out-to", "run one alone")
    } else {
        (
            "--tests with --volume or --volume-out",
            "each test begins with --image",
        )
    }
}

/// Prints which options of a command don't go together.
pub fn tell_of_clash<W: Outlet>(err: &mut W, invocation: &Invocation<'_>)
    ensures { AppendsSome (W.contents err.old) (W.contents err.new) }
{
    let (what, cure) = match invocation {
        Invocation::Run(run) => clash_of(run),
        _ => ("--large with --huge", "give one of them"),
    };
    tell_words(err, what, SETTING, cure);
}
