//! What a guest is given by the words of its command line.

ghost use Rattle.std.specs.Prelude.{◌≡◌, IfOk, IfErr, option_map};
ghost use Rattle.sandbox_args.specs.Request.{argument_0, arguments_of, texts};
ghost use Rattle.sandbox_telling.specs.Supplies.{split_at_equals, names_of, directories_of, terminals_of};
ghost use Rattle.sandbox_telling.specs.Supplies.{AreDirectories, AreSettings, IsUncut};
ghost use Rattle.sandbox_telling.specs.internal.Supplies.{AreSupplies};

use sandbox_args::Run;
use sandbox_core::{Preopen, SessionFault, Settings, Terminals};
use std::alloc::{AllocError, Global};

/// The words for the directories of a guest where the command line has none: the root as `/`.
static ROOT: [&str; 1] = ["/=/"];

/// The texts of a guest, and its directories.
#[derive(Drop)]
pub struct GuestTexts<'t> {
    args: Vec<&'t [u8]>,
    env: Vec<&'t [u8]>,
    preopens: Vec<Preopen<'t>>,
}

/// The guest's argument 0: its name, or without one the word that names the module.
fn argument_0<'t>(run: &Run<'t>) -> &'t [u8]
    ensures { result.now ≡ argument_0 run.now }
{
    match run.name {
        Some(name) => name.as_bytes(),
        None => run.module.as_bytes(),
    }
}

/// The guest's arguments: its argument 0, and then the words after the module.
fn arguments<'t>(alloc: Global, run: &Run<'t>) -> Result<Vec<&'t [u8]>, AllocError>
    ensures { IfOk result (λ args. texts args.items ≡ arguments_of run.now) }
{
    let mut arguments = Vec::new(alloc);
    arguments.push(argument_0(run))?;
    for word in &run.words {
        arguments.push(word.as_bytes())?;
    }
    Ok(arguments)
}

/// The texts of the guest's environment.
fn environment<'t>(alloc: Global, run: &Run<'t>) -> Result<Vec<&'t [u8]>, AllocError>
    ensures { IfOk result (λ env. texts env.items ≡ texts run.now.env.items) }
{
    let mut environment = Vec::new(alloc);
    for text in &run.env {
        environment.push(text.as_bytes())?;
    }
    Ok(environment)
}

/// A directory, whose word is cut at its first `=`: the guest's name stands before it, the path after
/// it.
fn preopen(word: &str) -> Option<Preopen<'_>>
    ensures { option_map names_of result ≡ split_at_equals word.now }
{
    let (guest_name, path) = word.split_once('=')?;
    Some(Preopen {
        guest_name: guest_name.as_bytes(),
        path: path.as_bytes(),
    })
}

/// The words of the guest's directories.
fn directories<'a, 't>(run: &'a Run<'t>) -> &'a [&'t str]
    ensures { texts result.now ≡ directories_of run.now }
{
    if run.dirs.is_empty() {
        return &ROOT;
    }
    run.dirs.as_slice()
}

/// The guest's directories. One whose word has no `=` is refused as `Setting`.
fn preopens<'t>(alloc: Global, words: &[&'t str]) -> Result<Vec<Preopen<'t>>, SessionFault>
    ensures cut { IfOk result (λ v. AreDirectories (texts words.now) v.items) }
    ensures refused { IfErr result (IsUncut (texts words.now)) }
{
    let mut preopens = Vec::new(alloc);
    for word in words {
        let Some(preopen) = preopen(word) else {
            return Err(SessionFault::Setting);
        };
        if preopens.push(preopen).is_err() {
            return Err(SessionFault::Memory);
        }
    }
    Ok(preopens)
}

/// What a guest is given. A directory whose word has no `=` is refused as `Setting`.
pub fn supplied<'t>(alloc: Global, run: &Run<'t>) -> Result<GuestTexts<'t>, SessionFault>
    ensures given { IfOk result (AreSupplies run.now) }
    ensures refused { IfErr result (IsUncut (directories_of run.now)) }
{
    let preopens = preopens(alloc, directories(run))?;
    let (Ok(args), Ok(env)) = (arguments(alloc, run), environment(alloc, run)) else {
        return Err(SessionFault::Memory);
    };
    Ok(GuestTexts {
        args,
        env,
        preopens,
    })
}

/// The settings of a run with these supplies and random bytes.
pub fn settings<'a, 't>(
    run: &Run<'t>,
    supplies: &'a GuestTexts<'t>,
    random: &'a [u8],
) -> Settings<'a, 't>
    requires { AreSupplies run.now supplies.now }
    ensures { AreSettings run.now random.now result }
{
    Settings {
        args: supplies.args.as_slice(),
        env: supplies.env.as_slice(),
        preopens: supplies.preopens.as_slice(),
        moment: run.moment,
        random,
        pages: run.limits.pages,
    }
}

/// The terminals that the guest of an interactive run is told of.
pub fn terminals_of(run: &Run<'_>) -> Option<Terminals>
    ensures { result ≡ terminals_of run.now }
{
    if !run.interactive {
        return None;
    }
    let found = run.terminals;
    Some(Terminals {
        input: found.input,
        output: found.output,
        error: found.error,
    })
}
