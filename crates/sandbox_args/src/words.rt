//! The command line.

ghost use Rattle.std.specs.Option.{MatchOption};
ghost use Rattle.std.specs.List.{Contains};
ghost use Rattle.std.specs.Prelude.{◌≡◌, ◌↔◌, ◌∷◌, [], IfOk, IsTrue, IsOkAnd, IsSomeAnd, Some, None, false, true, codes, map, string_bytes, option_and_then};
ghost use Rattle.clap.specs.Matches.{has_subcommand};
ghost use Rattle.clap.specs.Words.{FailsBy, app_of, fault_of, first_of, found_of, one_of, rows_of, rule_of, subcommand_of, subcommand_rows_of};
ghost use Rattle.clap.specs.declared.builder.command.Command.TheViews.{out-Command as fields_of};
ghost use Rattle.sandbox_args.specs.Request.{texts};
ghost use Rattle.sandbox_args.specs.CommandLine.{AsksChange, AsksFor, AsksRun, AsksTask, parsed_number};
ghost use Rattle.sandbox_args.specs.CommandLine.{change_names, other_names, task_names};
ghost use Rattle.sandbox_args.specs.CommandLine.{IsFlagged, text_in, texts_of, word_of};
ghost use Rattle.sandbox_args.specs.CommandLine.{faults_app, program};
ghost use Rattle.sandbox_args.specs.internal.Table.{AddsArguments, AddsSubcommands, AnswersAsAll, action_for, app_for, program_with, rule_for};
ghost use Rattle.sandbox_args.specs.internal.Given.{AsksRunOf};

use crate::faults::MEANINGS;
use crate::request::{Change, GuestLimits, Invocation, ListForm, NO_TERMINALS, Run, Task};
use crate::table::{Argument, ArgumentKind, Subcommand, commands, row_of, rows};
use clap::{Arg, ArgAction, ArgMatches, Command, Error};
use meanings::VERSION;
use std::alloc::{AllocError, Global};
use std::slice;

/// What help ends with.
const STATUSES: &str = "\
Statuses:
  0 to 119  what the guest exited with; 0 where it returned, 119 for anything greater
  120       the guest trapped
  121       the fuel is used up
  122       out of memory
  123       the volume's device failed before all was kept
  124       a fault, which is named by its number
  125       the command line is refused, or help or the version is asked for

Examples:
  sandbox run --fuel 5000000 --pages 16 hello.wasm first second -- --third
  sandbox run --volume disk.img --dir /=/home --env LANG=C edit.wasm notes.txt
  sandbox run --report end.txt --fuel 5000000 hello.wasm < input > output
  sandbox format disk.img 2048 64
  sandbox mkdir disk.img /home
  sandbox put disk.img /home/notes.txt < notes.txt";

/// Fuel where the command line says nothing of it, in units.
const FUEL: u64 = 1_000_000_000;

/// Pages that memory may have where the command line says nothing of them.
const PAGES: u32 = 1_024;

/// Values that the guest's stack may have where the command line says nothing of them.
const VALUES: u32 = 134_217_728;

/// Frames that are told at most where the command line says nothing of them.
const FRAMES: u32 = 16;

/// What the parser does with an argument that takes this.
fn action(takes: ArgumentKind) -> ArgAction
    ensures { result ≡ action_for takes }
{
    match takes {
        ArgumentKind::Text(_)
        | ArgumentKind::Long
        | ArgumentKind::Number
        | ArgumentKind::Word
        | ArgumentKind::NumberWord => { ArgAction::Set }
        ArgumentKind::Texts(_) | ArgumentKind::Words => ArgAction::Append,
        ArgumentKind::Flag | ArgumentKind::ShortFlag(_) => ArgAction::SetTrue,
    }
}

/// An argument of the table.
fn argument<'a>(alloc: Global, row: &'static Argument) -> Arg<'a>
    ensures { (rule_of result ≡ rule_for row.now) × (result.global ≡ false) }
{
    let (name, takes) = (row.name, row.takes);
    let arg = Arg::new(alloc, name).action(action(takes)).help(row.help);
    match takes {
        ArgumentKind::Text(value) => arg.long(name).value_name(value),
        ArgumentKind::Texts(value) => arg.long(name).value_name(value),
        ArgumentKind::Long => arg
            .long(name)
            .value_name("N")
            .value_parser(clap::value_parser!(u64)),
        ArgumentKind::Number => arg
            .long(name)
            .value_name("N")
            .value_parser(clap::value_parser!(u32)),
        ArgumentKind::Flag => arg.long(name),
        ArgumentKind::ShortFlag(letter) => arg.long(name).short(letter),
        ArgumentKind::Word => arg.required(true),
        ArgumentKind::NumberWord => arg.required(true).value_parser(clap::value_parser!(u32)),
        ArgumentKind::Words => arg.num_args(0..),
    }
}

/// A command with these arguments more.
fn with_arguments<'a>(
    alloc: Global,
    mut command: Command<'a>,
    rows: &'static [Argument],
) -> Result<Command<'a>, AllocError>
    ensures { IfOk result (AddsArguments command.entry (map rule_for rows.now)) }
{
    for row in rows {
        command = command.arg(argument(alloc, row))?;
    }
    Ok(command)
}

/// A command of the table.
fn subcommand<'a>(alloc: Global, row: &'static Subcommand) -> Result<Command<'a>, AllocError>
    ensures { IfOk result (λ c. (app_of c ≡ app_for row.now)
        × ((fields_of c).has_globals ≡ false)) }
{
    let command = Command::new(alloc, row.name)
        .about(row.about)
        .after_help(STATUSES);
    with_arguments(alloc, command, rows(row.arguments))
}

/// A command with the command of this row more.
fn with_subcommand<'a>(
    alloc: Global,
    command: Command<'a>,
    row: &'static Subcommand,
) -> Result<Command<'a>, AllocError>
    ensures { IfOk result (AddsSubcommands command.entry (app_for row.now ∷ [])) }
{
    match subcommand(alloc, row) {
        Ok(made) => command.subcommand(made),
        Err(refusal) => {
            drop(command); // by the call, since the end of the scope spells it out
            Err(refusal)
        }
    }
}

/// A command with these subcommands more.
fn with_subcommands<'a>(
    alloc: Global,
    mut command: Command<'a>,
    rows: &'static [Subcommand],
) -> Result<Command<'a>, AllocError>
    ensures { IfOk result (AddsSubcommands command.entry (map app_for rows.now)) }
{
    for row in rows {
        command = with_subcommand(alloc, command, row)?;
    }
    Ok(command)
}

/// `faults`, which prints its help and does nothing else.
fn faults_command<'a>(alloc: Global) -> Command<'a>
    ensures { (app_of result ≡ faults_app) × ((fields_of result).has_globals ≡ false) }
{
    Command::new(alloc, "faults")
        .about("Print what the numbers of faults and errnos mean")
        .override_help(MEANINGS)
        .arg_required_else_help(true)
}

/// The commands that clap is told of for these words: the one that the first word behind the program's name calls, alone, since no
/// other has a part in what it is asked for; else all. (Making an argument takes some 2,000 instructions, and the commands have 63.)
fn commands_for(words: &[String]) -> &'static [Subcommand]
    ensures { AnswersAsAll (map app_for result.now) (map string_bytes words.now) }
{
    let Some(word) = words.get(1) else {
        return commands();
    };
    match row_of(word.as_str()) {
        Some(row) => slice::from_ref(row),
        None => commands(),
    }
}

/// The program with the commands of these rows and `faults`, of which one has to be there.
fn command<'a>(alloc: Global, rows: &'static [Subcommand]) -> Result<Command<'a>, AllocError>
    ensures { IfOk result (λ c. (app_of c ≡ program_with (map app_for rows.now))
        × ((fields_of c).has_globals ≡ false)) }
{
    let program = Command::new(alloc, "sandbox")
        .about("Runs command-line WebAssembly programs with exact fuel, and keeps volumes of files")
        .after_help(STATUSES)
        .version(VERSION)
        .subcommand_required(true);
    with_subcommands(alloc, program, rows)?.subcommand(faults_command(alloc))
}

/// The text of an argument, or the empty one.
fn text<'a>(matches: &ArgMatches<'a>, id: &str) -> &'a str
    ensures { result.now ≡ word_of id.now (rows_of (found_of matches.now)) }
{
    match matches.get_str(id) {
        Some(text) => text,
        None => "",
    }
}

/// The texts of an argument.
fn texts<'a>(alloc: Global, matches: &ArgMatches<'a>, id: &str) -> Result<Vec<&'a str>, AllocError>
    ensures { IfOk result (λ v. texts v.items ≡ texts_of id.now (rows_of (found_of matches.now))) }
{
    match matches.get_strs(id) {
        Some(texts) => Vec::from_slice(alloc, texts),
        None => Ok(Vec::new(alloc)),
    }
}

/// The text of an option, where it is there.
fn option_text<'a>(matches: &ArgMatches<'a>, id: &str) -> Option<&'a str>
    ensures { text_in result ≡ first_of id.now (rows_of (found_of matches.now)) }
{
    matches.get_str(id)
}

/// Whether a flag is there.
fn is_flagged(matches: &ArgMatches<'_>, id: &str) -> bool
    ensures { IsTrue result ↔ IsFlagged id.now (rows_of (found_of matches.now)) }
{
    text(matches, id) == "true"
}

/// The number of an argument.
fn number(matches: &ArgMatches<'_>, id: &str) -> Option<u32>
    ensures { result ≡ option_and_then (parsed_number 32)
        (one_of id.now (rows_of (found_of matches.now))) }
{
    matches.get_one::<u32>(id)
}

/// The number of an argument that may have 64 bits.
fn long_number(matches: &ArgMatches<'_>, id: &str) -> Option<u64>
    ensures { result ≡ option_and_then (parsed_number 64)
        (one_of id.now (rows_of (found_of matches.now))) }
{
    matches.get_one::<u64>(id)
}

/// What `run` is asked for, with these lists of texts. (So that no list is alive while another may be refused.)
fn run_with<'a>(
    matches: &ArgMatches<'a>,
    dirs: Vec<&'a str>,
    env: Vec<&'a str>,
    words: Vec<&'a str>,
) -> Run<'a>
    ensures { AsksRunOf (rows_of (found_of matches.now)) dirs.entry.items env.entry.items
        words.entry.items result }
{
    let limits = GuestLimits {
        fuel: long_number(matches, "fuel").unwrap_or(FUEL),
        pages: number(matches, "pages").unwrap_or(PAGES),
        values: number(matches, "values").unwrap_or(VALUES),
        output: long_number(matches, "output"),
    };
    Run {
        limits,
        volume: option_text(matches, "volume"),
        image: option_text(matches, "image"),
        image_from: option_text(matches, "image-from"),
        volume_out: option_text(matches, "volume-out"),
        out_to: option_text(matches, "out-to"),
        dirs,
        env,
        moment: long_number(matches, "moment").unwrap_or(0),
        random: option_text(matches, "random"),
        seed: long_number(matches, "seed"),
        stdin: option_text(matches, "stdin"),
        stdout: option_text(matches, "stdout"),
        stderr: option_text(matches, "stderr"),
        interactive: is_flagged(matches, "interactive"),
        floats: is_flagged(matches, "floats"),
        terminals: NO_TERMINALS,
        name: option_text(matches, "name"),
        report: option_text(matches, "report"),
        frames: number(matches, "frames").unwrap_or(FRAMES),
        profile: option_text(matches, "profile"),
        profile_every: long_number(matches, "profile-every"),
        tests: option_text(matches, "tests"),
        invoke: option_text(matches, "invoke"),
        module: text(matches, "MODULE"),
        words,
    }
}

/// What `run` is asked for by what was found for its arguments.
fn run_given<'a>(alloc: Global, matches: &ArgMatches<'a>) -> Result<Run<'a>, AllocError>
    ensures { IfOk result (AsksRun (rows_of (found_of matches.now))) }
{
    let dirs = texts(alloc, matches, "dir")?;
    let env = texts(alloc, matches, "env")?;
    let words = texts(alloc, matches, "WORD")?;
    Ok(run_with(matches, dirs, env, words))
}

/// What the command of this name changes in a volume; none where it is no such command.
fn change_given<'a>(name: &str, matches: &ArgMatches<'a>) -> Option<Change<'a>>
    ensures { MatchOption result (Contains change_names name.now → ⊥)
        (AsksChange name.now (rows_of (found_of matches.now))) }
{
    let path = text(matches, "PATH");
    let from = text(matches, "FROM");
    let to = text(matches, "TO");
    match name {
        "mkdir" => Some(Change::MakeDirectory { path }),
        "mv" => Some(Change::Move { from, to }),
        "rm" if is_flagged(matches, "recursive") => Some(Change::RemoveAll { path }),
        "rm" => Some(Change::Remove { path }),
        _ => None,
    }
}

/// What `ls` does with a volume.
fn listing_given<'a>(matches: &ArgMatches<'a>) -> Task<'a>
    ensures { AsksTask (codes "ls") (rows_of (found_of matches.now)) result }
{
    let path = text(matches, "PATH");
    let form = ListForm {
        escape: is_flagged(matches, "escape"),
        null: is_flagged(matches, "null"),
    };
    if form.escape || form.null {
        Task::ListAs { path, form }
    } else {
        Task::List { path }
    }
}

/// What the command of this name does with a volume; none where it is no such command.
fn task_given<'a>(name: &str, matches: &ArgMatches<'a>) -> Option<Task<'a>>
    ensures { MatchOption result (Contains task_names name.now → ⊥)
        (AsksTask name.now (rows_of (found_of matches.now))) }
{
    let path = text(matches, "PATH");
    let huge = is_flagged(matches, "huge");
    match name {
        "ls" => Some(listing_given(matches)),
        "get" => Some(Task::Get { path }),
        "put" if is_flagged(matches, "whole") => Some(Task::PutWhole { path }),
        "put" => Some(Task::Put { path }),
        "check" => Some(Task::Check),
        "upgrade" => Some(Task::Upgrade { huge }),
        "stat" => Some(Task::Stat { path }),
        _ => match change_given(name, matches) {
            Some(change) => Some(Task::Change(change)),
            None => None,
        },
    }
}

/// What the command of this name is asked for; none where it is no command but `run`.
fn other_given<'a>(name: &str, matches: &ArgMatches<'a>) -> Option<Invocation<'a>>
    ensures { MatchOption result (Contains other_names name.now → ⊥)
        (AsksFor name.now (rows_of (found_of matches.now))) }
{
    let file = text(matches, "FILE");
    let path = text(matches, "PATH");
    let module = text(matches, "MODULE");
    match name {
        "format" => Some(Invocation::Format {
            file,
            sectors: number(matches, "SECTORS").unwrap_or(0),
            slots: number(matches, "SLOTS").unwrap_or(0),
            large: is_flagged(matches, "large"),
            huge: is_flagged(matches, "huge"),
            new: is_flagged(matches, "new"),
        }),
        "import" => Some(Invocation::Import { file, path }),
        "export" => Some(Invocation::Export { file, path }),
        "inspect" => Some(Invocation::Inspect {
            module,
            floats: is_flagged(matches, "floats"),
        }),
        _ => match task_given(name, matches) {
            Some(task) => Some(Invocation::Volume { file, task }),
            None => None,
        },
    }
}

/// What the command of this name is asked for.
fn asked<'a>(
    alloc: Global,
    name: &str,
    matches: &ArgMatches<'a>,
) -> Result<Invocation<'a>, AllocError>
    ensures { IfOk result (AsksFor name.now (rows_of (found_of matches.now))) }
{
    match other_given(name, matches) {
        Some(other) => Ok(other),
        None => Ok(Invocation::Run(run_given(alloc, matches)?)),
    }
}

/// What the matches of a whole command line ask for. (So that their owner lets them go in one place.)
fn entered<'a>(alloc: Global, matches: &ArgMatches<'a>) -> Result<Invocation<'a>, AllocError>
    requires { has_subcommand matches.now ≡ true }
    ensures { IfOk result (λ i. IsSomeAnd (subcommand_rows_of matches.now)
        (λ entered. AsksFor entered.0 entered.1 i)) }
{
    let Some((name, inner)) = matches.subcommand() else {
        unreachable!() // clap refuses a command line without a subcommand
    };
    asked(alloc, name, inner)
}

/// Reads the words of a command line, of which the first is the program's name. A refusal, and
/// the answer to a question for help or the version, is what clap prints.
// A function of its own, so that the parser isn't on the stack below what is asked for.
#[inline(never)]
pub fn invocation<'a>(alloc: Global, words: &'a [String]) -> Result<Invocation<'a>, Error>
    ensures asks { IfOk result (λ i. IsSomeAnd
        (subcommand_of program (map string_bytes words.entry.now))
        (λ entered. AsksFor entered.0 entered.1 i)) }
    ensures fails { FailsBy (fault_of program (map string_bytes words.entry.now)) result }
{
    let matches = command(alloc, commands_for(words))?.try_get_matches_from(words)?;
    let answer = entered(alloc, &matches);
    drop(matches);
    Ok(answer?)
}
