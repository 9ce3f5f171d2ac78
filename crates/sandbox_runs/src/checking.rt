//! How a task ends, and what is told of a damaged volume that is checked.

ghost use Rattle.std.specs.Prelude.{◌≡◌, ◌++◌, Some, None, OnOk, OnErr};
ghost use Rattle.std.specs.Io.KnownBytes.{Appends, Keeps};
ghost use Rattle.stream_answers.specs.Printing.{AppendsPart};
ghost use Rattle.sandbox_runs.specs.Checking.{TellsChecked, checked_damage, damage_lines, place_text};
ghost use Rattle.sandbox_runs.specs.Flushing.{Answered};
ghost use Rattle.sandbox_runs.specs.Status.{ended_status, failure_status};

use crate::ending::ended;
use crate::program::{Executed, FAULT, left_with};
use arrayvec::ArrayVec;
use sandbox_args::Task;
use sandbox_report::rule_text;
use sandbox_telling::explaining::About;
use sandbox_telling::streams::Streams;
use std::io::Write;
use std::{fmt, io};
use stream_answers::{Outlet, print_all};
use vol_commands::Failure;
use vol_sector::{Damage, VolumeFault};

/// Lines before they are printed, with room for those of any damage.
type PrintedLines = ArrayVec<u8, 320>;

/// The sector of a damage as a line begins with it, or nothing where it isn't known.
#[derive(Clone, Copy)]
struct DamagePlace(Option<u32>);

impl fmt::Display for DamagePlace {
    ghost output = { λ p. Some (place_text p.0) };

    fn fmt<W: fmt::Write>(&self, f: &mut fmt::Formatter<W>) -> fmt::Result {
        match self.0 {
            Some(sector) => write!(f, "sector {sector}: "),
            None => Ok(()),
        }
    }
}

/// Adds the lines of a damage: the fault, and which sector breaks which rule.
fn add_damage(lines: &mut PrintedLines, damage: Damage) -> io::Result<()>
    ensures { OnOk result (lines.new.items ≡ lines.old.items ++ damage_lines damage) }
{
    write!(
        lines,
        "sandbox: fault 32\nsandbox: {}{}\n",
        DamagePlace(damage.sector),
        rule_text(damage.rule)
    )
}

/// Prints the lines of a damage. Where that fails, a beginning of them may have been printed.
fn print_damage<W: Outlet>(err: &mut W, damage: Damage) -> io::Result<()>
    ensures all { OnOk result
        (Appends (W.contents err.old) (W.contents err.new) (damage_lines damage)) }
    ensures part { OnErr result
        (AppendsPart (W.contents err.old) (W.contents err.new) (damage_lines damage)) }
{
    let mut lines = PrintedLines::new();
    add_damage(&mut lines, damage)?;
    print_all(err, lines.as_slice())
}

/// Prints the lines of a damage, or a beginning of them.
fn tell_damage<W: Outlet>(err: &mut W, damage: Damage)
    ensures { AppendsPart (W.contents err.old) (W.contents err.new) (damage_lines damage) }
{
    let _ = print_damage(err, damage);
}

/// The damage for which a volume that is checked is refused.
fn checked_damage(task: Task<'_>, done: Result<(), Failure>) -> Option<Damage>
    ensures { result ≡ checked_damage task.entry done }
{
    match (task, done) {
        (Task::Check, Err(Failure::Volume(VolumeFault::Damaged(damage)))) => Some(damage),
        _ => None,
    }
}

/// Ends a task as `ended` does, but where a volume that is checked is damaged it also tells where and how, before it says what the
/// fault means.
pub fn ended_task<D: Drop, R: Drop, W1: Outlet + Drop, W2: Outlet + Drop>(
    task: Task<'_>,
    done: Result<(), Failure>,
    device: D,
    given: Streams<R, W1, W2>,
    about: &About<'_>,
) -> Executed<D, R, W1, W2>
    ensures status { result.status ≡ ended_status failure_status done result.flushed }
    ensures summary { result.summary ≡ None }
    ensures device { result.device ≡ device }
    ensures input { result.input ≡ given.input }
    ensures out { Keeps (W1.contents given.out) (W1.contents result.out) }
    ensures err { TellsChecked (checked_damage task.entry done)
        (W2.contents given.err) (W2.contents result.err) }
    ensures answered { Answered W1.flushed W1.refuses result.flushed result.out }
{
    let Some(damage) = checked_damage(task, done) else {
        return ended(done, device, given, about);
    };
    let mut given = given;
    let flushed = given.out.try_flush();
    tell_damage(&mut given.err, damage);
    about.tell_of_volume(&mut given.err, VolumeFault::Damaged(damage));
    left_with(FAULT, None, flushed, device, given)
}
