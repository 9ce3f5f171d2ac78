//! Where a run stopped: the functions that were at work then, how its calls were answered, and the lines that tell of both.

ghost use Rattle.std.specs.Prelude.{◌≡◌, ◌++◌, IfOk, OnOk, codes, take};
ghost use Rattle.wasm_syntax.specs.declared.module.Module.{Module as ModuleValue};
ghost use Rattle.sandbox_inspect.specs.Sites.{IsSite};
ghost use Rattle.sandbox_telling.specs.Stopping.{AreFrameLines, AreLinesBy, AreLinesOf, AreLinesOfNone, HasLines, answer_line, answers_text, instruction_of};
ghost use Rattle.sandbox_telling.specs.Streams.{AppendsSome};
ghost use Rattle.sandbox_args.specs.Request.{Text};

use crate::output::{say, tell};
use crate::profiling::FuelUse;
use meanings::errno_text;
use sandbox_args::Run;
use sandbox_core::{Answers, Frame};
use sandbox_inspect::add_site;
use std::alloc::Global;
use std::io;
use std::io::Write;
use stream_answers::Outlet;
use wasm_module::Module;

/// The functions that were at work when a run stopped, how its calls were answered, and where its fuel went.
#[derive(Drop)]
pub struct Stopped {
    /// How many they were; 0 after an exit, and of a run that could not begin.
    pub depth: usize,
    /// The innermost of them, the innermost first: as many as are told, or none where memory was refused.
    pub innermost: Vec<Frame>,
    /// How many calls were answered with each errno.
    pub answers: Answers,
    /// Where its fuel went, if that is asked for.
    pub fuel_use: Option<FuelUse>,
}

/// A machine has no more functions at work.
const MOST_FRAMES: usize = 65_536;

/// Room for as many frames as a run tells; none where memory is refused.
pub fn room_for(alloc: Global, run: &Run<'_>) -> Vec<Frame> {
    let most = (run.frames as usize).min(MOST_FRAMES);
    let mut room = Vec::new(alloc);
    for _ in 0..most {
        if room.push(Frame { own: 0, next: 0 }).is_err() {
            return room;
        }
    }
    room
}

/// What is told of a run that stopped with so many functions at work, of which the innermost are in the room, and whose calls were
/// answered so.
pub fn stopped_with(
    depth: usize,
    room: Vec<Frame>,
    answers: Answers,
    fuel_use: Option<FuelUse>,
) -> Stopped
    ensures depth { result.depth ≡ depth }
    ensures innermost { result.innermost.items ≡ take depth room.items }
    ensures answers { result.answers ≡ answers }
    ensures fuel_use { result.fuel_use ≡ fuel_use }
{
    let mut innermost = room;
    innermost.truncate(depth);
    Stopped {
        depth,
        innermost,
        answers,
        fuel_use,
    }
}

/// The instruction at which a function stands that has so many inside it and goes on with this one: a caller at its call.
fn instruction_of(inside: usize, next: usize) -> usize
    ensures { result ≡ instruction_of inside next }
{
    if inside == 0 {
        next
    } else {
        next.saturating_sub(1)
    }
}

/// Adds the line of a frame with so many inside it.
fn add_frame(
    text: &mut Vec<u8>,
    bytes: &[u8],
    module: &Module<'_>,
    inside: usize,
    frame: Frame,
) -> io::Result<()>
    ensures { OnOk result ((site : Text) × IsSite bytes.now «module».now frame.own
        (instruction_of inside frame.next) site
        × (text.new.items ≡ text.old.items ++ (codes "frame:" ++ (site ++ codes "\n")))) }
{
    text.write_all(b"frame:")?;
    add_site(
        text,
        bytes,
        module,
        frame.own,
        instruction_of(inside, frame.next),
    )?;
    text.write_all(b"\n")
}

/// Adds a line for each of these frames, the innermost first.
fn add_frames(
    text: &mut Vec<u8>,
    bytes: &[u8],
    module: &Module<'_>,
    frames: &[Frame],
) -> io::Result<()>
    ensures { OnOk result ((lines : Text) × AreFrameLines bytes.now «module».now frames.now lines
        × (text.new.items ≡ text.old.items ++ lines)) }
{
    for inside in 0..frames.len() {
        add_frame(text, bytes, module, inside, frames[inside])?;
    }
    Ok(())
}

/// The lines of a report that tell where a run of a module of these bytes stopped.
fn frame_lines(
    alloc: Global,
    run: &Run<'_>,
    bytes: &[u8],
    module: &Module<'_>,
    stopped: &Stopped,
) -> io::Result<Vec<u8>>
    ensures { IfOk result (λ text. AreLinesOf bytes.now «module».now run.now.frames stopped.now
        text.items) }
{
    let mut text = Vec::new(alloc);
    if run.frames > 0 {
        write!(text, "frames:{}\n", stopped.depth)?;
        add_frames(&mut text, bytes, module, stopped.innermost.as_slice())?;
    }
    Ok(text)
}

/// Adds the line of an errno that so many calls were answered with, if any were.
fn add_answer(text: &mut Vec<u8>, errno: u32, count: u64) -> io::Result<()>
    ensures { OnOk result (text.new.items ≡ text.old.items ++ answer_line errno count) }
{
    if count == 0 {
        return Ok(());
    }
    write!(text, "answered:{errno} {count} {}\n", errno_text(errno))
}

/// Adds a line for each errno but success that calls were answered with.
fn add_answers(text: &mut Vec<u8>, answers: &Answers) -> io::Result<()>
    ensures { OnOk result (text.new.items ≡ text.old.items ++ answers_text answers.now) }
{
    for errno in 1..answers.len() {
        add_answer(text, errno as u32, answers[errno])?;
    }
    Ok(())
}

/// The lines of a report that tell where a run of a module of these bytes stopped, and behind them how its calls were answered.
fn lines_with_answers(
    alloc: Global,
    run: &Run<'_>,
    bytes: &[u8],
    module: &Module<'_>,
    stopped: &Stopped,
) -> io::Result<Vec<u8>>
    ensures { IfOk result (λ text. HasLines bytes.now «module».now run.now.frames stopped.now
        text.items) }
{
    let mut text = frame_lines(alloc, run, bytes, module, stopped)?;
    add_answers(&mut text, &stopped.answers)?;
    Ok(text)
}

/// The lines of the report of a run that didn't begin; none where it tells no frames.
pub fn no_lines(alloc: Global, run: &Run<'_>) -> Vec<u8>
    ensures { AreLinesOfNone result.items }
{
    let text: &[u8] = if run.frames == 0 { b"" } else { b"frames:0\n" };
    match Vec::from_slice(alloc, text) {
        Ok(text) => text,
        Err(_) => Vec::new(alloc),
    }
}

/// The lines of a report that tell where a run stopped, and how its calls were answered; none where memory is refused.
pub fn lines_of(
    alloc: Global,
    run: &Run<'_>,
    bytes: &[u8],
    module: &Module<'_>,
    stopped: &Option<Stopped>,
) -> Vec<u8>
    ensures { AreLinesBy bytes.now «module».now run.now.frames stopped.now result.items }
{
    let Some(stopped) = stopped else {
        return no_lines(alloc, run);
    };
    match lines_with_answers(alloc, run, bytes, module, stopped) {
        Ok(text) => text,
        Err(_) => Vec::new(alloc),
    }
}

/// Prints the line of a frame.
fn tell_frame<W: Outlet>(err: &mut W, site: &str)
    ensures { AppendsSome (W.contents err.old) (W.contents err.new) }
{
    say(err, b"sandbox: at ");
    say(err, site.as_bytes());
    say(err, b"\n");
}

/// Prints a line of a report that tells of a frame as a line of the program's own.
fn tell_site<W: Outlet>(err: &mut W, line: &str)
    ensures { AppendsSome (W.contents err.old) (W.contents err.new) }
{
    match line.strip_prefix("frame:") {
        Some(site) => tell_frame(err, site),
        None => say(err, b""),
    }
}

/// Prints the lines of a report that tell of frames as lines of the program's own.
fn tell_lines<W: Outlet>(err: &mut W, lines: &str)
    ensures { AppendsSome (W.contents err.old) (W.contents err.new) }
{
    for line in lines.lines() {
        tell_site(err, line);
    }
}

/// Prints how many functions were at work beside those that are told.
fn tell_others<W: Outlet>(err: &mut W, depth: usize, told: usize)
    ensures { AppendsSome (W.contents err.old) (W.contents err.new) }
{
    if told > 0 && depth > told {
        tell(err, format_args!("and {} more", depth - told));
    }
}

/// Prints where a run stopped, by the lines that its report has of it.
pub fn tell_frames<W: Outlet>(err: &mut W, stopped: &Option<Stopped>, lines: &[u8])
    ensures { AppendsSome (W.contents err.old) (W.contents err.new) }
{
    match (stopped, str::from_utf8(lines)) {
        (Some(stopped), Ok(lines)) => {
            tell_lines(err, lines);
            tell_others(err, stopped.depth, stopped.innermost.len());
        }
        _ => say(err, b""),
    }
}
