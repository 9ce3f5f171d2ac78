//! What a module is, printed.

ghost use Rattle.std.specs.Prelude.{◌≡◌, Bool, IfErr, IfOk};
ghost use Rattle.std.specs.IoError.{error_kind};
ghost use Rattle.stream_answers.specs.Hearing.{Hears, Moves, Refuses};
ghost use Rattle.sandbox_runs.specs.Flushing.{Answered};
ghost use Rattle.sandbox_runs.specs.Inspecting.{Inspects, refused_status, survey_status};
ghost use Rattle.sandbox_telling.specs.Streams.{AppendsSome};

use sandbox_inspect::survey;
use sandbox_refusals::serving::Served;
use sandbox_runs::program::{Executed, FAULT, left_with, out_of_memory, refuse_file};
use sandbox_telling::streams::Streams;
use std::alloc::Global;
use std::io;
use std::io::ErrorKind;
use stream_answers::Outlet;
use wasm_module::{LoadFault, Profile};

/// Prints the line of memory or of an output that is refused, and gives the status.
fn refuse_survey<W: Outlet>(err: &mut W, error: &io::Error) -> u8
    ensures status { result ≡ refused_status (error_kind error.now) }
    ensures line { AppendsSome (W.contents err.old) (W.contents err.new) }
{
    if error.kind() == ErrorKind::OutOfMemory {
        return out_of_memory(err);
    }
    refuse_file(err)
}

/// Prints the line of memory or of an output that is refused, and gives the status. A module that is refused has no line of
/// its own: it stands on the output.
fn survey_ended<W: Outlet>(
    surveyed: io::Result<Result<(), LoadFault>>,
    flushed: bool,
    err: &mut W,
) -> u8
    ensures told { IfOk surveyed (λ outcome. result ≡ survey_status outcome flushed) }
    ensures refused { IfErr surveyed (λ e. result ≡ refused_status (error_kind e)) }
    ensures line { AppendsSome (W.contents err.old) (W.contents err.new) }
{
    match surveyed {
        Ok(_) if !flushed => refuse_file(err),
        Ok(Ok(())) => 0,
        Ok(Err(_)) => FAULT,
        Err(error) => refuse_survey(err, &error),
    }
}

/// Prints what the bytes of a module are, with what the profile takes, or why they are refused, and gives the status with the streams.
pub(crate) fn inspect<R: Drop, W1: Outlet + Drop, W2: Outlet + Drop>(
    alloc: Global,
    bytes: &[u8],
    profile: Profile,
    given: Streams<R, W1, W2>,
) -> Executed<(), R, W1, W2>
    ensures tells { (failed : Bool) × Inspects profile bytes.now (W1.contents given.out)
        (W1.contents result.out) failed result.flushed result.status
        × ((printed : W1) × Hears (Moves W1.took) (Refuses W1.took W1.refused) failed given.out
        printed) }
    ensures input { result.input ≡ given.input }
    ensures err { AppendsSome (W2.contents given.err) (W2.contents result.err) }
    ensures answered { Answered W1.flushed W1.refuses result.flushed result.out }
{
    let mut given = given;
    let surveyed = survey(alloc, &Served, bytes, profile, &mut given.out);
    let flushed = given.out.try_flush();
    let status = survey_ended(surveyed, flushed, &mut given.err);
    left_with(status, None, flushed, (), given)
}
