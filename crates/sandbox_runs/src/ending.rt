//! How what is no run ends: the line of its failure, and its status.

ghost use Rattle.std.specs.Prelude.{◌≡◌, ℕ, None};
ghost use Rattle.std.specs.Io.KnownBytes.{Keeps};
ghost use Rattle.sandbox_runs.specs.Flushing.{Answered};
ghost use Rattle.sandbox_runs.specs.Status.{ended_status, export_status, failure_status, import_status, why_status};
ghost use Rattle.sandbox_telling.specs.Streams.{AppendsSome};

use crate::program::{Executed, FAULT, left_with, out_of_memory, refuse_file};
use meanings::{errno_cure, errno_text};
use sandbox_telling::explaining::{About, tell_bytes, tell_of_output, tell_words};
use sandbox_telling::output::{tell, tell_of_member};
use sandbox_telling::streams::Streams;
use stream_answers::Outlet;
use tar_stream::TarFault;
use vol_commands::{ExportFailure, Failure, ImportFailure};
use vol_sector::VolumeFault;
use vol_tar::{Refusal, TarReason};

/// Why what is no run ends without success.
pub trait Failed {
    // the status that it ends with
    ghost fails_with: { Self → ℕ };

    /// Prints its line, what it means for this command, and gives the status.
    fn say<W: Outlet>(&self, err: &mut W, about: &About<'_>) -> u8
        ensures status { result ≡ fails_with self.now }
        ensures line { AppendsSome (W.contents err.old) (W.contents err.new) };
}

/// Prints the line of a failure, and gives the status.
fn say_failure<W: Outlet>(err: &mut W, failure: Failure) -> u8
    ensures status { result ≡ failure_status failure }
    ensures line { AppendsSome (W.contents err.old) (W.contents err.new) }
{
    match failure {
        Failure::Volume(VolumeFault::Memory) => out_of_memory(err),
        failure => {
            tell(err, failure);
            FAULT
        }
    }
}

/// Prints what a failure means for a command.
fn tell_of_failure<W: Outlet>(err: &mut W, failure: Failure, about: &About<'_>)
    ensures { AppendsSome (W.contents err.old) (W.contents err.new) }
{
    match failure {
        Failure::Volume(fault) => about.tell_of_volume(err, fault),
        Failure::Tree(errno) => about.tell_of_errno(err, errno),
        Failure::Stream => about.tell_of_stream(err),
    }
}

impl Failed for Failure {
    ghost fails_with = { failure_status };

    fn say<W: Outlet>(&self, err: &mut W, about: &About<'_>) -> u8 {
        let status = say_failure(err, *self);
        tell_of_failure(err, *self, about);
        status
    }
}

impl Failed for ImportFailure {
    ghost fails_with = { import_status };

    fn say<W: Outlet>(&self, err: &mut W, about: &About<'_>) -> u8 {
        match self {
            ImportFailure::Volume(fault) => Failure::Volume(*fault).say(err, about),
            ImportFailure::Path(errno) => Failure::Tree(*errno).say(err, about),
            ImportFailure::Halted(halted) => refuse_member(err, &halted.refusal, about),
        }
    }
}

impl Failed for ExportFailure {
    ghost fails_with = { export_status };

    fn say<W: Outlet>(&self, err: &mut W, about: &About<'_>) -> u8 {
        match self {
            ExportFailure::Volume(fault) => Failure::Volume(*fault).say(err, about),
            ExportFailure::Path(errno) => Failure::Tree(*errno).say(err, about),
            ExportFailure::Stopped(why) => refuse_why(err, *why, about),
        }
    }
}

/// Prints the line of an archive that is refused, and gives the status.
fn say_why<W: Outlet>(err: &mut W, why: TarReason) -> u8
    ensures status { result ≡ why_status why }
    ensures line { AppendsSome (W.contents err.old) (W.contents err.new) }
{
    match why {
        TarReason::Memory => out_of_memory(err),
        why => {
            tell(err, why);
            FAULT
        }
    }
}

/// Prints why an archive is refused, and gives the status.
fn refuse_why<W: Outlet>(err: &mut W, why: TarReason, about: &About<'_>) -> u8
    ensures status { result ≡ why_status why }
    ensures line { AppendsSome (W.contents err.old) (W.contents err.new) }
{
    let status = say_why(err, why);
    tell_of_archive(err, why, about);
    status
}

/// Prints what it means that an archive is refused so.
fn tell_of_archive<W: Outlet>(err: &mut W, why: TarReason, about: &About<'_>)
    ensures { AppendsSome (W.contents err.old) (W.contents err.new) }
{
    match why {
        TarReason::Tree(errno) => about.tell_of_errno(err, errno),
        TarReason::Stream => about.tell_of_stream(err),
        TarReason::Cut | TarReason::Tar(TarFault::NoHeader | TarFault::WrongChecksum) => {
            let name = about.input();
            tell_words(
                err,
                name,
                "it is no tar stream, or a part of one",
                "tar -c makes one",
            );
        }
        _ => {}
    }
}

/// Prints why a member is refused, behind its name where that is known, and gives the status.
fn refuse_member<W: Outlet>(err: &mut W, refusal: &Refusal, about: &About<'_>) -> u8
    ensures status { result ≡ why_status refusal.now.why }
    ensures line { AppendsSome (W.contents err.old) (W.contents err.new) }
{
    match (&refusal.name, refusal.why) {
        (Some(name), why) if !matches!(why, TarReason::Memory) => {
            tell_of_member(err, name.as_slice(), why);
            tell_of_refused_member(err, name.as_slice(), why);
            FAULT
        }
        (_, why) => refuse_why(err, why, about),
    }
}

/// Prints what it means that a member is refused so.
fn tell_of_refused_member<W: Outlet>(err: &mut W, name: &[u8], why: TarReason)
    ensures { AppendsSome (W.contents err.old) (W.contents err.new) }
{
    match why {
        TarReason::Tree(errno) => {
            let number = u32::from(errno.number());
            tell_bytes(err, name, errno_text(number), errno_cure(number));
        }
        TarReason::Tar(TarFault::Link) => tell_bytes(
            err,
            name,
            "a volume has files and directories alone",
            "tar --dereference takes what a link leads to",
        ),
        _ => {}
    }
}

/// Prints the line of an output that can't be flushed, and gives its status.
fn refuse_output<W: Outlet>(err: &mut W) -> u8
    ensures status { result ≡ 124 }
    ensures line { AppendsSome (W.contents err.old) (W.contents err.new) }
{
    let status = refuse_file(err);
    tell_of_output(err, "standard output");
    status
}

/// Ends what is no run: flushes the output, prints a failure's line, and gives the status with the device and the streams.
pub fn ended<X: Drop, F: Failed + Drop, D: Drop, R: Drop, W1: Outlet + Drop, W2: Outlet + Drop>(
    done: Result<X, F>,
    device: D,
    given: Streams<R, W1, W2>,
    about: &About<'_>,
) -> Executed<D, R, W1, W2>
    ensures status { result.status ≡ ended_status F.fails_with done result.flushed }
    ensures summary { result.summary ≡ None }
    ensures device { result.device ≡ device }
    ensures input { result.input ≡ given.input }
    ensures out { Keeps (W1.contents given.out) (W1.contents result.out) }
    ensures err { AppendsSome (W2.contents given.err) (W2.contents result.err) }
    ensures answered { Answered W1.flushed W1.refuses result.flushed result.out }
{
    let mut given = given;
    let flushed = given.out.try_flush();
    let status = match done {
        Ok(_) if flushed => 0,
        Ok(_) => refuse_output(&mut given.err),
        Err(failed) => failed.say(&mut given.err, about),
    };
    left_with(status, None, flushed, device, given)
}
