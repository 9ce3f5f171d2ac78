//! What is said in words where a command is refused, in a line behind the fixed one: what it is about, what its number means, and
//! what helps.

ghost use Rattle.sandbox_telling.specs.Streams.{AppendsSome};

use crate::formatting::most_sectors;
use crate::output::{say, say_name, tell};
use crate::work::VolumeWork;
use meanings::{errno_cure, errno_text, fault_cure, fault_text};
use sandbox_args::{Change, Task};
use sandbox_report::Fault;
use std::io::ErrorKind;
use stream_answers::Outlet;
use vol_inode::Version;
use vol_sector::VolumeFault;
use vol_tree::Errno;

/// The fault of a number of sectors or slots that is out of its range.
const RANGE: u32 = 36;

/// What a command on a volume is about, as its words have it.
#[derive(Clone, Copy)]
pub struct About<'a> {
    /// The volume's file.
    pub file: &'a str,
    pub work: VolumeWork<'a>,
    /// The file that it reads or writes in the place of a standard stream.
    pub stream: Option<&'a str>,
}

/// Prints a part of a line behind another one, where it has bytes.
pub fn say_part<W: Outlet>(err: &mut W, part: &[u8])
    ensures { AppendsSome (W.contents err.old) (W.contents err.new) }
{
    if part.is_empty() {
        return say(err, b"");
    }
    say(err, b": ");
    say(err, part);
}

/// Prints what a name means, and what helps, where that is known, as the end of a line.
pub fn say_meaning<W: Outlet>(err: &mut W, meaning: &str, cure: &str)
    ensures { AppendsSome (W.contents err.old) (W.contents err.new) }
{
    say_part(err, meaning.as_bytes());
    say_part(err, cure.as_bytes());
    say(err, b"\n");
}

/// Prints a line about something that has a name.
pub fn tell_words<W: Outlet>(err: &mut W, name: &str, meaning: &str, cure: &str)
    ensures { AppendsSome (W.contents err.old) (W.contents err.new) }
{
    tell_bytes(err, name.as_bytes(), meaning, cure);
}

/// The same about a name that may not be text.
pub fn tell_bytes<W: Outlet>(err: &mut W, name: &[u8], meaning: &str, cure: &str)
    ensures { AppendsSome (W.contents err.old) (W.contents err.new) }
{
    say(err, b"sandbox: ");
    say_name(err, name);
    say_meaning(err, meaning, cure);
}

/// Prints what a fault of a file means.
pub fn tell_of_fault<W: Outlet>(err: &mut W, name: &str, fault: Fault)
    ensures { AppendsSome (W.contents err.old) (W.contents err.new) }
{
    match fault.number() {
        Some(number) => tell_words(err, name, fault_text(number), fault_cure(number)),
        None => tell_words(
            err,
            name,
            "memory was refused",
            "free some, or raise its bound (ulimit -v)",
        ),
    }
}

/// Prints why a file of the host is refused, by the kind of the error.
pub fn tell_of_kind<W: Outlet>(err: &mut W, name: &str, kind: ErrorKind)
    ensures { AppendsSome (W.contents err.old) (W.contents err.new) }
{
    let (meaning, cure) = match kind {
        ErrorKind::NotFound => ("there is no such file or folder", "look at the path"),
        ErrorKind::PermissionDenied => ("no right to open it", "look at its owner and mode"),
        ErrorKind::NotADirectory => ("a name before the last is no folder", "look at the path"),
        ErrorKind::IsADirectory => ("it is a folder", "name a file"),
        ErrorKind::WouldBlock => (
            "in use, another process has it locked",
            "wait until that ends, or take a copy",
        ),
        ErrorKind::ResourceBusy => (
            "these words name it twice, and a file that is written has no other part",
            "name another file",
        ),
        ErrorKind::OutOfMemory => (
            "memory was refused",
            "free some, or raise its bound (ulimit -v)",
        ),
        ErrorKind::InvalidData => ("it is no text", "write it in UTF-8"),
        ErrorKind::FileTooLarge => (
            "it has more bytes than are read of such a file, or than a file may have",
            "take a part of it, or raise that bound (ulimit -f)",
        ),
        ErrorKind::StorageFull => ("no space is left on its disk", "free some"),
        _ => (
            "it can't be opened, read or written",
            "look at the disk, its free space and its rights",
        ),
    };
    tell_words(err, name, meaning, cure);
}

/// The paths that a command names in its volume: the second one is that which an entry gets.
fn paths<'a>(work: VolumeWork<'a>) -> (&'a str, Option<&'a str>) {
    match work {
        VolumeWork::Import { path } | VolumeWork::Export { path } => (path, None),
        VolumeWork::Task(task) => match task {
            Task::List { path }
            | Task::ListAs { path, .. }
            | Task::Get { path }
            | Task::Put { path }
            | Task::PutWhole { path }
            | Task::Stat { path } => (path, None),
            Task::Change(change) => match change {
                Change::Move { from, to } => (from, Some(to)),
                Change::MakeDirectory { path }
                | Change::Remove { path }
                | Change::RemoveAll { path } => (path, None),
            },
            Task::Check | Task::Upgrade { .. } => ("/", None),
        },
        VolumeWork::Format { .. } => ("/", None),
    }
}

/// Whether a command needs the standard input; else it needs the output.
fn is_of_input(work: VolumeWork<'_>) -> bool {
    matches!(
        work,
        VolumeWork::Import { .. } | VolumeWork::Task(Task::Put { .. } | Task::PutWhole { .. })
    )
}

/// Prints that an output can't be written.
pub fn tell_of_output<W: Outlet>(err: &mut W, name: &str)
    ensures { AppendsSome (W.contents err.old) (W.contents err.new) }
{
    tell_words(
        err,
        name,
        "it can't be written",
        "look at the free space, and at who reads it",
    );
}

/// Prints a line about two paths.
fn tell_of_two<W: Outlet>(err: &mut W, from: &str, to: &str, meaning: &str, cure: &str)
    ensures { AppendsSome (W.contents err.old) (W.contents err.new) }
{
    say(err, b"sandbox: ");
    say_name(err, from.as_bytes());
    say(err, b" to ");
    say_name(err, to.as_bytes());
    say_meaning(err, meaning, cure);
}

impl<'a> About<'a> {
    /// With the standard streams.
    pub fn of(file: &'a str, work: VolumeWork<'a>) -> About<'a> {
        About {
            file,
            work,
            stream: None,
        }
    }

    /// What it reads.
    pub fn input(&self) -> &'a str {
        match self.stream {
            Some(name) => name,
            None => "standard input",
        }
    }

    /// What it writes.
    fn output(&self) -> &'a str {
        match self.stream {
            Some(name) => name,
            None => "standard output",
        }
    }

    /// Prints what an errno means that its paths were answered with.
    pub fn tell_of_errno<W: Outlet>(&self, err: &mut W, errno: Errno)
        ensures { AppendsSome (W.contents err.old) (W.contents err.new) }
    {
        let number = u32::from(errno.number());
        let (meaning, cure) = (errno_text(number), errno_cure(number));
        match (self.work, paths(self.work)) {
            (VolumeWork::Format { .. }, _) => tell_words(
                err,
                self.file,
                "a volume stands there",
                "without --new it is made anew, and what it holds is lost",
            ),
            (_, (path, None)) => tell_words(err, path, meaning, cure),
            (_, (path, Some(to))) => tell_of_two(err, path, to, meaning, cure),
        }
    }

    /// Prints why its volume is refused.
    pub fn tell_of_volume<W: Outlet>(&self, err: &mut W, fault: VolumeFault)
        ensures { AppendsSome (W.contents err.old) (W.contents err.new) }
    {
        let fault = Fault::Volume(fault);
        match self.work {
            VolumeWork::Format {
                sectors,
                slots,
                version,
                ..
            } if fault.number() == Some(RANGE) => tell_of_range(err, version, sectors, slots),
            _ => tell_of_fault(err, self.file, fault),
        }
    }

    /// Prints that its stream failed.
    pub fn tell_of_stream<W: Outlet>(&self, err: &mut W)
        ensures { AppendsSome (W.contents err.old) (W.contents err.new) }
    {
        if is_of_input(self.work) {
            let name = self.input();
            tell_words(err, name, "it can't be read", "look at who writes it");
        } else {
            let name = self.output();
            tell_of_output(err, name);
        }
    }
}

/// Prints which number of a volume that is to be formatted is out of its range.
fn tell_of_range<W: Outlet>(err: &mut W, version: Version, sectors: u32, slots: u32)
    ensures { AppendsSome (W.contents err.old) (W.contents err.new) }
{
    let meaning = fault_text(RANGE);
    let most = most_sectors(version);
    let slots_most = match version {
        Version::One | Version::Two => 8_192,
        Version::Four => 1_048_576,
    };
    if (137..=most).contains(&sectors) {
        tell(
            err,
            format_args!(
                "{slots} slots: {meaning}: 1 to {slots_most} slots, and fewer than SECTORS - 122"
            ),
        );
    } else {
        tell(
            err,
            format_args!("{sectors} sectors: {meaning}: 137 to {most} sectors"),
        );
    }
}
