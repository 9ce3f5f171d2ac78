//! Which file of the system is open, whatever it is called.

ghost use Rattle.std.specs.Prelude.{◌⊎◌, MatchResult, OnErr, codes};
ghost use Rattle.sandbox_device.specs.FileEvidence.{WasRefused};
ghost use Rattle.sandbox_device.specs.Named.{AreOfStreams, HasIdentity, HasLost, NamesIdentity};

use std::fs::{File, Metadata};
use std::io;
use std::io::ErrorKind;
use std::os::unix::fs::MetadataExt;
use std::rt::Files;

/// A regular file: the device that it lies on, and its number there.
#[derive(Clone, Copy, PartialEq, Eq, PartialOrd, Ord)]
pub struct Identity {
    device: u64,
    number: u64,
}

/// The regular file that has these metadata.
fn regular(found: &Metadata) -> Option<Identity> {
    if !found.is_file() {
        return None;
    }
    Some(Identity {
        device: found.dev(),
        number: found.ino(),
    })
}

/// The regular file that a path leads to.
fn at<R: Files>(files: &R, path: &str) -> Option<Identity>
    ensures { NamesIdentity path.now result }
{
    match files.metadata(path) {
        Ok(found) => regular(&found),
        Err(_) => None,
    }
}

impl Identity {
    /// Which regular file this is; none where it is none. It fails where the system doesn't tell.
    pub fn of(file: &File) -> io::Result<Option<Identity>>
        ensures { MatchResult result (HasIdentity file.now) (λ _. WasRefused file.now file.now) }
    {
        Ok(regular(&file.metadata()?))
    }

    /// The regular file of this name, behind all links; none where it is none, or none is there.
    pub fn of_path<R: Files>(files: &R, path: &str) -> Option<Identity>
        ensures { NamesIdentity path.now result }
    {
        at(files, path)
    }

    /// The regular file that is open as standard error; none where it is none, or `/proc` isn't there.
    pub fn of_errors<R: Files>(files: &R) -> Option<Identity>
        ensures { NamesIdentity (codes "/proc/self/fd/2") result }
    {
        at(files, "/proc/self/fd/2")
    }

    /// The regular files that are open as the standard streams. It asks `/proc`, which alone tells it without opening one: where
    /// there is none, none is known.
    pub fn of_streams<R: Files>(files: &R) -> [Option<Identity>; 3]
        ensures { AreOfStreams result }
    {
        [
            at(files, "/proc/self/fd/0"),
            at(files, "/proc/self/fd/1"),
            at(files, "/proc/self/fd/2"),
        ]
    }
}

/// Whether this is a regular file. It fails where the system doesn't tell.
pub(crate) fn is_regular(file: &File) -> io::Result<bool>
    ensures { OnErr result (WasRefused file.now file.now) }
{
    Ok(file.metadata()?.is_file())
}

/// Refuses a regular file in whose place another one has come under this name.
pub(crate) fn refuse_where_replaced<R: Files>(files: &R, path: &str, file: &File) -> io::Result<()>
    ensures { OnErr result (WasRefused file.now file.now ⊎ HasLost path.now file.now) }
{
    match Identity::of(file)? {
        Some(identity) if Identity::of_path(files, path) != Some(identity) => {
            Err(io::Error::from(ErrorKind::WouldBlock))
        }
        _ => Ok(()),
    }
}
