//! Paths of the command line, in a volume: each begins with a slash, and goes from the root.

ghost use Rattle.std.specs.Prelude.{◌≡◌, IfOk, false};
ghost use Rattle.path_walk.specs.Walk.{Asked, GivesBoth, IsEntryOf, IsReached};
ghost use Rattle.vol_tree.specs.Calls.{directory_at};
ghost use Rattle.vol_tree.specs.Clauses.{is_io};
ghost use Rattle.vol_commands.specs.Tasks.{reached, serial_named};
ghost use Rattle.vol_commands.specs.Tasks.{entry_named, directory_named, file_named};
ghost use Rattle.vol_commands.specs.internal.Reaching.{Answered};
ghost use Rattle.vol_commands.specs.internal.Working.{IsWorking};

use path_walk::{Reached, is_directory, walk_from_root};
use vol_sector::Device;
use vol_tree::{Errno, Serial, Volume};

/// What a path reaches, and whether it wants a directory. One that doesn't begin with a slash is
/// refused with 28; of the rest all is said by `Path::read` and `walk`, and an empty rest is the
/// root.
pub(crate) fn reached<'p, D: Device>(
    volume: &mut Volume<D>,
    path: &'p str,
) -> Result<(Reached<'p>, bool), Errno>
    requires { IsWorking volume.old }
    ensures answer { D.honest volume.old.device
        → GivesBoth (reached volume.old.tree path.now) result }
    ensures asked { Asked D.honest D.disk D.size D.failures D.goes_on volume.old volume.new
        (is_io result) }
    ensures reached { IfOk result (λ r. IsReached D.honest volume.new r.0) }
{
    match path.as_bytes() {
        [b'/', rest @ ..] => walk_from_root(volume, rest),
        _ => Err(Errno::Invalid),
    }
}

/// The serial of the entry that a path reaches; where it isn't there, 44.
pub(crate) fn serial_named<D: Device>(volume: &mut Volume<D>, path: &str) -> Result<Serial, Errno>
    requires { IsWorking volume.old }
    ensures answer { D.honest volume.old.device
        → Answered (serial_named volume.old.tree path.now) result }
    ensures asked { Asked D.honest D.disk D.size D.failures D.goes_on volume.old volume.new
        (is_io result) }
    ensures entry { IfOk result (IsEntryOf D.honest volume.new) }
{
    match reached(volume, path)? {
        (Reached::Found(serial), _) => Ok(Serial::new(serial)),
        (Reached::Missing { .. }, _) => Err(Errno::NotFound),
    }
}

/// The entry that a path reaches, and whether it is a directory.
pub(crate) fn entry_named<D: Device>(
    volume: &mut Volume<D>,
    path: &str,
) -> Result<(Serial, bool), Errno>
    requires { IsWorking volume.old }
    ensures answer { D.honest volume.old.device
        → Answered (entry_named volume.old.tree path.now) result }
    ensures asked { Asked D.honest D.disk D.size D.failures D.goes_on volume.old volume.new
        (is_io result) }
    ensures entry { IfOk result (λ r. IsEntryOf D.honest volume.new r.0) }
    ensures kind { D.honest volume.old.device
        → IfOk result (λ r. r.1 ≡ directory_at volume.new.tree r.0) }
{
    let serial = serial_named(volume, path)?;
    let is_directory = is_directory(volume, serial)?;
    Ok((serial, is_directory))
}

/// The directory that a path reaches; of a file it is refused with 54.
pub(crate) fn directory_named<D: Device>(
    volume: &mut Volume<D>,
    path: &str,
) -> Result<Serial, Errno>
    requires { IsWorking volume.old }
    ensures answer { D.honest volume.old.device
        → Answered (directory_named volume.old.tree path.now) result }
    ensures asked { Asked D.honest D.disk D.size D.failures D.goes_on volume.old volume.new
        (is_io result) }
    ensures entry { IfOk result (IsEntryOf D.honest volume.new) }
{
    match entry_named(volume, path)? {
        (serial, true) => Ok(serial),
        (_, false) => Err(Errno::NotDirectory),
    }
}

/// The file that a path reaches; of a directory it is refused with 31.
pub(crate) fn file_named<D: Device>(volume: &mut Volume<D>, path: &str) -> Result<Serial, Errno>
    requires { IsWorking volume.old }
    ensures answer { D.honest volume.old.device
        → Answered (file_named volume.old.tree path.now) result }
    ensures asked { Asked D.honest D.disk D.size D.failures D.goes_on volume.old volume.new
        (is_io result) }
    ensures entry { IfOk result (IsEntryOf D.honest volume.new) }
    ensures file { D.honest volume.old.device
        → IfOk result (λ serial. directory_at volume.new.tree serial ≡ false) }
{
    match entry_named(volume, path)? {
        (serial, false) => Ok(serial),
        (_, true) => Err(Errno::IsDirectory),
    }
}
