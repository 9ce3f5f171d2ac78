//! Files of the system, opened so that none stands where a standard stream does, and that none is cut before it is written.

ghost use Rattle.std.specs.Prelude.{◌≡◌, IfOk, MatchResult, None, OnErr, OnOk, false, take};
ghost use Rattle.std.specs.Fs.{asks_truncate};
ghost use Rattle.std.specs.Io.{WritesAtMost};
ghost use Rattle.std.specs.Io.KnownBytes.{Keeps, WriteAppends};
ghost use Rattle.sandbox_device.specs.FileEvidence.{WasRefused};
ghost use Rattle.sandbox_device.specs.Named.{HasIdentity, IsHindered, IsNotOpened, WasNotOpened, WasOpened};
ghost use Rattle.sandbox_device.specs.Opening.{StandsApart};
ghost use Rattle.sandbox_device.specs.Written.{CutsOnce, Flushes, Puts, Refuses, RefusesCut, WasCut, WasFlushed, WasPut};

use crate::identity::{Identity, is_regular};
use crate::written_file::WrittenFile;
use std::fs::{File, OpenOptions};
use std::io;
use std::io::{ErrorKind, Write};
use std::os::fd::AsRawFd;
use std::rt::Files;
use stream_answers::Outlet;

/// The last of the numbers of the standard streams.
const LAST_STANDARD: i32 = 2;

/// Asks the system for the file of a name.
fn open_named<R: Files<File = File>>(files: &R, how: &OpenOptions, path: &str) -> io::Result<File>
    ensures { MatchResult result (WasOpened path.now) (λ _. WasNotOpened path.now) }
{
    how.open(files, path)
}

/// Another number of a file that was opened under this name.
fn renumbered(file: &File, _path: &str) -> io::Result<File>
    requires { WasOpened _path.now file.now }
    ensures { MatchResult result (WasOpened _path.now) (λ _. WasNotOpened _path.now) }
{
    file.try_clone()
}

/// Opens a file with a number of its own. Where a standard stream is closed, the system gives its number to the next file that
/// is opened: that one gets another number, and the stream stays closed. No file is cut as it is opened.
pub(crate) fn open_apart<R: Files<File = File>>(
    files: &R,
    how: &OpenOptions,
    path: &str,
) -> io::Result<File>
    requires { asks_truncate how.now ≡ false }
    ensures apart { IfOk result StandsApart }
    ensures opened { IfOk result (WasOpened path.now) }
    ensures refused { OnErr result (IsNotOpened path.now) }
{
    let file = open_named(files, how, path)?;
    if file.as_raw_fd() > LAST_STANDARD {
        return Ok(file);
    }
    let file = renumbered(&file, path)?;
    if file.as_raw_fd() > LAST_STANDARD {
        return Ok(file);
    }
    Err(io::Error::from(ErrorKind::Unsupported))
}

/// Opens a file to read. Where it can be, it is locked, so that no run that would write it begins meanwhile; a lock that
/// another process holds refuses nothing.
pub fn open_to_read<R: Files<File = File>>(files: &R, path: &str) -> io::Result<File>
    ensures apart { IfOk result StandsApart }
    ensures opened { IfOk result (WasOpened path.now) }
    ensures refused { OnErr result (IsHindered path.now) }
{
    let file = open_apart(files, OpenOptions::new().read(true), path)?;
    if is_regular(&file)? {
        let _ = file.try_lock_shared();
    }
    Ok(file)
}

/// Takes a lock that others may have too.
fn share_lock(file: &File) -> io::Result<()>
    ensures { OnErr result (WasRefused file.now file.now) }
{
    file.try_lock_shared()?;
    Ok(())
}

/// Opens the file of a volume that is only read. It is refused where another process has locked it to write.
pub fn open_image<R: Files<File = File>>(files: &R, path: &str) -> io::Result<File>
    ensures apart { IfOk result StandsApart }
    ensures opened { IfOk result (WasOpened path.now) }
    ensures refused { OnErr result (IsHindered path.now) }
{
    let image = open_apart(files, OpenOptions::new().read(true), path)?;
    share_lock(&image)?;
    Ok(image)
}

/// A file that is written from its beginning. What it had stays until it is written or flushed for the first time.
#[derive(Drop)]
pub struct OutputOn<F> {
    file: F,
    is_new: bool,
    is_cut: bool,
}

/// Such a file of the system.
#[derive(Drop)]
pub struct FileOutput {
    on: OutputOn<File>,
}

/// A file that wasn't there, or the one that is: and whether it was made.
fn made_or_opened<R: Files<File = File>>(files: &R, path: &str) -> io::Result<(File, bool)>
    ensures { MatchResult result (λ it. StandsApart it.0 × WasOpened path.now it.0)
        (λ _. IsNotOpened path.now) }
{
    let made = open_apart(files, OpenOptions::new().write(true).create_new(true), path);
    match made {
        Ok(file) => Ok((file, true)),
        Err(error) if error.kind() == ErrorKind::AlreadyExists => {
            let mut how = OpenOptions::new();
            how.write(true).create(true);
            Ok((open_apart(files, &how, path)?, false))
        }
        Err(error) => Err(error),
    }
}

impl<F: WrittenFile + Drop> OutputOn<F> {
    /// Locks a file that was opened to write, and does nothing else to it.
    pub fn new(file: F, is_new: bool) -> io::Result<OutputOn<F>>
        ensures { MatchResult result (λ it. F.locked file
            × (it ≡ record { file = file; is_new = is_new; is_cut = false }))
            (λ _. F.refused file file) }
    {
        file.take_write_lock()?;
        Ok(OutputOn {
            file,
            is_new,
            is_cut: false,
        })
    }

    /// Cuts it to nothing, if that wasn't done. What has no length, as a pipe or a terminal, stays as it is.
    pub fn cut(&mut self) -> io::Result<()>
        ensures { MatchResult result (λ _. CutsOnce F.cut self.old self.new)
            (λ _. RefusesCut F.refused self.old self.new) }
    {
        if !self.is_cut {
            self.file.cut_to_nothing()?;
            self.is_cut = true;
        }
        Ok(())
    }
}

impl<F: WrittenFile + Drop> Write for OutputOn<F> {
    fn write(&mut self, buf: &[u8]) -> io::Result<usize>
        ensures bound { WritesAtMost result buf.now }
        ensures bytes { WriteAppends None None result buf.now }
        ensures puts { IfOk result (λ n. Puts F.cut F.wrote self.old (take n buf.now) self.new) }
        ensures refused { OnErr result (Refuses F.cut F.refused self.old self.new) }
    {
        self.cut()?;
        self.file.put(buf)
    }

    fn flush(&mut self) -> io::Result<()>
        ensures bytes { Keeps None None }
        ensures flushes { OnOk result (Flushes F.cut F.flushed self.old self.new) }
        ensures refused { OnErr result (Refuses F.cut F.refused self.old self.new) }
    {
        self.cut()?;
        self.file.flush_all()
    }
}

impl FileOutput {
    /// Opens a file to write, or makes it, and locks it where it can be. It is refused where another use of it has locked it.
    pub fn open<R: Files<File = File>>(files: &R, path: &str) -> io::Result<FileOutput>
        ensures opened { IfOk result (λ it. StandsApart it.on.file × WasOpened path.now it.on.file
            × (it.on.is_cut ≡ false)) }
        ensures refused { OnErr result (IsHindered path.now) }
    {
        let (file, is_new) = made_or_opened(files, path)?;
        let on = OutputOn::new(file, is_new)?;
        Ok(FileOutput { on })
    }

    /// Whether it wasn't there before.
    pub fn is_new(&self) -> bool
        ensures { result ≡ self.now.on.is_new }
    {
        self.on.is_new
    }

    /// Which file it is, if it is a regular one.
    pub fn identity(&self) -> io::Result<Option<Identity>>
        ensures { MatchResult result (HasIdentity self.now.on.file)
            (λ _. WasRefused self.now.on.file self.now.on.file) }
    {
        self.on.file.which()
    }

    /// Cuts it as `OutputOn::cut` does.
    pub fn cut(&mut self) -> io::Result<()>
        ensures { MatchResult result (λ _. CutsOnce WasCut self.old.on self.new.on)
            (λ _. RefusesCut WasRefused self.old.on self.new.on) }
    {
        self.on.cut()
    }
}

impl Write for FileOutput {
    fn write(&mut self, buf: &[u8]) -> io::Result<usize>
        ensures bound { WritesAtMost result buf.now }
        ensures bytes { WriteAppends None None result buf.now }
        ensures puts { IfOk result (λ n. Puts WasCut WasPut self.old.on (take n buf.now)
            self.new.on) }
        ensures refused { OnErr result (Refuses WasCut WasRefused self.old.on self.new.on) }
    {
        self.on.write(buf)
    }

    fn flush(&mut self) -> io::Result<()>
        ensures bytes { Keeps None None }
        ensures flushes { OnOk result (Flushes WasCut WasFlushed self.old.on self.new.on) }
        ensures refused { OnErr result (Refuses WasCut WasRefused self.old.on self.new.on) }
    {
        self.on.flush()
    }
}

impl Outlet for FileOutput {
    ghost took = { λ before bytes after. Puts WasCut WasPut before.on bytes after.on };

    ghost refused = { λ before after. Refuses WasCut WasRefused before.on after.on };

    ghost flushed = { λ before after. Flushes WasCut WasFlushed before.on after.on };

    ghost refuses = { λ before after. Refuses WasCut WasRefused before.on after.on };

    fn try_write(&mut self, buf: &[u8]) -> io::Result<usize> {
        self.write(buf)
    }

    fn try_flush(&mut self) -> bool {
        self.flush().is_ok()
    }
}
