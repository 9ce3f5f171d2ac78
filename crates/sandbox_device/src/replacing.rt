//! A file that gets other bytes, all at once: they are written beside it, and then it is replaced.
//!
//! Whoever is ended meanwhile leaves the file as it was, and maybe what was written beside it, which the next one takes away.

ghost use Rattle.std.specs.Prelude.{◌≡◌, ◌⊎◌, IfNone, IfOk, IfSome, MatchResult, OnErr, OnOk, string_bytes};
ghost use Rattle.sandbox_device.specs.declared.replacing.ReplacingWay.TheVariants.{Beside};
ghost use Rattle.sandbox_device.specs.Opening.{StandsApart};
ghost use Rattle.sandbox_device.specs.Contents.{bytes_of};
ghost use Rattle.sandbox_device.specs.FileEvidence.{WasRefused};
ghost use Rattle.sandbox_device.specs.Named.{HasIdentityThere, HasNoPlaceBeside, IsForName, IsGiven, IsHindered, IsNotGiven, IsNotOpened, IsNotToBeReplaced, IsThere, IsUntold, LeadsTo, NamesIdentity, WasNotFollowed, WasNotOverwritten, WasOpened, WasOverwritten};
ghost use Rattle.sandbox_device.specs.Replaced.{WasNotReplaced, WasReplaced};

use crate::beside::{Beside, replace};
use crate::identity::{Identity, is_regular, refuse_where_replaced};
use crate::new_bytes::Contents;
use crate::opening::open_apart;
use crate::written_file::lock_to_write;
use std::fs::{File, Metadata, OpenOptions, TryLockError};
use std::io::{BufWriter, ErrorKind, Seek, Write};
use std::os::unix::fs::{FileExt, MetadataExt, fchown};
use std::path::Path;
use std::rt::Files;
use std::{fs, io};

/// How many links are followed from a name to its file: as many as Linux follows.
const MOST_LINKS: u32 = 40;

/// How many names beside a file are tried.
const NAMES: u32 = 8;

/// Bytes that are written at once.
const PIECE: usize = 65_536;

/// Bytes of a block in which a file's room is counted.
const BLOCK: u64 = 512;

/// The bytes of the longest name that the name beside it is made of.
const LONGEST: usize = 200;

/// Why a file is written in place, so that whoever is ended meanwhile leaves a part of its bytes.
#[derive(Clone, Copy)]
pub enum Hindrance {
    /// It has other names, which would stay with the old bytes.
    Names,
    /// No file of its owner and its mode can be made beside it.
    Folder,
    /// No other file takes its name: it is mounted by itself, as into a container, or the system forbids it.
    Name,
}

/// How a file is replaced.
#[derive(Clone, Copy)]
enum ReplacingWay {
    Beside,
    InPlace(Hindrance),
    /// It is a pipe, a terminal or a device, which takes bytes one after another.
    Stream,
}

/// A file that is to be replaced. What is there is open and locked.
#[derive(Drop)]
pub struct Replacement {
    /// Its name, behind all links.
    path: String,
    /// What is there.
    old: Option<File>,
    way: ReplacingWay,
}

/// The name that a name leads to, behind all links; the file needn't be there.
fn behind_links<R: Files + AllocGlobal>(rt: &R, path: &str) -> io::Result<String>
    ensures { MatchResult result (λ target. LeadsTo path.now (string_bytes target))
        (λ _. WasNotFollowed path.now) }
{
    let mut target = String::from_str(rt.alloc(), path)?;
    for _ in 0..MOST_LINKS {
        match rt.symlink_metadata(target.as_str()) {
            Ok(found) if found.is_symlink() => {}
            _ => return Ok(target),
        }
        let link = fs::read_link(rt, target.as_str())?;
        let folder = folder_of(target.as_str());
        target = Path::new(folder).join(rt.alloc(), link)?.into_string();
    }
    Err(io::Error::from(ErrorKind::FilesystemLoop))
}

/// The folder that a name stands in.
fn folder_of(path: &str) -> &str {
    match Path::new(path).parent() {
        Some(folder) if !folder.as_str().is_empty() => folder.as_str(),
        _ => ".",
    }
}

/// Whether a file can have a name: it has a last part, and ends with it, and not with a slash.
fn names_a_file(path: &str) -> bool {
    match Path::new(path).file_name() {
        Some(name) => path.ends_with(name),
        None => false,
    }
}

/// One of the names beside a file.
fn name_beside<R: AllocGlobal>(rt: &R, path: &str, number: u32) -> io::Result<String> {
    let stem = match Path::new(path).file_name() {
        Some(name) if name.len() <= LONGEST => name,
        _ => "long",
    };
    let name = format!(in rt.alloc(); ".{stem}.sandbox-{number}")?;
    let beside = Path::new(path).with_file_name(rt.alloc(), name.as_str())?;
    Ok(beside.into_string())
}

/// Locks a file if no one else has; on a file system without locks it is locked by none.
fn is_locked_by_us(file: &File) -> bool {
    file.try_lock().is_ok()
}

/// Whether a name leads to this very file.
fn leads_to<R: Files>(rt: &R, path: &str, file: &File) -> io::Result<bool>
    ensures { OnErr result (WasRefused file.now file.now) }
{
    let identity = Identity::of(file)?;
    Ok(identity.is_some() && Identity::of_path(rt, path) == identity)
}

/// Takes away what someone who was ended has left under this name. What is locked is in use.
fn clear<R: Files<File = File>>(rt: &R, path: &str) {
    match rt.symlink_metadata(path) {
        Ok(found) if found.is_file() => {}
        _ => return,
    }
    let mut how = OpenOptions::new();
    how.read(true);
    if let Ok(file) = open_apart(rt, &how, path) {
        if is_locked_by_us(&file) && matches!(leads_to(rt, path, &file), Ok(true)) {
            let _ = rt.remove_file(path);
        }
    }
}

/// A file beside the one that is to be replaced, locked, so that no one clears it.
#[derive(Drop)]
struct SpareFile {
    file: File,
    path: String,
}

/// Makes a file of this name, which isn't taken.
fn make_spare<R: Files<File = File>>(rt: &R, path: String) -> io::Result<SpareFile> {
    let mut how = OpenOptions::new();
    how.write(true).create_new(true);
    let file = open_apart(rt, &how, path.as_str())?;
    if let Err(TryLockError::WouldBlock) = file.try_lock() {
        return Err(io::Error::from(ErrorKind::AlreadyExists));
    }
    if !leads_to(rt, path.as_str(), &file)? {
        return Err(io::Error::from(ErrorKind::AlreadyExists));
    }
    Ok(SpareFile { file, path })
}

/// Clears the names beside a file, and makes a file of the first one that isn't taken.
fn spare_beside<R: Files<File = File> + AllocGlobal>(rt: &R, path: &str) -> io::Result<SpareFile>
    ensures { OnErr result (HasNoPlaceBeside path.now) }
{
    let mut spare = Err(io::Error::from(ErrorKind::AlreadyExists));
    for number in 0..NAMES {
        let name = name_beside(rt, path, number)?;
        clear(rt, name.as_str());
        if spare.is_err() {
            spare = make_spare(rt, name);
        }
    }
    spare
}

/// Makes a file beside one that is to be made, and takes it away: whether that can be done at all.
fn try_beside<R: Files<File = File> + AllocGlobal>(rt: &R, path: &str) -> io::Result<()>
    ensures { OnErr result (HasNoPlaceBeside path.now) }
{
    let spare = spare_beside(rt, path)?;
    rt.remove_file(spare.path.as_str())
}

/// Gives a file the owner and the mode of another one.
fn take_after(file: &File, old: &File) -> io::Result<()> {
    let (wanted, found) = (old.metadata()?, file.metadata()?);
    if wanted.uid() != found.uid() || wanted.gid() != found.gid() {
        fchown(file, Some(wanted.uid()), Some(wanted.gid()))?;
    }
    file.set_permissions(wanted.permissions())
}

/// Writes what a file is to have into it, from its beginning, in large pieces.
fn write_contents<R: AllocGlobal>(rt: &R, file: &File, contents: Contents<'_>) -> io::Result<()>
    ensures { OnOk result (WasOverwritten file.now (bytes_of contents.entry)) }
{
    let mut out = BufWriter::with_capacity(rt.alloc(), PIECE, file)?;
    contents.write_to(&mut out)?;
    out.flush()
}

/// Makes a folder's names last, where its file system does that when it is asked.
fn sync_folder(folder: &File) -> io::Result<()> {
    match folder.sync_all() {
        Err(error) if error.kind() == ErrorKind::InvalidInput => Ok(()),
        done => done,
    }
}

/// Whether this refuses another file the name of one that is there.
fn keeps_its_name(error: &io::Error) -> bool {
    matches!(
        error.kind(),
        ErrorKind::ResourceBusy | ErrorKind::PermissionDenied
    )
}

/// A spare file that is to get the name of a file, in this folder.
#[derive(Drop)]
struct Successor<'a, R> {
    rt: &'a R,
    spare: &'a SpareFile,
    path: &'a str,
    folder: &'a File,
}

impl<R: Files<File = File> + AllocGlobal> Beside for Successor<'_, R> {
    ghost use Rattle.sandbox_device.specs.Beside.{WasFilled, WasHindered, WasMadeLasting, WasRenamed, WasSettled};

    ghost filled = { λ old bytes new. WasFilled old bytes new };

    ghost synced = { λ old new. WasMadeLasting old new };

    ghost renamed = { λ old new. WasRenamed old new };

    ghost settled = { λ old new. WasSettled old new };

    ghost refused = { λ old new. WasHindered old new };

    fn fill(&mut self, contents: Contents<'_>) -> io::Result<()> {
        write_contents(self.rt, &self.spare.file, contents)
    }

    fn sync(&mut self) -> io::Result<()> {
        self.spare.file.sync_all()
    }

    fn rename(&mut self) -> io::Result<()> {
        self.rt.rename(self.spare.path.as_str(), self.path)
    }

    fn settle(&mut self) -> io::Result<()> {
        sync_folder(self.folder)
    }
}

/// What the system tells of a file.
fn told_of(file: &File) -> io::Result<Metadata>
    ensures { OnErr result (WasRefused file.now file.now) }
{
    file.metadata()
}

/// How what is there is replaced.
fn way_of<R: Files>(rt: &R, path: &str, file: &File) -> io::Result<ReplacingWay>
    ensures { OnErr result (WasRefused file.now file.now) }
{
    let found = told_of(file)?;
    if !found.is_file() {
        return Ok(ReplacingWay::Stream);
    }
    if found.nlink() > 1 {
        return Ok(ReplacingWay::InPlace(Hindrance::Names));
    }
    if leads_to(rt, path, file)? {
        return Ok(ReplacingWay::Beside);
    }
    Ok(ReplacingWay::InPlace(Hindrance::Folder))
}

/// Locks a file that was opened to write under a name that leads to this one, and gives how it is replaced.
fn way_of_locked<R: Files>(
    rt: &R,
    path: &str,
    target: &str,
    file: &File,
) -> io::Result<ReplacingWay>
    requires { WasOpened path.now file.now }
    ensures { OnErr result (IsHindered path.now) }
{
    lock_to_write(file)?;
    refuse_where_replaced(rt, path, file)?;
    way_of(rt, target, file)
}

/// What is there under a name, or a file that is made there.
fn there_or_made<R: Files<File = File>>(rt: &R, path: &str, old: Option<File>) -> io::Result<File>
    ensures { MatchResult result (IsThere path.now old) (λ _. IsNotOpened path.now) }
{
    match old {
        Some(file) => Ok(file),
        None => {
            let mut how = OpenOptions::new();
            how.write(true).create_new(true);
            open_apart(rt, &how, path)
        }
    }
}

/// Writes zeros behind the bytes of a file, so that it has this many.
fn write_zeros<R: AllocGlobal>(rt: &R, file: &File, from: u64, to: u64) -> io::Result<()> {
    let zeros = vec![in rt.alloc(); 0; PIECE]?;
    let mut at = from;
    while at < to {
        let count = (to - at).min(PIECE as u64);
        file.write_all_at(&zeros[..count as usize], at)?;
        at += count;
    }
    Ok(())
}

/// Writes a file's first bytes over themselves, so that its holes have room.
fn fill_holes<R: AllocGlobal>(rt: &R, source: &File, file: &File, count: u64) -> io::Result<()> {
    let mut piece = vec![in rt.alloc(); 0; PIECE]?;
    let mut at = 0;
    while at < count {
        let part = (count - at).min(PIECE as u64);
        source.read_exact_at(&mut piece[..part as usize], at)?;
        file.write_all_at(&piece[..part as usize], at)?;
        at += part;
    }
    Ok(())
}

/// Gives room to the holes among so many first bytes of a file, where it has some and may be read.
fn make_room_inside<R: Files<File = File> + AllocGlobal>(
    rt: &R,
    path: &str,
    file: &File,
    count: u64,
) -> io::Result<()> {
    if file.metadata()?.blocks() >= count.div_ceil(BLOCK) {
        return Ok(());
    }
    let mut how = OpenOptions::new();
    how.read(true);
    let source = open_apart(rt, &how, path);
    match source {
        Ok(source) if leads_to(rt, path, file)? => fill_holes(rt, &source, file, count),
        _ => Ok(()),
    }
}

/// Makes room for as many bytes as a file is to have. Where there is none, it stays as it is.
fn make_room<R: Files<File = File> + AllocGlobal>(
    rt: &R,
    path: &str,
    file: &File,
    wanted: u64,
) -> io::Result<()> {
    let had = file.metadata()?.len();
    make_room_inside(rt, path, file, had.min(wanted))?;
    let done = write_zeros(rt, file, had, wanted);
    if done.is_err() {
        let _ = file.set_len(had);
    }
    done
}

/// Gives a file these bytes in the place of those that it has, and makes that last. A pipe, a terminal or a device takes them. What a
/// file has stays where there is no room for more.
fn overwrite<R: Files<File = File> + AllocGlobal>(
    rt: &R,
    path: &str,
    file: &File,
    contents: Contents<'_>,
) -> io::Result<()>
    ensures { MatchResult result (λ _. WasOverwritten file.now (bytes_of contents.entry))
        (λ _. WasNotOverwritten file.now) }
{
    if !is_regular(file)? {
        write_contents(rt, file, contents)?;
        let _ = file.sync_all();
        return Ok(());
    }
    make_room(rt, path, file, contents.len())?;
    write_contents(rt, file, contents)?;
    let mut written = file;
    file.set_len(written.stream_position()?)?;
    file.sync_all()
}

/// Opens a file's folder.
fn open_folder<R: Files<File = File>>(rt: &R, path: &str) -> io::Result<File> {
    let mut how = OpenOptions::new();
    how.read(true);
    open_apart(rt, &how, folder_of(path))
}

impl Replacement {
    /// Opens what is there, to write, and locks it where it can be. Where nothing is there, a file has to be possible beside it.
    pub fn open<R: Files<File = File> + AllocGlobal>(rt: &R, path: &str) -> io::Result<Replacement>
        ensures apart { IfOk result (λ it. IfSome it.old StandsApart) }
        ensures named { IfOk result (IsForName path.now) }
        ensures refused { OnErr result (IsNotToBeReplaced path.now) }
    {
        let target = behind_links(rt, path)?;
        let mut how = OpenOptions::new();
        how.write(true);
        match open_apart(rt, &how, path) {
            Ok(file) => {
                let way = way_of_locked(rt, path, target.as_str(), &file)?;
                Ok(Replacement {
                    path: target,
                    old: Some(file),
                    way,
                })
            }
            Err(error) if error.kind() == ErrorKind::NotFound && names_a_file(target.as_str()) => {
                try_beside(rt, target.as_str())?;
                Ok(Replacement {
                    path: target,
                    old: None,
                    way: ReplacingWay::Beside,
                })
            }
            Err(error) => Err(error),
        }
    }

    /// Which file is there, if it is a regular one.
    pub fn identity(&self) -> io::Result<Option<Identity>>
        ensures { MatchResult result (HasIdentityThere self.now.old) (λ _. IsUntold self.now.old) }
    {
        match &self.old {
            Some(file) => Identity::of(file),
            None => Ok(None),
        }
    }

    /// Which file is there by now.
    pub fn identity_now<R: Files>(&self, rt: &R) -> Option<Identity>
        ensures { NamesIdentity (string_bytes self.now.path) result }
    {
        Identity::of_path(rt, self.path.as_str())
    }

    /// Gives the file these bytes, and makes that last. Where it fails, and nothing hinders, it is as it was.
    pub fn fill<R: Files<File = File> + AllocGlobal>(
        self,
        rt: &R,
        contents: Contents<'_>,
    ) -> io::Result<Option<Hindrance>>
        ensures replaced { self.way ≡ Beside → IfOk result (λ hindrance. IfNone hindrance
            (WasReplaced R (string_bytes self.path) (bytes_of contents.entry))) }
        ensures given { OnOk result (IsGiven R (string_bytes self.path) self.old
            (bytes_of contents.entry)) }
        ensures refused { OnErr result (IsNotGiven R (string_bytes self.path) self.old
            (bytes_of contents.entry)) }
    {
        match self.way {
            ReplacingWay::Beside => self.fill_beside(rt, contents),
            ReplacingWay::InPlace(why) => {
                self.fill_in_place(rt, contents)?;
                Ok(Some(why))
            }
            ReplacingWay::Stream => {
                self.fill_in_place(rt, contents)?;
                Ok(None)
            }
        }
    }

    /// Whether what was there has been removed since.
    fn has_no_name(&self) -> io::Result<bool>
        ensures { OnErr result (IsUntold self.now.old) }
    {
        match &self.old {
            Some(file) => Ok(told_of(file)?.nlink() == 0),
            None => Ok(false),
        }
    }

    /// Locks the file that has come under the name since it was opened, if one has: it is replaced too, unless someone else uses it.
    fn newcomer<R: Files<File = File>>(&self, rt: &R) -> io::Result<Option<File>>
        ensures { OnErr result (IsUntold self.now.old ⊎ IsHindered (string_bytes self.now.path)) }
    {
        let found = Identity::of_path(rt, self.path.as_str());
        if found.is_none() || found == self.identity()? {
            return Ok(None);
        }
        let mut how = OpenOptions::new();
        how.write(true);
        let file = open_apart(rt, &how, self.path.as_str())?;
        way_of_locked(rt, self.path.as_str(), self.path.as_str(), &file)?;
        Ok(Some(file))
    }

    /// A file beside it, of its owner and its mode, and its folder.
    fn spare<R: Files<File = File> + AllocGlobal>(&self, rt: &R) -> io::Result<(SpareFile, File)>
        ensures { OnErr result (HasNoPlaceBeside (string_bytes self.now.path)) }
    {
        let folder = open_folder(rt, self.path.as_str())?;
        let spare = spare_beside(rt, self.path.as_str())?;
        if let Some(old) = &self.old {
            if let Err(error) = take_after(&spare.file, old) {
                let _ = rt.remove_file(spare.path.as_str());
                return Err(error);
            }
        }
        Ok((spare, folder))
    }

    /// Writes the bytes into this file beside it, and gives that its name.
    fn put_beside<R: Files<File = File> + AllocGlobal>(
        &self,
        rt: &R,
        spare: &SpareFile,
        folder: &File,
        contents: Contents<'_>,
    ) -> io::Result<()>
        ensures { MatchResult result (λ _. WasReplaced R (string_bytes self.now.path)
            (bytes_of contents.entry)) (λ _. WasNotReplaced R (string_bytes self.now.path)
            (bytes_of contents.entry)) }
    {
        let mut successor = Successor {
            rt,
            spare,
            path: self.path.as_str(),
            folder,
        };
        replace(&mut successor, contents)
    }

    /// Writes the bytes into a file beside it, and gives that its name. Where none can be made there, or none takes the name, it is
    /// written in place, unless another file has the name by now, or it has none.
    fn fill_beside<R: Files<File = File> + AllocGlobal>(
        self,
        rt: &R,
        contents: Contents<'_>,
    ) -> io::Result<Option<Hindrance>>
        ensures replaced { IfOk result (λ hindrance. IfNone hindrance
            (WasReplaced R (string_bytes self.path) (bytes_of contents.entry))) }
        ensures given { OnOk result (IsGiven R (string_bytes self.path) self.old
            (bytes_of contents.entry)) }
        ensures refused { OnErr result (IsNotGiven R (string_bytes self.path) self.old
            (bytes_of contents.entry)) }
    {
        let newcomer = self.newcomer(rt)?; // locked until the new bytes have the name
        let Ok((spare, folder)) = self.spare(rt) else {
            if newcomer.is_some() || self.has_no_name()? {
                return Err(io::Error::from(ErrorKind::NotFound));
            }
            self.fill_in_place(rt, contents)?;
            return Ok(Some(Hindrance::Folder));
        };
        let Err(error) = self.put_beside(rt, &spare, &folder, contents) else {
            return Ok(None);
        };
        let _ = rt.remove_file(spare.path.as_str());
        if newcomer.is_some() || !keeps_its_name(&error) {
            return Err(error);
        }
        self.fill_in_place(rt, contents)?;
        Ok(Some(Hindrance::Name))
    }

    /// Writes over what is there, or makes it.
    fn fill_in_place<R: Files<File = File> + AllocGlobal>(
        self,
        rt: &R,
        contents: Contents<'_>,
    ) -> io::Result<()>
        ensures { MatchResult result (λ _. IsGiven R (string_bytes self.path) self.old
            (bytes_of contents.entry)) (λ _. IsNotGiven R (string_bytes self.path) self.old
            (bytes_of contents.entry)) }
    {
        let Replacement { path, old, .. } = self;
        let file = there_or_made(rt, path.as_str(), old)?;
        overwrite(rt, path.as_str(), &file, contents)
    }
}
