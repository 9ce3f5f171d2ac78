//! `path_open`.

ghost use Rattle.std.specs.Prelude.{◌≡◌, ◌≤◌, ◌+◌, List, true, false, Ok, Err, length, IfOk, OnOk, MatchResult};
ghost use Rattle.vol_sector.specs.Disk.{Leaves};
ghost use Rattle.vol_tree.specs.Tree.{Tree, Name};
ghost use Rattle.vol_tree.specs.Calls.{directory_at};
ghost use Rattle.vol_tree.specs.Clauses.{Answers as TreeAnswers, is_io};
ghost use Rattle.vol_tree.specs.Opened.{Keeps, GoesOn, ReflectsOr, IsSerial, geometry};
ghost use Rattle.path_walk.specs.Paths.{Found, path_read, wants_directory};
ghost use Rattle.path_walk.specs.Walk.{IsEntryOf, IsReached, reached_as};
ghost use Rattle.wasm_store.specs.Bytes.{bytes_at};
ghost use Rattle.wasi_fd.specs.Table.{table_of};
ghost use Rattle.wasi_fd.specs.Rights.{bits_of};
ghost use Rattle.wasi_bodies.specs.World.{World};
ghost use Rattle.wasi_bodies.specs.paths.Rows.{path_open as open_row, open_rights as rights_row, new_descriptor as descriptor_row, is_set as is_set_row};
ghost use Rattle.wasi_bodies.specs.Calls.{Answered};
ghost use Rattle.wasi_bodies.specs.host.Worlds.{VolumeStep};
ghost use Rattle.wasi_bodies.specs.internal.Entries.{KnowsEntries, errno_of, with_volume};
ghost use Rattle.wasi_bodies.specs.internal.paths.Walks.{StillWorks, Places};
ghost use Rattle.path_walk.specs.Walk.{Asked};
ghost use Rattle.wasi_paths.specs.internal.paths.Showing.{CanLend};
ghost use Rattle.wasi_paths.specs.internal.paths.Opening.{flags_checked, found_checked, missing_checked, open_entered, IsTarget, LeadsToSerial, CanOpen, made, ChecksAs, Targets, AreSerials, with_both};

use crate::paths::{check_range, reach};
use bitflags::Flags;
use path_walk::{Reached, is_directory, wants_a_directory};
use vol_sector::Device;
use vol_tree::{Serial, Volume};
use wasi_bodies::arguments::{descriptor, long, word};
use wasi_bodies::checks::{DescriptorKinds, check_that, entry_at, write_bytes};
use wasi_bodies::errno::{EXIST, ISDIR, MFILE, NOENT, NOTDIR, NOTSUP, refused};
use wasi_bodies::numbers::le32;
use wasi_fd::{Descriptor, Descriptors, EntryKind, Fd, Opened, Rights};
use wasm_store::{Errno, Memory, Shown};

const CREAT: u32 = 1;

const DIRECTORY: u32 = 2;

const EXCL: u32 = 4;

const TRUNC: u32 = 8;

const APPEND: u32 = 1;

/// The `fdflags` dsync, rsync and sync.
const SYNCS: u32 = 26;

/// What a `path_open` asks for.
#[derive(Clone, Copy)]
pub struct OpenCall {
    pub fd: Fd,
    pub path: u32,
    pub len: u32,
    pub oflags: u32,
    pub base: u64,
    pub inheriting: u64,
    pub fdflags: u32,
    pub result_at: u32,
}

impl OpenCall {
    ghost use Rattle.wasi_paths.specs.internal.paths.Opening.{open_call};

    /// What the arguments ask for.
    pub fn read(arguments: &[u64]) -> OpenCall
        ensures { result ≡ open_call arguments.now }
    {
        OpenCall {
            fd: descriptor(arguments, 0),
            path: word(arguments, 2),
            len: word(arguments, 3),
            oflags: word(arguments, 4),
            base: long(arguments, 5),
            inheriting: long(arguments, 6),
            fdflags: word(arguments, 7),
            result_at: word(arguments, 8),
        }
    }
}

/// What a path opens.
#[derive(Drop)]
pub enum PathTarget<'p> {
    /// An entry as it is.
    Entry { serial: Serial, kind: EntryKind },
    /// A file, whose bytes go.
    Cut(Serial),
    /// A file that isn't there yet.
    New { parent: Serial, name: &'p [u8] },
}

/// Whether a flag is set.
fn is_set(flags: u32, flag: u32) -> bool
    ensures { result ≡ is_set_row flags flag }
{
    flags & flag == flag
}

/// The rights that the flags ask for.
fn open_rights(oflags: u32) -> Rights
    ensures { bits_of result ≡ rights_row oflags }
{
    match (is_set(oflags, CREAT), is_set(oflags, TRUNC)) {
        (false, false) => Rights::PATH_OPEN,
        (true, false) => Rights::from_bits_retain(0x2400),
        (false, true) => Rights::from_bits_retain(0x8_2000),
        (true, true) => Rights::from_bits_retain(0x8_2400),
    }
}

/// The checks of the flags.
#[tactic(auto, using(wasi_bodies::proofs::checks::Chains::goes_on, wasi_bodies::proofs::checks::Chains::stops))]
fn check_flags(oflags: u32, fdflags: u32) -> Result<(), Errno>
    ensures { MatchResult result (λ u. flags_checked oflags fdflags ≡ Ok u)
        (λ e. flags_checked oflags fdflags ≡ Err e.0) }
{
    check_that(oflags <= 15 && fdflags <= 31, Errno::INVAL)?;
    check_that(
        !(is_set(oflags, DIRECTORY) && is_set(oflags, CREAT)),
        Errno::INVAL,
    )?;
    check_that(fdflags & SYNCS == 0, NOTSUP)?;
    Ok(())
}

/// The checks of a `path_open` before it walks.
#[tactic(auto, using(wasi_bodies::proofs::checks::Chains::goes_on, wasi_bodies::proofs::checks::Chains::stops))]
fn enter_open<'t, 'm>(
    descriptors: &Descriptors<'t>,
    memory: &Shown<'m>,
    asked: &OpenCall,
) -> Result<(Opened<'t>, &'m [u8]), Errno>
    requires lent { CanLend memory.now asked.now.path asked.now.len }
    ensures row { (w : World) → w.table ≡ table_of descriptors.now → MatchResult result
        (λ p. open_entered w memory.now.bytes asked.now ≡ Ok p.0)
        (λ e. open_entered w memory.now.bytes asked.now ≡ Err e.0) }
    ensures text { IfOk result (λ p. p.1.now ≡ bytes_at memory.now.bytes asked.now.path asked.now.len) }
    ensures inside { OnOk result (asked.now.result_at + 4 ≤ length memory.now.bytes) }
{
    let rights = open_rights(asked.oflags);
    let opened = entry_at(descriptors, asked.fd, DescriptorKinds::Directories, rights)?;
    check_flags(asked.oflags, asked.fdflags)?;
    check_range(memory, asked.path, asked.len)?;
    check_range(memory, asked.result_at, 4)?;
    match memory.slice(asked.path, asked.len) {
        Some(text) => Ok((opened, text)),
        None => Err(Errno::FAULT),
    }
}

/// The checks on a directory, or a file, that is there.
#[tactic(auto, using(wasi_bodies::proofs::checks::Chains::goes_on, wasi_bodies::proofs::checks::Chains::stops))]
fn check_found(oflags: u32, is_directory: bool) -> Result<(), Errno>
    ensures { MatchResult result (λ u. found_checked oflags is_directory ≡ Ok u)
        (λ e. found_checked oflags is_directory ≡ Err e.0) }
{
    check_that(!(is_set(oflags, CREAT) && is_set(oflags, EXCL)), EXIST)?;
    if is_directory {
        check_that(!(is_set(oflags, CREAT) || is_set(oflags, TRUNC)), ISDIR)
    } else {
        check_that(!is_set(oflags, DIRECTORY), NOTDIR)
    }
}

/// The checks on a name that isn't there, with a slash after it or without.
#[tactic(auto, using(wasi_bodies::proofs::checks::Chains::goes_on, wasi_bodies::proofs::checks::Chains::stops))]
fn check_missing(oflags: u32, slash: bool) -> Result<(), Errno>
    ensures { MatchResult result (λ u. missing_checked oflags slash ≡ Ok u)
        (λ e. missing_checked oflags slash ≡ Err e.0) }
{
    check_that(is_set(oflags, CREAT), NOENT)?;
    check_that(!slash, ISDIR)
}

/// How a directory, or a file, is opened.
fn found_as<'p>(oflags: u32, serial: Serial, is_directory: bool) -> PathTarget<'p>
    ensures at { LeadsToSerial serial result }
    ensures target { (T : Tree) → directory_at T serial ≡ is_directory
        → IsTarget T oflags (Found serial) result }
{
    if is_directory {
        let kind = EntryKind::Directory;
        return PathTarget::Entry { serial, kind };
    }
    if is_set(oflags, TRUNC) {
        return PathTarget::Cut(serial);
    }
    let kind = EntryKind::File;
    PathTarget::Entry { serial, kind }
}

impl<'p> PathTarget<'p> {
    ghost use Rattle.wasi_paths.specs.internal.paths.Opening.{target_is_directory as is_directory_row};

    /// Whether it is a directory.
    fn is_directory(&self) -> bool
        ensures { result ≡ is_directory_row self.now }
    {
        match self {
            PathTarget::Entry { serial: _, kind } => match kind {
                EntryKind::Directory => true,
                EntryKind::File => false,
            },
            _ => false,
        }
    }
}

/// The descriptor of an entry that is opened: with the rights that are asked for, and no more than
/// the directory hands on.
fn new_descriptor<'t>(
    directory: &Opened<'_>,
    serial: Serial,
    is_directory: bool,
    asked: &OpenCall,
) -> Descriptor<'t>
    ensures serial { (o : _) → result ≡ Descriptor.Entry o → o.serial ≡ serial }
    ensures rights { (T : Tree) → directory_at T serial ≡ is_directory
        → result ≡ descriptor_row T directory.now serial asked.now.base asked.now.inheriting
        asked.now.fdflags }
{
    let kept = Rights::from_bits_retain(asked.base).intersection(directory.inheriting);
    let append = is_set(asked.fdflags, APPEND);
    let opened = if is_directory {
        Opened {
            serial: serial.number(),
            kind: EntryKind::Directory,
            position: 0,
            append,
            base: kept.intersection(Rights::directory()),
            inheriting: Rights::from_bits_retain(asked.inheriting).intersection(
                directory.inheriting,
            ),
            guest_name: None,
        }
    } else {
        Opened {
            serial: serial.number(),
            kind: EntryKind::File,
            position: 0,
            append,
            base: kept.intersection(Rights::file()),
            inheriting: Rights::empty(),
            guest_name: None,
        }
    };
    Descriptor::Entry(opened)
}

/// How an entry is opened that is there.
fn found_target<'p, D: Device>(
    volume: &mut Volume<D>,
    oflags: u32,
    serial: Serial,
) -> Result<PathTarget<'p>, Errno>
    requires { IsEntryOf D.honest volume.old serial }
    ensures step { VolumeStep D.honest D.disk D.size D.failures D.goes_on volume.old volume.new }
    ensures io { errno_of result ≡ 29 → volume.new.failed ≡ true }
    ensures asked { IfOk result (λ t. Asked D.honest D.disk D.size D.failures D.goes_on volume.old
        volume.new false) }
    ensures can { IfOk result (CanOpen D.honest volume.new) }
    ensures checks { D.honest volume.old.device → (w : World) (slash : _) → w.volume_failed ≡ false
        → w ≡ with_volume volume.old w → ChecksAs oflags slash (Found serial) w volume.new result }
{
    let is_directory = match is_directory(volume, serial) {
        Ok(is_directory) => is_directory,
        Err(errno) => return Err(refused(errno)),
    };
    match check_found(oflags, is_directory) {
        Ok(()) => Ok(found_as(oflags, serial, is_directory)),
        Err(errno) => Err(errno),
    }
}

/// How what was reached is opened.
fn reached_target<'p, D: Device>(
    volume: &mut Volume<D>,
    oflags: u32,
    text: &[u8],
    reached: Reached<'p>,
) -> Result<PathTarget<'p>, Errno>
    requires works { volume.old.failed ≡ false }
    requires reached { IsReached D.honest volume.old reached }
    requires place { D.honest volume.old.device → Places volume.old.tree (Ok reached) }
    ensures step { VolumeStep D.honest D.disk D.size D.failures D.goes_on volume.old volume.new }
    ensures io { errno_of result ≡ 29 → volume.new.failed ≡ true }
    ensures asked { IfOk result (λ t. Asked D.honest D.disk D.size D.failures D.goes_on volume.old
        volume.new false) }
    ensures can { IfOk result (CanOpen D.honest volume.new) }
    ensures checks { D.honest volume.old.device → (w : World) (names : List Name)
        → path_read text.now ≡ Ok names → w.volume_failed ≡ false → w ≡ with_volume volume.old w
        → ChecksAs oflags (wants_directory text.now) (reached_as reached.entry) w volume.new
        result }
{
    match reached {
        Reached::Found(serial) => found_target(volume, oflags, Serial::new(serial)),
        Reached::Missing { parent, name } => match check_missing(oflags, wants_a_directory(text)) {
            Ok(()) => Ok(PathTarget::New {
                parent: Serial::new(parent),
                name,
            }),
            Err(errno) => Err(errno),
        },
    }
}

/// All that comes before anything is changed: the directory, and how what is reached is opened.
fn find_target<'t, 'm, D: Device>(
    volume: &mut Volume<D>,
    descriptors: &Descriptors<'t>,
    memory: &Shown<'m>,
    asked: &OpenCall,
) -> Result<(Opened<'t>, PathTarget<'m>), Errno>
    requires known { KnowsEntries D.honest volume.old (table_of descriptors.now) }
    requires lent { CanLend memory.now asked.now.path asked.now.len }
    ensures step { VolumeStep D.honest D.disk D.size D.failures D.goes_on volume.old volume.new }
    ensures io { errno_of result ≡ 29 → volume.new.failed ≡ true }
    ensures works { IfOk result (λ p. StillWorks D.honest D.disk D.size D.failures D.goes_on
        volume.old volume.new) }
    ensures inside { OnOk result (asked.now.result_at + 4 ≤ length memory.now.bytes) }
    ensures can { IfOk result (λ p. CanOpen D.honest volume.new p.1) }
    ensures targets { D.honest volume.old.device → (w : World) → w.table ≡ table_of descriptors.now
        → w ≡ with_volume volume.old w → Targets memory.now.bytes asked.now w volume.new result }
{
    let (directory, text) = match enter_open(descriptors, memory, asked) {
        Ok(entered) => entered,
        Err(errno) => return Err(errno),
    };
    let reached = match reach(volume, Serial::new(directory.serial), text) {
        Ok(reached) => reached,
        Err(errno) => return Err(refused(errno)),
    };
    let target = match reached_target(volume, asked.oflags, text, reached) {
        Ok(target) => target,
        Err(errno) => return Err(errno),
    };
    if descriptors.is_full() {
        return Err(MFILE);
    }
    Ok((directory, target))
}

/// Makes the file or cuts it, and says which entry is opened.
fn settle<D: Device>(
    volume: &mut Volume<D>,
    target: &PathTarget<'_>,
) -> Result<Serial, vol_tree::Errno>
    requires works { volume.old.failed ≡ false }
    requires can { CanOpen D.honest volume.old target.now }
    ensures answer { D.honest volume.old.device → TreeAnswers
        (made (geometry volume.old.numbers) volume.old.tree target.now) volume.old.tree
        volume.new.tree result }
    ensures crash { D.honest volume.old.device → Leaves (D.disk volume.old.device)
        (D.disk volume.new.device) (ReflectsOr (D.disk volume.old.device) volume.old.numbers
        volume.old.tree) }
    ensures range { IfOk result (IsSerial volume.old.numbers) }
    ensures kept { Keeps D.honest D.size D.failures volume.old volume.new (is_io result) }
    ensures goes_on { GoesOn D.goes_on volume.old volume.new }
{
    match target {
        PathTarget::Entry { serial, kind: _ } => Ok(*serial),
        PathTarget::Cut(serial) => match volume.set_size(*serial, 0) {
            Ok(()) => Ok(*serial),
            Err(errno) => Err(errno),
        },
        PathTarget::New { parent, name } => volume.create_file(*parent, name),
    }
}

/// `path_open(fd, flags, path, length, oflags, base, inheriting, fdflags, result)`. The lookup flags
/// have no effect.
pub fn path_open<D: Device>(
    volume: &mut Volume<D>,
    descriptors: &mut Descriptors<'_>,
    memory: &mut Memory,
    asked: &OpenCall,
) -> Result<(), Errno>
    requires { KnowsEntries D.honest volume.old (table_of descriptors.old) }
    ensures step { VolumeStep D.honest D.disk D.size D.failures D.goes_on volume.old volume.new }
    ensures io { errno_of result ≡ 29 → volume.new.failed ≡ true }
    ensures serials { AreSerials volume.new.numbers (table_of descriptors.new) }
    ensures answered { D.honest volume.old.device → (w : World) → w.table ≡ table_of descriptors.old
        → w ≡ with_volume volume.old w → Answered
        (λ v. open_row v memory.old asked.now.fd asked.now.path asked.now.len asked.now.oflags
        asked.now.base asked.now.inheriting asked.now.fdflags asked.now.result_at) w memory.old
        (with_both volume.new (table_of descriptors.new) w) memory.new (errno_of result) }
{
    let size = memory.len();
    let shown = Shown::new(
        memory.first_part(asked.path as usize + asked.len as usize),
        size,
    );
    let (directory, target) = match find_target(volume, descriptors, &shown, asked) {
        Ok(target) => target,
        Err(errno) => return Err(errno),
    };
    let serial = match settle(volume, &target) {
        Ok(serial) => serial,
        Err(errno) => return Err(refused(errno)),
    };
    let descriptor = new_descriptor(&directory, serial, target.is_directory(), asked);
    match descriptors.open(descriptor) {
        Ok(fd) => {
            write_bytes(memory, asked.result_at, &le32(fd.number()));
            Ok(())
        }
        Err(_) => Err(MFILE),
    }
}
