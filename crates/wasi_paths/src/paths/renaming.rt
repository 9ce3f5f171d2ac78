//! `path_rename`.

ghost use Rattle.std.specs.Prelude.{◌≡◌, ◌≢◌, ◌||◌, not, true, false, Ok, Err, length, IfOk, MatchResult};
ghost use Rattle.vol_tree.specs.declared.errno.Errno.TheVariants as tree;
ghost use Rattle.vol_sector.specs.Disk.{Leaves};
ghost use Rattle.vol_inode.specs.Name.{IsName};
ghost use Rattle.vol_tree.specs.Tree.{IsDirectory, is_empty};
ghost use Rattle.vol_tree.specs.Calls.{renamed, with_unit, is_within as is_within_row, parent_at, name_at};
ghost use Rattle.vol_tree.specs.Clauses.{Answers as TreeAnswers, is_io};
ghost use Rattle.vol_tree.specs.Opened.{Keeps, GoesOn, ReflectsOr, IsSerial};
ghost use Rattle.path_walk.specs.Paths.{Found, Missing};
ghost use Rattle.wasi_fd.specs.Table.{table_of};
ghost use Rattle.wasi_bodies.specs.World.{World};
ghost use Rattle.wasi_bodies.specs.paths.Rows.{path_rename as rename_row};
ghost use Rattle.wasi_bodies.specs.Calls.{Answered};
ghost use Rattle.wasi_bodies.specs.host.Worlds.{VolumeStep};
ghost use Rattle.wasi_bodies.specs.internal.Entries.{KnowsEntries, errno_of, with_volume};
ghost use Rattle.wasi_bodies.specs.internal.paths.Walks.{StillWorks, Places};
ghost use Rattle.path_walk.specs.Walk.{IsEntryOf, IsReached, reached_as};
ghost use Rattle.wasm_store.specs.Bytes.{bytes_at};
ghost use Rattle.path_walk.specs.Walk.{Asked};
ghost use Rattle.wasi_paths.specs.internal.paths.Renaming.{AreFacts, replace_checked, ReplacesAs, RenamesTo, rename_allowed, rename_entered, source_checked, WalksBoth};
ghost use Rattle.wasi_paths.specs.internal.paths.Showing.{CanLend};
ghost use Rattle.wasi_paths.specs.internal.paths.Climbing.{IsAbove};

use crate::paths::removing::is_held;
use crate::paths::{check_range, reach};
use path_walk::{Reached, is_directory, wants_a_directory};
use vol_inode::is_name;
use vol_sector::Device;
use vol_tree::{Serial, Volume};
use wasi_bodies::arguments::{descriptor, word};
use wasi_bodies::checks::{DescriptorKinds, check_rights, check_that, described, opened_of};
use wasi_bodies::errno::{BUSY, ISDIR, NOENT, NOTDIR, NOTEMPTY, refused};
use wasi_fd::{Descriptor, Descriptors, Fd, Opened, Rights};
use wasm_store::{Errno, Memory, Shown};

/// What a `path_rename` asks for.
#[derive(Clone, Copy)]
pub struct RenameCall {
    pub from_fd: Fd,
    pub from_path: u32,
    pub from_len: u32,
    pub to_fd: Fd,
    pub to_path: u32,
    pub to_len: u32,
}

/// What is asked of the entry that is renamed, and of the one that has its new name.
#[derive(Clone, Copy)]
struct Facts {
    source_is_directory: bool,
    /// The target is the source, or stands below it.
    is_within: bool,
    target_is_directory: bool,
    /// Nothing stands in the target.
    is_empty: bool,
}

/// The directories of a `path_rename`, and its paths.
#[derive(Clone, Copy)]
struct Ends<'t, 'm> {
    from: Opened<'t>,
    from_text: &'m [u8],
    to: Opened<'t>,
    to_text: &'m [u8],
}

/// What its paths reach.
#[derive(Drop)]
struct Walked<'m> {
    source: Serial,
    target: Reached<'m>,
    /// A slash stands after the second path.
    slash: bool,
}

impl RenameCall {
    ghost use Rattle.wasi_paths.specs.internal.paths.Renaming.{rename_call};

    /// What the arguments ask for.
    pub fn read(arguments: &[u64]) -> RenameCall
        ensures { result ≡ rename_call arguments.now }
    {
        RenameCall {
            from_fd: descriptor(arguments, 0),
            from_path: word(arguments, 1),
            from_len: word(arguments, 2),
            to_fd: descriptor(arguments, 3),
            to_path: word(arguments, 4),
            to_len: word(arguments, 5),
        }
    }
}

/// The directory that an entry is in.
fn above<D: Device>(volume: &mut Volume<D>, serial: Serial) -> Result<Serial, vol_tree::Errno>
    requires { IsEntryOf D.honest volume.old serial }
    ensures asked { Asked D.honest D.disk D.size D.failures D.goes_on volume.old volume.new
        (is_io result) }
    ensures range { IfOk result (IsSerial volume.old.numbers) }
    ensures told { D.honest volume.old.device → serial ≢ 1 → MatchResult result
        (λ p. IsAbove volume.old.tree serial p) (λ e. e ≡ tree.Io) }
{
    Ok(volume.place(serial)?.parent)
}

/// Whether an entry is another one, or stands below it.
fn is_within<D: Device>(
    volume: &mut Volume<D>,
    top: Serial,
    serial: Serial,
) -> Result<bool, vol_tree::Errno>
    requires works { volume.old.failed ≡ false }
    requires top { IsEntryOf D.honest volume.old top }
    requires serial { IsEntryOf D.honest volume.old serial }
    ensures asked { Asked D.honest D.disk D.size D.failures D.goes_on volume.old volume.new
        (is_io result) }
    ensures told { D.honest volume.old.device → MatchResult result
        (λ b. b ≡ is_within_row (length volume.old.tree) volume.old.tree top serial)
        (λ e. e ≡ tree.Io) }
{
    volume.is_a_tree();
    if top == Serial::ROOT {
        return Ok(true);
    }
    let slots = volume.stats().slots;
    let mut at = serial;
    for step in 0..slots {
        if at == top {
            return Ok(true);
        }
        if at == Serial::ROOT {
            return Ok(false);
        }
        match above(volume, at) {
            Ok(parent) => at = parent,
            Err(errno) => return Err(errno),
        }
    }
    Ok(at == top)
}

/// Whether nothing stands in a directory.
fn is_empty<D: Device>(volume: &mut Volume<D>, directory: Serial) -> Result<bool, vol_tree::Errno>
    ensures asked { Asked D.honest D.disk D.size D.failures D.goes_on volume.old volume.new
        (is_io result) }
    ensures told { D.honest volume.old.device → MatchResult result
        (λ b. b ≡ is_empty volume.old.tree directory) (λ e. e ≡ tree.Io) }
{
    Ok(volume.list_next(directory, 0)?.is_none())
}

/// What is asked of a source and a target.
fn ask_facts<D: Device>(
    volume: &mut Volume<D>,
    source: Serial,
    target: Serial,
) -> Result<Facts, vol_tree::Errno>
    requires works { volume.old.failed ≡ false }
    requires source { IsEntryOf D.honest volume.old source }
    requires target { IsEntryOf D.honest volume.old target }
    ensures asked { Asked D.honest D.disk D.size D.failures D.goes_on volume.old volume.new
        (is_io result) }
    ensures told { D.honest volume.old.device → MatchResult result
        (AreFacts volume.old.tree source target) (λ e. e ≡ tree.Io) }
{
    let source_is_directory = is_directory(volume, source)?;
    let is_within = is_within(volume, source, target)?;
    let target_is_directory = is_directory(volume, target)?;
    let is_empty = is_empty(volume, target)?;
    Ok(Facts {
        source_is_directory,
        is_within,
        target_is_directory,
        is_empty,
    })
}

/// The checks on a target that is there.
#[tactic(auto, using(wasi_bodies::proofs::checks::Chains::goes_on, wasi_bodies::proofs::checks::Chains::stops))]
fn check_replace(facts: Facts, held: bool) -> Result<(), Errno>
    ensures { MatchResult result (λ u. replace_checked facts held ≡ Ok u)
        (λ e. replace_checked facts held ≡ Err e.0) }
{
    let (source, target) = (facts.source_is_directory, facts.target_is_directory);
    check_that(!(source && facts.is_within), Errno::INVAL)?;
    check_that(!(source && !target), NOTDIR)?;
    check_that(!(target && !source), ISDIR)?;
    check_that(!held, BUSY)?;
    check_that(!target || facts.is_empty, NOTEMPTY)
}

/// Whether a target that is there may be replaced.
fn may_replace<D: Device>(
    volume: &mut Volume<D>,
    descriptors: &Descriptors<'_>,
    source: Serial,
    target: Serial,
) -> Result<(), Errno>
    requires works { volume.old.failed ≡ false }
    requires source { IsEntryOf D.honest volume.old source }
    requires target { IsEntryOf D.honest volume.old target }
    ensures step { VolumeStep D.honest D.disk D.size D.failures D.goes_on volume.old volume.new }
    ensures io { errno_of result ≡ 29 → volume.new.failed ≡ true }
    ensures asked { IfOk result (λ u. Asked D.honest D.disk D.size D.failures D.goes_on volume.old
        volume.new false) }
    ensures checks { D.honest volume.old.device → (w : World) → w.table ≡ table_of descriptors.now
        → w.volume_failed ≡ false → w ≡ with_volume volume.old w
        → ReplacesAs source target w volume.new result }
{
    match ask_facts(volume, source, target) {
        Ok(facts) => check_replace(facts, is_held(descriptors, target)),
        Err(errno) => Err(refused(errno)),
    }
}

/// Gives an entry the place and the name of another one.
fn rename_onto<D: Device>(
    volume: &mut Volume<D>,
    source: Serial,
    target: Serial,
) -> Result<(), vol_tree::Errno>
    requires works { volume.old.failed ≡ false }
    requires source { IsEntryOf D.honest volume.old source }
    requires target { IsEntryOf D.honest volume.old target }
    requires below { D.honest volume.old.device → target ≢ 1 }
    ensures answer { D.honest volume.old.device → TreeAnswers
        (with_unit (renamed volume.old.tree source (parent_at volume.old.tree target)
        (name_at volume.old.tree target))) volume.old.tree volume.new.tree result }
    ensures crash { D.honest volume.old.device → Leaves (D.disk volume.old.device)
        (D.disk volume.new.device) (ReflectsOr (D.disk volume.old.device) volume.old.numbers
        volume.old.tree) }
    ensures kept { Keeps D.honest D.size D.failures volume.old volume.new (is_io result) }
    ensures goes_on { GoesOn D.goes_on volume.old volume.new }
{
    volume.is_a_tree();
    let stat = match volume.stat(target) {
        Ok(stat) => stat,
        Err(errno) => return Err(errno),
    };
    let name = &stat.name[..stat.name_length as usize];
    if !is_name(name) {
        return Err(vol_tree::Errno::Invalid);
    }
    volume.rename(source, stat.parent, name)
}

/// Renames onto a target that is there, which goes; nothing is done where it is the source.
fn rename_found<D: Device>(
    volume: &mut Volume<D>,
    descriptors: &Descriptors<'_>,
    source: Serial,
    target: Serial,
) -> Result<(), Errno>
    requires works { volume.old.failed ≡ false }
    requires source { IsEntryOf D.honest volume.old source }
    requires target { IsEntryOf D.honest volume.old target }
    ensures step { VolumeStep D.honest D.disk D.size D.failures D.goes_on volume.old volume.new }
    ensures io { errno_of result ≡ 29 → volume.new.failed ≡ true }
    ensures renames { D.honest volume.old.device → (w : World) (slash : _)
        → w.table ≡ table_of descriptors.now → w.volume_failed ≡ false
        → w ≡ with_volume volume.old w → RenamesTo source slash (Found target) w volume.new result }
{
    volume.is_a_tree();
    if target == source {
        return Ok(());
    }
    if let Err(errno) = may_replace(volume, descriptors, source, target) {
        return Err(errno);
    }
    match rename_onto(volume, source, target) {
        Ok(()) => Ok(()),
        Err(errno) => Err(refused(errno)),
    }
}

/// Whether a name with a slash after it may be given to a directory, or a file.
fn check_slash(slash: bool, is_directory: bool) -> Result<(), Errno>
    ensures { MatchResult result (λ u. (not slash || is_directory) ≡ true)
        (λ e. ((not slash || is_directory) ≡ false) × (e.0 ≡ 54)) }
{
    if slash && !is_directory {
        Err(NOTDIR)
    } else {
        Ok(())
    }
}

/// Renames to a name that isn't there, which may have a slash after it.
fn rename_missing<D: Device>(
    volume: &mut Volume<D>,
    source: Serial,
    slash: bool,
    parent: Serial,
    name: &[u8],
) -> Result<(), Errno>
    requires works { volume.old.failed ≡ false }
    requires source { IsEntryOf D.honest volume.old source }
    requires parent { IsEntryOf D.honest volume.old parent }
    requires name { IsName name.now }
    requires directory { D.honest volume.old.device → IsDirectory volume.old.tree parent }
    ensures step { VolumeStep D.honest D.disk D.size D.failures D.goes_on volume.old volume.new }
    ensures io { errno_of result ≡ 29 → volume.new.failed ≡ true }
    ensures renames { D.honest volume.old.device → (w : World) → w.volume_failed ≡ false
        → w ≡ with_volume volume.old w → RenamesTo source slash (Missing parent name.now) w
        volume.new result }
{
    let is_directory = match is_directory(volume, source) {
        Ok(is_directory) => is_directory,
        Err(errno) => return Err(refused(errno)),
    };
    if let Err(errno) = check_slash(slash, is_directory) {
        return Err(errno);
    }
    match volume.rename(source, parent, name) {
        Ok(()) => Ok(()),
        Err(errno) => Err(refused(errno)),
    }
}

/// Renames to what the second path reached.
fn rename_reached<D: Device>(
    volume: &mut Volume<D>,
    descriptors: &Descriptors<'_>,
    walked: &Walked<'_>,
) -> Result<(), Errno>
    requires works { volume.old.failed ≡ false }
    requires source { IsEntryOf D.honest volume.old walked.now.source }
    requires reached { IsReached D.honest volume.old walked.now.target }
    requires place { D.honest volume.old.device → Places volume.old.tree (Ok walked.now.target) }
    ensures step { VolumeStep D.honest D.disk D.size D.failures D.goes_on volume.old volume.new }
    ensures io { errno_of result ≡ 29 → volume.new.failed ≡ true }
    ensures renames { D.honest volume.old.device → (w : World) → w.table ≡ table_of descriptors.now
        → w.volume_failed ≡ false → w ≡ with_volume volume.old w
        → RenamesTo walked.now.source walked.now.slash (reached_as walked.now.target) w volume.new
        result }
{
    let source = walked.source;
    match walked.target {
        Reached::Found(target) => { rename_found(volume, descriptors, source, Serial::new(target)) }
        Reached::Missing { parent, name } => {
            rename_missing(volume, source, walked.slash, Serial::new(parent), name)
        }
    }
}

/// The checks of the descriptors of a `path_rename`.
#[tactic(auto, using(wasi_bodies::proofs::checks::Chains::goes_on, wasi_bodies::proofs::checks::Chains::stops))]
fn both_allowed<'t>(
    descriptors: &Descriptors<'t>,
    asked: &RenameCall,
) -> Result<(Descriptor<'t>, Descriptor<'t>), Errno>
    ensures { (w : World) → w.table ≡ table_of descriptors.now → MatchResult result
        (λ p. rename_allowed w asked.now ≡ Ok (p.0, p.1))
        (λ e. rename_allowed w asked.now ≡ Err e.0) }
{
    let source = described(descriptors, asked.from_fd)?;
    let target = described(descriptors, asked.to_fd)?;
    DescriptorKinds::Directories.check(&source)?;
    DescriptorKinds::Directories.check(&target)?;
    check_rights(&source, Rights::PATH_RENAME_SOURCE)?;
    match check_rights(&target, Rights::PATH_RENAME_TARGET) {
        Ok(()) => Ok((source, target)),
        Err(errno) => Err(errno),
    }
}

/// The checks of a `path_rename` before it walks.
#[tactic(auto, using(wasi_bodies::proofs::checks::Chains::goes_on, wasi_bodies::proofs::checks::Chains::stops))]
fn enter_both<'t, 'm>(
    descriptors: &Descriptors<'t>,
    memory: &Shown<'m>,
    asked: &RenameCall,
) -> Result<Ends<'t, 'm>, Errno>
    requires from_lent { CanLend memory.now asked.now.from_path asked.now.from_len }
    requires to_lent { CanLend memory.now asked.now.to_path asked.now.to_len }
    ensures row { (w : World) → w.table ≡ table_of descriptors.now → MatchResult result
        (λ e. rename_entered w memory.now.bytes asked.now ≡ Ok (e.from, e.to))
        (λ e. rename_entered w memory.now.bytes asked.now ≡ Err e.0) }
    ensures from { IfOk result (λ e. e.from_text.now ≡ bytes_at memory.now.bytes asked.now.from_path
        asked.now.from_len) }
    ensures to { IfOk result (λ e. e.to_text.now ≡ bytes_at memory.now.bytes asked.now.to_path
        asked.now.to_len) }
{
    let (source, target) = both_allowed(descriptors, asked)?;
    check_range(memory, asked.from_path, asked.from_len)?;
    check_range(memory, asked.to_path, asked.to_len)?;
    let from = opened_of(source)?;
    let to = match opened_of(target) {
        Ok(to) => to,
        Err(errno) => return Err(errno),
    };
    let Some(from_text) = memory.slice(asked.from_path, asked.from_len) else {
        return Err(Errno::FAULT);
    };
    let Some(to_text) = memory.slice(asked.to_path, asked.to_len) else {
        return Err(Errno::FAULT);
    };
    Ok(Ends {
        from,
        from_text,
        to,
        to_text,
    })
}

/// The entry that is renamed: not the directory that its path was walked from.
fn source_of(moved: Reached<'_>, directory: Serial) -> Result<Serial, Errno>
    ensures row { MatchResult result (λ s. source_checked directory (reached_as moved.entry) ≡ Ok s)
        (λ e. source_checked directory (reached_as moved.entry) ≡ Err e.0) }
    ensures found { IfOk result (λ s. moved.entry ≡ Reached.Found s) }
{
    match moved {
        Reached::Found(found) => {
            let source = Serial::new(found);
            if source == directory {
                Err(BUSY)
            } else {
                Ok(source)
            }
        }
        Reached::Missing { .. } => Err(NOENT),
    }
}

/// What both paths reach.
fn walk_both<'m, D: Device>(
    volume: &mut Volume<D>,
    descriptors: &Descriptors<'_>,
    memory: &Shown<'m>,
    asked: &RenameCall,
) -> Result<Walked<'m>, Errno>
    requires known { KnowsEntries D.honest volume.old (table_of descriptors.now) }
    requires from_lent { CanLend memory.now asked.now.from_path asked.now.from_len }
    requires to_lent { CanLend memory.now asked.now.to_path asked.now.to_len }
    ensures step { VolumeStep D.honest D.disk D.size D.failures D.goes_on volume.old volume.new }
    ensures io { errno_of result ≡ 29 → volume.new.failed ≡ true }
    ensures works { IfOk result (λ r. StillWorks D.honest D.disk D.size D.failures D.goes_on
        volume.old volume.new) }
    ensures source { IfOk result (λ r. IsEntryOf D.honest volume.new r.source) }
    ensures reached { IfOk result (λ r. IsReached D.honest volume.new r.target) }
    ensures place { IfOk result (λ r. D.honest volume.new.device
        → Places volume.new.tree (Ok r.target)) }
    ensures walks { D.honest volume.old.device → (w : World) → w.table ≡ table_of descriptors.now
        → w ≡ with_volume volume.old w → WalksBoth memory.now.bytes asked.now w volume.new result }
{
    let ends = match enter_both(descriptors, memory, asked) {
        Ok(ends) => ends,
        Err(errno) => return Err(errno),
    };
    let from = Serial::new(ends.from.serial);
    let to = Serial::new(ends.to.serial);
    let moved = match reach(volume, from, ends.from_text) {
        Ok(moved) => moved,
        Err(errno) => return Err(refused(errno)),
    };
    let target = match reach(volume, to, ends.to_text) {
        Ok(target) => target,
        Err(errno) => return Err(refused(errno)),
    };
    let source = match source_of(moved, from) {
        Ok(source) => source,
        Err(errno) => return Err(errno),
    };
    let slash = wants_a_directory(ends.to_text);
    Ok(Walked {
        source,
        target,
        slash,
    })
}

/// `path_rename(fd, path, length, fd, path, length)` over memory as it stands.
fn rename_entry<D: Device>(
    volume: &mut Volume<D>,
    descriptors: &Descriptors<'_>,
    memory: &Shown<'_>,
    asked: &RenameCall,
) -> Result<(), Errno>
    requires known { KnowsEntries D.honest volume.old (table_of descriptors.now) }
    requires from_lent { CanLend memory.now asked.now.from_path asked.now.from_len }
    requires to_lent { CanLend memory.now asked.now.to_path asked.now.to_len }
    ensures step { VolumeStep D.honest D.disk D.size D.failures D.goes_on volume.old volume.new }
    ensures io { errno_of result ≡ 29 → volume.new.failed ≡ true }
    ensures answered { D.honest volume.old.device → (w : World) → w.table ≡ table_of descriptors.now
        → w ≡ with_volume volume.old w → Answered
        (λ v. rename_row v memory.now.bytes asked.now.from_fd asked.now.from_path asked.now.from_len
        asked.now.to_fd asked.now.to_path asked.now.to_len) w memory.now.bytes (with_volume volume.new w)
        memory.now.bytes (errno_of result) }
{
    match walk_both(volume, descriptors, memory, asked) {
        Ok(walked) => rename_reached(volume, descriptors, &walked),
        Err(errno) => Err(errno),
    }
}

/// `path_rename(fd, path, length, fd, path, length)`.
pub fn path_rename<D: Device>(
    volume: &mut Volume<D>,
    descriptors: &Descriptors<'_>,
    memory: &mut Memory,
    asked: &RenameCall,
) -> Result<(), Errno>
    requires { KnowsEntries D.honest volume.old (table_of descriptors.now) }
    ensures step { VolumeStep D.honest D.disk D.size D.failures D.goes_on volume.old volume.new }
    ensures io { errno_of result ≡ 29 → volume.new.failed ≡ true }
    ensures answered { D.honest volume.old.device → (w : World) → w.table ≡ table_of descriptors.now
        → w ≡ with_volume volume.old w → Answered
        (λ v. rename_row v memory.old asked.now.from_fd asked.now.from_path asked.now.from_len
        asked.now.to_fd asked.now.to_path asked.now.to_len) w memory.old (with_volume volume.new w)
        memory.new (errno_of result) }
{
    let from_end = asked.from_path as usize + asked.from_len as usize;
    let to_end = asked.to_path as usize + asked.to_len as usize;
    let size = memory.len();
    let shown = Shown::new(memory.first_part(from_end.max(to_end)), size);
    rename_entry(volume, descriptors, &shown, asked)
}
