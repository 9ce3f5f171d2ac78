//! Reading all entries of a volume, with the checks that each one asks.

ghost use Rattle.std.specs.Prelude.{◌≡◌, ◌≢◌, ◌⊎◌, ◌≤◌, ◌<◌, ◌+◌, ◌∷◌, ◌++◌, ◌↔◌, ℕ, List, [], IsTrue, IfOk, OnOk, IfErr, false, Some, None, length};
ghost use Rattle.vol_sector.specs.Disk.{Image};
ghost use Rattle.vol_sector.specs.Fault.{device_failed, IsDamage};
ghost use Rattle.vol_log.specs.Log.{view, has_failed, device_of};
ghost use Rattle.vol_log.specs.Reading.{OnlyReads};
ghost use Rattle.vol_inode.specs.Entry.{IsEntry, HasName};
ghost use Rattle.vol_inode.specs.Space.{need_of};
ghost use Rattle.vol_body.specs.Survey.{IsTrimmed};
ghost use Rattle.vol_dirs.specs.Names.{slots_of, Names, IsFree, IsNameOf, Shows};
ghost use Rattle.vol_dirs.specs.Seats.{TakesSeat};
ghost use Rattle.vol_tree.specs.internal.Parts.{IsContent};
ghost use Rattle.vol_tree.specs.internal.Replacing.{kind_is_directory};
ghost use Rattle.vol_tree.specs.internal.Reads.{CanRead, held_at, IsNew, IsRight, AreBelow, AddsSlot, AreWithin, FitIn, HaveRead};

use crate::superblock::Superblock;
use std::alloc::{AllocError, Global};
use vol_body::survey;
use vol_dirs::{Dirs, slot_sector};
use vol_inode::{Entry, Kind, Serial, need, read_entry};
use vol_log::{FIRST_AFTER_LOG, Log};
use vol_sector::{Damage, Device, Rule, VolumeFault};

/// What the slots hold.
#[derive(Drop)]
pub(crate) struct Entries {
    /// The numbers of all sectors that files name.
    pub named: Vec<u32>,
    /// The serial of the directory that each slot's entry is in; 0 for the root, and for slots that
    /// aren't used.
    pub parents: Vec<u32>,
    /// Whether each slot's entry is a directory.
    pub directories: Vec<bool>,
    /// The sectors that all files need by their sizes.
    pub reserved: u32,
}

impl Entries {
    /// Takes up a slot that isn't used.
    fn pass(&mut self) -> Result<(), VolumeFault>
        ensures adds { OnOk result ((content : Image) → AddsSlot content None self.old self.new) }
        ensures named { self.new.named.items ≡ self.old.named.items }
        ensures reserved { self.new.reserved ≡ self.old.reserved }
        ensures count { OnOk result
            (length self.new.parents.items ≡ length self.old.parents.items + 1) }
        ensures refused { IfErr result (λ fault. fault ≡ VolumeFault.Memory) }
    {
        self.hold(0, false)?;
        Ok(())
    }

    /// Takes up an entry, but for the sectors that it names. It is refused as `Damaged` where it
    /// needs more than the data sectors that are left, and as `Memory`.
    fn add(&mut self, entry: &Entry, data_sectors: u32) -> Result<(), VolumeFault>
        requires { self.old.reserved ≤ data_sectors }
        ensures named { self.new.named.items ≡ self.old.named.items }
        ensures parents { OnOk result (self.new.parents.items
            ≡ self.old.parents.items ++ entry.now.parent ∷ []) }
        ensures directories { OnOk result (self.new.directories.items
            ≡ self.old.directories.items ++ kind_is_directory entry.now.kind ∷ []) }
        ensures reserved { OnOk result
            (self.new.reserved ≡ self.old.reserved + need_of entry.now.size) }
        ensures room { OnOk result (self.new.reserved ≤ data_sectors) }
        ensures damaged { IfErr result (λ fault. IsDamage fault
            → data_sectors < self.old.reserved + need_of entry.now.size) }
        ensures refused { IfErr result (λ fault. IsDamage fault
            ⊎ (fault ≡ VolumeFault.Memory)) }
    {
        let need = need(entry.size);
        if data_sectors - self.reserved < need {
            return Err(VolumeFault::Damaged(Damage {
                sector: None,
                rule: Rule::Space,
            }));
        }
        self.reserved += need;
        self.hold(entry.parent, is_directory(entry))?;
        Ok(())
    }

    /// Pushes the parent of a slot, and whether it holds a directory.
    fn hold(&mut self, parent: u32, directory: bool) -> Result<(), AllocError>
        ensures named { self.new.named.items ≡ self.old.named.items }
        ensures parents { OnOk result
            (self.new.parents.items ≡ self.old.parents.items ++ parent ∷ []) }
        ensures directories { OnOk result
            (self.new.directories.items ≡ self.old.directories.items ++ directory ∷ []) }
        ensures reserved { self.new.reserved ≡ self.old.reserved }
    {
        self.parents.push(parent)?;
        self.directories.push(directory)?;
        Ok(())
    }
}

/// Whether the entry is a directory.
fn is_directory(entry: &Entry) -> bool
    ensures { result ≡ kind_is_directory entry.now.kind }
{
    entry.kind == Kind::Directory
}

/// Whether the entry has a parent, unless it is the root's, and a name that no entry before has
/// there.
fn is_placed<D: Device>(log: &Log<D>, dirs: &Dirs, serial: Serial, entry: &Entry) -> bool
    requires working { has_failed log.now ≡ false }
    requires named { HasName entry.now }
    ensures yes { IsTrue result → IsNew dirs.now serial entry.now }
    ensures no { IsNew dirs.now serial entry.now → IsTrue result }
{
    let is_root = serial == Serial::ROOT;
    if is_root || entry.parent == 0 {
        return is_root && entry.parent == 0;
    }
    let name = &entry.name[..entry.name_length as usize];
    match dirs.lookup(log, Serial::new(entry.parent), name) {
        Ok(Some(_)) => false,
        Ok(None) => true,
        Err(_) => false,
    }
}

/// The rule that an entry breaks that has no right place.
fn placing_rule(serial: Serial, entry: &Entry) -> Rule {
    if serial == Serial::ROOT || entry.parent == 0 {
        Rule::RootSerial
    } else {
        Rule::NameTwice
    }
}

/// Takes up the entry of a slot, with its name and the sectors that it names.
// So many clauses, since six say what the caller owes; the others say what is held then (`adds` to `trimmed`), when
// the entry is refused (`damaged`, `refused`), and that the log only reads (`reads`, `failed`).
fn take_up<D: Device>(
    log: &mut Log<D>,
    numbers: &Superblock,
    dirs: &mut Dirs,
    serial: Serial,
    entry: &Entry,
    found: &mut Entries,
) -> Result<(), VolumeFault>
    requires can { CanRead log.old numbers.now }
    requires first { 1 ≤ serial }
    requires last { serial ≤ slots_of dirs.old }
    requires free { IsFree dirs.old serial }
    requires right { IsEntry numbers.now.version entry.now }
    requires within { AreWithin numbers.now found.old }
    ensures adds { D.honest (device_of log.old)
        → OnOk result (AddsSlot (view log.old) (Some entry.now) found.old found.new) }
    ensures within { OnOk result (AreWithin numbers.now found.new) }
    ensures count { OnOk result
        (length found.new.parents.items ≡ length found.old.parents.items + 1) }
    ensures placed { OnOk result (IsNew dirs.old serial entry.now) }
    ensures names { OnOk result ((p : ℕ) (n : List ℕ) (s : ℕ) → Names dirs.new p n s
        ↔ (Names dirs.old p n s ⊎ IsNameOf entry.now serial p n s)) }
    ensures seats { OnOk result (TakesSeat dirs.old dirs.new serial entry.now) }
    ensures slots { slots_of dirs.new ≡ slots_of dirs.old }
    ensures trimmed { D.honest (device_of log.old)
        → OnOk result (IsTrimmed (view log.old) entry.now) }
    ensures damaged { D.honest (device_of log.old)
        → IfErr result (λ fault. IsDamage fault
        → IsNew dirs.old serial entry.now → IsTrimmed (view log.old) entry.now
        → FitIn (view log.old) numbers.now (Some entry.now) found.old → ⊥) }
    ensures refused { IfErr result (λ fault. IsDamage fault
        ⊎ ((fault ≡ VolumeFault.Device) ⊎ (fault ≡ VolumeFault.Memory))) }
    ensures reads { OnlyReads log.old log.new }
    ensures failed { has_failed log.new ≡ device_failed result }
{
    if !is_placed(log, dirs, serial, entry) {
        return Err(VolumeFault::Damaged(Damage {
            sector: None,
            rule: placing_rule(serial, entry),
        }));
    }
    dirs.hold(serial, entry);
    let first = FIRST_AFTER_LOG + numbers.slots;
    survey(log, entry, first, numbers.sectors, &mut found.named)?;
    found.add(entry, numbers.sectors - first)
}

/// Reads a slot, and takes up what it holds. Of a damage it need not name the sector: it is the slot's.
// So many clauses, since six say what the caller owes; the others say what is held then (`adds` to `right`), when
// the slot is refused (`damaged`, `refused`), and that the log only reads (`reads`, `failed`).
fn read_slot<D: Device>(
    log: &mut Log<D>,
    numbers: &Superblock,
    dirs: &mut Dirs,
    slot: u32,
    found: &mut Entries,
) -> Result<(), VolumeFault>
    requires can { CanRead log.old numbers.now }
    requires slot { slot < numbers.now.slots }
    requires slots { slots_of dirs.old ≡ numbers.now.slots }
    requires before { AreBelow dirs.old slot }
    requires shown { D.honest (device_of log.old)
        → Shows numbers.now.version (view log.old) slot dirs.old }
    requires within { AreWithin numbers.now found.old }
    ensures adds { D.honest (device_of log.old) → OnOk result (AddsSlot (view log.old)
        (held_at (view log.old) numbers.now slot) found.old found.new) }
    ensures within { OnOk result (AreWithin numbers.now found.new) }
    ensures count { OnOk result
        (length found.new.parents.items ≡ length found.old.parents.items + 1) }
    ensures slots { slots_of dirs.new ≡ slots_of dirs.old }
    ensures below { OnOk result (AreBelow dirs.new (slot + 1)) }
    ensures shows { D.honest (device_of log.old) → OnOk result
        (Shows numbers.now.version (view log.old) (slot + 1) dirs.new) }
    ensures right { D.honest (device_of log.old) → OnOk result (IsRight (view log.old)
        numbers.now slot (held_at (view log.old) numbers.now slot)) }
    ensures damaged { D.honest (device_of log.old)
        → IfErr result (λ fault. IsDamage fault
        → IsRight (view log.old) numbers.now slot (held_at (view log.old) numbers.now slot)
        → FitIn (view log.old) numbers.now (held_at (view log.old) numbers.now slot) found.old
        → ⊥) }
    ensures refused { IfErr result (λ fault. IsDamage fault
        ⊎ ((fault ≡ VolumeFault.Device) ⊎ (fault ≡ VolumeFault.Memory))) }
    ensures reads { OnlyReads log.old log.new }
    ensures failed { has_failed log.new ≡ device_failed result }
{
    let serial = Serial::new(slot + 1);
    let image = log.read(slot_sector(serial))?;
    match read_entry(numbers.version, &image) {
        Ok(Some(entry)) => take_up(log, numbers, dirs, serial, &entry, found),
        Ok(None) => found.pass(),
        Err(fault) => Err(fault),
    }
}

/// Reads all slots once, one after another. The names are held where none was before.
pub(crate) fn read_entries<D: Device>(
    alloc: Global,
    log: &mut Log<D>,
    numbers: &Superblock,
    dirs: &mut Dirs,
) -> Result<Entries, VolumeFault>
    requires can { CanRead log.old numbers.now }
    requires slots { slots_of dirs.old ≡ numbers.now.slots }
    requires free { (s : ℕ) → IsFree dirs.old s }
    ensures read { D.honest (device_of log.old) → IfOk result
        (λ found. HaveRead (view log.old) numbers.now numbers.now.slots found) }
    ensures within { IfOk result (λ found. AreWithin numbers.now found) }
    ensures count { IfOk result (λ found. length found.parents.items ≡ numbers.now.slots) }
    ensures slots { slots_of dirs.new ≡ slots_of dirs.old }
    ensures shows { D.honest (device_of log.old) → OnOk result
        (Shows numbers.now.version (view log.old) numbers.now.slots dirs.new) }
    ensures damaged { D.honest (device_of log.old)
        → IfErr result (λ fault. IsDamage fault
        → IsContent (view log.old) numbers.now → ⊥) }
    ensures refused { IfErr result (λ fault. IsDamage fault
        ⊎ ((fault ≡ VolumeFault.Device) ⊎ (fault ≡ VolumeFault.Memory))) }
    ensures reads { OnlyReads log.old log.new }
    ensures failed { has_failed log.new ≡ device_failed result }
{
    let mut found = Entries {
        named: Vec::new(alloc),
        parents: Vec::new(alloc),
        directories: Vec::new(alloc),
        reserved: 0,
    };
    for slot in 0..numbers.slots {
        match read_slot(log, numbers, dirs, slot, &mut found) {
            Ok(()) => {}
            Err(fault) => return Err(fault.at(FIRST_AFTER_LOG + slot)),
        }
    }
    Ok(found)
}
