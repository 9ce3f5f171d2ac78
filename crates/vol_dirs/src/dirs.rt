//! The names of a volume, answered from memory.

ghost use Rattle.std.specs.Prelude.{◌≡◌, ◌≤◌, ◌+◌, ◌⊎◌, ◌↔◌, ◌≢◌, ℕ, List, vec_capacity, vec_len};
ghost use Rattle.std.specs.Prelude.{true, false, IsTrue, IfOk, IfErr, IfSome, is_err, MatchOption};
ghost use Rattle.vol_sector.specs.Fault.{device_failed};
ghost use Rattle.vol_log.specs.Log.{view, device_of, log_sectors, has_failed};
ghost use Rattle.vol_inode.specs.Name.{IsName};
ghost use Rattle.vol_inode.specs.Entry.{IsEntry, HasName, name_of};
ghost use Rattle.vol_inode.specs.Spelling.{spelling, unused};
ghost use Rattle.vol_inode.specs.declared.version.Version.{Version};
ghost use Rattle.vol_dirs.specs.Slots.{CanStageSlot, StagesSlot};
ghost use Rattle.vol_dirs.specs.internal.Listing.{IsListing, AreMarked};
ghost use Rattle.vol_dirs.specs.SerialOrder.{keys_of, room_of};
ghost use Rattle.vol_dirs.specs.SlotMarks.{flags_of};

use crate::keys::{child_key_of, key_of};
use crate::seat::{Seat, seat_of};
use crate::serial_order::SerialOrder;
use crate::slot_marks::SlotMarks;
use crate::slots::slot_sector;
use std::alloc::{AllocError, Global};
use vol_inode::{Entry, Serial, Version, read_entry, write_entry};
use vol_log::{FIRST_AFTER_LOG, Log};
use vol_sector::{Device, DeviceFault, Sector, VolumeFault};

// As many slots as have sectors after the log: no log has more sectors than 32 bits can number.
const MOST_SLOTS: u32 = u32::MAX - FIRST_AFTER_LOG;

/// The names of a volume's entries.
///
/// The slot of an entry is the sector that `slot_sector` gives for its serial: it holds the entry, or
/// zeros where it isn't used. What the slots hold is kept in memory too, with room for all slots: the
/// keys of the names with their serials, in order, and so the parents with their serials. A mark for
/// each slot says whether it is used, and its seat what else a walk needs.
#[derive(Drop)]
pub struct Dirs {
    slots: u32,
    keys: SerialOrder<259>,
    children: SerialOrder<4>,
    used: SlotMarks,
    seats: Vec<Seat>,
    ghost few: { slots ≤ 4294967173 },
    ghost listing: { IsListing slots (keys_of keys) (keys_of children) },
    ghost keys_room: { slots ≡ room_of keys },
    ghost children_room: { slots ≡ room_of children },
    ghost marked: { AreMarked slots (keys_of keys) (flags_of used) },
    ghost seated: { vec_len seats ≡ slots },
}

impl Dirs {
    ghost use Rattle.vol_dirs.specs.Names.{slots_of, Names, IsFree, IsNameOf, IsNextChild, NoChildOver};
    ghost use Rattle.vol_dirs.specs.Names.{IsSpelled, IsLeastOf, Shows, NoneIsFree, IsLeastFree};
    ghost use Rattle.vol_dirs.specs.Seats.{seat_of, seat_at, no_seat, TakesSeat, KeepSeats};
    ghost use Rattle.vol_log.specs.Reading.{OnlyReads};

    /// Reads the slots, one after another. A slot that `read_entry` refuses counts as unused.
    ///
    /// It is refused as `Device` where the log has failed, before or now, and else as `Memory`. It
    /// reserves the memory for all later calls.
    pub fn open<D: Device>(
        alloc: Global,
        log: &mut Log<D>,
        version: Version,
        slots: u32,
    ) -> Result<Dirs, VolumeFault>
        requires there { FIRST_AFTER_LOG + slots ≤ log_sectors log.old }
        ensures shows { D.honest (device_of log.old)
            → IfOk result (λ dirs. Shows version (view log.old) slots dirs) }
        ensures slots { IfOk result (λ dirs. slots_of dirs ≡ slots) }
        ensures refused { IfErr result (λ fault. (fault ≡ VolumeFault.Device)
            ⊎ (fault ≡ VolumeFault.Memory)) }
        ensures failed { has_failed log.new ≡ device_failed result }
        ensures idle { has_failed log.old ≡ true → log.new ≡ log.old }
        ensures reads { OnlyReads log.old log.new }
    {
        if log.failed() {
            return Err(VolumeFault::Device);
        }
        let mut dirs = Dirs::reserve(alloc, slots)?;
        for slot in 0..slots {
            let serial = Serial::new(slot + 1);
            let image = log.read(slot_sector(serial))?;
            dirs.hold_image(version, serial, &image);
        }
        Ok(dirs)
    }

    /// The serial of the entry with this name in a directory, the least where there are several.
    /// Where the log has failed, it answers that.
    pub fn lookup<D: Device>(
        &self,
        log: &Log<D>,
        parent: Serial,
        name: &[u8],
    ) -> Result<Option<Serial>, DeviceFault>
        requires { IsName name.now }
        ensures failed { is_err result ≡ has_failed log.now }
        ensures found { IfOk result (λ found. MatchOption found
            ((s : ℕ) → Names self.now parent name.now s → ⊥)
            (λ s. Names self.now parent name.now s)) }
        ensures least { IfOk result (λ found. IfSome found
            (λ s. IsLeastOf self.now parent name.now s)) }
    {
        if log.failed() {
            return Err(DeviceFault);
        }
        Ok(self.serial_of(parent, name))
    }

    /// The least serial over the number `after` of an entry in a directory. Where the log has failed, it
    /// answers that.
    pub fn next_child<D: Device>(
        &self,
        log: &Log<D>,
        parent: Serial,
        after: u32,
    ) -> Result<Option<Serial>, DeviceFault>
        ensures failed { is_err result ≡ has_failed log.now }
        ensures found { IfOk result (λ found. MatchOption found
            (NoChildOver self.now parent after)
            (λ s. IsNextChild self.now parent after s)) }
    {
        if log.failed() {
            return Err(DeviceFault);
        }
        Ok(self.child_over(parent, after))
    }

    /// Whether a serial is in use.
    pub fn is_used(&self, serial: Serial) -> bool
        requires first { 1 ≤ serial }
        requires last { serial ≤ slots_of self.now }
        ensures used { IsTrue result → IsFree self.now serial → ⊥ }
        ensures free { result ≡ false → IsFree self.now serial }
    {
        self.used.is_marked((serial.number() - 1) as usize)
    }

    /// The directory of the entry with this serial, and whether it is one, from memory.
    pub fn seat(&self, serial: Serial) -> Seat
        requires first { 1 ≤ serial }
        requires last { serial ≤ slots_of self.now }
        ensures { result ≡ seat_at self.now serial }
    {
        self.seats[(serial.number() - 1) as usize]
    }

    /// The least serial that isn't in use, if there is one.
    pub fn least_free(&self) -> Option<Serial>
        ensures { MatchOption result (NoneIsFree self.now) (λ s. IsLeastFree self.now s) }
    {
        let slot = self.used.least_unmarked()?;
        Some(Serial::new(slot as u32 + 1))
    }

    /// Stages an entry in an unused slot.
    pub fn add<D: Device>(&mut self, log: &mut Log<D>, serial: Serial, entry: &Entry)
        requires first { 1 ≤ serial }
        requires last { serial ≤ slots_of self.old }
        requires free { IsFree self.old serial }
        requires named { HasName entry.now }
        requires can { CanStageSlot log.old (slots_of self.old) }
        ensures names { (p : ℕ) (n : List ℕ) (s : ℕ) → Names self.new p n s
            ↔ (Names self.old p n s ⊎ IsNameOf entry.now serial p n s) }
        ensures slots { slots_of self.new ≡ slots_of self.old }
        ensures stages { StagesSlot serial (spelling entry.now) log.old log.new }
        ensures shows { (version : Version) → IsEntry version entry.now
            → Shows version (view log.old) (slots_of self.old) self.old
            → Shows version (view log.new) (slots_of self.new) self.new }
    {
        log.stage(slot_sector(serial), &write_entry(entry));
        self.hold(serial, entry);
    }

    /// Stages an unused slot in an entry's place.
    pub fn remove<D: Device>(&mut self, log: &mut Log<D>, serial: Serial, entry: &Entry)
        requires held { Names self.old entry.now.parent (name_of entry.now) serial }
        requires can { CanStageSlot log.old (slots_of self.old) }
        ensures names { (p : ℕ) (n : List ℕ) (s : ℕ) → Names self.new p n s
            ↔ (Names self.old p n s × (s ≢ serial)) }
        ensures slots { slots_of self.new ≡ slots_of self.old }
        ensures stages { StagesSlot serial unused log.old log.new }
        ensures shows { (version : Version)
            → Shows version (view log.old) (slots_of self.old) self.old
            → Shows version (view log.new) (slots_of self.new) self.new }
    {
        log.stage(slot_sector(serial), &[0; 512]);
        self.forget(serial, entry);
    }

    /// Stages an entry with another parent or name in its place.
    pub fn relocate<D: Device>(
        &mut self,
        log: &mut Log<D>,
        serial: Serial,
        from: &Entry,
        to: &Entry,
    )
        requires held { Names self.old from.now.parent (name_of from.now) serial }
        requires named { HasName to.now }
        requires can { CanStageSlot log.old (slots_of self.old) }
        ensures names { (p : ℕ) (n : List ℕ) (s : ℕ) → Names self.new p n s
            ↔ ((Names self.old p n s × (s ≢ serial)) ⊎ IsNameOf to.now serial p n s) }
        ensures slots { slots_of self.new ≡ slots_of self.old }
        ensures stages { StagesSlot serial (spelling to.now) log.old log.new }
        ensures shows { (version : Version) → IsEntry version to.now
            → Shows version (view log.old) (slots_of self.old) self.old
            → Shows version (view log.new) (slots_of self.new) self.new }
    {
        log.stage(slot_sector(serial), &write_entry(to));
        self.forget(serial, from);
        self.hold(serial, to);
    }

    /// The least serial that a name in a directory is held with.
    fn serial_of(&self, parent: Serial, name: &[u8]) -> Option<Serial>
        requires { IsName name.now }
        ensures found { MatchOption result ((s : ℕ) → Names self.now parent name.now s → ⊥)
            (λ s. Names self.now parent name.now s) }
        ensures least { IfSome result (λ s. IsLeastOf self.now parent name.now s) }
    {
        let key = key_of(parent.number(), name);
        let serial = self.keys.least_over(&key, 0)?;
        (*self.keys.key(serial) == key).then_some(Serial::new(serial))
    }

    /// The least serial over the number `after` that is held with a directory.
    fn child_over(&self, parent: Serial, after: u32) -> Option<Serial>
        ensures { MatchOption result (NoChildOver self.now parent after)
            (λ s. IsNextChild self.now parent after s) }
    {
        let key = child_key_of(parent.number());
        let serial = self.children.least_over(&key, after)?;
        (*self.children.key(serial) == key).then_some(Serial::new(serial))
    }

    /// No names, with the memory for those of all slots. It is refused where there is none.
    pub fn reserve(alloc: Global, slots: u32) -> Result<Dirs, AllocError>
        ensures slots { IfOk result (λ dirs. slots_of dirs ≡ slots) }
        ensures free { IfOk result (λ dirs. (serial : ℕ) → IsFree dirs serial) }
    {
        if slots > MOST_SLOTS {
            return Err(AllocError);
        }
        Ok(Dirs {
            slots,
            keys: SerialOrder::reserve(alloc, slots)?,
            children: SerialOrder::reserve(alloc, slots)?,
            used: SlotMarks::reserve(alloc, slots)?,
            seats: vec![in alloc; Seat {
                parent: 0,
                directory: false
            }; slots as usize]?,
        })
    }

    /// Takes up the name of the entry that a slot holds, if it holds one.
    fn hold_image(&mut self, version: Version, serial: Serial, image: &Sector)
        requires first { 1 ≤ serial }
        requires last { serial ≤ slots_of self.old }
        requires free { IsFree self.old serial }
        ensures names { (p : ℕ) (n : List ℕ) (s : ℕ) → Names self.new p n s
            ↔ (Names self.old p n s ⊎ (s ≡ serial) × IsSpelled version image.now p n) }
        ensures seat { (e : Entry) → IsEntry version e → image.now ≡ spelling e
            → seat_at self.new serial ≡ seat_of e }
        ensures others { (s : ℕ) → 1 ≤ s → s ≢ serial
            → seat_at self.new s ≡ seat_at self.old s }
        ensures slots { slots_of self.new ≡ slots_of self.old }
    {
        let Ok(Some(entry)) = read_entry(version, image) else {
            return;
        };
        self.hold(serial, &entry);
    }

    /// Takes up the name and the seat of the entry that a slot holds. Nothing is staged.
    pub fn hold(&mut self, serial: Serial, entry: &Entry)
        requires first { 1 ≤ serial }
        requires last { serial ≤ slots_of self.old }
        requires free { IsFree self.old serial }
        requires named { HasName entry.now }
        ensures names { (p : ℕ) (n : List ℕ) (s : ℕ) → Names self.new p n s
            ↔ (Names self.old p n s ⊎ IsNameOf entry.now serial p n s) }
        ensures seats { TakesSeat self.old self.new serial entry.now }
        ensures slots { slots_of self.new ≡ slots_of self.old }
    {
        let key = key_of(entry.parent, &entry.name[..entry.name_length as usize]);
        let number = serial.number();
        self.keys.insert(&key, number);
        self.children.insert(&child_key_of(entry.parent), number);
        self.used.mark((number - 1) as usize);
        self.seats[(number - 1) as usize] = seat_of(entry);
    }

    /// Gives up the name of an entry that is held. Its seat stays, which then says nothing.
    fn forget(&mut self, serial: Serial, entry: &Entry)
        requires held { Names self.old entry.now.parent (name_of entry.now) serial }
        ensures names { (p : ℕ) (n : List ℕ) (s : ℕ) → Names self.new p n s
            ↔ (Names self.old p n s × (s ≢ serial)) }
        ensures seats { KeepSeats self.old self.new }
        ensures slots { slots_of self.new ≡ slots_of self.old }
    {
        let number = serial.number();
        self.keys.remove(number);
        self.children.remove(number);
        self.used.unmark((number - 1) as usize);
    }
}
