//! A device as the layers above see it: what a read returns, and what a crash may leave.

ghost use Rattle.std.specs.Prelude.{◌≡◌, ◌⊎◌, ◌≤◌, ◌<◌, ◌↔◌, List, ℕ, IfOk, OnOk, OnErr, is_err};
ghost use Rattle.vol_sector.specs.Disk.{Image, Disk, put, After, Wrote, Only, Leaves, Keeps};
ghost use Rattle.vol_sector.specs.Disk.{counted, OneMore};
ghost use Rattle.vol_sector.specs.Past.{LeavesPast, StillGoesOn};

use crate::Sector;
use thiserror::Error;

/// An operation of a device failed.
#[derive(Clone, Copy, Debug, PartialEq, Eq, Error)]
#[error("the device failed")]
pub struct DeviceFault;

/// A device of sectors of 512 bytes, numbered from 0.
///
/// A crash leaves each sector, apart from the others, at its value of the last successful sync or
/// at any value whose write was tried since, failed writes among them. A failed sync settles
/// nothing. What is said of contents and of operations holds only of an honest device. Each read, write
/// and sync raises the count of operations by one, failed ones among them. Each failed operation raises
/// the count of failures by one and nothing else does; at its last value the count stays.
pub trait Device {
    /// What is known of the disk.
    ghost disk: { Self → Disk };

    /// The device keeps the model. What is said of contents holds only then.
    ghost honest: { Self → Type 0 };

    /// How many sectors there are.
    ghost size: { Self → ℕ };

    /// How many operations have failed, as far as the count goes.
    ghost failures: { Self → ℕ };

    /// The device is an earlier one after some operations, none of which was a write from this number of a
    /// sector on. A device that keeps a record of its operations has those of the earlier one at its beginning.
    ghost goes_on: { ℕ → Self → Self → Type 0 };

    /// The number of sectors, which never changes.
    fn sectors(&self) -> u32
        ensures { result ≡ size self.now };

    /// How many operations have failed; at its last value the count stays.
    fn failures(&self) -> u64
        ensures { result ≡ failures self.now };

    /// The sector's bytes: those of its last write.
    fn read(&mut self, n: u32) -> Result<Sector, DeviceFault>
        requires { n < size self.old }
        ensures bytes { honest self.old → IfOk result (λ bytes. bytes ≡ (disk self.old).seen n) }
        ensures seen { honest self.old → (disk self.new).seen ≡ (disk self.old).seen }
        ensures crash { honest self.old → Leaves (disk self.old) (disk self.new) (λ c. ⊥) }
        ensures keeps { honest self.old → Keeps (disk self.old) (disk self.new) }
        ensures operation_count { honest self.old → OneMore (disk self.old) (disk self.new) }
        ensures honest { honest self.old ↔ honest self.new }
        ensures size { size self.new ≡ size self.old }
        ensures failures { failures self.new ≡ counted (is_err result) (failures self.old) }
        ensures goes_on { (end : ℕ) → StillGoesOn (goes_on end) self.old self.new };

    /// Writes the sector. After a failure reads give the former bytes or these, always the same
    /// until the next write there.
    fn write(&mut self, n: u32, image: &Sector) -> Result<(), DeviceFault>
        requires { n < size self.old }
        ensures written { honest self.old
            → OnOk result ((disk self.new).seen ≡ put n image.now (disk self.old).seen) }
        ensures seen { honest self.old
            → Wrote n image.now (disk self.old).seen (disk self.new).seen }
        ensures crash { honest self.old → Leaves (disk self.old) (disk self.new)
            (After (Wrote n image.now) (disk self.old).may_leave) }
        ensures keeps { honest self.old → Keeps (disk self.old) (disk self.new) }
        ensures operation_count { honest self.old → OneMore (disk self.old) (disk self.new) }
        ensures honest { honest self.old ↔ honest self.new }
        ensures size { size self.new ≡ size self.old }
        ensures failures { failures self.new ≡ counted (is_err result) (failures self.old) }
        ensures goes_on { (end : ℕ) → n < end → StillGoesOn (goes_on end) self.old self.new };

    /// After its success a crash leaves what reads give.
    fn sync(&mut self) -> Result<(), DeviceFault>
        ensures durable { honest self.old
            → OnOk result (Only (disk self.old).seen (disk self.new).may_leave) }
        ensures seen { honest self.old → (disk self.new).seen ≡ (disk self.old).seen }
        ensures crash { honest self.old → Leaves (disk self.old) (disk self.new) (λ c. ⊥) }
        ensures keeps { honest self.old → Keeps (disk self.old) (disk self.new) }
        ensures operation_count { honest self.old → OneMore (disk self.old) (disk self.new) }
        ensures honest { honest self.old ↔ honest self.new }
        ensures size { size self.new ≡ size self.old }
        ensures failures { failures self.new ≡ counted (is_err result) (failures self.old) }
        ensures goes_on { (end : ℕ) → StillGoesOn (goes_on end) self.old self.new };

    /// What a crash may leave now is among what a crash since an earlier count may have left.
    ghost counts_now: { (d : Self) (t : ℕ) (c : Image) → honest d → t ≤ (disk d).operation_count
        → (disk d).may_leave c → (disk d).left_since t c };

    /// Since the count of now there is only now.
    ghost only_now: { (d : Self) (c : Image) → honest d
        → (disk d).left_since (disk d).operation_count c → (disk d).may_leave c };

    /// A crash may leave what reads give.
    ghost may_stay: { (d : Self) → honest d → (disk d).may_leave (disk d).seen };

    /// A device goes on from itself.
    ghost begins: { (end : ℕ) (d : Self) → goes_on end d d };

    /// What goes on from a device that went on from a third goes on from that.
    ghost goes_further: { (end : ℕ) (a b c : Self) → goes_on end a b → goes_on end b c → goes_on end a c };

    /// One that goes on leaves the sectors from that number on as they were.
    ghost leaves_past: { (end : ℕ) (first later : Self) → honest first → goes_on end first later
        → LeavesPast end (disk first) (disk later) };
}
