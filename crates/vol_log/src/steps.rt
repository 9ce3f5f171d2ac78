//! The parts of a commit, each a few operations on the device.

ghost use Rattle.std.specs.Prelude.{◌≡◌, ◌≤◌, ◌<◌, ◌↔◌, [], ℕ};
ghost use Rattle.std.specs.Prelude.{length, OnOk, is_err};
ghost use Rattle.vol_sector.specs.Disk.{After, Wrote, Leaves, Only, put, counted};
ghost use Rattle.vol_sector.specs.Past.{StillGoesOn};
ghost use Rattle.vol_log.specs.Header.{Places};
ghost use Rattle.vol_log.specs.Batch.{over, logged, SameContent, HasContent, HasEither};
ghost use Rattle.vol_log.specs.internal.Batch.{numbers};
ghost use Rattle.vol_log.specs.Batch.{Settled};
ghost use Rattle.vol_log.specs.internal.Steps.{Logged, OnlyImagesChange, OutsideLog, Under};
ghost use Rattle.vol_log.specs.declared.layout.TheConstants.{FIRST_AFTER_LOG};

use crate::Staged;
use crate::header::header_image;
use crate::layout::{FIRST_IMAGE, FRONT, HEADER};
use vol_sector::{Device, DeviceFault, Sector};

/// Writes the images into the log.
pub fn write_images<D: Device>(device: &mut D, batch: &[Staged]) -> Result<(), DeviceFault>
    requires few { length batch.now ≤ 120 }
    requires room { FIRST_AFTER_LOG < D.size device.old }
    ensures logged { D.honest device.old
        → OnOk result (logged (numbers batch.now) 2 (D.disk device.new).seen ≡ batch.now) }
    ensures beside { D.honest device.old
        → OnlyImagesChange (D.disk device.old).seen (D.disk device.new).seen }
    ensures crash { D.honest device.old → Leaves (D.disk device.old) (D.disk device.new)
        (After OnlyImagesChange (D.disk device.old).may_leave) }
    ensures honest { D.honest device.old ↔ D.honest device.new }
    ensures size { D.size device.new ≡ D.size device.old }
    ensures goes_on { (end : ℕ) → FIRST_AFTER_LOG ≤ end
        → StillGoesOn (D.goes_on end) device.old device.new }
    ensures failures { D.failures device.new ≡ counted (is_err result) (D.failures device.old) }
{
    for (i, staged) in batch.iter().enumerate() {
        device.write(FIRST_IMAGE + i as u32, &staged.image)?;
    }
    Ok(())
}

/// Writes the images in their places.
pub fn install<D: Device>(device: &mut D, batch: &[Staged]) -> Result<(), DeviceFault>
    requires { Places (D.size device.old) (numbers batch.now) }
    ensures installed { D.honest device.old
        → OnOk result ((D.disk device.new).seen ≡ over batch.now (D.disk device.old).seen) }
    ensures under { D.honest device.old
        → Under batch.now (D.disk device.old).seen (D.disk device.new).seen }
    ensures crash { D.honest device.old → Leaves (D.disk device.old) (D.disk device.new)
        (After (Under batch.now) (D.disk device.old).may_leave) }
    ensures honest { D.honest device.old ↔ D.honest device.new }
    ensures size { D.size device.new ≡ D.size device.old }
    ensures goes_on { (end : ℕ) → Places end (numbers batch.now)
        → StillGoesOn (D.goes_on end) device.old device.new }
    ensures failures { D.failures device.new ≡ counted (is_err result) (D.failures device.old) }
{
    for staged in batch {
        device.write(staged.sector, &staged.image)?;
    }
    Ok(())
}

/// Puts the batch into the log: its images, then the header.
pub fn log_batch<D: Device>(device: &mut D, batch: &[Staged]) -> Result<(), DeviceFault>
    requires few { length batch.now ≤ 120 }
    requires room { FIRST_AFTER_LOG < D.size device.old }
    ensures logged { (s : ℕ) → D.honest device.old → Settled s (D.disk device.old)
        → Places s (numbers batch.now)
        → OnOk result (Logged s batch.now (D.disk device.new)) }
    ensures crash { (s : ℕ) → D.honest device.old → Settled s (D.disk device.old)
        → Places s (numbers batch.now)
        → Leaves (D.disk device.old) (D.disk device.new)
        (HasEither s (D.disk device.old).seen (over batch.now (D.disk device.old).seen)) }
    ensures beside { D.honest device.old
        → OutsideLog (D.disk device.old).seen (D.disk device.new).seen }
    ensures honest { D.honest device.old ↔ D.honest device.new }
    ensures size { D.size device.new ≡ D.size device.old }
    ensures goes_on { (end : ℕ) → FIRST_AFTER_LOG ≤ end
        → StillGoesOn (D.goes_on end) device.old device.new }
    ensures failures { D.failures device.new ≡ counted (is_err result) (D.failures device.old) }
{
    write_images(device, batch)?;
    device.sync()?; // the images are on the disk before the header names them
    device.write(HEADER, &header_image(batch))?;
    device.sync() // the header is on the disk before the sectors are installed
}

/// Puts the batch that the log holds into its places, and empties the log.
pub fn apply_batch<D: Device>(device: &mut D, batch: &[Staged]) -> Result<(), DeviceFault>
    requires room { FIRST_AFTER_LOG < D.size device.old }
    requires places { Places (D.size device.old) (numbers batch.now) }
    ensures settled { (s : ℕ) → D.honest device.old → Logged s batch.now (D.disk device.old)
        → OnOk result (Settled s (D.disk device.new)
        × SameContent (D.disk device.new).seen (over batch.now (D.disk device.old).seen)) }
    ensures crash { (s : ℕ) → D.honest device.old → Logged s batch.now (D.disk device.old)
        → Leaves (D.disk device.old) (D.disk device.new)
        (λ c. HasContent s c (over batch.now (D.disk device.old).seen)) }
    ensures under { D.honest device.old
        → SameContent (over batch.now (D.disk device.new).seen)
        (over batch.now (D.disk device.old).seen) }
    ensures honest { D.honest device.old ↔ D.honest device.new }
    ensures size { D.size device.new ≡ D.size device.old }
    ensures goes_on { (end : ℕ) → FIRST_AFTER_LOG ≤ end → Places end (numbers batch.now)
        → StillGoesOn (D.goes_on end) device.old device.new }
    ensures failures { D.failures device.new ≡ counted (is_err result) (D.failures device.old) }
{
    install(device, batch)?;
    device.sync()?; // the sectors are on the disk before the log is emptied
    device.write(HEADER, &header_image(&[]))?;
    device.sync() // the log is empty on the disk before the next batch is logged
}

/// Puts the batch onto the disk, all of it or nothing, at every moment.
pub fn commit_batch<D: Device>(device: &mut D, batch: &[Staged]) -> Result<(), DeviceFault>
    requires room { FIRST_AFTER_LOG < D.size device.old }
    requires places { Places (D.size device.old) (numbers batch.now) }
    ensures settled { (s : ℕ) → D.honest device.old → Settled s (D.disk device.old)
        → Places s (numbers batch.now)
        → OnOk result (Settled s (D.disk device.new)
        × SameContent (D.disk device.new).seen (over batch.now (D.disk device.old).seen)) }
    ensures crash { (s : ℕ) → D.honest device.old → Settled s (D.disk device.old)
        → Places s (numbers batch.now)
        → Leaves (D.disk device.old) (D.disk device.new)
        (HasEither s (D.disk device.old).seen (over batch.now (D.disk device.old).seen)) }
    ensures keeps { D.honest device.old
        → SameContent (over batch.now (D.disk device.new).seen)
        (over batch.now (D.disk device.old).seen) }
    ensures honest { D.honest device.old ↔ D.honest device.new }
    ensures size { D.size device.new ≡ D.size device.old }
    ensures goes_on { (end : ℕ) → FIRST_AFTER_LOG ≤ end → Places end (numbers batch.now)
        → StillGoesOn (D.goes_on end) device.old device.new }
    ensures failures { D.failures device.new ≡ counted (is_err result) (D.failures device.old) }
{
    log_batch(device, batch)?;
    apply_batch(device, batch)
}

/// Reads the images of the log.
pub fn read_images<D: Device>(device: &mut D, batch: &mut [Staged]) -> Result<(), DeviceFault>
    requires few { length batch.old ≤ 120 }
    requires room { FIRST_AFTER_LOG < D.size device.old }
    ensures read { D.honest device.old
        → OnOk result (batch.new ≡ logged (numbers batch.old) 2 (D.disk device.old).seen) }
    ensures seen { D.honest device.old → (D.disk device.new).seen ≡ (D.disk device.old).seen }
    ensures crash { D.honest device.old → Leaves (D.disk device.old) (D.disk device.new) (λ c. ⊥) }
    ensures honest { D.honest device.old ↔ D.honest device.new }
    ensures size { D.size device.new ≡ D.size device.old }
    ensures goes_on { (end : ℕ) → StillGoesOn (D.goes_on end) device.old device.new }
    ensures failures { D.failures device.new ≡ counted (is_err result) (D.failures device.old) }
    ensures sectors { numbers batch.new ≡ numbers batch.old }
{
    for (i, staged) in batch.iter_mut().enumerate() {
        staged.image = device.read(FIRST_IMAGE + i as u32)?;
    }
    Ok(())
}

/// Writes the sector that stands before the log, and syncs.
pub fn write_front<D: Device>(device: &mut D, image: &Sector) -> Result<(), DeviceFault>
    requires { 0 < D.size device.old }
    ensures durable { D.honest device.old
        → OnOk result (Only (D.disk device.new).seen (D.disk device.new).may_leave) }
    ensures written { D.honest device.old
        → OnOk result ((D.disk device.new).seen ≡ put 0 image.now (D.disk device.old).seen) }
    ensures others { D.honest device.old → (n : ℕ) → 0 < n
        → (D.disk device.new).seen n ≡ (D.disk device.old).seen n }
    ensures crash { D.honest device.old → Leaves (D.disk device.old) (D.disk device.new)
        (After (Wrote 0 image.now) (D.disk device.old).may_leave) }
    ensures honest { D.honest device.old ↔ D.honest device.new }
    ensures size { D.size device.new ≡ D.size device.old }
    ensures goes_on { (end : ℕ) → 0 < end → StillGoesOn (D.goes_on end) device.old device.new }
    ensures failures { D.failures device.new ≡ counted (is_err result) (D.failures device.old) }
{
    device.write(FRONT, image)?;
    device.sync() // it isn't pending when the caller goes on
}
