//! What opening does with a log that a crash may have left.

ghost use Rattle.std.specs.Prelude.{◌≡◌, ◌⊎◌, ◌≤◌, ◌<◌, ◌↔◌, List, ℕ, []};
ghost use Rattle.std.specs.Prelude.{IsTrue, OnOk, OnErr, IfOk, IfErr, IsErrAnd, is_err, vec_capacity};
ghost use Rattle.vol_sector.specs.Disk.{Image, Leaves, counted};
ghost use Rattle.vol_sector.specs.Past.{StillGoesOn};
ghost use Rattle.vol_sector.specs.Fault.{device_failed, IsDamage};
ghost use Rattle.vol_log.specs.Header.{Places, IsHeader};
ghost use Rattle.vol_log.specs.Batch.{SameContent, HasContent, Settled};
ghost use Rattle.vol_log.specs.internal.Batch.{numbers};
ghost use Rattle.vol_log.specs.internal.Steps.{Logged};
ghost use Rattle.vol_log.specs.declared.layout.TheConstants.{FIRST_AFTER_LOG};

use crate::Staged;
use crate::header::read_header;
use crate::layout::HEADER;
use crate::steps::{apply_batch, read_images};
use vol_sector::{Damage, Device, DeviceFault, Rule, VolumeFault};

/// Puts what the log holds into its places, and empties the log.
// So many clauses in four groups: what stands at success and when it is refused (`settled` to `quiet`), what a crash
// or a refusal leaves (`crash`, `kept_content`), what becomes of the device (`honest` to `failures`), and of the batch.
pub fn replay<D: Device>(
    device: &mut D,
    sectors: u32,
    batch: &mut Vec<Staged>,
) -> Result<(), VolumeFault>
    requires geometry { FIRST_AFTER_LOG < sectors }
    requires on_device { sectors ≤ D.size device.old }
    requires empty { batch.old.items ≡ [] }
    requires room { 120 ≤ vec_capacity batch.old }

    ensures settled { D.honest device.old → OnOk result (Settled sectors (D.disk device.new)) }
    ensures content { (m : Image) → D.honest device.old
        → HasContent sectors (D.disk device.old).seen m
        → OnOk result (SameContent (D.disk device.new).seen m) }
    ensures right { D.honest device.old
        → OnOk result ((m : Image) × HasContent sectors (D.disk device.old).seen m) }
    ensures damaged { D.honest device.old → IsErrAnd result IsDamage
        → (m : Image) → HasContent sectors (D.disk device.old).seen m → ⊥ }
    ensures quiet { D.honest device.old
        → ((m : Image) → HasContent sectors (D.disk device.old).seen m → ⊥)
        → Leaves (D.disk device.old) (D.disk device.new) (λ c. ⊥) }

    // At any moment a crash leaves what it could leave before, or the same content.
    ensures crash { (m : Image) → D.honest device.old
        → HasContent sectors (D.disk device.old).seen m
        → Leaves (D.disk device.old) (D.disk device.new) (λ c. HasContent sectors c m) }

    ensures kept_content { (m : Image) → D.honest device.old
        → HasContent sectors (D.disk device.old).seen m
        → OnErr result (HasContent sectors (D.disk device.new).seen m) }

    ensures honest { D.honest device.old ↔ D.honest device.new }
    ensures size { D.size device.new ≡ D.size device.old }
    ensures goes_on { (end : ℕ) → sectors ≤ end
        → StillGoesOn (D.goes_on end) device.old device.new }
    ensures named { IfErr result (λ fault. IsDamage fault
        ⊎ (fault ≡ VolumeFault.Device)) }
    ensures failures { D.failures device.new ≡ counted (device_failed result)
        (D.failures device.old) }
    ensures emptied { OnOk result (batch.new.items ≡ []) }
    ensures room_kept { OnOk result (120 ≤ vec_capacity batch.new) }
{
    let is_right = read_log(device, sectors, batch)?;
    if !is_right {
        return Err(VolumeFault::Damaged(Damage {
            sector: Some(HEADER),
            rule: Rule::LogHeader,
        }));
    }
    if batch.is_empty() {
        return Ok(());
    }
    apply_batch(device, batch)?;
    batch.clear();
    Ok(())
}

/// Syncs and reads what the log holds into the batch, or says that its header is no right one.
// So many clauses, since four say what the caller owes, four what was read (`full` to `only`, `room_kept`), and the
// others that the device stays as it was.
fn read_log<D: Device>(
    device: &mut D,
    sectors: u32,
    batch: &mut Vec<Staged>,
) -> Result<bool, DeviceFault>
    requires geometry { FIRST_AFTER_LOG < sectors }
    requires on_device { sectors ≤ D.size device.old }
    requires empty { batch.old.items ≡ [] }
    requires room { 120 ≤ vec_capacity batch.old }
    ensures full { D.honest device.old → IfOk result (λ right. IsTrue right
        → Logged sectors batch.new.items (D.disk device.new)) }
    ensures places { IfOk result (λ right. IsTrue right
        → Places sectors (numbers batch.new.items)) }
    ensures only { (ns : List ℕ) → D.honest device.old
        → IsHeader sectors ((D.disk device.old).seen 1) ns
        → IfOk result (λ right. IsTrue right × (numbers batch.new.items ≡ ns)) }
    ensures seen { D.honest device.old → (D.disk device.new).seen ≡ (D.disk device.old).seen }
    ensures crash { D.honest device.old → Leaves (D.disk device.old) (D.disk device.new) (λ c. ⊥) }
    ensures honest { D.honest device.old ↔ D.honest device.new }
    ensures size { D.size device.new ≡ D.size device.old }
    ensures goes_on { (end : ℕ) → StillGoesOn (D.goes_on end) device.old device.new }
    ensures failures { D.failures device.new ≡ counted (is_err result) (D.failures device.old) }
    ensures room_kept { 120 ≤ vec_capacity batch.new }
{
    // Nothing may be pending when the log is installed.
    device.sync()?;
    let header = device.read(HEADER)?;
    if !read_header(&header, sectors, batch) {
        return Ok(false);
    }
    read_images(device, batch)?;
    Ok(true)
}
