//! What was done to a session's volume, one operation after another, for a host that does it on a disk.

ghost use Rattle.std.specs.Prelude.{◌≡◌, None, Some, Option, IfSome, is_none, true, false, option_copied};
ghost use Rattle.sandbox_host.specs.Recording.{operation_of, told_operation, recorded, recorded_on, recorded_in};

use crate::handle::Handle;
use crate::held::HandleContent;
use crate::numbers::{MISUSE, OK, OUT_OF_MEMORY};
use sandbox_device::RecordedDevice;
use std::alloc::Global;
use vol_sector::{Operation, Sector};

/// A write or a sync, as C has it.
#[repr(C)]
#[derive(Clone, Copy)]
pub struct VolumeOperation {
    /// 1 a write, 2 a sync; 0 none.
    pub kind: u32,
    /// Of a write, the sector.
    pub sector: u32,
    /// And its bytes.
    pub bytes: Sector,
}

/// Tells an operation, or that there is none.
fn tell(operation: Option<&Operation>, told: &mut VolumeOperation)
    ensures { told.new ≡ told_operation (option_copied operation.entry) told.old }
{
    match operation {
        Some(Operation::Write(sector, bytes)) => {
            told.kind = 1;
            told.sector = *sector;
            told.bytes = *bytes;
        }
        Some(Operation::Sync) => told.kind = 2,
        None => told.kind = 0,
    }
}

/// Tells the operation of a device with this number.
fn tell_of(device: &RecordedDevice, number: usize, told: &mut VolumeOperation) -> u32
    ensures misuse { is_none (recorded_on device.now) ≡ true → (result ≡ 100)
        × (told.new ≡ told.old) }
    ensures lost { IfSome (recorded_on device.now)
        (λ d. d.is_whole ≡ false → (result ≡ 40) × (told.new ≡ told.old)) }
    ensures told { IfSome (recorded_on device.now) (λ d. d.is_whole ≡ true
        → (result ≡ 0) × (told.new ≡ told_operation (operation_of d number) told.old)) }
{
    if !device.is_recorded() {
        return MISUSE;
    }
    if !device.is_whole() {
        return OUT_OF_MEMORY;
    }
    tell(device.operation(number), told);
    OK
}

/// Tells the write or sync with this number, from 0 on, of those that were done to the volume of a session or an instance since it was opened; none
/// past the last so far. Of a session that runs, those are told that its resumes have done; of a finished one all.
pub fn operation_at(
    alloc: Global,
    session: &mut Handle,
    number: usize,
    told: &mut VolumeOperation,
) -> u32
    ensures misuse { is_none (recorded session.old.held) ≡ true → (result ≡ MISUSE)
        × (told.new ≡ told.old) }
    ensures lost { IfSome (recorded session.old.held)
        (λ d. d.is_whole ≡ false → (result ≡ OUT_OF_MEMORY) × (told.new ≡ told.old)) }
    ensures told { IfSome (recorded session.old.held) (λ d. d.is_whole ≡ true
        → (result ≡ OK) × (told.new ≡ told_operation (operation_of d number) told.old)) }
    ensures kept { session.new.held ≡ session.old.held }
{
    let Some(held) = session.take(alloc) else {
        return MISUSE;
    };
    let answer = match &*held {
        HandleContent::Running(running) => tell_of(running.session.device(), number, told),
        HandleContent::Finished(ended) => tell_of(&ended.device, number, told),
        HandleContent::Instance(living) => tell_of(living.instance.device(), number, told),
        HandleContent::SessionLeft(left) => tell_of(&left.device, number, told),
        _ => MISUSE,
    };
    session.put(held);
    answer
}
