//! The log over a device, with the sectors that are staged.

ghost use Rattle.std.specs.Prelude.{◌≡◌, ◌⊎◌, ◌≤◌, ◌<◌, ◌-◌, ◌==◌, ◌↔◌, ℕ};
ghost use Rattle.std.specs.Prelude.{[], false, true};
ghost use Rattle.std.specs.Prelude.{OnOk, OnErr, IfOk, IfErr, IsOk, IsErr, is_err};
ghost use Rattle.std.specs.Prelude.{if◌then◌else◌};
ghost use Rattle.std.specs.Prelude.{vec_capacity};
ghost use Rattle.vol_sector.specs.Disk.{Image, Leaves, put, counted, OneMore};
ghost use Rattle.vol_sector.specs.Past.{StillGoesOn};
ghost use Rattle.vol_sector.specs.Fault.{is_device, IsDamage};
ghost use Rattle.vol_log.specs.Header.{Places};
ghost use Rattle.vol_log.specs.internal.Index.{IsIndex};
ghost use Rattle.vol_log.specs.Batch.{SameContent, HasContent, HasEither, Settled};
ghost use Rattle.vol_log.specs.internal.Batch.{numbers};
ghost use Rattle.vol_log.specs.declared.layout.TheConstants.{FIRST_AFTER_LOG};

use crate::Staged;
use crate::batch::Batch;
use crate::layout::IMAGES;
use crate::replay::replay;
use crate::steps::{commit_batch, write_front};
use std::alloc::Global;
use vol_sector::{Device, DeviceFault, Refused, Sector, VolumeFault};

/// A map from sector numbers to sectors over a device, which changes on the disk by whole commits.
///
/// The log has sectors 1 to 121 for itself. What it stands for are the others, its content. Up to
/// 120 sectors are staged in memory and then committed together. A device operation that fails
/// makes the log fail: from then on it does no device operation.
#[derive(Drop)]
pub struct Log<D: Device> {
    device: D,
    sectors: u32,
    batch: Batch,
    failed: bool,
    ghost geometry: { FIRST_AFTER_LOG < sectors },
    ghost on_device: { sectors ≤ D.size device },
    ghost placed: { Places sectors (numbers batch.staged.items) },
    ghost reserved: { 120 ≤ vec_capacity batch.staged },
    ghost indexed: { IsIndex (numbers batch.staged.items) batch.index.items },
    ghost index_reserved: { 120 ≤ vec_capacity batch.index },
    ghost settled: { D.honest device → failed ≡ false → Settled sectors (D.disk device) },
}

impl<D: Device> Log<D> {
    ghost use Rattle.vol_log.specs.Log.{view, staged_of, device_of, log_sectors, room_of};
    ghost use Rattle.vol_log.specs.Log.{is_staged, has_failed};

    /// Opens the log of a device's first sectors, and installs what it holds. It begins with a
    /// sync, so that nothing is pending.
    ///
    /// It is refused as `Damaged` where sector 1 is no right log header; as `Device` where an
    /// operation failed; and as `Memory`. Where that header is wrong nothing is written. It reserves
    /// the memory for all later calls.
    // So many clauses, since success and refusal hand back different things: what the log stands for (`fresh` to
    // `right`), when it is refused (`damaged`, `unwritten`, `faults_named`), what a crash or a refusal leaves
    // (`crash_ok` to `kept_content`), and what becomes of the device (`kept_ok`, `kept_err`).
    pub fn open(alloc: Global, mut device: D, sectors: u32) -> Result<Log<D>, Refused<D>>
        requires geometry { FIRST_AFTER_LOG < sectors }
        requires on_device { sectors ≤ D.size device }
        ensures fresh { IfOk result (λ log. (has_failed log ≡ false) × (staged_of log ≡ [])
            × (log_sectors log ≡ sectors)) }
        ensures content { (m : Image) → D.honest device
            → HasContent sectors (D.disk device).seen m
            → IfOk result (λ log. SameContent (view log) m) }
        ensures settled { D.honest device
            → IfOk result (λ log. Settled sectors (D.disk (device_of log))) }
        ensures right { D.honest device
            → OnOk result ((m : Image) × HasContent sectors (D.disk device).seen m) }
        ensures damaged { D.honest device → IfErr result (λ r. IsDamage r.fault
            → ((m : Image) → HasContent sectors (D.disk device).seen m → ⊥)
            × Leaves (D.disk device) (D.disk r.device) (λ c. ⊥)) }
        // Where sector 1 is no right header, nothing is written.
        ensures unwritten { D.honest device
            → ((m : Image) → HasContent sectors (D.disk device).seen m → ⊥)
            → IfErr result (λ r. Leaves (D.disk device) (D.disk r.device) (λ c. ⊥)) }
        // At any moment a crash leaves what it could leave before, or the same content.
        ensures crash_ok { (m : Image) → D.honest device
            → HasContent sectors (D.disk device).seen m
            → IfOk result (λ log. Leaves (D.disk device) (D.disk (device_of log))
            (λ c. HasContent sectors c m)) }
        ensures crash_err { (m : Image) → D.honest device
            → HasContent sectors (D.disk device).seen m
            → IfErr result (λ r. Leaves (D.disk device) (D.disk r.device)
            (λ c. HasContent sectors c m)) }
        // A refusal keeps what the log stands for.
        ensures kept_content { (m : Image) → D.honest device
            → HasContent sectors (D.disk device).seen m
            → IfErr result (λ r. HasContent sectors (D.disk r.device).seen m) }
        ensures faults_named { IfErr result (λ r. IsDamage r.fault
            ⊎ ((r.fault ≡ VolumeFault.Device) ⊎ (r.fault ≡ VolumeFault.Memory))) }
        ensures kept_ok { IfOk result (λ log. (D.honest device ↔ D.honest (device_of log))
            × (D.size (device_of log) ≡ D.size device)
            × (D.failures (device_of log) ≡ D.failures device)) }
        // It is refused as `Device` only where an operation failed.
        ensures kept_err { IfErr result (λ r. (D.honest device ↔ D.honest r.device)
            × (D.size r.device ≡ D.size device)
            × (D.failures r.device ≡ counted (is_device r.fault) (D.failures device))) }
        // What the device has past these sectors stays, and none of it is written.
        ensures goes_on_ok { IfOk result (λ log. (end : ℕ) → sectors ≤ end
            → StillGoesOn (D.goes_on end) device (device_of log)) }
        ensures goes_on_err { IfErr result (λ r. (end : ℕ) → sectors ≤ end
            → StillGoesOn (D.goes_on end) device r.device) }
    {
        let mut batch = match Batch::reserve(alloc) {
            Ok(batch) => batch,
            Err(_) => {
                return Err(Refused {
                    device,
                    fault: VolumeFault::Memory,
                });
            }
        };
        match replay(&mut device, sectors, &mut batch.staged) {
            Ok(()) => Ok(Log {
                device,
                sectors,
                batch,
                failed: false,
            }),
            Err(fault) => Err(Refused { device, fault }),
        }
    }

    /// How many sectors may still be staged, at most 120.
    pub fn room(&self) -> usize
        ensures { result ≡ room_of self.now }
    {
        IMAGES - self.batch.staged.len()
    }

    /// Has a device operation failed since the log was opened?
    pub fn failed(&self) -> bool
        ensures { result ≡ has_failed self.now }
    {
        self.failed
    }

    /// The sector with what is staged for it. Where the log has failed, it answers that. It does
    /// one device operation, or none where the log has failed or the sector is staged.
    // So many clauses, since each says of one thing that a read leaves it alone: what the log stands for and has
    // staged, and what is on the device; besides, how many operations there are, and whether one failed.
    pub fn read(&mut self, n: u32) -> Result<Sector, DeviceFault>
        requires { n < log_sectors self.old }
        ensures value { D.honest (device_of self.old)
            → IfOk result (λ bytes. bytes ≡ view self.old n) }
        ensures view { D.honest (device_of self.old) → view self.new ≡ view self.old }
        ensures seen { D.honest (device_of self.old)
            → (D.disk (device_of self.new)).seen ≡ (D.disk (device_of self.old)).seen }
        ensures crash { D.honest (device_of self.old)
            → Leaves (D.disk (device_of self.old)) (D.disk (device_of self.new)) (λ c. ⊥) }
        ensures one_operation { D.honest (device_of self.old) → has_failed self.old ≡ false
            → is_staged self.old n ≡ false
            → OneMore (D.disk (device_of self.old)) (D.disk (device_of self.new)) }
        ensures no_operation { (has_failed self.old ≡ true) ⊎ (is_staged self.old n ≡ true)
            → device_of self.new ≡ device_of self.old }
        ensures failed { has_failed self.new ≡ is_err result }
        ensures idle { has_failed self.old ≡ true
            → (device_of self.new ≡ device_of self.old) × IsErr result }
        ensures staged { staged_of self.new ≡ staged_of self.old }
        ensures sectors { log_sectors self.new ≡ log_sectors self.old }
        ensures honest { D.honest (device_of self.old) ↔ D.honest (device_of self.new) }
        ensures size { D.size (device_of self.new) ≡ D.size (device_of self.old) }
        ensures goes_on { (end : ℕ)
            → StillGoesOn (D.goes_on end) (device_of self.old) (device_of self.new) }
        ensures failures { has_failed self.old ≡ false → D.failures (device_of self.new)
            ≡ counted (is_err result) (D.failures (device_of self.old)) }
    {
        if self.failed {
            return Err(DeviceFault);
        }
        match self.batch.image_for(n) {
            Some(image) => Ok(image),
            None => {
                let outcome = self.device.read(n);
                self.failed = outcome.is_err();
                outcome
            }
        }
    }

    /// Stages a sector after the log, in place of what was staged for it before. It takes one of
    /// the 120 places, unless the sector has one already.
    pub fn stage(&mut self, n: u32, image: &Sector)
        requires place { FIRST_AFTER_LOG ≤ n }
        requires there { n < log_sectors self.old }
        requires room { 0 < room_of self.old }
        requires working { has_failed self.old ≡ false }
        ensures view { view self.new ≡ put n image.now (view self.old) }
        ensures room { room_of self.new
            ≡ (if is_staged self.old n then room_of self.old else room_of self.old - 1) }
        ensures staged { (k : ℕ) → is_staged self.new k
            ≡ (if k == n then true else is_staged self.old k) }
        ensures device { device_of self.new ≡ device_of self.old }
        ensures failed { has_failed self.new ≡ false }
        ensures sectors { log_sectors self.new ≡ log_sectors self.old }
    {
        let staged = Staged {
            sector: n,
            image: *image,
        };
        self.batch.replace(staged);
    }

    /// Puts what is staged onto the disk, all of it or nothing, whenever it is stopped. After its
    /// success nothing is staged, and the disk keeps all of it.
    ///
    /// For n sectors it makes n + 1 writes, twice, and a sync after the images, the header, the
    /// sectors and the empty header; with nothing staged it does no device operation. Where an
    /// operation fails the sectors stay staged and the log has failed; where it had failed before,
    /// it answers that and does no device operation.
    pub fn commit(&mut self) -> Result<(), DeviceFault>
        ensures done { OnOk result (D.honest (device_of self.old)
            → Settled (log_sectors self.old) (D.disk (device_of self.new))
            × SameContent (D.disk (device_of self.new)).seen (view self.old)) }
        ensures crash { D.honest (device_of self.old)
            → Leaves (D.disk (device_of self.old)) (D.disk (device_of self.new))
            (HasEither (log_sectors self.old) (D.disk (device_of self.old)).seen
            (view self.old)) }
        ensures keeps { D.honest (device_of self.old)
            → SameContent (view self.new) (view self.old) }
        ensures empty { OnOk result (staged_of self.new ≡ []) }
        ensures kept { OnErr result (staged_of self.new ≡ staged_of self.old) }
        ensures failed { has_failed self.new ≡ is_err result }
        ensures idle { has_failed self.old ≡ true
            → (device_of self.new ≡ device_of self.old) × IsErr result }
        ensures nothing { staged_of self.old ≡ [] → has_failed self.old ≡ false
            → (device_of self.new ≡ device_of self.old) × IsOk result }
        ensures sectors { log_sectors self.new ≡ log_sectors self.old }
        ensures honest { D.honest (device_of self.old) ↔ D.honest (device_of self.new) }
        ensures size { D.size (device_of self.new) ≡ D.size (device_of self.old) }
        ensures goes_on { (end : ℕ) → log_sectors self.old ≤ end
            → StillGoesOn (D.goes_on end) (device_of self.old) (device_of self.new) }
        ensures failures { has_failed self.old ≡ false → D.failures (device_of self.new)
            ≡ counted (is_err result) (D.failures (device_of self.old)) }
    {
        if self.failed {
            return Err(DeviceFault);
        }
        if self.batch.staged.is_empty() {
            return Ok(());
        }
        match commit_batch(&mut self.device, &self.batch.staged) {
            Ok(()) => {
                self.batch.clear();
                Ok(())
            }
            Err(fault) => {
                self.failed = true;
                Err(fault)
            }
        }
    }

    /// Writes sector 0, which stands before the log, and syncs.
    ///
    /// It is refused where one of the two operations failed, and the log has failed then; where it
    /// had failed before, it answers that and does no device operation.
    pub fn write_front(&mut self, image: &Sector) -> Result<(), DeviceFault>
        requires { staged_of self.old ≡ [] }
        ensures written { D.honest (device_of self.old)
            → OnOk result ((D.disk (device_of self.new)).seen
            ≡ put 0 image.now (D.disk (device_of self.old)).seen) }
        ensures settled { D.honest (device_of self.old)
            → OnOk result (Settled (log_sectors self.old) (D.disk (device_of self.new))) }
        ensures others { D.honest (device_of self.old) → (n : ℕ) → 0 < n
            → (D.disk (device_of self.new)).seen n ≡ (D.disk (device_of self.old)).seen n }
        ensures crash { D.honest (device_of self.old)
            → Leaves (D.disk (device_of self.old)) (D.disk (device_of self.new))
            (λ c. c ≡ put 0 image.now (D.disk (device_of self.old)).seen) }
        ensures staged { staged_of self.new ≡ [] }
        ensures failed { has_failed self.new ≡ is_err result }
        ensures idle { has_failed self.old ≡ true
            → (device_of self.new ≡ device_of self.old) × IsErr result }
        ensures sectors { log_sectors self.new ≡ log_sectors self.old }
        ensures honest { D.honest (device_of self.old) ↔ D.honest (device_of self.new) }
        ensures size { D.size (device_of self.new) ≡ D.size (device_of self.old) }
        ensures goes_on { (end : ℕ) → log_sectors self.old ≤ end
            → StillGoesOn (D.goes_on end) (device_of self.old) (device_of self.new) }
        ensures failures { has_failed self.old ≡ false → D.failures (device_of self.new)
            ≡ counted (is_err result) (D.failures (device_of self.old)) }
    {
        if self.failed {
            return Err(DeviceFault);
        }
        let written = write_front(&mut self.device, image);
        self.failed = written.is_err();
        written
    }

    /// The device, as it is now: what is staged isn't there yet.
    pub fn device(&self) -> &D
        ensures { result.now ≡ device_of self.now }
    {
        &self.device
    }

    /// The device. What is staged is discarded.
    pub fn into_device(self) -> D
        ensures { result ≡ device_of self }
    {
        let Log {
            device,
            sectors: _,
            batch: _,
            failed: _,
        } = self;
        device
    }
}
