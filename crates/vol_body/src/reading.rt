//! Reading the bytes of a file.

ghost use Rattle.std.specs.Prelude.{◌≡◌, ◌≤◌, ◌<◌, ◌+◌, ◌-◌, ◌++◌, ℕ, true, false, IfOk, OnOk, OnErr, IsErr, is_err};
ghost use Rattle.std.specs.Prelude.{length, min, take, drop};
ghost use Rattle.vol_log.specs.Log.{view, log_sectors, has_failed, device_of};
ghost use Rattle.vol_alloc.specs.Alloc.{end_of, taken_of};
ghost use Rattle.vol_body.specs.Body.{NamesTaken, bytes_of};
ghost use Rattle.vol_log.specs.Reading.{OnlyReads};
ghost use Rattle.vol_inode.specs.declared.version.TheConstants.{LARGEST_SIZE};

use crate::holding::{hold, read_held};
use vol_alloc::Alloc;
use vol_inode::Entry;
use vol_log::Log;
use vol_sector::{Device, DeviceFault, Sector};

/// Reads the file's bytes from the offset on into the buffer, as many as there are and fit, and
/// says how many.
///
/// It is refused where a device operation failed, or had failed before; then the buffer may hold
/// a beginning of what was to be read. A data block that was never written reads as zeros.
pub fn read_at<D: Device>(
    log: &mut Log<D>,
    sectors: &Alloc,
    entry: &Entry,
    offset: u64,
    buffer: &mut [u8],
) -> Result<usize, DeviceFault>
    requires there { end_of sectors.now ≤ log_sectors log.old }
    requires small { entry.now.size ≤ LARGEST_SIZE }
    ensures count { IfOk result (λ n. n ≡ min (length buffer.old) (entry.now.size - offset)) }
    ensures bytes { D.honest (device_of log.old)
        → NamesTaken (taken_of sectors.now) (view log.old) entry.now
        → IfOk result (λ n. buffer.new
        ≡ take n (drop offset (bytes_of (view log.old) entry.now)) ++ drop n buffer.old) }
    ensures beginning { D.honest (device_of log.old)
        → NamesTaken (taken_of sectors.now) (view log.old) entry.now
        → OnErr result ((n : ℕ) × (n ≤ min (length buffer.old) (entry.now.size - offset))
        × (buffer.new
        ≡ take n (drop offset (bytes_of (view log.old) entry.now)) ++ drop n buffer.old)) }
    ensures reads { OnlyReads log.old log.new }
    ensures failed { has_failed log.new ≡ is_err result }
    ensures idle { has_failed log.old ≡ true → (log.new ≡ log.old) × IsErr result }
{
    if log.failed() {
        return Err(DeviceFault);
    }
    let count = readable(entry.size, offset, buffer.len());
    if count == 0 {
        return Ok(0);
    }
    read_some(log, sectors, entry, offset as usize, count, buffer)?;
    Ok(count)
}

/// Reads this many of the file's bytes. Each pointer sector is read once.
fn read_some<D: Device>(
    log: &mut Log<D>,
    sectors: &Alloc,
    entry: &Entry,
    offset: usize,
    count: usize,
    buffer: &mut [u8],
) -> Result<(), DeviceFault>
    requires some { 0 < count }
    requires fits { count ≤ length buffer.old }
    requires within { offset + count ≤ entry.now.size }
    requires small { entry.now.size ≤ LARGEST_SIZE }
    requires there { end_of sectors.now ≤ log_sectors log.old }
    requires working { has_failed log.old ≡ false }
    ensures bytes { D.honest (device_of log.old)
        → NamesTaken (taken_of sectors.now) (view log.old) entry.now
        → OnOk result (buffer.new
        ≡ take count (drop offset (bytes_of (view log.old) entry.now)) ++ drop count buffer.old) }
    ensures beginning { D.honest (device_of log.old)
        → NamesTaken (taken_of sectors.now) (view log.old) entry.now
        → OnErr result ((n : ℕ) × (n ≤ count) × (buffer.new
        ≡ take n (drop offset (bytes_of (view log.old) entry.now)) ++ drop n buffer.old)) }
    ensures reads { OnlyReads log.old log.new }
    ensures failed { has_failed log.new ≡ is_err result }
{
    let last = ((offset + count - 1) / 512) as u32;
    let mut held = hold(log, sectors, entry, (offset / 512) as u32, last)?;
    let mut done: usize = 0;
    while done < count {
        let at = offset + done;
        let image = read_held(log, sectors, entry, &mut held, (at / 512) as u32, last)?;
        done += fill(buffer, done, count, &image, at % 512);
    }
    Ok(())
}

/// How many of a file's bytes from the offset on fit.
fn readable(size: u32, offset: u64, room: usize) -> usize
    ensures { result ≡ min room (size - offset) }
{
    let left = u64::from(size).saturating_sub(offset) as usize;
    left.min(room)
}

/// Copies bytes of a sector from a place on into the buffer between two places, and says how many.
fn fill(buffer: &mut [u8], from: usize, end: usize, image: &Sector, start: usize) -> usize
    requires before { from < end }
    requires within { end ≤ length buffer.old }
    requires start { start < 512 }
    ensures count { result ≡ min (end - from) (512 - start) }
    ensures bytes { buffer.new ≡ take from buffer.old ++ take result (drop start image.now)
        ++ drop (from + result) buffer.old }
{
    let count = (end - from).min(512 - start);
    buffer[from..from + count].copy_from_slice(&image[start..start + count]);
    count
}
