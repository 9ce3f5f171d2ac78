//! Where the sectors of a file are.

ghost use Rattle.std.specs.Prelude.{◌≡◌, ◌≢◌, ◌≤◌, ◌<◌, true, false, IfOk, is_err, if◌then◌else◌};
ghost use Rattle.std.specs.Prelude.{drop, ◌*◌};
ghost use Rattle.byteorder.specs.Endian.{little_number};
ghost use Rattle.vol_log.specs.Log.{view, log_sectors, has_failed, device_of};
ghost use Rattle.vol_alloc.specs.Alloc.{end_of, taken_of};
ghost use Rattle.vol_body.specs.Body.{block_bytes};
ghost use Rattle.vol_log.specs.Reading.{OnlyReads};

use byteorder::{ByteOrder, LittleEndian};
use vol_alloc::Alloc;
use vol_inode::{MOST_BLOCKS, NUMBERS};
use vol_log::Log;
use vol_sector::{Device, DeviceFault, Sector};

/// The last data block that a file may have.
pub const LAST: u32 = MOST_BLOCKS - 1;

/// The numbers of a pointer sector.
pub type Numbers = [u32; NUMBERS as usize];

/// The number, if it is that of a taken sector, else 0. A device that isn't honest may give any.
pub fn taken_or_zero(sectors: &Alloc, n: u32) -> u32
    ensures { result ≡ (if taken_of sectors.now n then n else 0) }
{
    if sectors.is_taken(n) { n } else { 0 }
}

/// The `i`-th number of a pointer sector.
pub fn number_at(image: &Sector, i: u32) -> u32
    requires { i < NUMBERS }
    ensures { result ≡ little_number 4 (drop (4 * i) image.now) }
{
    LittleEndian::read_u32(&image[4 * i as usize..])
}

/// The bytes of a taken sector. Sector 0 stands for none, which reads as zeros.
pub fn read_taken<D: Device>(
    log: &mut Log<D>,
    sectors: &Alloc,
    n: u32,
) -> Result<Sector, DeviceFault>
    requires taken { n ≢ 0 → taken_of sectors.now n ≡ true }
    requires there { end_of sectors.now ≤ log_sectors log.old }
    requires working { has_failed log.old ≡ false }
    ensures bytes { D.honest (device_of log.old)
        → IfOk result (λ image. image ≡ block_bytes (view log.old) n) }
    ensures reads { OnlyReads log.old log.new }
    ensures failed { has_failed log.new ≡ is_err result }
{
    if n == 0 {
        return Ok([0; 512]);
    }
    log.read(n)
}
