//! The header of the log, as commits write it and as openings read it.

ghost use Rattle.std.specs.Prelude.{◌≡◌, ◌≤◌, ◌<◌, List, [], ℕ, length, vec_capacity, slice_index};
ghost use Rattle.std.specs.Prelude.{IsTrue};
ghost use Rattle.vol_log.specs.Header.{IsHeader, header_bytes};
ghost use Rattle.vol_log.specs.internal.Batch.{numbers};

use crate::Staged;
use crate::layout::{FIRST_AFTER_LOG, IMAGES};
use byteorder::{ByteOrder, LittleEndian};
use vol_sector::Sector;

/// The header of a log that holds the batch.
pub fn header_image(batch: &[Staged]) -> Sector
    requires { length batch.now ≤ 120 }
    ensures { result ≡ header_bytes (numbers batch.now) }
{
    let mut header = [0; 512];
    LittleEndian::write_u32(&mut header, batch.len() as u32);
    for (i, staged) in batch.iter().enumerate() {
        LittleEndian::write_u32(&mut header[4 + 4 * i..], staged.sector);
    }
    header
}

/// Reads the sectors that the header names into the batch, or says that it is no right header.
pub fn read_header(header: &Sector, sectors: u32, batch: &mut Vec<Staged>) -> bool
    requires empty { batch.old.items ≡ [] }
    requires room { 120 ≤ vec_capacity batch.old }
    ensures right { IsTrue result → IsHeader sectors header.now (numbers batch.new.items) }
    ensures only { (ns : List ℕ) → IsHeader sectors header.now ns
        → IsTrue result × (numbers batch.new.items ≡ ns) }
    ensures capacity { vec_capacity batch.old ≤ vec_capacity batch.new }
{
    let count = LittleEndian::read_u32(header) as usize;
    if count > IMAGES {
        return false;
    }
    for i in 0..count {
        let sector = LittleEndian::read_u32(&header[4 + 4 * i..]);
        if sector < FIRST_AFTER_LOG || sectors <= sector || is_staged(batch, sector) {
            return false;
        }
        let staged = Staged {
            sector,
            image: [0; 512],
        };
        match batch.push(staged) {
            Ok(()) => {}
            Err(_) => return false,
        }
    }
    header_image(batch) == *header
}

/// Is the sector in the batch?
pub fn is_staged(batch: &[Staged], sector: u32) -> bool
    ensures yes { IsTrue result → (k : ℕ) × (k < length batch.now)
        × (slice_index (numbers batch.now) k ≡ sector) }
    ensures no { (k : ℕ) → k < length batch.now → slice_index (numbers batch.now) k ≡ sector
        → IsTrue result }
{
    for staged in batch {
        if staged.sector == sector {
            return true;
        }
    }
    false
}
