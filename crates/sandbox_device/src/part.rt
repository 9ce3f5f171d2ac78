//! Part of a device's sectors, of which those of zeros take no more room than a number.

ghost use Rattle.std.specs.Prelude.{◌≡◌, ◌<◌, ◌≤◌, IfOk, IsTrue, length, replicate, set};
ghost use Rattle.vol_sector.specs.Record.{image_of};

use std::alloc::{AllocError, Global};
use std::marker::Model;
use vol_sector::Sector;

/// Sectors of one part at most, with the room for all of which is asked for at once: 64 MiB.
pub(crate) const PART: u32 = 131_072;

/// At most 131,072 sectors. One that was never anything but zeros takes four bytes; the room for all others is
/// reserved when they are made, so that no write takes memory, and isn't touched before they are written.
#[derive(Drop)]
pub(crate) struct SectorBlock {
    /// Of each sector 0 where it is zeros, else one more than its place among the written ones.
    places: Vec<u32>,
    written: Vec<Sector>,
}

impl Model for SectorBlock {
    ghost use Rattle.std.specs.Prelude.{List, ℕ, ◌≤◌, vec_len, vec_capacity};
    ghost use Rattle.sandbox_device.specs.internal.Packing.{sectors_at, IsPacked};

    ghost Value = { List (List ℕ) };

    ghost view = { λ s. sectors_at s.written.items s.places.items };

    ghost invariant = { λ s. IsPacked s.written.items s.places.items
        × (vec_len s.places ≤ vec_capacity s.written) × (vec_len s.places ≤ 131072) };
}

/// Whether these are zeros.
fn is_zeros(image: &Sector) -> bool
    ensures { IsTrue result → image.now ≡ replicate 512 0 }
{
    // (An array is compared byte after byte, up to the first that differs. The largest is found of many at a time.)
    let mut largest: u8 = 0;
    for byte in image {
        largest = largest.max(*byte);
    }
    largest == 0
}

impl SectorBlock {
    /// This many, of zeros.
    pub(crate) fn zeros(alloc: Global, count: u32) -> Result<SectorBlock, AllocError>
        requires { count ≤ 131072 }
        ensures { IfOk result (λ s. s ≡ replicate count (replicate 512 0)) }
    {
        let places = vec![in alloc; 0; count as usize]?;
        let written = Vec::with_capacity(alloc, count as usize)?;
        Ok(SectorBlock { places, written })
    }

    /// The bytes of one.
    pub(crate) fn get(&self, n: u32) -> Sector
        requires { n < length self.now }
        ensures { result ≡ image_of self.now n }
    {
        match self.places[n as usize] {
            0 => [0; 512],
            place => self.written[place as usize - 1],
        }
    }

    /// Gives one these bytes.
    pub(crate) fn put(&mut self, n: u32, image: &Sector)
        requires { n < length self.old }
        ensures { self.new ≡ set self.old n image.now }
    {
        let place = self.places[n as usize];
        if place > 0 {
            self.written[place as usize - 1] = *image;
        } else if !is_zeros(image) {
            self.written.push_reserved(*image);
            self.places[n as usize] = self.written.len() as u32;
        }
    }
}
