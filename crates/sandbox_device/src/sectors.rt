//! Sectors in memory.

ghost use Rattle.std.specs.Prelude.{◌≡◌, ◌<◌, ◌^◌, ◌≤◌, ◌+◌, ◌++◌, IfOk, drop, take, length, replicate, set};
ghost use Rattle.vol_sector.specs.Record.{image_of};

use crate::part::{PART, SectorBlock};
use std::alloc::{AllocError, Global};
use std::marker::Model;
use vol_sector::Sector;

/// The sectors of a device. The room for all is reserved when they are made, part by part, so that no write takes memory, and that
/// of a sector which was never anything but zeros isn't touched.
#[derive(Drop)]
pub(crate) struct Sectors {
    /// Each but the last has 131,072 sectors.
    parts: Vec<SectorBlock>,
    count: u32,
}

impl Model for Sectors {
    ghost use Rattle.std.specs.Prelude.{List, ℕ, ◌≡◌, length};
    ghost use Rattle.sandbox_device.specs.internal.InParts.{joined, IsInParts};

    ghost Value = { List (List ℕ) };

    ghost view = { λ s. joined s.parts.items };

    ghost invariant = { λ s. IsInParts s.parts.items × (length (joined s.parts.items) ≡ s.count) };
}

/// Asks for the room of this many sectors, and gives it back. The system looks at one request at a time: of what it refuses as a
/// whole it would grant each part, and end the process later.
fn ask_for_all(alloc: Global, count: u32) -> Result<(), AllocError> {
    let all: Vec<Sector> = Vec::with_capacity(alloc, count as usize)?;
    drop(all);
    Ok(())
}

/// This many parts that are full, of zeros.
fn full_parts(alloc: Global, many: u32) -> Result<Vec<SectorBlock>, AllocError>
    ensures { IfOk result (λ parts. parts.items ≡ replicate many
        (replicate 131072 (replicate 512 0))) }
{
    let mut parts = Vec::new(alloc);
    for _ in 0..many {
        parts.push(SectorBlock::zeros(alloc, PART)?)?;
    }
    Ok(parts)
}

impl Sectors {
    /// This many, of zeros.
    pub(crate) fn zeros(alloc: Global, count: u32) -> Result<Sectors, AllocError>
        ensures { IfOk result (λ s. s ≡ replicate count (replicate 512 0)) }
    {
        if count > PART {
            ask_for_all(alloc, count)?;
        }
        let mut parts = full_parts(alloc, count / PART)?;
        parts.push(SectorBlock::zeros(alloc, count % PART)?)?;
        Ok(Sectors { parts, count })
    }

    /// The sectors that have these bytes.
    pub(crate) fn of(alloc: Global, images: &[Sector]) -> Result<Sectors, AllocError>
        requires { length images.now ≤ 16777216 }
        ensures { IfOk result (λ s. s ≡ images.now) }
    {
        let mut sectors = Sectors::zeros(alloc, images.len() as u32)?;
        sectors.put_all(0, images);
        Ok(sectors)
    }

    /// How many there are.
    pub(crate) fn len(&self) -> usize
        ensures count { result ≡ length self.now }
        ensures small { result < 2 ^ 32 }
    {
        self.count as usize
    }

    /// The bytes of one.
    pub(crate) fn get(&self, n: u32) -> Sector
        requires { n < length self.now }
        ensures { result ≡ image_of self.now n }
    {
        self.parts[(n / PART) as usize].get(n % PART)
    }

    /// Gives those from one on these bytes.
    pub(crate) fn put_all(&mut self, first: u32, images: &[Sector])
        requires fit { first + length images.now ≤ length self.old }
        requires small { first + length images.now < 2 ^ 32 }
        ensures { self.new ≡ take first self.old ++ images.now ++ drop (first + length images.now)
            self.old }
    {
        let mut n = first;
        for image in images {
            self.put(n, image);
            n += 1;
        }
    }

    /// Gives one these bytes.
    pub(crate) fn put(&mut self, n: u32, image: &Sector)
        requires { n < length self.old }
        ensures { self.new ≡ set self.old n image.now }
    {
        self.parts[(n / PART) as usize].put(n % PART, image);
    }
}
