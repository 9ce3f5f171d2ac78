//! The memory of a guest.

ghost use Rattle.std.specs.Prelude.{◌≡◌, ◌+◌, ◌^◌, ◌<◌, ◌≤◌, length, vec_len, vec_capacity, ℕ};
ghost use Rattle.std.specs.Bool.{OnTrue, OnFalse};
ghost use Rattle.wasm_store.specs.Bytes.{bytes_at, filled, written};

use byteorder::{ByteOrder, LittleEndian};
use std::alloc::{AllocError, Global};
use std::marker::Model;

/// Bytes of a page (section 4.2.8).
pub const PAGE_SIZE: usize = 65_536;

/// How many bytes are touched beyond those that are asked for: a page of most hosts.
const AHEAD: usize = 4_096;

/// The bytes of a guest's memory (section 4.2.8), which every contract sees as a list.
///
/// Only a first part is kept, up to the highest place that was written; what stands behind it are zeros. There is room
/// for all of it, so that to write behind the part can't fail.
///
/// A load and a store have a base and an offset, whose sum doesn't wrap.
#[derive(Drop)]
pub struct Memory {
    /// The first part.
    bytes: Vec<u8>,
    /// How many bytes there are in all.
    size: usize,
}

impl Model for Memory {
    ghost use Rattle.std.specs.Prelude.{ℕ, List, ◌/◌, ◌<◌, ◌≤◌, ◌^◌, vec_len, vec_capacity};
    ghost use Rattle.wasm_store.specs.Bytes.{filled};

    ghost Value = { List ℕ };

    ghost view = { λ m. filled m.size m.bytes.items };

    ghost invariant = { λ m. (vec_len m.bytes ≤ m.size) × (m.size ≤ vec_capacity m.bytes)
        × (m.size / 65536 < 2 ^ 32) };
}

/// Copies bytes to a place behind all of them.
fn copy_up(bytes: &mut [u8], source: usize, target: usize, len: usize)
    requires apart { source + len ≤ target }
    requires inside { target + len ≤ length bytes.old }
    ensures { bytes.new ≡ written bytes.old target (bytes_at bytes.old source len) }
{
    let (low, high) = bytes.split_at_mut(target);
    high[..len].copy_from_slice(&low[source..source + len]);
}

/// Copies bytes to a place before all of them.
fn copy_down(bytes: &mut [u8], source: usize, target: usize, len: usize)
    requires apart { target + len ≤ source }
    requires inside { source + len ≤ length bytes.old }
    ensures { bytes.new ≡ written bytes.old target (bytes_at bytes.old source len) }
{
    let (low, high) = bytes.split_at_mut(source);
    low[target..target + len].copy_from_slice(&high[..len]);
}

/// Copies bytes from one place to another, as if all were read first. Those that lie apart go by the system's copy, which is
/// several times as fast.
fn copy_bytes(bytes: &mut Vec<u8>, source: usize, target: usize, len: usize)
    requires read { source + len ≤ vec_len bytes.old }
    requires put { target + len ≤ vec_len bytes.old }
    ensures items { bytes.new.items ≡ written bytes.old.items target
        (bytes_at bytes.old.items source len) }
    ensures len { vec_len bytes.new ≡ vec_len bytes.old }
    ensures room { vec_capacity bytes.new ≡ vec_capacity bytes.old }
{
    if source + len <= target {
        copy_up(bytes.as_mut_slice(), source, target, len);
    } else if target + len <= source {
        copy_down(bytes.as_mut_slice(), source, target, len);
    } else {
        bytes.copy_within(source..source + len, target);
    }
}

/// Writes bytes from a place on, or nothing where they would pass the end.
#[inline]
fn put_within(place: &mut [u8], start: usize, bytes: &[u8]) -> bool
    requires { start + length bytes.now < 2 ^ 64 }
    ensures inside { OnTrue result ((start + length bytes.now ≤ length place.old)
        × (place.new ≡ written place.old start bytes.now)) }
    ensures outside { OnFalse result (place.new ≡ place.old) }
{
    let count = bytes.len();
    if place.len() < start + count {
        return false;
    }
    place[start..start + count].copy_from_slice(bytes);
    true
}

/// Copies the bytes from a place on, those of the first part and then zeros.
fn read_part(bytes: &[u8], start: usize, room: &mut [u8])
    ensures { (size : ℕ) → start + length room.old ≤ size → length bytes.now ≤ size
        → room.new ≡ bytes_at (filled size bytes.now) start (length room.old) }
{
    let part = &bytes[start.min(bytes.len())..];
    let len = part.len().min(room.len());
    let (front, back) = room.split_at_mut(len);
    front.copy_from_slice(&part[..len]);
    back.fill(0);
}

/// Writes zeros behind the first part, so that it reaches at least this end, and `AHEAD` more where there is as much: to write
/// upwards byte by byte touches once in so many bytes.
#[inline(never)]
fn touch(bytes: &mut Vec<u8>, size: usize, end: usize)
    requires inside { end ≤ size }
    requires part { vec_len bytes.old ≤ size }
    requires room { size ≤ vec_capacity bytes.old }
    ensures same { filled size bytes.new.items ≡ filled size bytes.old.items }
    ensures touched { end ≤ vec_len bytes.new }
    ensures part { vec_len bytes.new ≤ size }
    ensures room { size ≤ vec_capacity bytes.new }
{
    if end <= bytes.len() {
        return;
    }
    let step = AHEAD.min(size - end);
    if bytes.resize(end + step, 0).is_err() {
        unreachable!()
    }
}

impl Memory {
    ghost use Rattle.std.specs.Prelude.{◌≡◌, ℕ, ◌+◌, ◌*◌, ◌/◌, ◌^◌, ◌<◌, ◌≤◌, ◌⊎◌, ◌++◌, length, replicate, min, IfOk, IsSome, IfSome, IfNone, IsTrue, ◌↔◌};
    ghost use Rattle.std.specs.Bool.{OnTrue, OnFalse};
    ghost use Rattle.std.specs.Borrow.{sem};
    ghost use Rattle.wasm_store.specs.Bytes.{from_bytes, to_bytes, bytes_at, filled, written};
    ghost use Rattle.wasm_store.specs.Lending.{IsPart, LendsPart, LendsPartIf, Stays};

    /// Memory of this many pages of 65,536 bytes, all zeros.
    pub fn new(alloc: Global, pages: u32) -> Result<Memory, AllocError>
        ensures { IfOk result (λ m. m ≡ replicate (pages * 65536) 0) }
    {
        let size = pages as usize * PAGE_SIZE;
        let bytes = Vec::with_capacity(alloc, size)?;
        Ok(Memory { bytes, size })
    }

    /// How many bytes there are.
    pub fn len(&self) -> usize
        ensures { result ≡ length self.now }
    {
        self.size
    }

    /// How many pages there are.
    pub fn pages(&self) -> u32
        ensures { result ≡ length self.now / 65536 }
    {
        (self.size / PAGE_SIZE) as u32
    }

    /// Copies the bytes from a place on, as many as there is room for, or none where they would pass the end.
    #[inline(never)]
    pub fn read(&self, start: usize, room: &mut [u8]) -> bool
        ensures inside { OnTrue result ((start + length room.old ≤ length self.now)
            × (room.new ≡ bytes_at self.now start (length room.old))) }
        ensures outside { OnFalse result ((length self.now < start + length room.old)
            × (room.new ≡ room.old)) }
    {
        if self.size < room.len() || self.size - room.len() < start {
            return false;
        }
        read_part(self.bytes.as_slice(), start, room);
        true
    }

    /// This many bytes from an address, where they are in memory. They are touched, which memory doesn't show.
    pub fn slice(&mut self, address: u32, len: u32) -> Option<&[u8]>
        ensures* same { sem 𝓛 (Stays self.entry) }
        ensures inside { IfSome result (λ s. (address + len ≤ length self.old)
            × (s.now ≡ bytes_at self.old address len)) }
        ensures outside { IfNone result (length self.old < address + len) }
    {
        if self.size < address as usize + len as usize {
            return None;
        }
        let (start, end) = (address as usize, address as usize + len as usize);
        touch(&mut self.bytes, self.size, end);
        self.bytes.get(start..end)
    }

    /// The first part of memory, which reaches to this end or to memory's. It is touched, which memory doesn't show. What
    /// stands behind the part are zeros.
    pub fn first_part(&mut self, end: usize) -> &[u8]
        ensures* same { sem 𝓛 (Stays self.entry) }
        ensures within { length result.now ≤ length self.old }
        ensures long { min end (length self.old) ≤ length result.now }
        ensures value { filled (length self.old) result.now ≡ self.old }
    {
        touch(&mut self.bytes, self.size, end.min(self.size));
        self.bytes.as_slice()
    }

    /// The bytes from an address on, at least this many, to be written, where so many are in memory.
    pub fn slice_mut(&mut self, address: u32, len: u32) -> Option<&mut [u8]>
        ensures* writes_back { sem 𝓛 (LendsPartIf self.entry address result) }
        ensures inside { IfSome result (λ s. (address + len ≤ length self.old)
            × (IsPart self.old address len s.now)) }
        ensures outside { IfNone result (length self.old < address + len) }
    {
        if self.has_range(address, len) {
            Some(self.range_mut(address, len))
        } else {
            None
        }
    }

    /// Whether this many bytes from an address are in memory, also where there are none of them.
    fn has_range(&self, address: u32, len: u32) -> bool
        ensures { IsTrue result ↔ (address + len ≤ length self.now) }
    {
        address as usize + len as usize <= self.size
    }

    /// The bytes from an address on, at least this many, to be written.
    fn range_mut(&mut self, address: u32, len: u32) -> &mut [u8]
        requires { address + len ≤ length self.old }
        ensures* writes_back { sem 𝓛 (LendsPart self.entry address result) }
        ensures value { IsPart self.old address len result.now }
    {
        self.part_mut(address as usize, len as usize)
    }

    /// The bytes from a place on, at least this many, to be written. So many have to be in memory.
    pub fn part_mut(&mut self, start: usize, len: usize) -> &mut [u8]
        requires { start + len ≤ length self.old }
        ensures* writes_back { sem 𝓛 (LendsPart self.entry start result) }
        ensures value { IsPart self.old start len result.now }
    {
        touch(&mut self.bytes, self.size, start + len);
        self.bytes.slice_mut(start..)
    }

    /// Writes these bytes from an address on, or nothing where they would pass the end.
    pub fn write(&mut self, address: u32, bytes: &[u8]) -> bool
        ensures inside { OnTrue result ((address + length bytes.now ≤ length self.old)
            × (self.new ≡ written self.old address bytes.now)) }
        ensures outside { OnFalse result ((length self.old < address + length bytes.now)
            × (self.new ≡ self.old)) }
    {
        self.put_before(address as usize, bytes)
    }

    /// Writes these bytes from a place on, or nothing where they would pass the end.
    #[inline(never)]
    pub(crate) fn put(&mut self, start: usize, bytes: &[u8]) -> bool
        ensures inside { OnTrue result ((start + length bytes.now ≤ length self.old)
            × (self.new ≡ written self.old start bytes.now)) }
        ensures outside { OnFalse result ((length self.old < start + length bytes.now)
            × (self.new ≡ self.old)) }
    {
        let len = bytes.len();
        if self.size < len || self.size - len < start {
            return false;
        }
        touch(&mut self.bytes, self.size, start + len);
        self.bytes.as_mut_slice()[start..start + len].copy_from_slice(bytes);
        true
    }

    /// Writes these bytes from a place on, or nothing where they would pass the end. Within the first part it compares once, as
    /// a load does, since the end is a number.
    fn put_before(&mut self, start: usize, bytes: &[u8]) -> bool
        requires { start + length bytes.now < 2 ^ 64 }
        ensures inside { OnTrue result ((start + length bytes.now ≤ length self.old)
            × (self.new ≡ written self.old start bytes.now)) }
        ensures outside { OnFalse result ((length self.old < start + length bytes.now)
            × (self.new ≡ self.old)) }
    {
        if put_within(self.bytes.as_mut_slice(), start, bytes) {
            return true;
        }
        self.put(start, bytes)
    }

    /// This many bytes from a base and an offset, where they are in the first part.
    fn access(&self, base: u32, offset: u32, len: u32) -> Option<&[u8]>
        ensures { IfSome result (λ s. (base + offset + len ≤ length self.now)
            × (s.now ≡ bytes_at self.now (base + offset) len)) }
    {
        let start = base as usize + offset as usize;
        self.bytes.get(start..start + len as usize)
    }

    /// The byte at a base and an offset, where it is in the first part.
    pub fn first_u8(&self, base: u32, offset: u32) -> Option<u8>
        ensures { IfSome result (λ x. (base + offset + 1 ≤ length self.now)
            × (x ≡ from_bytes (bytes_at self.now (base + offset) 1))) }
    {
        let bytes = self.access(base, offset, 1)?;
        Some(bytes[0])
    }

    /// The number of 2 bytes from a base and an offset, where they are in the first part.
    pub fn first_u16(&self, base: u32, offset: u32) -> Option<u16>
        ensures { IfSome result (λ x. (base + offset + 2 ≤ length self.now)
            × (x ≡ from_bytes (bytes_at self.now (base + offset) 2))) }
    {
        let bytes = self.access(base, offset, 2)?;
        Some(LittleEndian::read_u16(bytes))
    }

    /// The number of 4 bytes from a base and an offset, where they are in the first part.
    pub fn first_u32(&self, base: u32, offset: u32) -> Option<u32>
        ensures { IfSome result (λ x. (base + offset + 4 ≤ length self.now)
            × (x ≡ from_bytes (bytes_at self.now (base + offset) 4))) }
    {
        let bytes = self.access(base, offset, 4)?;
        Some(LittleEndian::read_u32(bytes))
    }

    /// The number of 8 bytes from a base and an offset, where they are in the first part.
    pub fn first_u64(&self, base: u32, offset: u32) -> Option<u64>
        ensures { IfSome result (λ x. (base + offset + 8 ≤ length self.now)
            × (x ≡ from_bytes (bytes_at self.now (base + offset) 8))) }
    {
        let bytes = self.access(base, offset, 8)?;
        Some(LittleEndian::read_u64(bytes))
    }

    /// The first part reaches to 8 bytes from a base and an offset on, or to the end of memory, so that what is read there next is in
    /// it. Memory doesn't show that.
    #[inline(never)]
    pub fn reach(&mut self, base: u32, offset: u32)
        ensures { self.new ≡ self.old }
    {
        let start = base as usize + offset as usize;
        if start < self.size {
            touch(&mut self.bytes, self.size, (start + 8).min(self.size));
        }
    }

    /// The byte from a place on, also behind the first part, where it is in memory.
    #[inline(never)]
    fn load_u8_behind(&self, start: usize) -> Option<u8>
        ensures inside { IfSome result (λ x. (start + 1 ≤ length self.now)
            × (x ≡ from_bytes (bytes_at self.now start 1))) }
        ensures outside { IfNone result (length self.now < start + 1) }
    {
        let mut bytes = [0; 1];
        if self.read(start, &mut bytes) {
            Some(u8::from_le_bytes(bytes))
        } else {
            None
        }
    }

    /// The number of 2 bytes from a place on, also behind the first part, where they are in memory.
    #[inline(never)]
    fn load_u16_behind(&self, start: usize) -> Option<u16>
        ensures inside { IfSome result (λ x. (start + 2 ≤ length self.now)
            × (x ≡ from_bytes (bytes_at self.now start 2))) }
        ensures outside { IfNone result (length self.now < start + 2) }
    {
        let mut bytes = [0; 2];
        if self.read(start, &mut bytes) {
            Some(u16::from_le_bytes(bytes))
        } else {
            None
        }
    }

    /// The number of 4 bytes from a place on, also behind the first part, where they are in memory.
    #[inline(never)]
    fn load_u32_behind(&self, start: usize) -> Option<u32>
        ensures inside { IfSome result (λ x. (start + 4 ≤ length self.now)
            × (x ≡ from_bytes (bytes_at self.now start 4))) }
        ensures outside { IfNone result (length self.now < start + 4) }
    {
        let mut bytes = [0; 4];
        if self.read(start, &mut bytes) {
            Some(u32::from_le_bytes(bytes))
        } else {
            None
        }
    }

    /// The number of 8 bytes from a place on, also behind the first part, where they are in memory.
    #[inline(never)]
    fn load_u64_behind(&self, start: usize) -> Option<u64>
        ensures inside { IfSome result (λ x. (start + 8 ≤ length self.now)
            × (x ≡ from_bytes (bytes_at self.now start 8))) }
        ensures outside { IfNone result (length self.now < start + 8) }
    {
        let mut bytes = [0; 8];
        if self.read(start, &mut bytes) {
            Some(u64::from_le_bytes(bytes))
        } else {
            None
        }
    }

    /// The byte at a base and an offset (section 4.4.4), where it is in memory.
    pub fn load_u8(&self, base: u32, offset: u32) -> Option<u8>
        ensures inside { IfSome result (λ x. (base + offset + 1 ≤ length self.now)
            × (x ≡ from_bytes (bytes_at self.now (base + offset) 1))) }
        ensures outside { IfNone result (length self.now < base + offset + 1) }
    {
        match self.first_u8(base, offset) {
            Some(number) => Some(number),
            None => self.load_u8_behind(base as usize + offset as usize),
        }
    }

    /// The number of 2 bytes from a base and an offset (section 4.4.4), where they are in memory.
    pub fn load_u16(&self, base: u32, offset: u32) -> Option<u16>
        ensures inside { IfSome result (λ x. (base + offset + 2 ≤ length self.now)
            × (x ≡ from_bytes (bytes_at self.now (base + offset) 2))) }
        ensures outside { IfNone result (length self.now < base + offset + 2) }
    {
        match self.first_u16(base, offset) {
            Some(number) => Some(number),
            None => self.load_u16_behind(base as usize + offset as usize),
        }
    }

    /// The number of 4 bytes from a base and an offset (section 4.4.4), where they are in memory.
    pub fn load_u32(&self, base: u32, offset: u32) -> Option<u32>
        ensures inside { IfSome result (λ x. (base + offset + 4 ≤ length self.now)
            × (x ≡ from_bytes (bytes_at self.now (base + offset) 4))) }
        ensures outside { IfNone result (length self.now < base + offset + 4) }
    {
        match self.first_u32(base, offset) {
            Some(number) => Some(number),
            None => self.load_u32_behind(base as usize + offset as usize),
        }
    }

    /// The number of 8 bytes from a base and an offset (section 4.4.4), where they are in memory.
    pub fn load_u64(&self, base: u32, offset: u32) -> Option<u64>
        ensures inside { IfSome result (λ x. (base + offset + 8 ≤ length self.now)
            × (x ≡ from_bytes (bytes_at self.now (base + offset) 8))) }
        ensures outside { IfNone result (length self.now < base + offset + 8) }
    {
        match self.first_u64(base, offset) {
            Some(number) => Some(number),
            None => self.load_u64_behind(base as usize + offset as usize),
        }
    }

    /// Stores a byte at a base and an offset (section 4.4.4), or nothing where it would pass the end.
    pub fn store_u8(&mut self, base: u32, offset: u32, value: u8) -> bool
        ensures inside { OnTrue result ((base + offset + 1 ≤ length self.old)
            × (self.new ≡ written self.old (base + offset) (to_bytes 1 value))) }
        ensures outside { OnFalse result ((length self.old < base + offset + 1)
            × (self.new ≡ self.old)) }
    {
        self.put_before(base as usize + offset as usize, &[value])
    }

    /// Stores 2 bytes from a base and an offset on (section 4.4.4), or nothing where they would pass the end.
    pub fn store_u16(&mut self, base: u32, offset: u32, value: u16) -> bool
        ensures inside { OnTrue result ((base + offset + 2 ≤ length self.old)
            × (self.new ≡ written self.old (base + offset) (to_bytes 2 value))) }
        ensures outside { OnFalse result ((length self.old < base + offset + 2)
            × (self.new ≡ self.old)) }
    {
        self.put_before(base as usize + offset as usize, &u16::to_le_bytes(value))
    }

    /// Stores 4 bytes from a base and an offset on (section 4.4.4), or nothing where they would pass the end.
    pub fn store_u32(&mut self, base: u32, offset: u32, value: u32) -> bool
        ensures inside { OnTrue result ((base + offset + 4 ≤ length self.old)
            × (self.new ≡ written self.old (base + offset) (to_bytes 4 value))) }
        ensures outside { OnFalse result ((length self.old < base + offset + 4)
            × (self.new ≡ self.old)) }
    {
        self.put_before(base as usize + offset as usize, &u32::to_le_bytes(value))
    }

    /// Stores 8 bytes from a base and an offset on (section 4.4.4), or nothing where they would pass the end.
    pub fn store_u64(&mut self, base: u32, offset: u32, value: u64) -> bool
        ensures inside { OnTrue result ((base + offset + 8 ≤ length self.old)
            × (self.new ≡ written self.old (base + offset) (to_bytes 8 value))) }
        ensures outside { OnFalse result ((length self.old < base + offset + 8)
            × (self.new ≡ self.old)) }
    {
        self.put_before(base as usize + offset as usize, &u64::to_le_bytes(value))
    }

    /// Grows by this many pages of zeros, to at most `limit` pages, and gives the pages before (section 4.4.4). Past the
    /// limit, or where memory is refused, nothing changes.
    pub fn grow(&mut self, pages: u32, limit: u32) -> Option<u32>
        ensures grown { IfSome result (λ before. (before ≡ length self.old / 65536)
            × (before + pages ≤ limit) × (self.new ≡ self.old ++ replicate (pages * 65536) 0)) }
        ensures refused { IfNone result (self.new ≡ self.old) }

        // To grow by nothing takes no memory.
        ensures nothing { pages ≡ 0 → length self.old / 65536 ≤ limit → IsSome result }
    {
        let before = self.size / PAGE_SIZE;
        let added = pages as usize;
        let limit = limit as usize;
        if limit < added || limit - added < before {
            return None;
        }
        let size = self.size + added * PAGE_SIZE;
        self.bytes.reserve_exact(size - self.bytes.len()).ok()?;
        self.size = size;
        Some(before as u32)
    }

    /// Copies this many bytes from one address to another, as if all were read first (`memory.copy`), or nothing where
    /// either range passes the end.
    pub fn copy(&mut self, target: u32, source: u32, len: u32) -> bool
        ensures inside { OnTrue result ((source + len ≤ length self.old)
            × (target + len ≤ length self.old) × (self.new ≡ written self.old target
            (bytes_at self.old source len))) }
        ensures outside { OnFalse result (((length self.old < source + len)
            ⊎ (length self.old < target + len)) × (self.new ≡ self.old)) }
    {
        let (target, source, len) = (target as usize, source as usize, len as usize);
        if self.size < source + len || self.size < target + len {
            return false;
        }
        touch(&mut self.bytes, self.size, source.max(target) + len);
        copy_bytes(&mut self.bytes, source, target, len);
        true
    }

    /// Writes a byte this many times from an address on (`memory.fill`), or nothing where they would pass the end.
    pub fn fill(&mut self, target: u32, value: u8, len: u32) -> bool
        ensures inside { OnTrue result ((target + len ≤ length self.old)
            × (self.new ≡ written self.old target (replicate len value))) }
        ensures outside { OnFalse result ((length self.old < target + len)
            × (self.new ≡ self.old)) }
    {
        let (start, len) = (target as usize, len as usize);
        if self.size < start + len {
            return false;
        }
        touch(&mut self.bytes, self.size, start + len);
        self.bytes.as_mut_slice()[start..start + len].fill(value);
        true
    }
}
