//! What the calls on files do to the parts of an open volume.

ghost use Rattle.std.specs.Prelude.{◌≡◌, ◌≤◌, ◌<◌, ◌+◌, IsTrue, MatchOption, length};
ghost use Rattle.vol_inode.specs.Space.{need_of, size_limit};
ghost use Rattle.vol_log.specs.Log.{device_of};
ghost use Rattle.vol_body.specs.declared.writing.TheConstants.{PIECE};
ghost use Rattle.vol_tree.specs.Superblock.{HasRanges};
ghost use Rattle.vol_tree.specs.Calls.{written, resized, with_unit, is_file_at};
ghost use Rattle.vol_tree.specs.Opened.{data_sectors, geometry};

use crate::Errno;
use crate::parts::Parts;
use vol_body::{Source, set_size, write_at};
use vol_dirs::slot_sector;
use vol_inode::{Serial, Version, need};
use vol_log::FIRST_AFTER_LOG;
use vol_sector::Device;

impl<D: Device> Parts<D> {
    ghost use Rattle.vol_tree.specs.internal.Changes.{Changes};
    ghost use Rattle.vol_tree.specs.Parts.{opened};
    ghost use Rattle.vol_tree.specs.internal.Parts.{IsOpen};

    /// Writes some bytes into a file.
    pub fn write(&mut self, file: Serial, offset: u64, bytes: &Source<'_>) -> Result<(), Errno>
        requires is_open { IsOpen self.old }
        requires first { 1 ≤ file }
        requires last { file ≤ self.old.numbers.slots }
        requires some { 0 < length bytes.now }
        requires piece { length bytes.now ≤ PIECE }
        requires used { D.honest (device_of self.old.log)
            → IsTrue (is_file_at (opened self.old).tree file) }
        ensures { Changes (with_unit (written (geometry self.old.numbers) (opened self.old).tree
            file offset bytes.now)) self.old self.new result }
    {
        let mut entry = self.entry(file)?;
        let count = bytes.len();
        let Some(end) = end_of_write(self.numbers.version, offset, count) else {
            return Err(Errno::TooBig);
        };
        let size = entry.size.max(end);
        let Some(reserved) = self.reserved_with(entry.size, size) else {
            return Err(Errno::NoSpace);
        };
        self.make_room()?;
        write_at(
            &mut self.log,
            &mut self.sectors,
            slot_sector(file),
            &mut entry,
            end - count as u32,
            bytes,
        )?;
        self.reserved = reserved;
        Ok(())
    }

    /// Sets the size of a file. Bytes that it gains are zeros.
    pub fn set_size(&mut self, file: Serial, size: u64) -> Result<(), Errno>
        requires is_open { IsOpen self.old }
        requires first { 1 ≤ file }
        requires last { file ≤ self.old.numbers.slots }
        requires used { D.honest (device_of self.old.log)
            → IsTrue (is_file_at (opened self.old).tree file) }
        ensures { Changes (with_unit (resized (geometry self.old.numbers) (opened self.old).tree
            file size)) self.old self.new result }
    {
        let mut entry = self.entry(file)?;
        let Some(size) = size_within(self.numbers.version, size) else {
            return Err(Errno::TooBig);
        };
        let Some(reserved) = self.reserved_with(entry.size, size) else {
            return Err(Errno::NoSpace);
        };
        self.make_room()?;
        set_size(
            &mut self.log,
            &mut self.sectors,
            slot_sector(file),
            &mut entry,
            size,
        )?;
        self.reserved = reserved;
        Ok(())
    }

    /// The sectors that the files need where one has another size, if there are as many.
    fn reserved_with(&self, before: u32, after: u32) -> Option<u32>
        requires ranges { HasRanges self.now.numbers }
        ensures { MatchOption result
            (need_of before ≤ self.now.reserved → data_sectors self.now.numbers + need_of before
            < self.now.reserved + need_of after)
            (λ n. need_of before ≤ self.now.reserved → (n + need_of before
            ≡ self.now.reserved + need_of after) × (n ≤ data_sectors self.now.numbers)) }
    {
        let others = u64::from(self.reserved.saturating_sub(need(before)));
        let sum = others + u64::from(need(after));
        let most = self.numbers.sectors - (FIRST_AFTER_LOG + self.numbers.slots);
        if sum <= u64::from(most) {
            Some(sum as u32)
        } else {
            None
        }
    }
}

/// The end of a write, where no file's limit is passed.
fn end_of_write(version: Version, offset: u64, count: usize) -> Option<u32>
    requires { count ≤ PIECE }
    ensures { MatchOption result (size_limit version < offset + count)
        (λ end. (end ≡ offset + count) × (end ≤ size_limit version)) }
{
    let limit = u64::from(version.size_limit());
    if offset <= limit && offset + count as u64 <= limit {
        Some((offset + count as u64) as u32)
    } else {
        None
    }
}

/// The size, where it is within a file's limit.
fn size_within(version: Version, size: u64) -> Option<u32>
    ensures { MatchOption result (size_limit version < size)
        (λ n. (n ≡ size) × (n ≤ size_limit version)) }
{
    let limit = version.size_limit();
    if size <= u64::from(limit) {
        Some(size as u32)
    } else {
        None
    }
}
