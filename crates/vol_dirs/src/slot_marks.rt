//! Which slots are used, and where the least unused one is.

ghost use Rattle.std.specs.Prelude.{◌≡◌, ◌≤◌, ◌<◌, ◌+◌, ◌*◌, ◌^◌, ℕ, length, true, false, IfOk, IsTrue};
ghost use Rattle.std.specs.Prelude.{vec_len, slice_index_or, replicate, set};
ghost use Rattle.std.specs.Option.{MatchOption};
ghost use Rattle.vol_dirs.specs.internal.Blocks.{IsSummed, IsBlockMarked, IsFirstUnmarked, AreAllMarked, HasNoneBefore};

use std::alloc::{AllocError, Global};

/// Slots of a block.
const BLOCK: usize = 512;

/// A flag for each slot says whether it is marked, and one for each block of 512 slots that all of
/// them are. So the least unmarked slot is found by a look at each block before its own.
#[derive(Drop)]
pub struct SlotMarks {
    flags: Vec<bool>,
    full: Vec<bool>,
    ghost few: { vec_len full < 2 ^ 32 },
    ghost summed: { IsSummed flags.items full.items },
}

impl SlotMarks {
    ghost use Rattle.vol_dirs.specs.SlotMarks.{flags_of};

    /// No marks, with the memory for those of all slots. It is refused where there is none.
    pub fn reserve(alloc: Global, slots: u32) -> Result<SlotMarks, AllocError>
        ensures { IfOk result (λ m. flags_of m ≡ replicate slots false) }
    {
        Ok(SlotMarks {
            flags: vec![in alloc; false; slots as usize]?,
            full: vec![in alloc; false; slots as usize / BLOCK + 1]?,
        })
    }

    /// Whether a slot is marked.
    pub fn is_marked(&self, slot: usize) -> bool
        requires { slot < length (flags_of self.now) }
        ensures { result ≡ slice_index_or (flags_of self.now) slot false }
    {
        self.flags[slot]
    }

    /// SlotMarks a slot.
    pub fn mark(&mut self, slot: usize)
        requires { slot < length (flags_of self.old) }
        ensures { flags_of self.new ≡ set (flags_of self.old) slot true }
    {
        self.flags[slot] = true;
        if self.is_full(slot / BLOCK) {
            self.full[slot / BLOCK] = true;
        }
    }

    /// Takes a slot's mark away.
    pub fn unmark(&mut self, slot: usize)
        requires { slot < length (flags_of self.old) }
        ensures { flags_of self.new ≡ set (flags_of self.old) slot false }
    {
        self.full[slot / BLOCK] = false;
        self.flags[slot] = false;
    }

    /// The least slot that isn't marked, if there is one.
    pub fn least_unmarked(&self) -> Option<usize>
        ensures { MatchOption result (AreAllMarked (flags_of self.now))
            (IsFirstUnmarked (flags_of self.now)) }
    {
        for block in 0..self.full.len() {
            if !self.full[block] {
                if let Some(slot) = self.first_in(block) {
                    return Some(slot);
                }
            }
        }
        None
    }

    /// The first slot of a block that isn't marked, if there is one.
    fn first_in(&self, block: usize) -> Option<usize>
        requires here { block < vec_len self.now.full }
        requires before { HasNoneBefore (flags_of self.now) (512 * block) }
        ensures { MatchOption result (HasNoneBefore (flags_of self.now) (512 * block + 512))
            (IsFirstUnmarked (flags_of self.now)) }
    {
        let first = block * BLOCK;
        let end = (first + BLOCK).min(self.flags.len());
        for slot in first..end {
            if !self.flags[slot] {
                return Some(slot);
            }
        }
        None
    }

    /// Whether all slots of a block are marked. It looks from the last one on, since the slots that
    /// are used are mostly the first.
    fn is_full(&self, block: usize) -> bool
        requires { block < vec_len self.now.full }
        ensures { IsTrue result → IsBlockMarked (flags_of self.now) block }
    {
        let first = block * BLOCK;
        let mut end = (first + BLOCK).min(self.flags.len());
        while end > first {
            end -= 1;
            if !self.flags[end] {
                return false;
            }
        }
        true
    }
}
