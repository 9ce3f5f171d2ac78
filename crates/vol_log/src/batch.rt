//! The batch: what is staged, as a list in staging order, and the index that finds it.

ghost use Rattle.std.specs.Prelude.{◌≡◌, ◌≤◌, ◌<◌, ◌+◌, ◌==◌, [], ℕ, IfOk, MatchOption};
ghost use Rattle.std.specs.Prelude.{vec_len, vec_capacity, true, if◌then◌else◌, is_some};
ghost use Rattle.vol_sector.specs.Disk.{Image, put};
ghost use Rattle.vol_log.specs.Header.{Places};
ghost use Rattle.vol_log.specs.Batch.{over, holds};
ghost use Rattle.vol_log.specs.internal.Batch.{numbers};
ghost use Rattle.vol_log.specs.internal.Index.{IsIndex};
ghost use Rattle.vol_log.specs.declared.layout.TheConstants.{FIRST_AFTER_LOG};

use crate::Staged;
use crate::index::search;
use crate::layout::IMAGES;
use std::alloc::{AllocError, Global};
use vol_sector::Sector;

/// The sectors that wait for their commit, and the index that finds them.
#[derive(Drop)]
pub struct Batch {
    pub staged: Vec<Staged>,
    pub index: Vec<(u32, usize)>,
}

impl Batch {
    /// An empty batch, with room for all that may be staged.
    pub fn reserve(alloc: Global) -> Result<Batch, AllocError>
        ensures staged { IfOk result (λ b. (b.staged.items ≡ [])
            × (120 ≤ vec_capacity b.staged)) }
        ensures index { IfOk result (λ b. (b.index.items ≡ []) × (120 ≤ vec_capacity b.index)) }
    {
        Ok(Batch {
            staged: Vec::with_capacity(alloc, IMAGES)?,
            index: Vec::with_capacity(alloc, IMAGES)?,
        })
    }

    /// What is staged for the sector, if anything is.
    pub fn image_for(&self, n: u32) -> Option<Sector>
        requires { IsIndex (numbers self.now.staged.items) self.now.index.items }
        ensures image { (m : Image) → MatchOption result (over self.now.staged.items m n ≡ m n)
            (λ bytes. over self.now.staged.items m n ≡ bytes) }
        ensures staged { is_some result ≡ holds self.now.staged.items n }
    {
        match search(&self.index, n) {
            Ok(at) => {
                let (_, place) = self.index[at];
                Some(self.staged[place].image)
            }
            Err(_) => None,
        }
    }

    /// Puts the sector into the batch, in the place of what was staged for it.
    pub fn replace(&mut self, new: Staged)
        requires room { vec_len self.old.staged < vec_capacity self.old.staged }
        requires index_room { vec_len self.old.index < vec_capacity self.old.index }
        requires indexed { IsIndex (numbers self.old.staged.items) self.old.index.items }
        ensures over { (m : Image) → over self.new.staged.items m
            ≡ put new.sector new.image (over self.old.staged.items m) }
        ensures places { (s : ℕ) → Places s (numbers self.old.staged.items)
            → vec_len self.old.staged < 120
            → FIRST_AFTER_LOG ≤ new.sector → new.sector < s
            → Places s (numbers self.new.staged.items) }
        ensures len { vec_len self.new.staged
            ≡ (if holds self.old.staged.items new.sector then vec_len self.old.staged
            else vec_len self.old.staged + 1) }
        ensures holds { (k : ℕ) → holds self.new.staged.items k
            ≡ (if k == new.sector then true else holds self.old.staged.items k) }
        ensures indexed { IsIndex (numbers self.new.staged.items) self.new.index.items }
        ensures capacity { vec_capacity self.old.staged ≤ vec_capacity self.new.staged }
        ensures index_capacity { vec_capacity self.old.index ≤ vec_capacity self.new.index }
    {
        match search(&self.index, new.sector) {
            Ok(at) => {
                let (_, place) = self.index[at];
                self.staged[place] = new;
            }
            Err(at) => {
                let place = self.staged.len();
                match self.index.insert(at, (new.sector, place)) {
                    Ok(()) => {}
                    Err(_) => {}
                }
                match self.staged.push(new) {
                    Ok(()) => {}
                    Err(_) => {}
                }
            }
        }
    }

    /// Nothing waits any more.
    pub fn clear(&mut self)
        ensures staged { self.new.staged.items ≡ [] }
        ensures index { self.new.index.items ≡ [] }
        ensures capacity { vec_capacity self.old.staged ≤ vec_capacity self.new.staged }
        ensures index_capacity { vec_capacity self.old.index ≤ vec_capacity self.new.index }
    {
        self.staged.clear();
        self.index.clear();
    }
}
