//! Free and taken sectors.

ghost use Rattle.std.specs.Prelude.{◌≡◌, ◌⊎◌, ◌≤◌, ◌<◌, ◌+◌, ◌-◌, ◌^◌, ◌==◌, ◌↔◌, ℕ, true, false};
ghost use Rattle.std.specs.Prelude.{length, not, count_by, vec_len, vec_capacity, slice_index_or};
ghost use Rattle.std.specs.Prelude.{if◌then◌else◌, IsTrue, IfOk, IfErr, OnOk, replicate};
ghost use Rattle.vol_sector.specs.Fault.{IsDamage};
ghost use Rattle.vol_alloc.specs.Numbers.{ListsNumber, ArePlaces};
ghost use Rattle.vol_alloc.specs.internal.Numbers.{AreFree};

use std::alloc::{AllocError, Global};
use vol_sector::{Damage, Rule, VolumeFault};

/// Which sectors of a range are taken. Each call but `from_named` is constant in time and takes no
/// memory.
#[derive(Drop)]
pub struct Alloc {
    first: u32,
    end: u32,
    taken: Vec<bool>,
    free: Vec<u32>,
    ghost size: { vec_len taken ≡ end - first },
    ghost few: { vec_len taken < 2 ^ 32 },
    ghost listed: { AreFree first taken.items free.items },
    ghost counted: { vec_len free ≡ count_by not taken.items },
    ghost reserved: { vec_len taken ≤ vec_capacity free },
}

impl Alloc {
    ghost use Rattle.vol_alloc.specs.Alloc.{first_of, end_of, taken_of, free_of};

    /// The sectors from `first` to the one before `end`, of which those named are taken.
    ///
    /// It is refused as `Damaged` where a number stands twice or is out of the range, and as
    /// `Memory`.
    pub fn from_named(
        alloc: Global,
        first: u32,
        end: u32,
        named: &[u32],
    ) -> Result<Alloc, VolumeFault>
        ensures taken { IfOk result (λ a. (n : ℕ)
            → IsTrue (taken_of a n) ↔ ListsNumber named.now n) }
        ensures range { IfOk result (λ a. (first_of a ≡ first) × (end_of a ≡ end)) }
        ensures count { IfOk result (λ a. free_of a + length named.now ≡ end - first) }
        ensures right { OnOk result (ArePlaces first end named.now) }
        ensures damaged { IfErr result (λ fault. IsDamage fault
            → ArePlaces first end named.now → ⊥) }
        ensures faults_named { IfErr result (λ fault. IsDamage fault
            ⊎ (fault ≡ VolumeFault.Memory)) }
    {
        let mut taken = vec![in alloc; false; end.saturating_sub(first) as usize]?;
        if !take_all(first, &mut taken, named) {
            return Err(VolumeFault::Damaged(Damage {
                sector: first_wrong(&taken, named),
                rule: Rule::SectorTwice,
            }));
        }
        let free = free_ones(alloc, first, &taken)?;
        Ok(Alloc {
            first,
            end,
            taken,
            free,
        })
    }

    /// The first sector past the range.
    pub fn end(&self) -> u32
        ensures { result ≡ end_of self.now }
    {
        self.end
    }

    /// How many sectors are free.
    pub fn free_count(&self) -> u32
        ensures { result ≡ free_of self.now }
    {
        self.free.len() as u32
    }

    /// Whether the sector is taken. A number out of the range is not.
    pub fn is_taken(&self, n: u32) -> bool
        ensures { result ≡ taken_of self.now n }
    {
        if n < self.first {
            return false;
        }
        match self.taken.get((n - self.first) as usize) {
            Some(taken) => *taken,
            None => false,
        }
    }

    /// Takes a free sector. Which one it is is left open.
    pub fn take(&mut self) -> u32
        requires { 0 < free_of self.old }
        ensures from { first_of self.old ≤ result }
        ensures below { result < end_of self.old }
        ensures free { taken_of self.old result ≡ false }
        ensures taken { (n : ℕ) → taken_of self.new n
            ≡ (if n == result then true else taken_of self.old n) }
        ensures count { free_of self.new + 1 ≡ free_of self.old }
        ensures range { (first_of self.new ≡ first_of self.old)
            × (end_of self.new ≡ end_of self.old) }
    {
        let n = self.free.pop().unwrap();
        self.taken[(n - self.first) as usize] = true;
        n
    }

    /// Gives a taken sector back.
    pub fn give(&mut self, n: u32)
        requires { taken_of self.old n ≡ true }
        ensures taken { (k : ℕ) → taken_of self.new k
            ≡ (if k == n then false else taken_of self.old k) }
        ensures count { free_of self.new ≡ free_of self.old + 1 }
        ensures range { (first_of self.new ≡ first_of self.old)
            × (end_of self.new ≡ end_of self.old) }
    {
        match self.free.push(n) {
            Ok(()) => self.taken[(n - self.first) as usize] = false,
            Err(_) => {}
        }
    }
}

/// Sets the flags of the numbers, or says that one is out of the range or stands twice.
fn take_all(first: u32, taken: &mut [bool], named: &[u32]) -> bool
    requires { taken.old ≡ replicate (length taken.old) false }
    ensures taken { IsTrue result → (n : ℕ) → first ≤ n
        → IsTrue (slice_index_or taken.new (n - first) false) ↔ ListsNumber named.now n }
    ensures count { IsTrue result → count_by not taken.new + length named.now ≡ length taken.old }
    ensures right { IsTrue result → ArePlaces first (first + length taken.old) named.now }
    ensures wrong { ArePlaces first (first + length taken.old) named.now → IsTrue result }
{
    for n in named {
        if *n < first {
            return false;
        }
        let place = (*n - first) as usize;
        if taken.len() <= place || taken[place] {
            return false;
        }
        taken[place] = true;
    }
    true
}

/// The number at which `take_all` stopped: each one before it has a flag of its own.
fn first_wrong(taken: &[bool], named: &[u32]) -> Option<u32> {
    let before = taken.iter().filter(|flag| **flag).count();
    named.get(before).copied()
}

/// The sectors whose flags aren't set, the first one last.
fn free_ones(alloc: Global, first: u32, taken: &[bool]) -> Result<Vec<u32>, AllocError>
    requires { first + length taken.now < 2 ^ 32 }
    ensures listed { IfOk result (λ free. AreFree first taken.now free.items) }
    ensures counted { IfOk result (λ free. vec_len free ≡ count_by not taken.now) }
    ensures reserved { IfOk result (λ free. length taken.now ≤ vec_capacity free) }
{
    let mut free = Vec::with_capacity(alloc, taken.len())?;
    for i in (0..taken.len()).rev() {
        if !taken[i] {
            free.push(first + i as u32)?;
        }
    }
    Ok(free)
}
