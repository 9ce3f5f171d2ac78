//! Whether the entries of a volume stand in directories that lead up to the root.

ghost use Rattle.std.specs.Prelude.{◌≡◌, ◌≤◌, ◌<◌, ◌-◌, ℕ, length, false, slice_index, slice_index_or, IsTrue, IfOk};
ghost use Rattle.vol_tree.specs.internal.Climbs.{climb, LeadsUp, AllLeadUp, AllLeadUpSoon, AreMarked, StandInDirectories};

use std::alloc::{AllocError, Global};

/// Whether each entry that has a parent stands in a directory.
pub(crate) fn stand_in_directories(parents: &[u32], directories: &[bool]) -> bool
    ensures yes { IsTrue result → StandInDirectories parents.now directories.now }
    ensures no { StandInDirectories parents.now directories.now → IsTrue result }
{
    for parent in parents {
        if *parent != 0 && !has_flag(directories, *parent) {
            return false;
        }
    }
    true
}

/// Whether the parents lead up to the root from each entry that has one. The work is linear in the
/// number of slots: an entry that was passed once is marked, and the next way up ends there.
pub(crate) fn lead_to_root(alloc: Global, parents: &[u32]) -> Result<bool, AllocError>
    requires some { 0 < length parents.now }
    requires few { length parents.now ≤ 1048576 }
    ensures yes { IfOk result (λ lead. IsTrue lead → AllLeadUp parents.now) }
    ensures no { IfOk result (λ lead. AllLeadUpSoon parents.now → IsTrue lead) }
{
    let mut marks = vec![in alloc; false; parents.len()]?;
    marks[0] = true;
    for s in 0..parents.len() {
        if parents[s] != 0 && !reaches(parents, &mut marks, s as u32 + 1) {
            return Ok(false);
        }
    }
    Ok(true)
}

/// Whether the parents lead from an entry up to the root. Those on the way are marked then.
fn reaches(parents: &[u32], marks: &mut [bool], serial: u32) -> bool
    requires { AreMarked parents.now marks.old }
    ensures marks { AreMarked parents.now marks.new }
    ensures yes { IsTrue result → LeadsUp parents.now serial }
    ensures no { (steps : ℕ) → steps ≤ length parents.now → climb steps parents.now serial ≡ 1
        → IsTrue result }
{
    if !comes_to_mark(parents, marks, serial) {
        return false;
    }
    mark(parents, marks, serial);
    true
}

/// Whether the way up comes to an entry with a mark.
fn comes_to_mark(parents: &[u32], marks: &[bool], serial: u32) -> bool
    requires { AreMarked parents.now marks.now }
    ensures yes { IsTrue result → LeadsUp parents.now serial }
    ensures no { (steps : ℕ) → steps ≤ length parents.now → climb steps parents.now serial ≡ 1
        → IsTrue result }
{
    let mut at = serial;
    for _ in 0..parents.len() + 1 {
        if has_flag(marks, at) {
            return true;
        }
        at = parent_of(parents, at);
    }
    false
}

/// Marks the entries on the way up, to the first one that has a mark.
fn mark(parents: &[u32], marks: &mut [bool], serial: u32)
    requires marks { AreMarked parents.now marks.old }
    requires leads { LeadsUp parents.now serial }
    ensures { AreMarked parents.now marks.new }
{
    let mut at = serial;
    for _ in 0..parents.len() {
        let slot = at.saturating_sub(1) as usize;
        if at == 0 || marks.len() <= slot || marks[slot] {
            return;
        }
        marks[slot] = true;
        at = parent_of(parents, at);
    }
}

/// The flag of a serial; none is false.
pub(crate) fn has_flag(flags: &[bool], serial: u32) -> bool
    ensures some { 1 ≤ serial → result ≡ slice_index_or flags.now (serial - 1) false }
    ensures none { serial ≡ 0 → result ≡ false }
{
    if serial == 0 {
        return false;
    }
    match flags.get((serial - 1) as usize) {
        Some(flag) => *flag,
        None => false,
    }
}

/// The parent of a serial, or 0.
fn parent_of(parents: &[u32], serial: u32) -> u32
    ensures { result ≡ slice_index parents.now (serial - 1) }
{
    match parents.get(serial.saturating_sub(1) as usize) {
        Some(parent) => *parent,
        None => 0,
    }
}
