//! What picks mean: the images of all picks are exactly those that a crash may leave.

ghost use Rattle.std.specs.Prelude.{◌≡◌, ◌≤◌, ◌<◌, ℕ, List, length, slice_index_or};
ghost use Rattle.vol_sector.specs.Disk.{Image};
ghost use Rattle.vol_sector.specs.Record.{LeftBy};
ghost use Rattle.vol_sector.specs.Crash.{crashed_image};
ghost use Rattle.vol_sector.specs.Memory.{initial_image, record_of, sector_count};

use crate::MemoryDevice;

/// A law: whatever the picks are, a crash now may leave the image that they give.
pub fn crash_leaves_what_is_picked(device: &MemoryDevice)
    ensures { (picks : List ℕ) → LeftBy (initial_image device.now) (record_of device.now)
        (crashed_image (initial_image device.now) (record_of device.now) picks) }
{}

/// A law: some picks, none greater than the number of writes, give each image that a crash may
/// leave now.
pub fn picks_give_what_a_crash_leaves(device: &MemoryDevice)
    ensures { (c : Image) → LeftBy (initial_image device.now) (record_of device.now) c
        → (picks : List ℕ) × ((k : ℕ) → slice_index_or picks k 0 ≤ length (record_of device.now))
        × ((n : ℕ) → n < sector_count device.now
        → crashed_image (initial_image device.now) (record_of device.now) picks n ≡ c n) }
{}
