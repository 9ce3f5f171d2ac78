//! Copies into the room of a host.

ghost use Rattle.std.specs.Prelude.{◌≡◌};
ghost use Rattle.sandbox_host.specs.Sessions.{IsShown};

use sandbox_device::RecordedDevice;
use vol_sector::{Device, Sector};

/// Copies as many items as there is room for.
pub(crate) fn show<T: Copy>(items: &[T], room: &mut [T])
    ensures { IsShown items.now room.old room.new }
{
    let count = items.len().min(room.len());
    room[..count].copy_from_slice(&items[..count]);
}

/// Copies the sectors of a device in memory, as many as there is room for.
pub(crate) fn show_sectors(device: &RecordedDevice, room: &mut [Sector])
    ensures { IsShown device.now.sectors room.old room.new }
{
    let count = room.len().min(device.sectors() as usize);
    for n in 0..count {
        room[n] = device.sector(n as u32);
    }
}
