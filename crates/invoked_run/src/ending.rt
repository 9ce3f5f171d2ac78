//! The functions that were at work where a call stopped.

ghost use Rattle.std.specs.Prelude.{◌≡◌, ◌≢◌, ◌<◌, ℕ, Some, length, slice_get};
ghost use Rattle.wasm_interp.specs.Frames.{frames_of};
ghost use Rattle.observed_run.specs.Telling.{TellsFrames};

use plugin_session::Instance;
use sandbox_core::Frame;
use stream_answers::{Inlet, Outlet};
use vol_sector::Device;

/// Writes a frame into its place in the room, where it has one.
fn put(room: &mut [Frame], index: usize, frame: Frame)
    ensures len { length room.new ≡ length room.old }
    ensures there { index < length room.new → slice_get room.new index ≡ Some frame }
    ensures elsewhere { (k : ℕ) → k ≢ index → slice_get room.new k ≡ slice_get room.old k }
{
    if index < room.len() {
        room[index] = frame;
    }
}

/// Writes the innermost functions at work into the room, the innermost first, as many as it has places for. Tells how many there
/// are.
pub(crate) fn tell_frames<D, R, W1, W2>(
    instance: &Instance<'_, '_, '_, D, R, W1, W2>,
    room: &mut [Frame],
) -> usize
where
    D: Device + Drop,
    R: Inlet + Drop,
    W1: Outlet + Drop,
    W2: Outlet + Drop,
    ensures { TellsFrames (frames_of instance.now.machine) room.new result }
{
    for index in 0..usize::MAX {
        match instance.frame(index) {
            Some(frame) => put(room, index, frame),
            None => return index,
        }
    }
    usize::MAX
}
