//! Laws of the devices, over definitions only.

ghost use Rattle.sandbox_device.specs.declared.recorded_device.RecordedDevice.{RecordedDevice as Recorded};
ghost use Rattle.sandbox_device.specs.Followed.{IsFollowed};

/// Doing a device's operations, in order, on the sectors as they were handed in gives the sectors as they are; and a stop in
/// between is a stop of the device at some moment.
pub fn record_is_followed()
    ensures { (d : Recorded) → IsFollowed d }
{}
