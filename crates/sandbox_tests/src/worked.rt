//! What a host can say of its sessions, from public contracts alone.

ghost use Rattle.std.specs.Prelude.{IfOk, IfSome};
ghost use Rattle.vol_sector.specs.Disk.{Image};
ghost use Rattle.vol_tree.specs.Opened.{Opened};
ghost use Rattle.vol_tree.specs.Opening.{StandsOn};
ghost use Rattle.vol_tree.specs.Stands.{StandsAs};
ghost use Rattle.sandbox_core.specs.Devices.{devices};
ghost use Rattle.sandbox_tests.specs.Worked.{StoppedAnywhere};

use sandbox_core::laws::turns_are_safe;
use sandbox_core::{Pause, RefusedSession, Session, Settings, Valid, Volume};
use std::alloc::Global;
use stream_answers::{Inlet, Outlet};
use vol_sector::Device;

/// A session that was resumed twice, and what the two pauses tell.
#[derive(Drop)]
pub struct Twice<'a, 's, 't, D: Device, R: Inlet, W1: Outlet, W2: Outlet> {
    pub session: Session<'a, 's, 't, D, R, W1, W2>,
    pub first: Pause,
    pub second: Pause,
}

/// Makes a session over a volume that was opened, and resumes it twice. Whenever it is stopped, the volume is found again
/// with the tree that it had at first or after one of the resumes, and after an answered sync with none from before it.
pub fn resumed_twice<'a, 's, 't, D, R, W1, W2>(
    alloc: Global,
    valid: Valid<'a>,
    settings: Settings<'s, 't>,
    volume: Volume<D>,
    input: R,
    out: W1,
    err: W2,
    units: u32,
) -> Result<Twice<'a, 's, 't, D, R, W1, W2>, RefusedSession<'a, 's, 't, D, R, W1, W2>>
where
    D: Device + Drop,
    R: Inlet + Drop,
    W1: Outlet + Drop,
    W2: Outlet + Drop,
    // as `Volume::open` leaves it
    requires { D.honest volume.device → (c : Image) → (D.disk volume.device).may_leave c
        → StandsAs c volume.numbers volume.tree }
    ensures { D.honest volume.device → IfOk result
        (λ t. StoppedAnywhere (devices D.Device R.Read W1.Write W2.Write R.gave R.refused W1.took
        W1.refused W2.took W2.refused) volume t.session t.first t.second) }
{
    turns_are_safe::<D, R, W1, W2>(); // a law for the contract
    volume.is_a_tree(); // another: the device has room for the volume
    let mut session = match Session::new(alloc, valid, settings, volume, input, out, err) {
        Ok(session) => session,
        Err(refused) => return Err(refused),
    };
    let units = u64::from(units);
    let first = session.resume(units);
    let second = session.resume(units);
    Ok(Twice {
        session,
        first,
        second,
    })
}

/// The same on a device that a volume is opened on: at first it has the tree that the device's content stands for.
pub fn resumed_twice_on<'a, 's, 't, D, R, W1, W2>(
    alloc: Global,
    valid: Valid<'a>,
    settings: Settings<'s, 't>,
    device: D,
    input: R,
    out: W1,
    err: W2,
    units: u32,
) -> Option<Twice<'a, 's, 't, D, R, W1, W2>>
where
    D: Device + Drop,
    R: Inlet + Drop,
    W1: Outlet + Drop,
    W2: Outlet + Drop,
    ensures { D.honest device → IfSome result
        (λ t. (volume : Opened D) × StandsOn (D.size device) (D.disk device).seen volume.numbers
        volume.tree × StoppedAnywhere (devices D.Device R.Read W1.Write W2.Write R.gave R.refused
        W1.took W1.refused W2.took W2.refused) volume t.session t.first t.second) }
{
    let volume = match Volume::open(alloc, device) {
        Ok(volume) => volume,
        Err(refused) => {
            drop(refused);
            drop(valid);
            drop((input, out, err));
            return None;
        }
    };
    match resumed_twice(alloc, valid, settings, volume, input, out, err, units) {
        Ok(twice) => Some(twice),
        Err(refused) => {
            drop(refused);
            None
        }
    }
}
