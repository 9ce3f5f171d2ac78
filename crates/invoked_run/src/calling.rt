//! The call itself: the opening, the function, and what both left.

ghost use Rattle.std.specs.Prelude.{◌≡◌, ◌≤◌, ◌<◌, ◌^◌};
ghost use Rattle.sandbox_core.specs.Devices.{devices};
ghost use Rattle.plugin_core.specs.Handling as acts;
ghost use Rattle.plugin_core.specs.declared.stage.Stage.TheVariants as stages;
ghost use Rattle.plugin_session.specs.Instance.{used_by};
ghost use Rattle.invoked_run.specs.Calling.{CallsOnce, CallsOnceAndEnds, GoesUntil};

use crate::ending::tell_frames;
use plugin_session::{Event, Finished, Instance, Misuse};
use sandbox_core::{Frame, Outcome, Pause, Refused, Volume};
use stream_answers::{Inlet, Outlet};
use vol_sector::Device;

/// How the call of an exported function ended.
#[derive(Clone, Copy)]
pub enum CallEnd {
    /// The function has returned, with its result if it has one.
    Returned(Option<u64>),
    /// The opening or the function ended so, or the fuel is used and the next step takes a unit.
    Ended(Outcome),
    /// The opening or the function calls a function of the embedder, whom nobody stands for.
    Unanswered,
    /// The function can't be called.
    Refused(Misuse),
}

/// What a call left.
#[derive(Drop)]
pub struct CalledOnce<D: Device, R, W1, W2> {
    pub end: CallEnd,
    pub used: u64,
    /// The pages of 65,536 bytes that the guest's memory has.
    pub pages: u32,
    /// Whether a read or a write of a stream failed.
    pub broken: bool,
    /// How many functions were at work where it stopped. It stops at `usize::MAX`.
    pub depth: usize,
    pub volume: Result<Volume<D>, Refused<D>>,
    pub input: R,
    pub out: W1,
    pub err: W2,
}

/// Goes on with what is left of the fuel until what runs returns, ends, calls a function of the embedder, or wants a unit more.
fn go_until<D, R, W1, W2>(instance: &mut Instance<'_, '_, '_, D, R, W1, W2>, fuel: u64) -> CallEnd
where
    D: Device + Drop,
    R: Inlet + Drop,
    W1: Outlet + Drop,
    W2: Outlet + Drop,
    requires within { used_by instance.old ≤ fuel }
    requires goes { acts.Goes instance.old.stage }
    ensures { GoesUntil (devices D.Device R.Read W1.Write W2.Write R.gave R.refused W1.took
        W1.refused W2.took W2.refused) instance.old instance.new fuel result }
{
    'going: loop {
        let Ok(event) = instance.go(fuel - instance.used()) else {
            unreachable!() // a function is at work
        };
        match event {
            Event::Returned => return CallEnd::Returned(instance.result()),
            Event::Asked(_) => return CallEnd::Unanswered,
            Event::Paused(pause) => match pause {
                Pause::Called(_, _) => continue 'going,
                Pause::Spent => return CallEnd::Ended(Outcome::OutOfFuel),
                Pause::Ended(outcome) => return CallEnd::Ended(outcome),
            },
        }
    }
}

/// Runs the opening of an instance, and where that returns, the function that is exported by this name, with these arguments.
fn call_within<D, R, W1, W2>(
    instance: &mut Instance<'_, '_, '_, D, R, W1, W2>,
    name: &str,
    arguments: &[u64],
    fuel: u64,
) -> CallEnd
where
    D: Device + Drop,
    R: Inlet + Drop,
    W1: Outlet + Drop,
    W2: Outlet + Drop,
    requires within { used_by instance.old ≤ fuel }
    requires opening { instance.old.stage ≡ stages.Opening }
    ensures { CallsOnce (devices D.Device R.Read W1.Write W2.Write R.gave R.refused W1.took
        W1.refused W2.took W2.refused) instance.old instance.new name.now arguments.now fuel
        result }
{
    let opening = go_until(instance, fuel);
    let CallEnd::Returned(_) = opening else {
        return opening;
    };
    match instance.invoke(name, arguments) {
        Ok(()) => go_until(instance, fuel),
        Err(misuse) => CallEnd::Refused(misuse),
    }
}

/// Runs the opening of a new instance, which has used nothing, and where that returns, calls the function that is exported by this
/// name once, with these arguments and all of the fuel that is left; then commits all calls of WASI. The innermost functions that were
/// at work where it stopped come into the room.
pub fn call_once<D, R, W1, W2>(
    instance: Instance<'_, '_, '_, D, R, W1, W2>,
    name: &str,
    arguments: &[u64],
    fuel: u64,
    room: &mut [Frame],
) -> CalledOnce<D, R, W1, W2>
where
    D: Device + Drop,
    R: Inlet + Drop,
    W1: Outlet + Drop,
    W2: Outlet + Drop,
    requires unused { used_by instance ≡ 0 }
    requires opening { instance.stage ≡ stages.Opening }
    ensures { CallsOnceAndEnds (devices D.Device R.Read W1.Write W2.Write R.gave R.refused W1.took
        W1.refused W2.took W2.refused) instance.entry name.now arguments.now fuel room.new result }
{
    let mut instance = instance;
    let end = call_within(&mut instance, name, arguments, fuel);
    let depth = tell_frames(&instance, room);
    let (used, pages, broken) = (
        instance.used(),
        instance.pages(),
        instance.has_failed_stream(),
    );
    let Finished {
        volume,
        input,
        out,
        err,
    } = instance.finish();
    CalledOnce {
        end,
        used,
        pages,
        broken,
        depth,
        volume,
        input,
        out,
        err,
    }
}
