//! Runs in slices, each of which is charged to the functions that are at work where it begins.

ghost use Rattle.std.specs.Prelude.{◌≡◌, ◌+◌, ◌-◌, ◌<◌, ◌≤◌, ◌^◌, ℕ, length, sum};
ghost use Rattle.std.specs.Bool.{OnTrue};
ghost use Rattle.sandbox_core.specs.Devices.{devices};
ghost use Rattle.sandbox_core.specs.Session.{used_by};
ghost use Rattle.sandbox_core.specs.Slices.{RunsSlice, stop_of};
ghost use Rattle.observed_run.specs.Stacks.{Grows, IsNodeOf};
ghost use Rattle.observed_run.specs.Charging.{ReportsProfiled, functions_of};
ghost use Rattle.observed_run.specs.internal.Going.{ChargesSlice, RunsInSlices};

use crate::stacks::FuelProfile;
use crate::telling::{ToldRun, tell_frames};
use sandbox_core::{Frame, Outcome, Resumable, Tally, finish_run, run_slice};
use std::alloc::Global;
use stream_answers::{Inlet, Outlet};
use vol_sector::Device;

/// How many functions at work are told apart. A machine has no more.
const MOST_FUNCTIONS: usize = 65_536;

/// Reads which functions are at work, the innermost first. Tells whether there was memory for all of them, and they are not too many.
fn read_functions<S, D, R, W1, W2>(session: &S, functions: &mut Vec<usize>) -> bool
where
    S: Resumable<D, R, W1, W2>,
    D: Device,
    R: Inlet,
    W1: Outlet,
    W2: Outlet,
    ensures { OnTrue result (functions.new.items ≡ functions_of (S.state session.now)) }
{
    functions.clear();
    for index in 0..MOST_FUNCTIONS + 1 {
        match session.frame(index) {
            Some(frame) => {
                if functions.push(frame.own).is_err() {
                    return false;
                }
            }
            None => return true,
        }
    }
    false
}

/// The node of the functions at work. Where they can't be read it is the bottom, and the profile says that it is cut.
fn enter<S, D, R, W1, W2>(
    session: &S,
    profile: &mut FuelProfile,
    functions: &mut Vec<usize>,
) -> usize
where
    S: Resumable<D, R, W1, W2>,
    D: Device,
    R: Inlet,
    W1: Outlet,
    W2: Outlet,
    ensures grows { Grows profile.old profile.new }
    ensures node { IsNodeOf profile.new (functions_of (S.state session.now)) result }
    ensures there { result < length profile.new.units }
{
    if read_functions(session, functions) {
        return profile.enter(functions.as_slice());
    }
    profile.cut();
    profile.bottom()
}

/// Runs a slice until so many units are used, and charges what it used to the functions that are at work where it begins.
fn run_charged<S, D, R, W1, W2>(
    session: &mut S,
    until: u64,
    earlier: Tally,
    profile: &mut FuelProfile,
    functions: &mut Vec<usize>,
) -> (Option<Outcome>, Tally)
where
    S: Resumable<D, R, W1, W2>,
    D: Device,
    R: Inlet,
    W1: Outlet,
    W2: Outlet,
    requires within { used_by (S.state session.old) ≤ until }
    requires few { sum profile.old.units + (until - used_by (S.state session.old)) < 2 ^ 64 }
    ensures slice { RunsSlice (devices D.Device R.Read W1.Write W2.Write R.gave R.refused W1.took
        W1.refused W2.took W2.refused) (S.state session.old) (S.state session.new) until
        (stop_of result.0) earlier result.1 }
    ensures charged { ChargesSlice (S.state session.old) (S.state session.new) profile.old
        profile.new }
{
    let began = session.used();
    let node = enter(session, profile, functions);
    let (end, tally) = run_slice(session, until, earlier);
    profile.add(node, session.used() - began);
    (end, tally)
}

/// Runs a session in slices of so many units until it ends, or the fuel is used and the next step takes a unit. The first slice has
/// no unit: it goes to the first step that takes one.
fn run_in_slices<S, D, R, W1, W2>(
    alloc: Global,
    session: &mut S,
    fuel: u64,
    every: u64,
    profile: &mut FuelProfile,
) -> (Outcome, Tally)
where
    S: Resumable<D, R, W1, W2>,
    D: Device,
    R: Inlet,
    W1: Outlet,
    W2: Outlet,
    requires within { used_by (S.state session.old) ≤ fuel }
    requires few { sum profile.old.units + (fuel - used_by (S.state session.old)) < 2 ^ 64 }
    ensures { RunsInSlices (devices D.Device R.Read W1.Write W2.Write R.gave R.refused W1.took
        W1.refused W2.took W2.refused) (S.state session.old) fuel every (S.state session.new)
        result.0 result.1 profile.old profile.new }
{
    let mut functions = Vec::new(alloc);
    let mut until = session.used();
    let mut tally = Tally::none();
    loop {
        let (end, counted) = run_charged(session, until, tally, profile, &mut functions);
        if let Some(outcome) = end {
            return (outcome, counted);
        }
        if until >= fuel {
            return (Outcome::OutOfFuel, counted);
        }
        tally = counted;
        until += every.max(1).min(fuel - until);
    }
}

/// Runs a session as `run_told` does, in slices of so many units, of which each is charged to the functions that are at work where
/// it begins. With slices of one unit each unit is charged to the functions whose next instruction takes it. Slices of 0 units
/// count as such of one.
///
/// Functions are told apart by their indices among the module's own. What the profile has no room for, or no memory, it charges to
/// the functions that called, and says so.
pub fn run_profiled<S, D, R, W1, W2>(
    alloc: Global,
    session: S,
    fuel: u64,
    every: u64,
    profile: &mut FuelProfile,
    room: &mut [Frame],
) -> ToldRun<S::Kept, D, R, W1, W2>
where
    S: Resumable<D, R, W1, W2>,
    D: Device + Drop,
    R: Inlet + Drop,
    W1: Outlet + Drop,
    W2: Outlet + Drop,
    requires unused { used_by (S.state session) ≡ 0 }
    requires few { sum profile.old.units + fuel < 2 ^ 64 }
    ensures kept { S.gives_back (S.state session).machine.valid result.kept }
    ensures profiled { ReportsProfiled (devices D.Device R.Read W1.Write W2.Write R.gave R.refused
        W1.took W1.refused W2.took W2.refused) (S.state session) fuel every result.report
        result.tally room.new result.depth profile.old profile.new }
{
    let mut session = session;
    let (outcome, tally) = run_in_slices(alloc, &mut session, fuel, every, profile);
    let depth = tell_frames(&session, room);
    let (kept, report) = finish_run(session, outcome);
    ToldRun {
        kept,
        report,
        tally,
        depth,
    }
}
