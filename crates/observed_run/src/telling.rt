//! Runs that tell which functions were at work when they stopped.

ghost use Rattle.std.specs.Prelude.{◌≡◌, ◌≢◌, ◌<◌, ℕ, Some, length, slice_get};
ghost use Rattle.wasm_interp.specs.Frames.{frames_of};
ghost use Rattle.sandbox_core.specs.Devices.{devices};
ghost use Rattle.sandbox_core.specs.Session.{used_by};
ghost use Rattle.observed_run.specs.Telling.{ReportsTold, TellsFrames};
ghost use Rattle.sandbox_core.specs.Slices.{outcome_after};

use sandbox_core::{Frame, Outcome, Report, Resumable, Tally, finish_run, run_slice};
use stream_answers::{Inlet, Outlet};
use vol_sector::Device;

/// What is told of a run.
#[derive(Drop)]
pub struct ToldRun<K, D: Device, R, W1, W2> {
    /// What is given back of the module: all of it, or nothing where others may own it too.
    pub kept: K,
    pub report: Report<D, R, W1, W2>,
    /// How many calls of the host were answered.
    pub tally: Tally,
    /// How many functions were at work when the run stopped. It is 0 after an exit, and stops at `usize::MAX`.
    pub depth: usize,
}

/// How a run has ended that is stopped where its fuel is used.
fn outcome_of(end: Option<Outcome>) -> Outcome
    ensures { result ≡ outcome_after end }
{
    end.unwrap_or(Outcome::OutOfFuel)
}

/// Writes a frame into its place in the room, where it has one.
fn put(room: &mut [Frame], index: usize, frame: Frame)
    ensures len { length room.new ≡ length room.old }
    ensures there { index < length room.new → slice_get room.new index ≡ Some frame }
    ensures elsewhere { (k : ℕ) → k ≢ index → slice_get room.new k ≡ slice_get room.old k }
{
    if index < room.len() {
        room[index] = frame;
    }
}

/// Writes the innermost functions at work into the room, the innermost first, as many as it has places for. Tells how many there
/// are.
pub(crate) fn tell_frames<S, D, R, W1, W2>(session: &S, room: &mut [Frame]) -> usize
where
    S: Resumable<D, R, W1, W2>,
    D: Device,
    R: Inlet,
    W1: Outlet,
    W2: Outlet,
    ensures { TellsFrames (frames_of (S.state session.now).machine) room.new result }
{
    for index in 0..usize::MAX {
        match session.frame(index) {
            Some(frame) => put(room, index, frame),
            None => return index,
        }
    }
    usize::MAX
}

/// Runs a session that has used nothing with this many units of fuel, as `sandbox_core::run_counted` does, and tells which functions
/// were at work when it stopped: the innermost come into the room, the innermost first, as many as it has places for. Of a trap, and
/// out of memory, they are those that were at work then. Nothing is allocated.
pub fn run_told<S, D, R, W1, W2>(
    session: S,
    fuel: u64,
    room: &mut [Frame],
) -> ToldRun<S::Kept, D, R, W1, W2>
where
    S: Resumable<D, R, W1, W2>,
    D: Device + Drop,
    R: Inlet + Drop,
    W1: Outlet + Drop,
    W2: Outlet + Drop,
    requires { used_by (S.state session) ≡ 0 }
    ensures kept { S.gives_back (S.state session).machine.valid result.kept }
    ensures told { ReportsTold (devices D.Device R.Read W1.Write W2.Write R.gave R.refused W1.took
        W1.refused W2.took W2.refused) (S.state session) fuel result.report result.tally room.new
        result.depth }
{
    let mut session = session;
    let (end, tally) = run_slice(&mut session, fuel, Tally::none());
    let depth = tell_frames(&session, room);
    let (kept, report) = finish_run(session, outcome_of(end));
    ToldRun {
        kept,
        report,
        tally,
        depth,
    }
}
