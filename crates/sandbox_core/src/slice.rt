//! Runs in slices: a part of a run, and its report at the end.

ghost use Rattle.std.specs.Prelude.{◌≤◌};
ghost use Rattle.sandbox_core.specs.Devices.{devices};
ghost use Rattle.sandbox_core.specs.Session.{used_by};
ghost use Rattle.sandbox_core.specs.Slices.{ReportsStop, RunsSlice, stop_of};

use crate::report::Report;
use crate::resumable::Resumable;
use crate::session::Finished;
use crate::tally::Tally;
use stream_answers::{Inlet, Outlet};
use vol_sector::Device;
use wasm_interp::{Outcome, Pause};

/// Resumes a session until it ends, or so many units are used and the next step takes one, and adds the calls that were answered
/// to the tally. Tells how the run ended, if it has.
pub fn run_slice<S, D, R, W1, W2>(
    session: &mut S,
    until: u64,
    earlier: Tally,
) -> (Option<Outcome>, Tally)
where
    S: Resumable<D, R, W1, W2>,
    D: Device,
    R: Inlet,
    W1: Outlet,
    W2: Outlet,
    requires { used_by (S.state session.old) ≤ until }
    ensures { RunsSlice (devices D.Device R.Read W1.Write W2.Write R.gave R.refused W1.took
        W1.refused W2.took W2.refused) (S.state session.old) (S.state session.new) until
        (stop_of result.0) earlier result.1 }
{
    let mut tally = earlier;
    'running: loop {
        match session.resume(until - session.used()) {
            Pause::Called(call, errno) => {
                tally.add(call, errno);
                continue 'running;
            }
            Pause::Spent => return (None, tally),
            Pause::Ended(outcome) => return (Some(outcome), tally),
        }
    }
}

/// Ends a run that has stopped so: commits all calls, and says what it used and left. Gives back what is kept of the module.
pub fn finish_run<S, D, R, W1, W2>(session: S, outcome: Outcome) -> (S::Kept, Report<D, R, W1, W2>)
where
    S: Resumable<D, R, W1, W2>,
    D: Device + Drop,
    R: Inlet + Drop,
    W1: Outlet + Drop,
    W2: Outlet + Drop,
    ensures kept { S.gives_back (S.state session).machine.valid result.0 }
    ensures reports { ReportsStop (devices D.Device R.Read W1.Write W2.Write R.gave R.refused
        W1.took W1.refused W2.took W2.refused) (S.state session) outcome result.1 }
{
    let used = session.used();
    let pages = session.pages();
    let broken = session.has_failed_stream();
    let (kept, finished) = session.finish();
    let Finished {
        volume,
        input,
        out,
        err,
    } = finished;
    let report = Report {
        outcome,
        used,
        pages,
        broken,
        volume,
        input,
        out,
        err,
    };
    (kept, report)
}
