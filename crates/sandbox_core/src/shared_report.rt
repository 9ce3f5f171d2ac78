//! Runs of a session of a shared module.

ghost use Rattle.std.specs.Prelude.{◌≡◌, ◌≤◌};
ghost use Rattle.sandbox_core.specs.Devices.{devices};
ghost use Rattle.sandbox_core.specs.Session.{used_by};
ghost use Rattle.sandbox_core.specs.Report.{ReportsCounted};
ghost use Rattle.sandbox_core.specs.internal.Running.{RunsTo};

use crate::report::Report;
use crate::session::Finished;
use crate::shared::SharedSession;
use crate::tally::Tally;
use stream_answers::{Inlet, Outlet};
use vol_sector::Device;
use wasm_interp::{Outcome, Pause};

/// Runs a session of a shared module as `run_counted` runs one that owns its module.
pub fn run_counted_shared<D, R, W1, W2>(
    mut session: SharedSession<'_, '_, '_, D, R, W1, W2>,
    fuel: u64,
) -> (Report<D, R, W1, W2>, Tally)
where
    D: Device + Drop,
    R: Inlet + Drop,
    W1: Outlet + Drop,
    W2: Outlet + Drop,
    requires { used_by session ≡ 0 }
    ensures { ReportsCounted (devices D.Device R.Read W1.Write W2.Write R.gave R.refused W1.took
        W1.refused W2.took W2.refused) session.entry fuel result.0 result.1 }
{
    let (outcome, tally) = run_out_shared(&mut session, fuel);
    let used = session.used();
    let pages = session.pages();
    let broken = session.has_failed_stream();
    let Finished {
        volume,
        input,
        out,
        err,
    } = session.finish();
    let report = Report {
        outcome,
        used,
        pages,
        broken,
        volume,
        input,
        out,
        err,
    };
    (report, tally)
}

/// As `run_out`, of a session of a shared module.
fn run_out_shared<D, R, W1, W2>(
    session: &mut SharedSession<'_, '_, '_, D, R, W1, W2>,
    fuel: u64,
) -> (Outcome, Tally)
where
    D: Device + Drop,
    R: Inlet + Drop,
    W1: Outlet + Drop,
    W2: Outlet + Drop,
    requires { used_by session.old ≤ fuel }
    ensures within { used_by session.new ≤ fuel }
    ensures run { RunsTo (devices D.Device R.Read W1.Write W2.Write R.gave R.refused W1.took
        W1.refused W2.took W2.refused) session.old fuel session.new result.0 result.1 }
{
    let mut tally = Tally::none();
    'running: loop {
        match session.resume(fuel - session.used()) {
            Pause::Called(call, errno) => {
                tally.add(call, errno);
                continue 'running;
            }
            Pause::Spent => return (Outcome::OutOfFuel, tally),
            Pause::Ended(outcome) => return (outcome, tally),
        }
    }
}
