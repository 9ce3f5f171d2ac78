//! Runs of a session from its beginning.

ghost use Rattle.std.specs.Prelude.{◌≡◌, ◌≤◌};
ghost use Rattle.sandbox_core.specs.Devices.{devices};
ghost use Rattle.sandbox_core.specs.Session.{used_by};
ghost use Rattle.sandbox_core.specs.Report.{Reports, ReportsCounted};
ghost use Rattle.sandbox_core.specs.internal.Running.{RunsTo};

use crate::session::{Finished, Session};
use crate::tally::Tally;
use stream_answers::{Inlet, Outlet};
use vol_sector::{Device, Refused};
use vol_tree::Volume;
use wasm_interp::{Outcome, Pause};
use wasm_valid::Valid;

/// How a run ended, the units of fuel that it used, and what it left: the volume, or its device where it failed, and the
/// streams.
#[derive(Drop)]
pub struct Report<D: Device, R, W1, W2> {
    pub outcome: Outcome,
    pub used: u64,
    /// The pages that its memory had at the end.
    pub pages: u32,
    /// Whether a read or a write of a stream has failed.
    pub broken: bool,
    pub volume: Result<Volume<D>, Refused<D>>,
    pub input: R,
    pub out: W1,
    pub err: W2,
}

/// Runs a session that has used nothing with this many units of fuel: until it ends, or the fuel is used and the next step
/// takes a unit. Then it commits all calls, whatever the outcome.
pub fn run<D, R, W1, W2>(
    session: Session<'_, '_, '_, D, R, W1, W2>,
    fuel: u64,
) -> Report<D, R, W1, W2>
where
    D: Device + Drop,
    R: Inlet + Drop,
    W1: Outlet + Drop,
    W2: Outlet + Drop,
    requires { used_by session ≡ 0 }
    ensures { Reports (devices D.Device R.Read W1.Write W2.Write R.gave R.refused W1.took W1.refused
        W2.took W2.refused) session.entry fuel result }
{
    let (report, _) = run_counted(session, fuel);
    report
}

/// The same, and how many host calls were answered.
pub fn run_counted<D, R, W1, W2>(
    session: Session<'_, '_, '_, D, R, W1, W2>,
    fuel: u64,
) -> (Report<D, R, W1, W2>, Tally)
where
    D: Device + Drop,
    R: Inlet + Drop,
    W1: Outlet + Drop,
    W2: Outlet + Drop,
    requires { used_by session ≡ 0 }
    ensures { ReportsCounted (devices D.Device R.Read W1.Write W2.Write R.gave R.refused W1.took
        W1.refused W2.took W2.refused) session.entry fuel result.0 result.1 }
{
    let (valid, report, tally) = run_counted_with_module(session, fuel);
    drop(valid);
    (report, tally)
}

/// The same, and gives the module back too, which another session can be made of: it was decoded and validated once.
pub fn run_counted_with_module<'a, D, R, W1, W2>(
    mut session: Session<'a, '_, '_, D, R, W1, W2>,
    fuel: u64,
) -> (Valid<'a>, Report<D, R, W1, W2>, Tally)
where
    D: Device + Drop,
    R: Inlet + Drop,
    W1: Outlet + Drop,
    W2: Outlet + Drop,
    requires { used_by session ≡ 0 }
    ensures module { result.0 ≡ session.entry.machine.valid }
    ensures counted { ReportsCounted (devices D.Device R.Read W1.Write W2.Write R.gave R.refused
        W1.took W1.refused W2.took W2.refused) session.entry fuel result.1 result.2 }
{
    let (outcome, tally) = run_out(&mut session, fuel);
    let used = session.used();
    let pages = session.pages();
    let broken = session.has_failed_stream();
    let (valid, finished) = session.finish_with_module();
    let Finished {
        volume,
        input,
        out,
        err,
    } = finished;
    let report = Report {
        outcome,
        used,
        pages,
        broken,
        volume,
        input,
        out,
        err,
    };
    (valid, report, tally)
}

/// Resumes a session until it ends, or the fuel is used and the next step takes a unit.
fn run_out<D, R, W1, W2>(
    session: &mut Session<'_, '_, '_, D, R, W1, W2>,
    fuel: u64,
) -> (Outcome, Tally)
where
    D: Device + Drop,
    R: Inlet + Drop,
    W1: Outlet + Drop,
    W2: Outlet + Drop,
    requires { used_by session.old ≤ fuel }
    ensures within { used_by session.new ≤ fuel }
    ensures module { session.new.machine.valid ≡ session.old.machine.valid }
    ensures run { RunsTo (devices D.Device R.Read W1.Write W2.Write R.gave R.refused W1.took
        W1.refused W2.took W2.refused) session.old fuel session.new result.0 result.1 }
{
    let mut tally = Tally::none();
    'running: loop {
        match session.resume(fuel - session.used()) {
            Pause::Called(call, errno) => {
                tally.add(call, errno);
                continue 'running;
            }
            Pause::Spent => return (Outcome::OutOfFuel, tally),
            Pause::Ended(outcome) => return (outcome, tally),
        }
    }
}
