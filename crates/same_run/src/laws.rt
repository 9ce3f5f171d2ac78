//! Laws of runs, over definitions only.

ghost use Rattle.wasi_bodies.specs.World.{World};
ghost use Rattle.wasi_bodies.specs.Calls as world;
ghost use Rattle.wasi_bodies.specs.host.Worlds.{hearing};
ghost use Rattle.sandbox_core.specs.Devices.{devices};
ghost use Rattle.same_run.specs.Failures.{FailuresStay, has_failed};
ghost use Rattle.same_run.specs.NextStep.{AnswersOnce, OneNextStep};
ghost use Rattle.same_run.specs.OneRun.{OneEnd, OneRun};
ghost use Rattle.same_run.specs.OneStart.{OneStart};
ghost use Rattle.same_run.specs.SameProgram.{SameProgramRun};
ghost use Rattle.same_run.specs.SameProgramReport.{SameProgramReport};
ghost use Rattle.same_run.specs.SameRun.{SameReport, SameRun};

use sandbox_core::laws::SnapshotMeaning;
use stream_answers::{Inlet, Outlet};
use vol_sector::Device;
use wasm_store::Host;

/// A step is the only one: from the same configuration and host two steps give the same, over any host that answers the
/// same to the same question, unless one of them refuses a growth of memory that the limit would take. So no rule but that
/// of growth leaves a choice: one by which new memory held what stood there before, or by which a trap could be passed over,
/// would make this false.
pub fn one_next_step<H: Host>()
    ensures { OneNextStep H H.calls }
{}

/// A world answers the same to the same question, unless the volume or a stream failed in the call; and what has failed
/// stays failed. A read that gave fewer bytes than are there (or than an interactive one finds), a clock that told the time of day, or a list of a directory in
/// the order of some table would make this false.
pub fn worlds_answer_once()
    ensures once { AnswersOnce World world.Calls has_failed }
    ensures stays { FailuresStay World world.Calls has_failed }
{}

/// A run is the only one, over any host that answers the same to the same question and whose failures stay: of two runs from
/// the same configuration and host, none refused memory and with nothing failed at its end, one goes on from where the other
/// ended.
pub fn one_run<H: Host>()
    ensures { OneRun H H.calls }
{}

/// Two such runs with the same fuel end alike: at the same configuration, with the same outcome, units and answers.
pub fn one_end<H: Host>()
    ensures { OneEnd H H.calls }
{}

/// A valid module begins in one way over any host: with one instance, one store and one list of functions to enter.
pub fn one_start<H: Host>()
    ensures { (h : H) → OneStart (H.links h) }
{}

/// Two runs with the same fuel from one configuration, over hosts of the same tree, room, descriptors and supplies, whatever
/// their devices and streams are: where the host failed in neither and both read of the same input, they are the same.
pub fn same_run<
    D: Device,
    R: Inlet,
    W1: Outlet,
    W2: Outlet,
    E: Device,
    S: Inlet,
    X1: Outlet,
    X2: Outlet,
>()
    ensures { SameRun (devices D.Device R.Read W1.Write W2.Write R.gave R.refused W1.took W1.refused
        W2.took W2.refused) (devices E.Device S.Read X1.Write X2.Write S.gave S.refused X1.took
        X1.refused X2.took X2.refused) }
{}

/// The same module, supplies and volume give the same run, unless the host failed: memory, a stream or the device. So the
/// reports of two such sessions tell of the same outcome, units, answers, bytes and tree.
pub fn same_report<
    D: Device,
    R: Inlet,
    W1: Outlet,
    W2: Outlet,
    E: Device,
    S: Inlet,
    X1: Outlet,
    X2: Outlet,
>()
    ensures { SameReport (devices D.Device R.Read W1.Write W2.Write R.gave R.refused W1.took
        W1.refused W2.took W2.refused) (devices E.Device S.Read X1.Write X2.Write S.gave S.refused
        X1.took X1.refused X2.took X2.refused) }
{}

/// The same for runs of the program, by whichever relation machines stand for configurations: the same module, words, random
/// bytes, input and volume give the same run, unless the host failed. A failure is also what `--output` cuts.
pub fn same_program_run<
    M: SnapshotMeaning,
    D: Device,
    R: Inlet,
    W1: Outlet,
    W2: Outlet,
    E: Device,
    S: Inlet,
    X1: Outlet,
    X2: Outlet,
>()
    ensures { SameProgramRun M.stands D.honest D.disk D.size D.failures D.goes_on R.remaining
        W1.contents W2.contents (hearing R.gave R.refused W1.took W1.refused W2.took W2.refused)
        E.honest E.disk E.size E.failures E.goes_on S.remaining X1.contents X2.contents
        (hearing S.gave S.refused X1.took X1.refused X2.took X2.refused) }
{}

/// The same of what the program reports: of two such runs in which a session ran, the reports tell of the same run.
pub fn same_program_report<
    D: Device,
    R: Inlet,
    W1: Outlet,
    W2: Outlet,
    E: Device,
    S: Inlet,
    X1: Outlet,
    X2: Outlet,
>()
    ensures { SameProgramReport D.honest D.disk D.size D.failures D.goes_on R.remaining
        W1.contents W2.contents (hearing R.gave R.refused W1.took W1.refused W2.took W2.refused)
        E.honest E.disk E.size E.failures E.goes_on S.remaining X1.contents X2.contents
        (hearing S.gave S.refused X1.took X1.refused X2.took X2.refused) }
{}
