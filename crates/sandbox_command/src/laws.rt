//! Laws of runs of the program, over definitions only.

ghost use Rattle.wasi_bodies.specs.host.Worlds.{hearing};
ghost use Rattle.sandbox_command.specs.Archive.{BeginsWithItsStream, GivesItsTree};
ghost use Rattle.sandbox_runs.specs.Invoking.{CallUpholds, CallsAreInstances};
ghost use Rattle.sandbox_runs.specs.Running.{RunsAreGuests};
ghost use Rattle.sandbox_command.specs.Upheld.{RunUpholds};

use plugin_session::instance_headline;
use sandbox_core::laws::{SnapshotMeaning, headline_opened, turns_are_safe};
use sandbox_report::Counted;
use stream_answers::{Inlet, Outlet};
use vol_sector::Device;
use vol_tree::one_tree;

/// Where a guest ran, by whichever relation machines stand for configurations, the headline holds of it.
pub fn run_upholds<M: SnapshotMeaning, D: Device, R: Inlet, W1: Outlet, W2: Outlet>()
    ensures { RunUpholds M.stands D.honest D.disk D.size D.failures D.goes_on R.remaining
        W1.contents W2.contents (hearing R.gave R.refused W1.took W1.refused W2.took W2.refused) }
{
    headline_opened::<M, D, Counted<R>, Counted<W1>, Counted<W2>>();
    turns_are_safe::<D, Counted<R>, Counted<W1>, Counted<W2>>();
}

/// In each run of which it is said that a session ran, alone or as a test of a list, a guest ran, by the machine's own relation.
pub fn runs_are_guests<D: Device, R: Inlet, W1: Outlet, W2: Outlet>()
    ensures { RunsAreGuests D.honest D.disk D.size D.failures D.goes_on R.remaining W1.contents
        W2.contents (hearing R.gave R.refused W1.took W1.refused W2.took W2.refused) }
{}

/// Where an exported function was called, by whichever relation machines stand for configurations, what the instance did is its life,
/// and the headline of instances holds of it.
pub fn call_upholds<M: SnapshotMeaning, D: Device, R: Inlet, W1: Outlet, W2: Outlet>()
    ensures { CallUpholds M.stands D.honest D.disk D.size D.failures D.goes_on R.remaining
        W1.contents W2.contents (hearing R.gave R.refused W1.took W1.refused W2.took W2.refused) }
{
    instance_headline::<M, D, Counted<R>, Counted<W1>, Counted<W2>>();
    turns_are_safe::<D, Counted<R>, Counted<W1>, Counted<W2>>();
}

/// In each run of which it is said that a function was called, an instance ran, by the machine's own relation.
pub fn calls_are_instances<D: Device, R: Inlet, W1: Outlet, W2: Outlet>()
    ensures { CallsAreInstances D.honest D.disk D.size D.failures D.goes_on R.remaining W1.contents
        W2.contents (hearing R.gave R.refused W1.took W1.refused W2.took W2.refused) }
{}

/// A volume that is made of a tar stream has, when it is opened, the tree that the members of the stream make in an empty one.
pub fn begins_with_its_stream()
    ensures { BeginsWithItsStream }
{
    one_tree();
}

/// A tar stream that a run gives of its volume in memory is that of the one tree that the device stands for.
pub fn gives_its_tree()
    ensures { GivesItsTree }
{
    one_tree();
}
