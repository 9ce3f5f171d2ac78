//! What holds of an instance, whatever is done with it.

ghost use Rattle.sandbox_core.specs.Devices.{devices};
ghost use Rattle.plugin_session.specs.Headline.{InstanceHeadline};

use stream_answers::{Inlet, Outlet};
use vol_sector::Device;
use wasm_interp::SnapshotMeaning;

/// The headline of an instance, over what `Instance::new` and its calls say: whatever is done with it, one call after another, is
/// a life of the module's instance by the standard's rules, in which just that happened which was told. An entry of the volume
/// that is no preopened directory and below none stays as it is, and an image that a crash leaves at any moment stands for the
/// volume's tree after some of the answers, of those from the last sync on that was answered with 0. It holds of any relation by which
/// machines stand for configurations, if that tells of stores, as the machine's own does.
pub fn instance_headline<M: SnapshotMeaning, D: Device, R: Inlet, W1: Outlet, W2: Outlet>()
    ensures { InstanceHeadline M.stands (devices D.Device R.Read W1.Write W2.Write R.gave R.refused
        W1.took W1.refused W2.took W2.refused) }
{}
