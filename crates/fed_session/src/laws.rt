//! What holds of an instance whose input goes on, whatever is done with it.

ghost use Rattle.fed_session.specs.Feeding.{around};
ghost use Rattle.fed_session.specs.Headline.{AllHeadlines};

use stream_answers::Outlet;
use vol_sector::Device;
use wasm_interp::SnapshotMeaning;

/// The headline of an instance whose input goes on, over what `FedInstance::new` and its calls say: whatever is done with it, one call
/// after another, and however its input is cut, is a life of the instance that has all of that input from its opening on, and answers
/// its reads itself. What `instance_headline` of plugin_session says of it holds. It is so unless a read was made that starved,
/// which marks the input as failed.
pub fn fed_headline<M: SnapshotMeaning, D: Device, W1: Outlet, W2: Outlet>()
    ensures { AllHeadlines M.stands
        (around D.Device W1.Write W2.Write W1.took W1.refused W2.took W2.refused) }
{}
