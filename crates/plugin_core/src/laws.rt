//! Laws over lives, over definitions alone.

ghost use Rattle.plugin_core.specs.Allocating.{InstancesAllocate};
ghost use Rattle.plugin_core.specs.Confined.{ConfinesLives};
ghost use Rattle.plugin_core.specs.Deeds.{DeedsAreALife};
ghost use Rattle.plugin_core.specs.Handling.{HandlingIsALife};
ghost use Rattle.plugin_core.specs.Moments.{KeepsLives};

use plugin_steps::InstanceMachine;
use wasi_calls::VolumeHost;
use wasm_interp::SnapshotMeaning;
use wasm_store::Host;

/// A law: the instance that a command begins with is one by allocation, whose imports the host answers all.
pub fn instances_allocate()
    ensures { InstancesAllocate }
{}

/// A law: whatever is done from its opening on with a machine that stands for configurations of an instance is a life of it, so
/// what holds over lives holds of that.
pub fn deeds_are_a_life<H: Host, S: InstanceMachine>()
    ensures { DeedsAreALife H H.calls S S.stands }
{}

/// A law: whatever an embedder does with the machine of an instance from its opening on (it goes on, answers, writes, enters exported
/// functions, lets one go) is a life of the instance by the standard's rules, in which just that happened which was told. It holds of
/// any relation by which the machine stands for configurations, if that tells of stores.
pub fn handling_is_a_life<M: SnapshotMeaning, H: Host>()
    ensures { HandlingIsALife M.stands H H.calls }
{}

/// A law: whatever is called of an instance in all its life, and whatever its embedder answers and writes, an entry that was no
/// open directory and below none when it opened keeps its path, serial, kind and bytes, and no descriptor and no walk leads to one.
pub fn lives_stay_confined<H: VolumeHost>()
    ensures { ConfinesLives H.calls H.shows H.honest }
{}

/// A law: stopped at any moment of an instance's life, between two calls or inside one, an image that is left stands for the
/// volume's tree after some of the host's answers, of those from the last sync on that was answered with 0.
pub fn lives_keep_moments<H: VolumeHost>()
    ensures { KeepsLives H.disk H.numbers H.tree H.honest H.calls }
{}
