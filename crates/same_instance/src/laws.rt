//! A law of instances, over definitions only.

ghost use Rattle.sandbox_core.specs.Devices.{devices};
ghost use Rattle.same_instance.specs.SameInstance.{SameInstance};

use stream_answers::{Inlet, Outlet};
use vol_sector::Device;
use wasm_interp::SnapshotMeaning;

/// The same module, supplies, volume and actions of whoever embeds an instance (it lets it go on, answers, writes, invokes, lets
/// go) give the same life of it, unless the host failed: memory, a stream or the device. All that is told is the same, and the
/// memory, table, globals, units, tree and bytes after it, by whichever relation machines stand for configurations. So a
/// recording of the actions is one of the instance: what its host's functions did is told by what they answered and wrote.
/// Premises are what no clause of `go` says: it asks only for functions of the embedder, with the unit of the call left, and what
/// it tells to have exited has called `proc_exit` (`IsToldOf`).
pub fn same_instance<
    M: SnapshotMeaning,
    D: Device,
    R: Inlet,
    W1: Outlet,
    W2: Outlet,
    E: Device,
    S: Inlet,
    X1: Outlet,
    X2: Outlet,
>()
    ensures { SameInstance M.stands (devices D.Device R.Read W1.Write W2.Write R.gave R.refused
        W1.took W1.refused W2.took W2.refused) (devices E.Device S.Read X1.Write X2.Write S.gave
        S.refused X1.took X1.refused X2.took X2.refused) }
{}
