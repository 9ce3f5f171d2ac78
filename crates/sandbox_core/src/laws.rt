//! Laws of runs, over definitions only.

ghost use Rattle.sandbox_core.specs.Devices.{devices};
ghost use Rattle.sandbox_core.specs.Headline.{Headline, OpenedHeadline, SeededHeadline};
ghost use Rattle.sandbox_core.specs.Runs.{PausesCompose, ResumesCompose};
ghost use Rattle.sandbox_core.specs.Safety.{TurnsAreSafe};

use stream_answers::{Inlet, Outlet};
use vol_sector::Device;
pub use wasi_calls::{confined, confined_host, host_calls_are_rows, kept, streams_are_heard};
use wasm_interp::Host;
pub use wasm_interp::{OwnMeaning, SnapshotMeaning};

/// Any list of resumes is one run, over any host: the pauses say which calls the host answered in it.
pub fn compose<H: Host>()
    ensures pauses { PausesCompose H.calls }
    ensures resumes { ResumesCompose H.calls }
{}

/// What a crash may leave of a session's volume, one turn after another: as the session is made, in each resume and as it
/// is finished. What may be left after a turn is what the next begins with, also that of the next session on the volume.
pub fn turns_are_safe<D: Device, R: Inlet, W1: Outlet, W2: Outlet>()
    ensures { TurnsAreSafe (devices D.Device R.Read W1.Write W2.Write R.gave R.refused W1.took
        W1.refused W2.took W2.refused) }
{}

/// The headline, over what `Session::new` and `Session::resume` say: whatever resumes follow, the guest's steps are a run
/// of the reduction rules over a tree of paths, each image that a crash may leave stands for the tree after a first part
/// of its calls, with all up to the last sync that was answered, and what is outside its directories stays.
pub fn headline<M: SnapshotMeaning, D: Device, R: Inlet, W1: Outlet, W2: Outlet>()
    ensures { Headline M.stands (devices D.Device R.Read W1.Write W2.Write R.gave R.refused W1.took
        W1.refused W2.took W2.refused) }
{}

/// The headline of a session that `Session::seed` gave random bytes before its first resume.
pub fn headline_seeded<M: SnapshotMeaning, D: Device, R: Inlet, W1: Outlet, W2: Outlet>()
    ensures { SeededHeadline M.stands (devices D.Device R.Read W1.Write W2.Write R.gave R.refused
        W1.took W1.refused W2.took W2.refused) }
{}

/// The headline of a session that `Session::seed` gave random bytes or `Session::interact` made interactive, either or both or
/// neither, before its first resume.
pub fn headline_opened<M: SnapshotMeaning, D: Device, R: Inlet, W1: Outlet, W2: Outlet>()
    ensures { OpenedHeadline M.stands (devices D.Device R.Read W1.Write W2.Write R.gave R.refused
        W1.took W1.refused W2.took W2.refused) }
{}
