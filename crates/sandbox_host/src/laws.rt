//! Laws of what a host calls, over definitions only.

ghost use Rattle.sandbox_host.specs.Headline.{HostHeadline};
ghost use Rattle.sandbox_host.specs.Carried.{IsCarried, IsCarriedOn};
ghost use Rattle.sandbox_host.specs.Settled.{IsSettled, IsSettledSoFar, IsSyncSettled, IsRecordKept, IsRecordKeptSoFar};

use crate::kept::KeptOutput;
use sandbox_core::laws::{SnapshotMeaning, headline, turns_are_safe};
use sandbox_device::RecordedDevice;
use sandbox_device::laws::record_is_followed;
use vol_tree::one_tree;

/// By whichever relation machines stand for configurations, whatever is called on a session that was opened, the calls of
/// `resume` are resumes of it, told by their numbers, and the headline of `sandbox_core` holds of them: the guest's steps are a
/// run of the reduction rules over a tree of paths, each image that a crash may leave stands for the tree after a first part of
/// its calls, and what is outside its directories stays.
pub fn host_headline<M: SnapshotMeaning>()
    ensures { HostHeadline M.stands }
{
    headline::<M, RecordedDevice, &'static [u8], KeptOutput, KeptOutput>();
    turns_are_safe::<RecordedDevice, &'static [u8], KeptOutput, KeptOutput>();
}

/// Where `finish` answers 0, the sectors that it leaves are opened again as a volume with the same numbers and the tree at the
/// end, and nothing but memory can be wanting. From the opening on that needs no premise, and there are as many as at first.
pub fn volume_is_carried<M: SnapshotMeaning>()
    ensures at_the_end { IsCarried }
    ensures from_the_opening { IsCarriedOn M.stands }
{
    one_tree();
}

/// On a disk that has the sectors that a session's device began with, the writes and syncs of the session are done in order:
/// whatever a stop in between leaves stands for the tree at the opening, or for that after a resume. So it is after any resume
/// with what the session has done by then; and once all of that is done, where the resume told of a sync, it is the tree after
/// that resume.
pub fn record_is_settled<M: SnapshotMeaning>()
    ensures at_the_end { IsSettled M.stands }
    ensures so_far { IsSettledSoFar M.stands }
    ensures synced { IsSyncSettled M.stands }
{
    one_tree();
    record_is_followed();
}

/// The device of a session over sectors began with these, and records what is done just where a record was asked for. What was
/// done by some time is the first that is done by any later time, up to the end.
pub fn record_is_kept<M: SnapshotMeaning>()
    ensures at_the_end { IsRecordKept M.stands }
    ensures so_far { IsRecordKeptSoFar M.stands }
{}
