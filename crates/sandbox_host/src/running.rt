//! Sessions that run, what they have written, and their ends.

ghost use Rattle.std.specs.Prelude.{◌≡◌, ◌≢◌, ◌⊎◌, None, Some, IfSome, IsSomeAnd, is_none, true, false, length, drop, min, take, ◌++◌, if◌then◌else◌};
ghost use Rattle.sandbox_host.specs.Sessions.{running, running_in, finished, finished_in, state_of, ready_with, ready_of, prepared, prepared_in, bytes_of, bytes_in};
ghost use Rattle.sandbox_host.specs.Sessions.{output, most_of, was_filled, sectors, IsShown, Paused, Finishes, returned_device, commit_number};

use crate::handle::Handle;
use crate::held::{Ended, HandleContent, OpenSession};
use crate::numbers::{DEVICE_FAILED, MISUSE, OK, Told, told_pause};
use crate::session::HostSession;
use crate::showing::show;
use sandbox_core::{Finished, Volume};
use sandbox_device::RecordedDevice;
use sandbox_inspect::ModuleBytes;
use std::alloc::Global;
use vol_sector::{Refused, Sector};

/// Lets a session go on for at most this many units, and not past 2^64 - 1 in all.
fn go_on(session: &mut HostSession, units: u64) -> Told
    ensures paused { Paused units (state_of session.old) (state_of session.new) result }
    ensures ready { ready_with session.new ≡ ready_with session.old }
{
    let most = units.min(u64::MAX - session.used());
    let pause = session.resume(most);
    told_pause(pause, session.used())
}

/// Lets the guest go on for at most this many units, until a call is answered or it ends, and tells which. A session that
/// has ended tells the same again.
pub fn resume(alloc: Global, session: &mut Handle, units: u64, told: &mut Told) -> u32
    ensures misuse { is_none (running session.old.held) ≡ true
        → (result ≡ MISUSE) × (session.new.held ≡ session.old.held) × (told.new ≡ told.old) }
    ensures resumed { IfSome (running session.old.held) (λ old. (result ≡ OK)
        × IsSomeAnd (running session.new.held) (λ new. Paused units old new told.new)) }
    ensures prepared { prepared session.new.held ≡ prepared session.old.held }
    ensures bytes { bytes_of session.new.held ≡ bytes_of session.old.held }
{
    let Some(mut held) = session.take(alloc) else {
        return MISUSE;
    };
    let answer = match &mut *held {
        HandleContent::Running(running) => {
            *told = go_on(&mut running.session, units);
            OK
        }
        _ => MISUSE,
    };
    session.put(held);
    answer
}

/// Copies what the guest has written to descriptor 1 or 2 from a byte on, as much as there is room for, and says how much it
/// has written in all.
pub fn output(
    alloc: Global,
    session: &mut Handle,
    descriptor: u32,
    from: usize,
    room: &mut [u8],
) -> usize
    ensures length { result ≡ length (output session.old.held descriptor) }
    ensures shown { IsShown (drop from (output session.old.held descriptor)) room.old room.new }
    ensures kept { session.new.held ≡ session.old.held }
{
    let Some(held) = session.take(alloc) else {
        return 0;
    };
    let written = held.output(descriptor);
    let length = written.len();
    show(&written[from.min(length)..], room);
    session.put(held);
    length
}

/// Whether a write to descriptor 1 or 2 was refused since the guest has written as much as it may: 1, or 0.
pub fn full(alloc: Global, session: &mut Handle, descriptor: u32) -> u32
    ensures told { result ≡ (if was_filled session.old.held descriptor then 1 else 0) }
    ensures filled { result ≡ 1
        → length (output session.old.held descriptor) ≡ most_of session.old.held descriptor }
    ensures kept { session.new.held ≡ session.old.held }
{
    let Some(held) = session.take(alloc) else {
        return 0;
    };
    let answer = u32::from(held.is_filled(descriptor));
    session.put(held);
    answer
}

/// Copies the sectors of a finished session's volume, as many as there is room for, and says how many it has.
pub fn volume_out(alloc: Global, session: &mut Handle, room: &mut [Sector]) -> usize
    ensures length { result ≡ length (sectors session.old.held) }
    ensures shown { IsShown (sectors session.old.held) room.old room.new }
    ensures kept { session.new.held ≡ session.old.held }
{
    let Some(held) = session.take(alloc) else {
        return 0;
    };
    let length = held.show_sectors(room);
    session.put(held);
    length
}

/// The device of a volume that is handed back, or of one that is refused, and whether it failed.
pub(crate) fn handed_back(
    volume: Result<Volume<RecordedDevice>, Refused<RecordedDevice>>,
) -> (RecordedDevice, u32)
    ensures device { result.0 ≡ returned_device volume }
    ensures number { result.1 ≡ commit_number volume }
{
    match volume {
        Ok(volume) => (volume.into_device(), OK),
        Err(Refused { device, .. }) => (device, DEVICE_FAILED),
    }
}

/// Commits a session's calls. What is left of it, and whether its device failed.
fn end(session: HostSession, bytes: ModuleBytes<'static>) -> (Ended, u32)
    ensures finishes { Finishes (state_of session) result.0 result.1 }
    ensures ready { ready_of result.0.loaded ≡ ready_with session }
    ensures bytes { result.0.bytes ≡ bytes.entry }
{
    let (
        loaded,
        Finished {
            volume,
            out,
            err,
            ..
        },
    ) = session.finish();
    let (device, number) = handed_back(volume);
    (
        Ended {
            loaded,
            bytes,
            device,
            out,
            err,
        },
        number,
    )
}

/// What a session becomes where it is finished.
fn ended(held: HandleContent) -> (HandleContent, u32)
    ensures finished { IfSome (running_in held)
        (λ s. IsSomeAnd (finished_in result.0) (λ e. Finishes s e result.1)) }
    ensures other { is_none (running_in held) ≡ true → (result.1 ≡ 100) × (result.0 ≡ held) }
    ensures prepared { prepared_in result.0 ≡ prepared_in held }
    ensures bytes { bytes_in result.0 ≡ bytes_in held }
{
    match held {
        HandleContent::Running(OpenSession { session, bytes }) => {
            let (ended, number) = end(session, bytes);
            (HandleContent::Finished(ended), number)
        }
        other => (other, MISUSE),
    }
}

/// Commits the guest's calls to its volume, and ends the session's run. Its output and its volume can be read until it is
/// closed. Where the device fails, what was synced before is on it.
pub fn finish(alloc: Global, session: &mut Handle) -> u32
    ensures misuse { is_none (running session.old.held) ≡ true
        → (result ≡ MISUSE) × (session.new.held ≡ session.old.held) }
    ensures finished { IfSome (running session.old.held) (λ s.
        IsSomeAnd (finished session.new.held) (λ e. Finishes s e result)) }
    ensures prepared { prepared session.new.held ≡ prepared session.old.held }
    ensures bytes { bytes_of session.new.held ≡ bytes_of session.old.held }
{
    let Some(mut held) = session.take(alloc) else {
        return MISUSE;
    };
    let (after, answer) = ended(Box::replace(&mut held, HandleContent::Nothing));
    drop(Box::replace(&mut held, after));
    session.put(held);
    answer
}
