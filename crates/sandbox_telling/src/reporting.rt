//! What the report of a run says of it.

ghost use Rattle.std.specs.Prelude.{◌≡◌};
ghost use Rattle.sandbox_telling.specs.Reporting.{kept_after_run, kept_where_not_begun};
ghost use Rattle.sandbox_telling.specs.Reporting.{kept_where_refused, not_run, receiver_of, session_reason};

use sandbox_args::Run;
use sandbox_core::SessionFault;
use sandbox_report::{CutStreams, End, Fault, Summary, VolumeEnd};
use vol_sector::VolumeFault;

/// What was cut of a guest that gave nothing.
const UNCUT: CutStreams = CutStreams {
    output: false,
    errors: false,
};

/// The file that gets the volume of a run at the end, or its tree.
pub fn receiver_of<'a>(run: &Run<'a>) -> Option<&'a str>
    ensures { result ≡ receiver_of run.now }
{
    run.volume_out.or(run.out_to)
}

/// Why a session can't be made, as a report has it.
pub fn session_reason(fault: SessionFault) -> Fault
    ensures { result ≡ session_reason fault }
{
    match fault {
        SessionFault::Setting => Fault::Setting,
        SessionFault::Instance(fault) => Fault::Instance(fault),
        SessionFault::Device => Fault::Volume(VolumeFault::Device),
        SessionFault::Preopen => Fault::Preopen,
        SessionFault::Memory => Fault::Memory,
    }
}

/// The report of a run that could not begin.
pub fn not_run(run: &Run<'_>, fault: Fault, volume: VolumeEnd, status: u8) -> Summary
    ensures { result ≡ not_run run.now fault volume status }
{
    Summary {
        end: End::Refused(fault),
        status,
        units: 0,
        fuel: run.limits.fuel,
        pages: 0,
        read: 0,
        written: 0,
        complained: 0,
        calls: 0,
        syncs: 0,
        volume,
        flushed: true,
        broken: false,
        cut: UNCUT,
    }
}

/// What became of the volume of a run that could not be opened.
pub fn kept_where_refused(fault: VolumeFault) -> VolumeEnd
    ensures { result ≡ kept_where_refused fault }
{
    match fault {
        VolumeFault::Device => VolumeEnd::Failed,
        _ => VolumeEnd::None,
    }
}

/// What became of the open volume of a run whose module gets no session.
pub fn kept_where_not_begun(file: Option<&str>, fault: SessionFault) -> VolumeEnd
    ensures { result ≡ kept_where_not_begun file.entry fault }
{
    match (file, fault) {
        (_, SessionFault::Device) => VolumeEnd::Failed,
        (None, _) => VolumeEnd::None,
        (Some(_), _) => VolumeEnd::Kept,
    }
}

/// What became of the volume of a guest that ran.
pub fn kept_after_run<V, E>(file: Option<&str>, left: &Result<V, E>) -> VolumeEnd
    ensures { result ≡ kept_after_run file.entry left.now }
{
    match (file, left) {
        (_, Err(_)) => VolumeEnd::Failed,
        (None, Ok(_)) => VolumeEnd::None,
        (Some(_), Ok(_)) => VolumeEnd::Kept,
    }
}
