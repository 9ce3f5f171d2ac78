//! The volume of a run that is made of a tar stream.

ghost use Rattle.std.specs.Prelude.{◌≡◌, ℕ, Err, IfErr, IfOk, MatchResult, Ok, length, replicate};
ghost use Rattle.sandbox_device.specs.declared.ram_device.RamDevice.{RamDevice as RamDeviceValue};
ghost use Rattle.sandbox_command.specs.Archive.{Fills, IsFormatted, IsImported, IsUnmade, blocks_of, import_reason, of_formatting, reason_of_why, sectors_of, slots_of, unfilled, version_of};
ghost use Rattle.sandbox_runs.specs.Status.{import_status};
ghost use Rattle.sandbox_telling.specs.Streams.{AppendsSome};

use sandbox_args::Run;
use sandbox_device::RamDevice;
use sandbox_report::{Fault, Summary, VolumeEnd};
use sandbox_runs::ending::Failed;
use sandbox_telling::explaining::About;
use sandbox_telling::reporting::not_run;
use sandbox_telling::work::VolumeWork;
use std::alloc::Global;
use stream_answers::Outlet;
use vol_commands::{Failure, ImportFailure, format_as, import_into};
use vol_inode::Version;
use vol_sector::VolumeFault;
use vol_tar::TarReason;

/// The directory that a stream is brought into.
const ROOT: &str = "/";

/// The most blocks of a stream for which a volume of version 2 is made.
const FEW_BLOCKS: u64 = 7_168;

/// The most slots and sectors of a volume of version 4.
const MOST_SLOTS: u64 = 1_048_576;

const MOST_SECTORS: u64 = 16_777_216;

/// The numbers of a volume that is made for a stream.
#[derive(Clone, Copy)]
struct VolumeSize {
    version: Version,
    sectors: u32,
    slots: u32,
}

/// The blocks of a stream of so many bytes, and one more.
fn blocks_of(bytes: usize) -> u64
    ensures { result ≡ blocks_of bytes }
{
    (bytes / 512) as u64 + 1
}

/// The version of the volume for a stream of so many blocks.
fn version_of(blocks: u64) -> Version
    ensures { result ≡ version_of blocks }
{
    if blocks <= FEW_BLOCKS {
        Version::Two
    } else {
        Version::Four
    }
}

/// The volume for a stream of so many bytes.
fn size_for(bytes: usize) -> VolumeSize
    ensures version { result.version ≡ version_of (blocks_of bytes) }
    ensures slots { result.slots ≡ slots_of (blocks_of bytes) }
    ensures sectors { result.sectors ≡ sectors_of (blocks_of bytes) }
{
    let blocks = blocks_of(bytes);
    let slots = (blocks + 1_024).min(MOST_SLOTS);
    let sectors = (2 * blocks + 16_384 + slots + 122).min(MOST_SECTORS);
    VolumeSize {
        version: version_of(blocks),
        sectors: sectors as u32,
        slots: slots as u32,
    }
}

/// A refusal to format a volume as one of an import.
fn of_formatting(failure: Failure) -> ImportFailure
    ensures { result ≡ of_formatting failure }
{
    match failure {
        Failure::Volume(fault) => ImportFailure::Volume(fault),
        Failure::Tree(errno) => ImportFailure::Path(errno),
        Failure::Stream => ImportFailure::Volume(VolumeFault::Device),
    }
}

/// Makes sectors of zeros an empty volume for a stream of so many bytes.
fn formatted(zeros: RamDevice, bytes: usize) -> Result<RamDevice, ImportFailure>
    requires { zeros.sectors ≡ replicate (sectors_of (blocks_of bytes)) (replicate 512 0) }
    ensures made { IfOk result (λ device. IsFormatted (blocks_of bytes) device (Ok tt)) }
    ensures refused { IfErr result (IsUnmade (blocks_of bytes)) }
{
    let size = size_for(bytes);
    let (done, device) = format_as(zeros, size.version, size.sectors, size.slots);
    match done {
        Ok(()) => Ok(device),
        Err(failure) => Err(of_formatting(failure)),
    }
}

/// An empty volume in memory for a stream of so many bytes.
fn empty_for(alloc: Global, bytes: usize) -> Result<RamDevice, ImportFailure>
    ensures made { IfOk result (λ device. IsFormatted (blocks_of bytes) device (Ok tt)) }
    ensures refused { IfErr result (IsUnmade (blocks_of bytes)) }
{
    let size = size_for(bytes);
    match RamDevice::new(alloc, size.sectors) {
        Ok(zeros) => formatted(zeros, bytes),
        Err(_) => Err(ImportFailure::Volume(VolumeFault::Memory)),
    }
}

/// Brings a tar stream of these bytes into the root of the empty volume that was made for it.
fn imported(alloc: Global, empty: RamDevice, bytes: &[u8]) -> Result<RamDevice, ImportFailure>
    requires { IsFormatted (blocks_of (length bytes.now)) empty (Ok tt) }
    ensures { MatchResult result (λ device. (count : ℕ) × IsImported bytes.now device (Ok count))
        (λ failure. (left : RamDeviceValue) × IsImported bytes.now left (Err failure)) }
{
    let mut input = bytes;
    let (done, device) = import_into(alloc, empty, ROOT, &mut input);
    match done {
        Ok(_) => Ok(device),
        Err(failure) => Err(failure),
    }
}

/// A volume in memory that has what a tar stream of these bytes has, in its root.
pub(crate) fn filled(alloc: Global, bytes: &[u8]) -> Result<RamDevice, ImportFailure>
    ensures { Fills bytes.now result }
{
    match empty_for(alloc, bytes.len()) {
        Ok(empty) => imported(alloc, empty, bytes),
        Err(failure) => Err(failure),
    }
}

/// Why a stream is refused, as a report has it.
fn reason_of_why(why: TarReason) -> Fault
    ensures { result ≡ reason_of_why why }
{
    match why {
        TarReason::Stream => Fault::File,
        TarReason::Memory => Fault::Memory,
        _ => Fault::Setting,
    }
}

/// Why no volume is made of a stream, as a report has it.
fn import_reason(failure: &ImportFailure) -> Fault
    ensures { result ≡ import_reason failure.now }
{
    match failure {
        ImportFailure::Volume(fault) => Fault::Volume(*fault),
        ImportFailure::Path(_) => Fault::Setting,
        ImportFailure::Halted(halted) => reason_of_why(halted.refusal.why),
    }
}

/// Prints why the tar stream of a run is refused, as `import` says it, and gives the status.
pub(crate) fn refuse_archive<W: Outlet>(err: &mut W, run: &Run<'_>, failure: &ImportFailure) -> u8
    ensures status { result ≡ import_status failure.now }
    ensures lines { AppendsSome (W.contents err.old) (W.contents err.new) }
{
    let name = run.image_from.unwrap_or("the tar stream");
    let about = About {
        file: name,
        work: VolumeWork::Import { path: ROOT },
        stream: Some(name),
    };
    failure.say(err, &about)
}

/// What the report says of a run of whose stream no volume is made, which ends with this status.
pub(crate) fn unfilled(run: &Run<'_>, failure: &ImportFailure, status: u8) -> Summary
    requires { status ≡ import_status failure.now }
    ensures { result ≡ unfilled run.now failure.now }
{
    not_run(run, import_reason(failure), VolumeEnd::None, status)
}
