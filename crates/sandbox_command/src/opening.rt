//! The files of a run alone, all of which are open and locked before one of them is written.

ghost use Rattle.std.specs.Prelude.{◌≡◌, ◌⊎◌, Err, IfErr, IfOk, IsSome, MatchResult, None, Ok};
ghost use Rattle.std.specs.IoError.{error_kind};
ghost use Rattle.std.specs.declared.io.ErrorKind.TheVariants as failing;
ghost use Rattle.sandbox_command.specs.Alone.{AreOpened, HasReport, IsFresh, IsLedger, IsMedium, Lacks};
ghost use Rattle.sandbox_command.specs.Beginning.{IsImage};
ghost use Rattle.sandbox_places.specs.Places.{Chain, IsOfImage, IsOfName, IsOfRandom, IsRefusedAmong, IsRefusedOfAll, Makes, Opens, Reads, Receives, file_accesses, medium_accesses, reads_of, report_accesses, run_accesses, where_named};

use observed_run::FuelProfile;
use sandbox_args::Run;
use sandbox_device::RamDevice;
use sandbox_places::places::Places;
use sandbox_telling::profiling::no_stacks;
use sandbox_telling::reporting::receiver_of;
use std::alloc::Global;
use std::io;
use vol_commands::FRESH_SECTORS;

/// How many bytes of a module's file are read at most: one more than a module may have.
pub(crate) const MODULE_READ: u64 = 67_108_865;

/// How many random bytes are read at most, so that a file with no end gives some, too.
const RANDOM_READ: u64 = 67_108_864;

/// How many bytes of a tar stream are read at most: as many as the largest volume has.
const ARCHIVE_READ: u64 = 8_589_934_592;

/// Where a run has its volume: in a file, which is locked, or in memory, as sectors or as the tar stream that it is made of.
#[derive(Drop)]
pub(crate) enum Medium<V> {
    File(V),
    Memory(RamDevice),
    Archive(Vec<u8>),
}

/// What gets the profile of a run: stacks, and the file that they are printed into at the end.
#[derive(Drop)]
pub(crate) struct Ledger<O> {
    pub(crate) stacks: FuelProfile,
    pub(crate) file: O,
}

/// The files of a run, but for its report.
#[derive(Drop)]
pub(crate) struct RunFiles<I, O, V> {
    pub(crate) module: Vec<u8>,
    pub(crate) random: Vec<u8>,
    pub(crate) medium: Medium<V>,
    pub(crate) stdin: Option<I>,
    pub(crate) stdout: Option<O>,
    pub(crate) stderr: Option<O>,
    pub(crate) profile: Option<Ledger<O>>,
}

/// The sectors in memory that a run begins with: those of its image, or new ones.
pub(crate) fn memory_of<P: Places>(
    alloc: Global,
    places: &mut P,
    run: &Run<'_>,
) -> io::Result<RamDevice>
    ensures sectors { IfOk result (λ device. IsImage run.now.image device.sectors) }
    ensures image { IfOk result (λ device. IsOfImage P.is_image run.now.image device) }
    ensures asked { Chain P.asked (reads_of run.now.image) places.old places.new }
    ensures refused { IfErr result (λ error. IsRefusedAmong P.asked P.refused
        (reads_of run.now.image) (error_kind error) places.old places.new
        ⊎ ((run.now.image ≡ None) × (error_kind error ≡ failing.OutOfMemory))) }
{
    match run.image {
        Some(file) => places.image(file),
        None => Ok(RamDevice::new(alloc, FRESH_SECTORS)?),
    }
}

/// The bytes of the module's file, and of the random bytes' where the run names one.
pub(crate) fn read_files<P: Places>(
    alloc: Global,
    places: &mut P,
    run: &Run<'_>,
) -> io::Result<(Vec<u8>, Vec<u8>)>
    ensures { MatchResult result (λ it. Chain P.asked (file_accesses run.now) places.old places.new
        × P.is_beginning run.now.«module».now 67108865 it.0.items
        × IsOfRandom (λ name. P.is_beginning name 67108864) run.now.random it.1.items)
        (λ error. IsRefusedAmong P.asked P.refused (file_accesses run.now) (error_kind error)
        places.old places.new) }
{
    let module = places.bytes(run.module, MODULE_READ)?;
    let random = random_of(alloc, places, run)?;
    Ok((module, random))
}

/// The random bytes of a run that names a file of them, or none.
fn random_of<P: Places>(alloc: Global, places: &mut P, run: &Run<'_>) -> io::Result<Vec<u8>>
    ensures read { IfOk result (λ it. IsOfRandom (λ name. P.is_beginning name 67108864)
        run.now.random it.items) }
    ensures asked { Chain P.asked (reads_of run.now.random) places.old places.new }
    ensures refused { IfErr result (λ error. IsRefusedAmong P.asked P.refused
        (reads_of run.now.random) (error_kind error) places.old places.new) }
{
    match run.random {
        Some(file) => places.bytes(file, RANDOM_READ),
        None => Ok(Vec::new(alloc)),
    }
}

/// The device of a run's volume, whose file is locked, or the tar stream or the sectors in memory that it begins with.
fn medium_of<P: Places>(
    alloc: Global,
    places: &mut P,
    run: &Run<'_>,
) -> io::Result<Medium<P::Volume>>
    ensures medium { IfOk result (IsMedium P.Places P.Volume.Device run.now.volume
        run.now.image_from run.now.image) }
    ensures asked { Chain P.asked (medium_accesses run.now.volume run.now.image_from run.now.image)
        places.old places.new }
    ensures refused { IfErr result (λ error. IsRefusedAmong P.asked P.refused
        (medium_accesses run.now.volume run.now.image_from run.now.image) (error_kind error)
        places.old places.new ⊎ (IsFresh run.now × (error_kind error ≡ failing.OutOfMemory))) }
{
    match (run.volume, run.image_from) {
        (Some(path), _) => Ok(Medium::File(places.lock(path)?)),
        (None, Some(path)) => Ok(Medium::Archive(places.bytes(path, ARCHIVE_READ)?)),
        (None, None) => Ok(Medium::Memory(memory_of(alloc, places, run)?)),
    }
}

/// A file to be read; none where none is named.
fn opened_file<P: Places>(places: &mut P, path: Option<&str>) -> io::Result<Option<P::Input>>
    ensures file { IfOk result (IsOfName P.is_input path.entry) }
    ensures asked { Chain P.asked (where_named Opens path.entry) places.old places.new }
    ensures refused { IfErr result (λ error. IsRefusedAmong P.asked P.refused
        (where_named Opens path.entry) (error_kind error) places.old places.new) }
{
    match path {
        Some(path) => Ok(Some(places.open(path)?)),
        None => Ok(None),
    }
}

/// A file to be written, which has what it had; none where none is named.
fn made_file<P: Places>(places: &mut P, path: Option<&str>) -> io::Result<Option<P::Output>>
    ensures file { IfOk result (IsOfName P.is_output path.entry) }
    ensures asked { Chain P.asked (where_named Makes path.entry) places.old places.new }
    ensures refused { IfErr result (λ error. IsRefusedAmong P.asked P.refused
        (where_named Makes path.entry) (error_kind error) places.old places.new) }
{
    match path {
        Some(path) => Ok(Some(places.make(path)?)),
        None => Ok(None),
    }
}

/// The file of a profile, which has what it had, and its stacks; none where none is named.
fn ledger_of<P: Places>(
    alloc: Global,
    places: &mut P,
    path: Option<&str>,
) -> io::Result<Option<Ledger<P::Output>>>
    ensures ledger { IfOk result (IsLedger P.is_output path.entry) }
    ensures asked { Chain P.asked (where_named Makes path.entry) places.old places.new }
    ensures refused { IfErr result (λ error. IsRefusedAmong P.asked P.refused
        (where_named Makes path.entry) (error_kind error) places.old places.new
        ⊎ (IsSome path.entry × (error_kind error ≡ failing.OutOfMemory))) }
{
    let Some(path) = path else {
        return Ok(None);
    };
    let file = places.make(path)?;
    let stacks = no_stacks(alloc)?;
    Ok(Some(Ledger { stacks, file }))
}

/// Opens what gets a volume in memory at the end, or its tree, where one is named.
fn receive_file<P: Places>(places: &mut P, path: Option<&str>) -> io::Result<()>
    ensures asked { Chain P.asked (where_named Receives path.entry) places.old places.new }
    ensures refused { IfErr result (λ error. IsRefusedAmong P.asked P.refused
        (where_named Receives path.entry) (error_kind error) places.old places.new) }
{
    match path {
        Some(path) => places.receive(path),
        None => Ok(()),
    }
}

/// Both of these, or the error of the first that has one.
fn both<A: Drop, B: Drop>(a: io::Result<A>, b: io::Result<B>) -> io::Result<(A, B)>
    ensures { MatchResult result (λ it. (a ≡ Ok it.0) × (b ≡ Ok it.1))
        (λ error. (a ≡ Err error) ⊎ (b ≡ Err error)) }
{
    match (a, b) {
        (Ok(a), Ok(b)) => Ok((a, b)),
        (Err(error), _) => Err(error),
        (_, Err(error)) => Err(error),
    }
}

/// Opens the files of a run, and locks those that it writes. All are opened, whichever is refused, so that it is known which
/// files have a part in the run.
pub(crate) fn open_all<P: Places>(
    alloc: Global,
    places: &mut P,
    run: &Run<'_>,
) -> io::Result<RunFiles<P::Input, P::Output, P::Volume>>
    ensures asked { Chain P.asked (run_accesses run.now) places.old places.new }
    ensures opened { IfOk result (AreOpened P.Places P.Volume.Device run.now) }
    ensures refused { IfErr result (λ error. Lacks P.Places run.now (error_kind error) places.old
        places.new) }
{
    let module = places.bytes(run.module, MODULE_READ);
    let random = random_of(alloc, places, run);
    let medium = medium_of(alloc, places, run);
    let stdin = opened_file(places, run.stdin);
    let stdout = made_file(places, run.stdout);
    let stderr = made_file(places, run.stderr);
    let profile = ledger_of(alloc, places, run.profile);
    let received = receive_file(places, receiver_of(run));
    let bytes = both(module, random);
    let read = both(bytes, medium);
    let errors = both(stderr, profile);
    let outputs = both(stdout, errors);
    let streams = both(stdin, outputs);
    let files = both(read, streams);
    match both(files, received) {
        Ok((files, _)) => {
            let (((module, random), medium), (stdin, (stdout, (stderr, profile)))) = files;
            Ok(RunFiles {
                module,
                random,
                medium,
                stdin,
                stdout,
                stderr,
                profile,
            })
        }
        Err(error) => Err(error),
    }
}

/// The file of a report, made and cut to nothing; none where none is named. All other files of the run are open by then, so
/// that it is none of them.
pub(crate) fn made_report<P: Places>(
    places: &mut P,
    path: Option<&str>,
) -> io::Result<Option<P::Output>>
    ensures { MatchResult result (HasReport P.Places path.entry places.old places.new)
        (λ error. IsRefusedAmong P.asked P.refused (report_accesses path.entry) (error_kind error)
        places.old places.new) }
{
    let Some(path) = path else {
        return Ok(None);
    };
    let file = places.make(path)?;
    Ok(Some(places.cut(path, file)?))
}
