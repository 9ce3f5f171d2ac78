//! Preopened directories.

ghost use Rattle.std.specs.Prelude.{◌≡◌, ◌≢◌, ◌≤◌, ◌<◌, ℕ, false, true, None, Some, Ok, Err, IfOk, IfErr, OnOk, OnErr, length};
ghost use Rattle.path_walk.specs.Walk.{IsReached, reached_as};
ghost use Rattle.vol_tree.specs.Opened.{IsSerial};
ghost use Rattle.wasi_fd.specs.Table.{table_of, streams, with_at};
ghost use Rattle.path_walk.specs.Walk.{Asked};
ghost use Rattle.wasi_calls.specs.host.Making.{HasPreopens, directory_named, from_root, found_directory, preopened, is_device};
ghost use Rattle.wasi_calls.specs.internal.host.Preopening.{fault_as, FindsOrFails, FindsAll, AreNumbers, AreOpen, Refuses};
ghost use Rattle.wasi_bodies.specs.internal.Entries.{KnowsEntries};
ghost use Rattle.wasi_bodies.specs.declared.settings.TheConstants.{MOST_PREOPENS};
ghost use Rattle.wasi_fd.specs.declared.table.TheConstants.{PLACES};

use crate::host::fault::HostFault;
use crate::host::inner::Inner;
use path_walk::{Reached, is_directory, walk_from_root};
use vol_sector::Device;
use vol_tree::{Errno, Serial, Volume};
use wasi_bodies::settings::{MOST_PREOPENS, Preopen};
use wasi_fd::{Descriptor, Descriptors, EntryKind, Opened, Rights};

/// Why no directory is opened where the volume refuses a call.
fn fault_of(errno: Errno) -> HostFault
    ensures { result ≡ fault_as errno }
{
    match errno {
        Errno::Io => HostFault::Device,
        _ => HostFault::Preopen,
    }
}

/// The directory that a walk reached.
fn reached_directory<D: Device>(
    volume: &mut Volume<D>,
    reached: Reached<'_>,
) -> Result<Serial, HostFault>
    requires working { volume.old.failed ≡ false }
    requires reached { IsReached D.honest volume.old reached }
    ensures reads { Asked D.honest D.disk D.size D.failures D.goes_on volume.old volume.new
        (is_device result) }
    ensures found { D.honest volume.old.device
        → FindsOrFails (found_directory volume.old.tree (Ok (reached_as reached.entry))) result }
    ensures number { IfOk result (IsSerial volume.new.numbers) }
    ensures faults { IfErr result (λ fault. FindsOrFails {X = ℕ} None (Err fault)) }
{
    match reached {
        Reached::Found(found) => {
            let serial = Serial::new(found);
            match is_directory(volume, serial) {
                Ok(true) => Ok(serial),
                Ok(false) => Err(HostFault::Preopen),
                Err(errno) => Err(fault_of(errno)),
            }
        }
        Reached::Missing { .. } => Err(HostFault::Preopen),
    }
}

/// The directory that the rest of a path names, from the root; an empty rest is the root.
fn from_root<D: Device>(volume: &mut Volume<D>, rest: &[u8]) -> Result<Serial, HostFault>
    requires { volume.old.failed ≡ false }
    ensures reads { Asked D.honest D.disk D.size D.failures D.goes_on volume.old volume.new
        (is_device result) }
    ensures found { D.honest volume.old.device
        → FindsOrFails (from_root volume.old.tree rest.now) result }
    ensures number { IfOk result (IsSerial volume.new.numbers) }
    ensures faults { IfErr result (λ fault. FindsOrFails {X = ℕ} None (Err fault)) }
{
    volume.is_a_tree(); // a law: the root is there
    if rest.is_empty() {
        return Ok(Serial::ROOT);
    }
    match walk_from_root(volume, rest) {
        Ok((reached, _)) => reached_directory(volume, reached),
        Err(errno) => Err(fault_of(errno)),
    }
}

/// The directory that a path of the volume names.
fn directory_named<D: Device>(volume: &mut Volume<D>, path: &[u8]) -> Result<Serial, HostFault>
    requires { volume.old.failed ≡ false }
    ensures reads { Asked D.honest D.disk D.size D.failures D.goes_on volume.old volume.new
        (is_device result) }
    ensures found { D.honest volume.old.device → FindsOrFails
        (directory_named volume.old.tree path.now) result }
    ensures number { IfOk result (IsSerial volume.new.numbers) }
    ensures faults { IfErr result (λ fault. FindsOrFails {X = ℕ} None (Err fault)) }
{
    match path {
        [b'/', rest @ ..] => from_root(volume, rest),
        _ => Err(HostFault::Preopen),
    }
}

/// The serials of the directories, in order.
fn find_all<D: Device>(
    volume: &mut Volume<D>,
    preopens: &[Preopen<'_>],
    serials: &mut [Serial; MOST_PREOPENS],
) -> Result<(), HostFault>
    requires working { volume.old.failed ≡ false }
    requires few { length preopens.now ≤ MOST_PREOPENS }
    ensures reads { Asked D.honest D.disk D.size D.failures D.goes_on volume.old volume.new
        (is_device result) }
    ensures found { D.honest volume.old.device
        → FindsAll volume.old.tree preopens.now serials.new result }
    ensures numbers { OnOk result (AreNumbers volume.new.numbers serials.new
        (length preopens.now)) }
    ensures faults { IfErr result (λ fault. FindsOrFails {X = ℕ} None (Err fault)) }
{
    for (i, preopen) in preopens.iter().enumerate() {
        match directory_named(volume, preopen.path) {
            Ok(serial) => serials[i] = serial,
            Err(fault) => return Err(fault),
        }
    }
    Ok(())
}

/// The descriptor of a preopened directory.
fn preopened<'t>(preopen: &Preopen<'t>, serial: Serial) -> Descriptor<'t>
    ensures { result ≡ preopened preopen.now serial }
{
    Descriptor::Entry(Opened {
        serial: serial.number(),
        kind: EntryKind::Directory,
        position: 0,
        append: false,
        base: Rights::directory(),
        inheriting: Rights::every(),
        guest_name: Some(preopen.guest_name),
    })
}

/// Opens a descriptor as the least number that stands for nothing.
fn open_next<'t>(descriptors: &mut Descriptors<'t>, descriptor: Descriptor<'t>)
    ensures { (n : ℕ) → n < PLACES → table_of descriptors.old n ≡ None
        → ((k : ℕ) → k < n → table_of descriptors.old k ≢ None) → (k : ℕ)
        → table_of descriptors.new k ≡ with_at n (Some descriptor.entry) (table_of descriptors.old)
        k }
{
    let _opened = descriptors.open(descriptor);
}

/// Opens the directories of these serials, in order from 3 on.
fn open_all<'t>(
    descriptors: &mut Descriptors<'t>,
    preopens: &[Preopen<'t>],
    serials: &[Serial; MOST_PREOPENS],
)
    requires streams { (n : ℕ) → table_of descriptors.old n ≡ streams n }
    requires few { length preopens.now ≤ MOST_PREOPENS }
    ensures { AreOpen preopens.now serials.now (length preopens.now) (table_of descriptors.new) }
{
    for (i, preopen) in preopens.iter().enumerate() {
        open_next(descriptors, preopened(preopen, serials[i]));
    }
}

/// Opens the preopened directories, in order from 3 on, or none.
fn open_directories<'t, D: Device>(
    volume: &mut Volume<D>,
    descriptors: &mut Descriptors<'t>,
    preopens: &[Preopen<'t>],
) -> Result<(), HostFault>
    requires streams { (n : ℕ) → table_of descriptors.old n ≡ streams n }
    requires few { length preopens.now ≤ MOST_PREOPENS }
    ensures opened { D.honest volume.old.device
        → OnOk result (HasPreopens volume.old.tree preopens.now (table_of descriptors.new)) }
    ensures refused { IfErr result (Refuses D.honest volume.old volume.new preopens.now) }
    ensures closed { OnErr result ((n : ℕ) → table_of descriptors.new n ≡ table_of descriptors.old
        n) }
    ensures reads { Asked D.honest D.disk D.size D.failures D.goes_on volume.old volume.new
        (is_device result) }
    ensures known { KnowsEntries D.honest volume.new (table_of descriptors.new) }
{
    if volume.failed() {
        return Err(HostFault::Device);
    }
    volume.is_a_tree(); // a law: the root is a directory
    let mut serials = [Serial::ROOT; MOST_PREOPENS];
    match find_all(volume, preopens, &mut serials) {
        Ok(()) => {
            open_all(descriptors, preopens, &serials);
            Ok(())
        }
        Err(fault) => Err(fault),
    }
}

impl<'s, 't, D: Device, R, W1, W2> Inner<'s, 't, D, R, W1, W2> {
    ghost use Rattle.wasi_calls.specs.internal.host.Preopening.{ChangesVolume};

    /// Opens the preopened directories of the settings, in order from 3 on, or none.
    pub fn preopen(&mut self) -> Result<(), HostFault>
        requires streams { (n : ℕ) → table_of self.old.descriptors n ≡ streams n }
        requires few { length self.old.settings.preopens.now ≤ MOST_PREOPENS }
        ensures opened { D.honest self.old.volume.device
            → OnOk result (HasPreopens self.old.volume.tree self.old.settings.preopens.now
            (table_of self.new.descriptors)) }
        ensures refused { IfErr result (Refuses D.honest self.old.volume self.new.volume
            self.old.settings.preopens.now) }
        ensures closed { OnErr result ((n : ℕ) → table_of self.new.descriptors n ≡ table_of
            self.old.descriptors n) }
        ensures reads { Asked D.honest D.disk D.size D.failures D.goes_on self.old.volume
            self.new.volume (is_device result) }
        ensures known { KnowsEntries D.honest self.new.volume (table_of self.new.descriptors) }
        ensures others { ChangesVolume self.old self.new }
    {
        let preopens = self.settings.preopens;
        let (volume, descriptors) = (&mut self.volume, &mut self.descriptors);
        open_directories(volume, descriptors, preopens)
    }
}
