//! Files: their sizes, and syncs of the whole volume.

pub mod listing;
pub mod reading;
pub mod writing;

ghost use Rattle.std.specs.Prelude.{true, ◌≡◌};
ghost use Rattle.vol_sector.specs.Disk.{Image};
ghost use Rattle.vol_tree.specs.Stands.{StandsAs};
ghost use Rattle.wasi_fd.specs.Table.{table_of};
ghost use Rattle.wasi_fd.specs.Rights.{bits_of};
ghost use Rattle.wasi_bodies.specs.World.{World};
ghost use Rattle.wasi_bodies.specs.files.Rows.{fd_sync as sync_row, fd_filestat_set_size as set_size_row};
ghost use Rattle.wasi_bodies.specs.Calls.{Answered};
ghost use Rattle.wasi_bodies.specs.host.Worlds.{VolumeStep};
ghost use Rattle.wasi_bodies.specs.internal.Entries.{KnowsEntries, errno_of, with_volume};

use crate::checks::{DescriptorKinds, entry_at};
use crate::errno::refused;
use vol_sector::Device;
use vol_tree::{Serial, Volume};
use wasi_fd::{Descriptors, Fd, Rights};
use wasm_store::Errno;

/// `fd_sync(fd)` and `fd_datasync(fd)`: a sync of the whole volume.
pub fn sync<D: Device>(
    volume: &mut Volume<D>,
    descriptors: &Descriptors<'_>,
    fd: Fd,
    right: Rights,
) -> Result<(), Errno>
    ensures step { VolumeStep D.honest D.disk D.size D.failures D.goes_on volume.old volume.new }
    ensures io { errno_of result ≡ 29 → volume.new.failed ≡ true }
    ensures answered { D.honest volume.old.device → (w : World) (m : _)
        → w.table ≡ table_of descriptors.now → w ≡ with_volume volume.old w
        → Answered (λ v. sync_row v fd (bits_of right)) w m (with_volume volume.new w) m
        (errno_of result) }
    ensures durable { D.honest volume.old.device → errno_of result ≡ 0 → (c : Image)
        → (D.disk volume.new.device).may_leave c → StandsAs c volume.new.numbers volume.new.tree }
{
    if let Err(errno) = entry_at(descriptors, fd, DescriptorKinds::NoStreams, right) {
        return Err(errno);
    }
    match volume.sync() {
        Ok(()) => Ok(()),
        Err(errno) => Err(refused(errno)),
    }
}

/// `fd_filestat_set_size(fd, size)`.
pub fn set_size<D: Device>(
    volume: &mut Volume<D>,
    descriptors: &Descriptors<'_>,
    fd: Fd,
    size: u64,
) -> Result<(), Errno>
    requires { KnowsEntries D.honest volume.old (table_of descriptors.now) }
    ensures step { VolumeStep D.honest D.disk D.size D.failures D.goes_on volume.old volume.new }
    ensures io { errno_of result ≡ 29 → volume.new.failed ≡ true }
    ensures answered { D.honest volume.old.device → (w : World) (m : _)
        → w.table ≡ table_of descriptors.now → w ≡ with_volume volume.old w
        → Answered (λ v. set_size_row v fd size) w m (with_volume volume.new w) m
        (errno_of result) }
{
    match entry_at(
        descriptors,
        fd,
        DescriptorKinds::Sized,
        Rights::FD_FILESTAT_SET_SIZE,
    ) {
        Ok(opened) => match volume.set_size(Serial::new(opened.serial), size) {
            Ok(()) => Ok(()),
            Err(errno) => Err(refused(errno)),
        },
        Err(errno) => Err(errno),
    }
}
