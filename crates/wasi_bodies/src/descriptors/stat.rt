//! What is told of files, directories and streams (`filestat`).

ghost use Rattle.std.specs.Prelude.{true, ◌≡◌, ◌≤◌, IsSome, IsTrue};
ghost use Rattle.vol_sector.specs.Disk.{Leaves};
ghost use Rattle.vol_tree.specs.Tree.{entry};
ghost use Rattle.vol_tree.specs.Clauses.{Tells, is_io};
ghost use Rattle.vol_tree.specs.Opened.{Keeps, GoesOn};
ghost use Rattle.wasi_bodies.specs.descriptors.Rows.{filestat, entry_stat, type_of_stream, fd_filestat_get as stat_row};
ghost use Rattle.wasi_fd.specs.Table.{table_of};
ghost use Rattle.wasi_bodies.specs.World.{World};
ghost use Rattle.wasi_bodies.specs.Calls.{Answered, is_entry};
ghost use Rattle.wasi_bodies.specs.host.Worlds.{VolumeStep};
ghost use Rattle.wasi_bodies.specs.internal.Entries.{KnowsEntries, errno_of, with_volume, type_of_entry};

use crate::checks::{DescriptorKinds, allowed, check_range, write_bytes};
use crate::errno::refused;
use crate::numbers::le64;
use crate::streams::Terminals;
use vol_inode::Kind;
use vol_sector::Device;
use vol_tree::{Serial, Volume};
use wasi_fd::{Descriptor, Descriptors, Fd, Rights, Stream};
use wasm_store::{Errno, Memory};

/// `filestat`: the inode at 8, which is an entry's serial or 0 of a stream, the type at 16, one link at 24 and the size at 32.
fn filestat(inode: u32, file_type: u8, size: u32) -> [u8; 64]
    ensures { result ≡ filestat inode file_type size }
{
    let mut bytes = [0; 64];
    bytes[8..16].copy_from_slice(&le64(u64::from(inode)));
    bytes[16] = file_type;
    bytes[24..32].copy_from_slice(&le64(1));
    bytes[32..40].copy_from_slice(&le64(u64::from(size)));
    bytes
}

/// The `filetype` of an entry.
pub fn type_of_entry(kind: Kind) -> u8
    ensures { result ≡ type_of_entry kind }
{
    match kind {
        Kind::Directory => 3,
        Kind::File => 4,
    }
}

/// The `filetype` of a stream: a character device. In an interactive run a terminal is one, and what any other stream is isn't told.
pub fn type_of_stream(stream: Stream, interactive: Option<Terminals>) -> u8
    ensures { result ≡ type_of_stream interactive stream }
{
    match interactive {
        None => 2,
        Some(terminals) => { if terminals.has(stream) { 2 } else { 0 } }
    }
}

/// What is told of an entry.
pub fn stat_entry<D: Device>(
    volume: &mut Volume<D>,
    serial: Serial,
) -> Result<[u8; 64], vol_tree::Errno>
    requires first { 1 ≤ serial }
    requires last { serial ≤ volume.old.numbers.slots }
    requires used { D.honest volume.old.device → IsSome (entry volume.old.tree serial) }
    ensures answer { D.honest volume.old.device
        → Tells (entry_stat volume.old.tree serial) volume.old.tree volume.new.tree result }
    ensures crash { D.honest volume.old.device
        → Leaves (D.disk volume.old.device) (D.disk volume.new.device) (λ c. ⊥) }
    ensures kept { Keeps D.honest D.size D.failures volume.old volume.new (is_io result) }
    ensures goes_on { GoesOn D.goes_on volume.old volume.new }
{
    match volume.stat(serial) {
        Ok(stat) => Ok(filestat(serial.number(), type_of_entry(stat.kind), stat.size)),
        Err(errno) => Err(errno),
    }
}

/// `fd_filestat_get(fd, result)`.
pub fn filestat_get<D: Device>(
    volume: &mut Volume<D>,
    descriptors: &Descriptors<'_>,
    interactive: Option<Terminals>,
    memory: &mut Memory,
    fd: Fd,
    result_at: u32,
) -> Result<(), Errno>
    requires { KnowsEntries D.honest volume.old (table_of descriptors.now) }
    ensures step { VolumeStep D.honest D.disk D.size D.failures D.goes_on volume.old volume.new }
    ensures io { errno_of result ≡ 29 → volume.new.failed ≡ true }
    ensures answered { (IsTrue (is_entry (table_of descriptors.now fd))
        → D.honest volume.old.device) → (w : World) → w.table ≡ table_of descriptors.now
        → w ≡ with_volume volume.old w → w.interactive ≡ interactive
        → Answered (λ v. stat_row v memory.old fd result_at) w memory.old (with_volume volume.new w)
        memory.new (errno_of result) }
{
    let descriptor = match allowed(
        descriptors,
        fd,
        DescriptorKinds::Any,
        Rights::FD_FILESTAT_GET,
    ) {
        Ok(descriptor) => descriptor,
        Err(errno) => return Err(errno),
    };
    if let Err(errno) = check_range(memory, result_at, 64) {
        return Err(errno);
    }
    match descriptor {
        Descriptor::Stream(stream) => {
            let bytes = filestat(0, type_of_stream(stream, interactive), 0);
            write_bytes(memory, result_at, &bytes);
            Ok(())
        }
        Descriptor::Entry(opened) => match stat_entry(volume, Serial::new(opened.serial)) {
            Ok(bytes) => {
                write_bytes(memory, result_at, &bytes);
                Ok(())
            }
            Err(errno) => Err(refused(errno)),
        },
    }
}
