//! The calls on bytes of files and streams, on lists of directories, and on the whole volume.

ghost use Rattle.std.specs.Prelude.{◌≡◌};
ghost use Rattle.vol_sector.specs.Disk.{Image};
ghost use Rattle.vol_tree.specs.Stands.{StandsAs};
ghost use Rattle.wasi_fd.specs.Table.{table_of};
ghost use Rattle.wasm_store.specs.declared.call.HostCall.TheVariants as call;

use crate::host::inner::Inner;
use stream_answers::{Inlet, Outlet};
use vol_sector::Device;
use wasi_bodies::arguments::{descriptor, long};
use wasi_bodies::checks::buffers::Request;
use wasi_bodies::checks::{DescriptorKinds, allowed};
use wasi_bodies::errno::NOTCAPABLE;
use wasi_bodies::files;
use wasi_bodies::files::listing::ListCall;
use wasi_bodies::files::{listing, reading, writing};
use wasi_bodies::streams::{inputs, outputs};
use wasi_fd::{Descriptor, Rights, Stream};
use wasm_store::{Errno, Memory};

impl<'s, 't, D: Device, R: Inlet, W1: Outlet, W2: Outlet> Inner<'s, 't, D, R, W1, W2> {
    ghost use Rattle.wasi_bodies.specs.host.Worlds.{hearing};
    ghost use Rattle.wasi_bodies.specs.internal.Entries.{KnowsEntries, errno_of};
    ghost use Rattle.wasi_calls.specs.internal.Bodies.{IsSetUp, Serves};

    /// `fd_read(fd, iovs, count, result)`.
    pub fn fd_read(&mut self, memory: &mut Memory, arguments: &[u64]) -> Result<(), Errno>
        requires set_up { IsSetUp R.remaining self.old }
        requires known { KnowsEntries D.honest self.old.volume (table_of self.old.descriptors) }
        ensures { (used : _) → Serves D.honest D.disk D.size D.failures D.goes_on R.remaining
            W1.contents W2.contents (hearing R.gave R.refused W1.took W1.refused W2.took W2.refused)
            call.FdRead used arguments.now self.old memory.old self.new memory.new
            (errno_of result) }
    {
        let request = Request::new(arguments, 3);
        let takes = DescriptorKinds::NoDirectories;
        let target = match allowed(&self.descriptors, request.fd, takes, Rights::FD_READ) {
            Ok(target) => target,
            Err(errno) => return Err(errno),
        };
        if let Err(errno) = request.find_buffers(&mut self.buffers, memory) {
            return Err(errno);
        }
        match target {
            Descriptor::Stream(Stream::Input) => {
                let buffers = self.buffers.as_slice();
                inputs::fill_up(&mut self.piece);
                let piece = self.piece.as_mut_slice();
                let short = self.interactive.is_some();
                let result_at = request.result_at;
                inputs::read_stream(&mut self.input, piece, memory, buffers, result_at, short)
            }
            Descriptor::Stream(Stream::Output) => Err(NOTCAPABLE),
            Descriptor::Stream(Stream::Error) => Err(NOTCAPABLE),
            Descriptor::Entry(opened) => {
                let (volume, descriptors) = (&mut self.volume, &mut self.descriptors);
                let room = self.buffers.as_mut_slice();
                reading::read_file(volume, descriptors, memory, &opened, &request, room)
            }
        }
    }

    /// `fd_pread(fd, iovs, count, offset, result)`.
    pub fn fd_pread(&mut self, memory: &mut Memory, arguments: &[u64]) -> Result<(), Errno>
        requires set_up { IsSetUp R.remaining self.old }
        requires known { KnowsEntries D.honest self.old.volume (table_of self.old.descriptors) }
        ensures { (used : _) → Serves D.honest D.disk D.size D.failures D.goes_on R.remaining
            W1.contents W2.contents (hearing R.gave R.refused W1.took W1.refused W2.took W2.refused)
            call.FdPread used arguments.now self.old memory.old self.new memory.new
            (errno_of result) }
    {
        let request = Request::new(arguments, 4);
        let offset = long(arguments, 3);
        let opened = match reading::file_to_read(&self.descriptors, request.fd) {
            Ok(opened) => opened,
            Err(errno) => return Err(errno),
        };
        if let Err(errno) = request.find_buffers(&mut self.buffers, memory) {
            return Err(errno);
        }
        let room = self.buffers.as_mut_slice();
        let volume = &mut self.volume;
        reading::read_placed(volume, memory, &opened, offset, &request, room)
    }

    /// `fd_write(fd, iovs, count, result)`.
    pub fn fd_write(&mut self, memory: &mut Memory, arguments: &[u64]) -> Result<(), Errno>
        requires set_up { IsSetUp R.remaining self.old }
        requires known { KnowsEntries D.honest self.old.volume (table_of self.old.descriptors) }
        ensures { (used : _) → Serves D.honest D.disk D.size D.failures D.goes_on R.remaining
            W1.contents W2.contents (hearing R.gave R.refused W1.took W1.refused W2.took W2.refused)
            call.FdWrite used arguments.now self.old memory.old self.new memory.new
            (errno_of result) }
    {
        let request = Request::new(arguments, 3);
        let takes = DescriptorKinds::NoDirectories;
        let target = match allowed(&self.descriptors, request.fd, takes, Rights::FD_WRITE) {
            Ok(target) => target,
            Err(errno) => return Err(errno),
        };
        if let Err(errno) = request.find_buffers(&mut self.buffers, memory) {
            return Err(errno);
        }
        let buffers = self.buffers.as_slice();
        match target {
            Descriptor::Stream(Stream::Input) => Err(NOTCAPABLE),
            Descriptor::Stream(Stream::Output) => {
                outputs::write_stream(&mut self.out, memory, buffers, request.result_at)
            }
            Descriptor::Stream(Stream::Error) => {
                outputs::write_stream(&mut self.err, memory, buffers, request.result_at)
            }
            Descriptor::Entry(opened) => {
                let (volume, descriptors) = (&mut self.volume, &mut self.descriptors);
                writing::write_file(volume, descriptors, memory, &opened, &request, buffers)
            }
        }
    }

    /// `fd_pwrite(fd, iovs, count, offset, result)`.
    pub fn fd_pwrite(&mut self, memory: &mut Memory, arguments: &[u64]) -> Result<(), Errno>
        requires set_up { IsSetUp R.remaining self.old }
        requires known { KnowsEntries D.honest self.old.volume (table_of self.old.descriptors) }
        ensures { (used : _) → Serves D.honest D.disk D.size D.failures D.goes_on R.remaining
            W1.contents W2.contents (hearing R.gave R.refused W1.took W1.refused W2.took W2.refused)
            call.FdPwrite used arguments.now self.old memory.old self.new memory.new
            (errno_of result) }
    {
        let request = Request::new(arguments, 4);
        let offset = long(arguments, 3);
        let opened = match writing::file_to_write(&self.descriptors, request.fd) {
            Ok(opened) => opened,
            Err(errno) => return Err(errno),
        };
        if let Err(errno) = request.find_buffers(&mut self.buffers, memory) {
            return Err(errno);
        }
        let buffers = self.buffers.as_slice();
        let volume = &mut self.volume;
        writing::write_at(volume, memory, &opened, offset, buffers, request.result_at)
    }

    /// `fd_filestat_set_size(fd, size)`.
    pub fn fd_filestat_set_size(&mut self, arguments: &[u64]) -> Result<(), Errno>
        requires set_up { IsSetUp R.remaining self.old }
        requires known { KnowsEntries D.honest self.old.volume (table_of self.old.descriptors) }
        ensures { (m : _) (used : _) → Serves D.honest D.disk D.size D.failures D.goes_on
            R.remaining W1.contents W2.contents (hearing R.gave R.refused W1.took W1.refused W2.took
            W2.refused) call.FdFilestatSetSize used arguments.now self.old m self.new m
            (errno_of result) }
    {
        let fd = descriptor(arguments, 0);
        let size = long(arguments, 1);
        files::set_size(&mut self.volume, &self.descriptors, fd, size)
    }

    /// `fd_sync(fd)`.
    pub fn fd_sync(&mut self, arguments: &[u64]) -> Result<(), Errno>
        requires { IsSetUp R.remaining self.old }
        ensures serves { (m : _) (used : _) → Serves D.honest D.disk D.size D.failures D.goes_on
            R.remaining W1.contents W2.contents (hearing R.gave R.refused W1.took W1.refused W2.took
            W2.refused) call.FdSync used arguments.now self.old m self.new m (errno_of result) }
        ensures durable { D.honest self.old.volume.device → errno_of result ≡ 0 → (c : Image)
            → (D.disk self.new.volume.device).may_leave c
            → StandsAs c self.new.volume.numbers self.new.volume.tree }
    {
        let fd = descriptor(arguments, 0);
        files::sync(&mut self.volume, &self.descriptors, fd, Rights::FD_SYNC)
    }

    /// `fd_datasync(fd)`.
    pub fn fd_datasync(&mut self, arguments: &[u64]) -> Result<(), Errno>
        requires { IsSetUp R.remaining self.old }
        ensures serves { (m : _) (used : _) → Serves D.honest D.disk D.size D.failures D.goes_on
            R.remaining W1.contents W2.contents (hearing R.gave R.refused W1.took W1.refused W2.took
            W2.refused) call.FdDatasync used arguments.now self.old m self.new m (errno_of result) }
        ensures durable { D.honest self.old.volume.device → errno_of result ≡ 0 → (c : Image)
            → (D.disk self.new.volume.device).may_leave c
            → StandsAs c self.new.volume.numbers self.new.volume.tree }
    {
        let fd = descriptor(arguments, 0);
        files::sync(&mut self.volume, &self.descriptors, fd, Rights::FD_DATASYNC)
    }

    /// `fd_readdir(fd, buffer, length, cookie, used)`.
    pub fn fd_readdir(&mut self, memory: &mut Memory, arguments: &[u64]) -> Result<(), Errno>
        requires set_up { IsSetUp R.remaining self.old }
        requires known { KnowsEntries D.honest self.old.volume (table_of self.old.descriptors) }
        ensures { (used : _) → Serves D.honest D.disk D.size D.failures D.goes_on R.remaining
            W1.contents W2.contents (hearing R.gave R.refused W1.took W1.refused W2.took W2.refused)
            call.FdReaddir used arguments.now self.old memory.old self.new memory.new
            (errno_of result) }
    {
        let asked = ListCall::read(arguments);
        listing::fd_readdir(&mut self.volume, &self.descriptors, memory, &asked)
    }
}
