//! The calls on descriptors: closing them, what they are and where they stand.

ghost use Rattle.wasi_fd.specs.Table.{table_of};
ghost use Rattle.wasm_store.specs.declared.call.HostCall.TheVariants as call;

use crate::host::inner::Inner;
use stream_answers::{Inlet, Outlet};
use vol_sector::Device;
use wasi_bodies::arguments::{descriptor, long, word};
use wasi_bodies::descriptors;
use wasi_bodies::descriptors::{positions, stat};
use wasm_store::{Errno, Memory};

impl<'s, 't, D: Device, R: Inlet, W1: Outlet, W2: Outlet> Inner<'s, 't, D, R, W1, W2> {
    ghost use Rattle.wasi_bodies.specs.host.Worlds.{hearing};
    ghost use Rattle.wasi_bodies.specs.internal.Entries.{KnowsEntries, errno_of};
    ghost use Rattle.wasi_calls.specs.internal.Bodies.{IsSetUp, Serves};

    /// `fd_close(fd)`.
    pub fn fd_close(&mut self, arguments: &[u64]) -> Result<(), Errno>
        requires { IsSetUp R.remaining self.old }
        ensures { (m : _) (used : _) → Serves D.honest D.disk D.size D.failures D.goes_on
            R.remaining W1.contents W2.contents (hearing R.gave R.refused W1.took W1.refused W2.took
            W2.refused) call.FdClose used arguments.now self.old m self.new m (errno_of result) }
    {
        descriptors::fd_close(&mut self.descriptors, descriptor(arguments, 0))
    }

    /// `fd_fdstat_get(fd, result)`.
    pub fn fd_fdstat_get(&self, memory: &mut Memory, arguments: &[u64]) -> Result<(), Errno>
        requires { IsSetUp R.remaining self.now }
        ensures { (used : _) → Serves D.honest D.disk D.size D.failures D.goes_on R.remaining
            W1.contents W2.contents (hearing R.gave R.refused W1.took W1.refused W2.took W2.refused)
            call.FdFdstatGet used arguments.now self.now memory.old self.now memory.new
            (errno_of result) }
    {
        let (fd, result_at) = (descriptor(arguments, 0), word(arguments, 1));
        descriptors::fd_fdstat_get(&self.descriptors, self.interactive, memory, fd, result_at)
    }

    /// `fd_filestat_get(fd, result)`.
    pub fn fd_filestat_get(&mut self, memory: &mut Memory, arguments: &[u64]) -> Result<(), Errno>
        requires set_up { IsSetUp R.remaining self.old }
        requires known { KnowsEntries D.honest self.old.volume (table_of self.old.descriptors) }
        ensures { (used : _) → Serves D.honest D.disk D.size D.failures D.goes_on R.remaining
            W1.contents W2.contents (hearing R.gave R.refused W1.took W1.refused W2.took W2.refused)
            call.FdFilestatGet used arguments.now self.old memory.old self.new memory.new
            (errno_of result) }
    {
        let (fd, result_at) = (descriptor(arguments, 0), word(arguments, 1));
        let (descriptors, interactive) = (&self.descriptors, self.interactive);
        stat::filestat_get(
            &mut self.volume,
            descriptors,
            interactive,
            memory,
            fd,
            result_at,
        )
    }

    /// `fd_prestat_get(fd, result)`.
    pub fn fd_prestat_get(&self, memory: &mut Memory, arguments: &[u64]) -> Result<(), Errno>
        requires { IsSetUp R.remaining self.now }
        ensures { (used : _) → Serves D.honest D.disk D.size D.failures D.goes_on R.remaining
            W1.contents W2.contents (hearing R.gave R.refused W1.took W1.refused W2.took W2.refused)
            call.FdPrestatGet used arguments.now self.now memory.old self.now memory.new
            (errno_of result) }
    {
        let (fd, result_at) = (descriptor(arguments, 0), word(arguments, 1));
        descriptors::fd_prestat_get(&self.descriptors, memory, fd, result_at)
    }

    /// `fd_prestat_dir_name(fd, path, length)`.
    pub fn fd_prestat_dir_name(&self, memory: &mut Memory, arguments: &[u64]) -> Result<(), Errno>
        requires { IsSetUp R.remaining self.now }
        ensures { (used : _) → Serves D.honest D.disk D.size D.failures D.goes_on R.remaining
            W1.contents W2.contents (hearing R.gave R.refused W1.took W1.refused W2.took W2.refused)
            call.FdPrestatDirName used arguments.now self.now memory.old self.now memory.new
            (errno_of result) }
    {
        let fd = descriptor(arguments, 0);
        let path = word(arguments, 1);
        let len = word(arguments, 2);
        descriptors::fd_prestat_dir_name(&self.descriptors, memory, fd, path, len)
    }

    /// `fd_seek(fd, delta, whence, result)`.
    pub fn fd_seek(&mut self, memory: &mut Memory, arguments: &[u64]) -> Result<(), Errno>
        requires set_up { IsSetUp R.remaining self.old }
        requires known { KnowsEntries D.honest self.old.volume (table_of self.old.descriptors) }
        ensures { (used : _) → Serves D.honest D.disk D.size D.failures D.goes_on R.remaining
            W1.contents W2.contents (hearing R.gave R.refused W1.took W1.refused W2.took W2.refused)
            call.FdSeek used arguments.now self.old memory.old self.new memory.new
            (errno_of result) }
    {
        let (fd, delta) = (descriptor(arguments, 0), long(arguments, 1));
        let (whence, result_at) = (word(arguments, 2), word(arguments, 3));
        let (volume, descriptors) = (&mut self.volume, &mut self.descriptors);
        positions::fd_seek(volume, descriptors, memory, fd, delta, whence, result_at)
    }

    /// `fd_tell(fd, result)`.
    pub fn fd_tell(&self, memory: &mut Memory, arguments: &[u64]) -> Result<(), Errno>
        requires { IsSetUp R.remaining self.now }
        ensures { (used : _) → Serves D.honest D.disk D.size D.failures D.goes_on R.remaining
            W1.contents W2.contents (hearing R.gave R.refused W1.took W1.refused W2.took W2.refused)
            call.FdTell used arguments.now self.now memory.old self.now memory.new
            (errno_of result) }
    {
        let (fd, result_at) = (descriptor(arguments, 0), word(arguments, 1));
        positions::fd_tell(&self.descriptors, memory, fd, result_at)
    }
}
