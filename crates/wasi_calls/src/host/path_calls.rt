//! The calls on paths.

ghost use Rattle.wasi_fd.specs.Table.{table_of};
ghost use Rattle.wasm_store.specs.declared.call.HostCall.TheVariants as call;

use crate::host::inner::Inner;
use stream_answers::{Inlet, Outlet};
use vol_inode::Kind;
use vol_sector::Device;
use wasi_bodies::arguments::{descriptor, word};
use wasi_fd::Rights;
use wasi_paths::paths;
use wasi_paths::paths::opening::OpenCall;
use wasi_paths::paths::renaming::RenameCall;
use wasi_paths::paths::{opening, removing, renaming};
use wasm_store::{Errno, Memory};

impl<'s, 't, D: Device, R: Inlet, W1: Outlet, W2: Outlet> Inner<'s, 't, D, R, W1, W2> {
    ghost use Rattle.wasi_bodies.specs.host.Worlds.{hearing};
    ghost use Rattle.wasi_bodies.specs.internal.Entries.{KnowsEntries, errno_of};
    ghost use Rattle.wasi_calls.specs.internal.Bodies.{IsSetUp, Serves};

    /// `path_create_directory(fd, path, length)`.
    pub fn path_create_directory(
        &mut self,
        memory: &mut Memory,
        arguments: &[u64],
    ) -> Result<(), Errno>
        requires set_up { IsSetUp R.remaining self.old }
        requires known { KnowsEntries D.honest self.old.volume (table_of self.old.descriptors) }
        ensures { (used : _) → Serves D.honest D.disk D.size D.failures D.goes_on R.remaining
            W1.contents W2.contents (hearing R.gave R.refused W1.took W1.refused W2.took W2.refused)
            call.PathCreateDirectory used arguments.now self.old memory.old self.new memory.new
            (errno_of result) }
    {
        let fd = descriptor(arguments, 0);
        let (path, len) = (word(arguments, 1), word(arguments, 2));
        paths::path_create_directory(&mut self.volume, &self.descriptors, memory, fd, path, len)
    }

    /// `path_filestat_get(fd, flags, path, length, result)`.
    pub fn path_filestat_get(&mut self, memory: &mut Memory, arguments: &[u64]) -> Result<(), Errno>
        requires set_up { IsSetUp R.remaining self.old }
        requires known { KnowsEntries D.honest self.old.volume (table_of self.old.descriptors) }
        ensures { (used : _) → Serves D.honest D.disk D.size D.failures D.goes_on R.remaining
            W1.contents W2.contents (hearing R.gave R.refused W1.took W1.refused W2.took W2.refused)
            call.PathFilestatGet used arguments.now self.old memory.old self.new memory.new
            (errno_of result) }
    {
        let (fd, path) = (descriptor(arguments, 0), word(arguments, 2));
        let (len, result_at) = (word(arguments, 3), word(arguments, 4));
        let volume = &mut self.volume;
        paths::path_filestat_get(volume, &self.descriptors, memory, fd, path, len, result_at)
    }

    /// `path_open(fd, flags, path, length, oflags, base, inheriting, fdflags, result)`.
    pub fn path_open(&mut self, memory: &mut Memory, arguments: &[u64]) -> Result<(), Errno>
        requires set_up { IsSetUp R.remaining self.old }
        requires known { KnowsEntries D.honest self.old.volume (table_of self.old.descriptors) }
        ensures { (used : _) → Serves D.honest D.disk D.size D.failures D.goes_on R.remaining
            W1.contents W2.contents (hearing R.gave R.refused W1.took W1.refused W2.took W2.refused)
            call.PathOpen used arguments.now self.old memory.old self.new memory.new
            (errno_of result) }
    {
        let asked = OpenCall::read(arguments);
        opening::path_open(&mut self.volume, &mut self.descriptors, memory, &asked)
    }

    /// `path_remove_directory(fd, path, length)`.
    pub fn path_remove_directory(
        &mut self,
        memory: &mut Memory,
        arguments: &[u64],
    ) -> Result<(), Errno>
        requires set_up { IsSetUp R.remaining self.old }
        requires known { KnowsEntries D.honest self.old.volume (table_of self.old.descriptors) }
        ensures { (used : _) → Serves D.honest D.disk D.size D.failures D.goes_on R.remaining
            W1.contents W2.contents (hearing R.gave R.refused W1.took W1.refused W2.took W2.refused)
            call.PathRemoveDirectory used arguments.now self.old memory.old self.new memory.new
            (errno_of result) }
    {
        let fd = descriptor(arguments, 0);
        let (path, len) = (word(arguments, 1), word(arguments, 2));
        let (right, kind) = (Rights::PATH_REMOVE_DIRECTORY, Kind::Directory);
        let (volume, descriptors) = (&mut self.volume, &self.descriptors);
        removing::remove(volume, descriptors, memory, fd, path, len, right, kind)
    }

    /// `path_rename(fd, path, length, fd, path, length)`.
    pub fn path_rename(&mut self, memory: &mut Memory, arguments: &[u64]) -> Result<(), Errno>
        requires set_up { IsSetUp R.remaining self.old }
        requires known { KnowsEntries D.honest self.old.volume (table_of self.old.descriptors) }
        ensures { (used : _) → Serves D.honest D.disk D.size D.failures D.goes_on R.remaining
            W1.contents W2.contents (hearing R.gave R.refused W1.took W1.refused W2.took W2.refused)
            call.PathRename used arguments.now self.old memory.old self.new memory.new
            (errno_of result) }
    {
        let asked = RenameCall::read(arguments);
        renaming::path_rename(&mut self.volume, &self.descriptors, memory, &asked)
    }

    /// `path_unlink_file(fd, path, length)`.
    pub fn path_unlink_file(&mut self, memory: &mut Memory, arguments: &[u64]) -> Result<(), Errno>
        requires set_up { IsSetUp R.remaining self.old }
        requires known { KnowsEntries D.honest self.old.volume (table_of self.old.descriptors) }
        ensures { (used : _) → Serves D.honest D.disk D.size D.failures D.goes_on R.remaining
            W1.contents W2.contents (hearing R.gave R.refused W1.took W1.refused W2.took W2.refused)
            call.PathUnlinkFile used arguments.now self.old memory.old self.new memory.new
            (errno_of result) }
    {
        let fd = descriptor(arguments, 0);
        let (path, len) = (word(arguments, 1), word(arguments, 2));
        let (right, kind) = (Rights::PATH_UNLINK_FILE, Kind::File);
        let (volume, descriptors) = (&mut self.volume, &self.descriptors);
        removing::remove(volume, descriptors, memory, fd, path, len, right, kind)
    }
}
