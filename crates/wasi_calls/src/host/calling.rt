//! Each call by its name.
ghost use Rattle.wasi_fd.specs.Table.{table_of};
ghost use Rattle.wasm_store.specs.declared.call.HostCall.TheVariants as call;
ghost use Rattle.wasi_bodies.specs.laws.Moments.{IsSynced};

use crate::host::inner::Inner;
use stream_answers::{Inlet, Outlet};
use vol_sector::Device;
use wasi_bodies::errno::NOSYS;
use wasm_store::{Errno, HostCall, Memory};

impl<'s, 't, D: Device, R: Inlet, W1: Outlet, W2: Outlet> Inner<'s, 't, D, R, W1, W2> {
    ghost use Rattle.wasi_bodies.specs.host.Worlds.{hearing};
    ghost use Rattle.wasi_bodies.specs.internal.Entries.{KnowsEntries, errno_of};
    ghost use Rattle.wasi_calls.specs.internal.Bodies.{IsSetUp, Serves};

    /// A call that is linked, and answers that there is none such.
    fn nosys(&self) -> Result<(), Errno>
        requires { IsSetUp R.remaining self.now }
        ensures { (m : _) (used : _) (arguments : _)
            → Serves D.honest D.disk D.size D.failures D.goes_on R.remaining W1.contents W2.contents
            (hearing R.gave R.refused W1.took W1.refused W2.took W2.refused) call.Nosys used
            arguments self.now m self.now m (errno_of result) }
    {
        Err(NOSYS)
    }

    /// Answers a call that doesn't end the guest.
    pub fn answer(
        &mut self,
        memory: &mut Memory,
        used: u64,
        call: HostCall,
        arguments: &[u64],
    ) -> Result<(), Errno>
        requires set_up { IsSetUp R.remaining self.old }
        requires known { KnowsEntries D.honest self.old.volume (table_of self.old.descriptors) }
        ensures serves { Serves D.honest D.disk D.size D.failures D.goes_on R.remaining W1.contents
            W2.contents (hearing R.gave R.refused W1.took W1.refused W2.took W2.refused) call used
            arguments.now self.old memory.old self.new memory.new (errno_of result) }
        ensures synced { D.honest self.old.volume.device
            → IsSynced call (errno_of result) (D.disk self.new.volume.device)
            self.new.volume.numbers self.new.volume.tree }
    {
        match call {
            HostCall::ArgsSizesGet => self.args_sizes_get(memory, arguments),
            HostCall::ArgsGet => self.args_get(memory, arguments),
            HostCall::EnvironSizesGet => self.environ_sizes_get(memory, arguments),
            HostCall::EnvironGet => self.environ_get(memory, arguments),
            HostCall::ClockResGet => self.clock_res_get(memory, arguments),
            HostCall::ClockTimeGet => self.clock_time_get(memory, used, arguments),
            HostCall::RandomGet => self.random_get(memory, arguments),
            HostCall::FdClose => self.fd_close(arguments),
            HostCall::FdFdstatGet => self.fd_fdstat_get(memory, arguments),
            HostCall::FdFilestatGet => self.fd_filestat_get(memory, arguments),
            HostCall::FdFilestatSetSize => self.fd_filestat_set_size(arguments),
            HostCall::FdPrestatGet => self.fd_prestat_get(memory, arguments),
            HostCall::FdPrestatDirName => self.fd_prestat_dir_name(memory, arguments),
            HostCall::FdRead => self.fd_read(memory, arguments),
            HostCall::FdPread => self.fd_pread(memory, arguments),
            HostCall::FdWrite => self.fd_write(memory, arguments),
            HostCall::FdPwrite => self.fd_pwrite(memory, arguments),
            HostCall::FdSeek => self.fd_seek(memory, arguments),
            HostCall::FdTell => self.fd_tell(memory, arguments),
            HostCall::FdSync => self.fd_sync(arguments),
            HostCall::FdDatasync => self.fd_datasync(arguments),
            HostCall::FdReaddir => self.fd_readdir(memory, arguments),
            HostCall::PathCreateDirectory => self.path_create_directory(memory, arguments),
            HostCall::PathFilestatGet => self.path_filestat_get(memory, arguments),
            HostCall::PathOpen => self.path_open(memory, arguments),
            HostCall::PathRemoveDirectory => self.path_remove_directory(memory, arguments),
            HostCall::PathRename => self.path_rename(memory, arguments),
            HostCall::PathUnlinkFile => self.path_unlink_file(memory, arguments),
            HostCall::Nosys | HostCall::ProcExit => self.nosys(),
        }
    }
}
