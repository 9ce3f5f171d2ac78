//! The calls on supplies, which reach neither the volume nor a stream.

ghost use Rattle.wasm_store.specs.declared.call.HostCall.TheVariants as call;

use crate::host::inner::Inner;
use stream_answers::{Inlet, Outlet};
use vol_sector::Device;
use wasi_bodies::arguments::word;
use wasi_bodies::supplies::{clocks, random, texts};
use wasm_store::{Errno, Memory};

impl<'s, 't, D: Device, R: Inlet, W1: Outlet, W2: Outlet> Inner<'s, 't, D, R, W1, W2> {
    ghost use Rattle.wasi_bodies.specs.host.Worlds.{hearing};
    ghost use Rattle.wasi_bodies.specs.internal.Entries.{errno_of};
    ghost use Rattle.wasi_calls.specs.internal.Bodies.{IsSetUp, Serves};

    /// `clock_res_get(id, result)`.
    pub fn clock_res_get(&self, memory: &mut Memory, arguments: &[u64]) -> Result<(), Errno>
        requires { IsSetUp R.remaining self.now }
        ensures { (used : _) → Serves D.honest D.disk D.size D.failures D.goes_on R.remaining
            W1.contents W2.contents (hearing R.gave R.refused W1.took W1.refused W2.took W2.refused)
            call.ClockResGet used arguments.now self.now memory.old self.now memory.new
            (errno_of result) }
    {
        let (id, result_at) = (word(arguments, 0), word(arguments, 1));
        clocks::clock_res_get(memory, id, result_at)
    }

    /// `clock_time_get(id, precision, result)`.
    pub fn clock_time_get(
        &self,
        memory: &mut Memory,
        used: u64,
        arguments: &[u64],
    ) -> Result<(), Errno>
        requires { IsSetUp R.remaining self.now }
        ensures { Serves D.honest D.disk D.size D.failures D.goes_on R.remaining W1.contents
            W2.contents (hearing R.gave R.refused W1.took W1.refused W2.took W2.refused)
            call.ClockTimeGet used arguments.now self.now memory.old self.now memory.new
            (errno_of result) }
    {
        let (id, result_at) = (word(arguments, 0), word(arguments, 2));
        clocks::clock_time_get(self.settings.moment, memory, used, id, result_at)
    }

    /// `random_get(buffer, length)`.
    pub fn random_get(&mut self, memory: &mut Memory, arguments: &[u64]) -> Result<(), Errno>
        requires { IsSetUp R.remaining self.old }
        ensures { (used : _) → Serves D.honest D.disk D.size D.failures D.goes_on R.remaining
            W1.contents W2.contents (hearing R.gave R.refused W1.took W1.refused W2.took W2.refused)
            call.RandomGet used arguments.now self.old memory.old self.new memory.new
            (errno_of result) }
    {
        let (buffer, len) = (word(arguments, 0), word(arguments, 1));
        let left = &mut self.settings.random;
        random::random_get(&mut self.generator, left, memory, buffer, len)
    }

    /// `args_sizes_get(count, size)`.
    pub fn args_sizes_get(&self, memory: &mut Memory, arguments: &[u64]) -> Result<(), Errno>
        requires { IsSetUp R.remaining self.now }
        ensures { (used : _) → Serves D.honest D.disk D.size D.failures D.goes_on R.remaining
            W1.contents W2.contents (hearing R.gave R.refused W1.took W1.refused W2.took W2.refused)
            call.ArgsSizesGet used arguments.now self.now memory.old self.now memory.new
            (errno_of result) }
    {
        let (count_at, size_at) = (word(arguments, 0), word(arguments, 1));
        texts::sizes_get(self.settings.args, memory, count_at, size_at)
    }

    /// `args_get(pointers, buffer)`.
    pub fn args_get(&self, memory: &mut Memory, arguments: &[u64]) -> Result<(), Errno>
        requires { IsSetUp R.remaining self.now }
        ensures { (used : _) → Serves D.honest D.disk D.size D.failures D.goes_on R.remaining
            W1.contents W2.contents (hearing R.gave R.refused W1.took W1.refused W2.took W2.refused)
            call.ArgsGet used arguments.now self.now memory.old self.now memory.new
            (errno_of result) }
    {
        let (at, buffer) = (word(arguments, 0), word(arguments, 1));
        texts::texts_get(self.settings.args, memory, at, buffer)
    }

    /// `environ_sizes_get(count, size)`.
    pub fn environ_sizes_get(&self, memory: &mut Memory, arguments: &[u64]) -> Result<(), Errno>
        requires { IsSetUp R.remaining self.now }
        ensures { (used : _) → Serves D.honest D.disk D.size D.failures D.goes_on R.remaining
            W1.contents W2.contents (hearing R.gave R.refused W1.took W1.refused W2.took W2.refused)
            call.EnvironSizesGet used arguments.now self.now memory.old self.now memory.new
            (errno_of result) }
    {
        let (count_at, size_at) = (word(arguments, 0), word(arguments, 1));
        texts::sizes_get(self.settings.env, memory, count_at, size_at)
    }

    /// `environ_get(pointers, buffer)`.
    pub fn environ_get(&self, memory: &mut Memory, arguments: &[u64]) -> Result<(), Errno>
        requires { IsSetUp R.remaining self.now }
        ensures { (used : _) → Serves D.honest D.disk D.size D.failures D.goes_on R.remaining
            W1.contents W2.contents (hearing R.gave R.refused W1.took W1.refused W2.took W2.refused)
            call.EnvironGet used arguments.now self.now memory.old self.now memory.new
            (errno_of result) }
    {
        let (at, buffer) = (word(arguments, 0), word(arguments, 1));
        texts::texts_get(self.settings.env, memory, at, buffer)
    }
}
