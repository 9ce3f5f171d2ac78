//! The fields of a host. What holds of them is the invariant of `WasiHost`.

ghost use Rattle.std.specs.Prelude.{◌≡◌, ◌≤◌, IfSome, vec_capacity};
ghost use Rattle.wasi_fd.specs.Table.{table_of};
ghost use Rattle.wasi_bodies.specs.declared.checks.buffers.TheConstants.{MOST_BUFFERS};
ghost use Rattle.wasi_calls.specs.host.Wanting.{WantsInput};

use crate::host::wasi_host::HostParts;
use rand_chacha::ChaCha20Rng;
use vol_sector::Device;
use vol_tree::{MemorySpan, Volume};
use wasi_bodies::checks::buffers::{Request, total_len};
use wasi_bodies::checks::{DescriptorKinds, allowed};
use wasi_bodies::settings::Settings;
use wasi_bodies::streams::{Input, Output, Terminals};
use wasi_fd::{Descriptor, Descriptors, Rights, Stream};
use wasm_store::Memory;

/// The fields of a host, with no invariant: `WasiHost` has it.
#[derive(Drop)]
pub(crate) struct Inner<'s, 't, D: Device, R, W1, W2> {
    pub volume: Volume<D>,
    pub descriptors: Descriptors<'t>,
    pub input: Input<R>,
    pub out: Output<W1>,
    pub err: Output<W2>,
    /// The random bytes are those that are left.
    pub settings: Settings<'s, 't>,
    /// What random bytes come from where the host is seeded.
    pub generator: Option<ChaCha20Rng>,
    /// Which streams are terminals, where reads of the input give what is there.
    pub interactive: Option<Terminals>,
    /// Place for the buffers of a call.
    pub buffers: Vec<MemorySpan>,
    /// Place for the bytes of a call.
    pub piece: Vec<u8>,
}

impl<'s, 't, D: Device, R: Drop, W1: Drop, W2: Drop> Inner<'s, 't, D, R, W1, W2> {
    ghost use Rattle.wasi_calls.specs.host.Making.{parts_of};
    ghost use Rattle.wasi_calls.specs.internal.Bodies.{state_of};

    /// What it was made of, as it is now.
    pub fn into_parts(self) -> HostParts<'s, 't, D, R, W1, W2>
        ensures { result ≡ parts_of (state_of self.entry) }
    {
        let Inner {
            volume,
            descriptors: _,
            input,
            out,
            err,
            settings,
            generator: _,
            interactive: _,
            buffers: _,
            piece: _,
        } = self;
        let Input {
            reader: input,
            failed: _,
            ended: _,
        } = input;
        let Output {
            writer: out,
            failed: _,
        } = out;
        let Output {
            writer: err,
            failed: _,
        } = err;
        HostParts {
            settings,
            volume,
            input,
            out,
            err,
        }
    }
}

impl<'s, 't, D: Device, R, W1, W2> Inner<'s, 't, D, R, W1, W2> {
    /// How many bytes of the input an `fd_read` with these arguments asks for, where it reads that and no check refuses it.
    pub fn wanted_input(&mut self, memory: &Memory, arguments: &[u64]) -> Option<u64>
        requires { MOST_BUFFERS ≤ vec_capacity self.old.buffers }
        ensures wanted { IfSome result (WantsInput (table_of self.old.descriptors) memory.now
            arguments.now) }
        ensures kept { self.new ≡ record self.old { buffers = self.new.buffers } }
        ensures place { MOST_BUFFERS ≤ vec_capacity self.new.buffers }
    {
        let request = Request::new(arguments, 3);
        let takes = DescriptorKinds::NoDirectories;
        let target = match allowed(&self.descriptors, request.fd, takes, Rights::FD_READ) {
            Ok(target) => target,
            Err(_) => return None,
        };
        let Descriptor::Stream(Stream::Input) = target else {
            return None;
        };
        match request.find_buffers(&mut self.buffers, memory) {
            Ok(()) => Some(total_len(self.buffers.as_slice())),
            Err(_) => None,
        }
    }
}
