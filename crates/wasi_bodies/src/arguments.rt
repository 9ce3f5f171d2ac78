//! The arguments of a call.

ghost use Rattle.std.specs.Prelude.{◌≡◌};
ghost use Rattle.wasi_bodies.specs.Calls.{word, long};

use wasi_fd::Fd;

/// An i32 argument; a missing one is 0.
pub fn word(arguments: &[u64], index: usize) -> u32
    ensures { result ≡ word arguments.now index }
{
    (long(arguments, index) % (1 << 32)) as u32
}

/// An argument that is the number of a descriptor; a missing one is 0.
pub fn descriptor(arguments: &[u64], index: usize) -> Fd
    ensures { result ≡ word arguments.now index }
{
    Fd::new(word(arguments, index))
}

/// An i64 argument; a missing one is 0.
pub fn long(arguments: &[u64], index: usize) -> u64
    ensures { result ≡ long arguments.now index }
{
    arguments.get(index).copied().unwrap_or(0)
}
