//! The memory of an instance.

ghost use Rattle.std.specs.Prelude.{◌≡◌, ◌≢◌, ◌+◌, ◌<◌, ◌≤◌, ◌⊎◌, IfSome, IsSomeAnd, is_none, true, length};
ghost use Rattle.wasm_store.specs.Bytes.{written};
ghost use Rattle.plugin_core.specs.Handling as acts;
ghost use Rattle.sandbox_host.specs.Kinds.{machine_at};
ghost use Rattle.sandbox_host.specs.Sessions.{bytes_of};
ghost use Rattle.sandbox_host.specs.Instances.{Answered, Does, IsRead, NoWrite, living, memory};

use crate::calling::number_of;
use crate::handle::Handle;
use crate::held::HandleContent;
use crate::instance::HostInstance;
use crate::numbers::{MISUSE, OK, misuse_number};
use plugin_session::Misuse;
use std::alloc::Global;
use wasm_store::Memory;

/// How many bytes an instance's memory has.
pub fn memory_size(alloc: Global, instance: &mut Handle) -> usize
    ensures size { result ≡ length (memory instance.old.held) }
    ensures kept { instance.new.held ≡ instance.old.held }
{
    let Some(held) = instance.take(alloc) else {
        return 0;
    };
    let size = match &*held {
        HandleContent::Instance(living) => living.instance.memory().len(),
        _ => 0,
    };
    instance.put(held);
    size
}

/// Copies the bytes from an address on, as many as there is room for, or none where they would pass the end.
fn read(memory: &Memory, address: u32, room: &mut [u8]) -> u32
    ensures { IsRead memory.now address room.old room.new result }
{
    if memory.read(address as usize, room) {
        OK
    } else {
        misuse_number(Misuse::PastEnd)
    }
}

/// Reads bytes of memory, at any time.
pub fn memory_read(alloc: Global, instance: &mut Handle, address: u32, room: &mut [u8]) -> u32
    ensures misuse { is_none (living instance.old.held) ≡ true → (result ≡ MISUSE)
        × (room.new ≡ room.old) }
    ensures read { IfSome (living instance.old.held)
        (λ s. IsRead (machine_at s).memory address room.old room.new result) }
    ensures kept { instance.new.held ≡ instance.old.held }
{
    let Some(held) = instance.take(alloc) else {
        return MISUSE;
    };
    let answer = match &*held {
        HandleContent::Instance(living) => read(living.instance.memory(), address, room),
        _ => MISUSE,
    };
    instance.put(held);
    answer
}

/// Writes bytes into an instance's memory, where it may be written.
fn store(instance: &mut HostInstance, address: u32, bytes: &[u8]) -> u32
    ensures { Answered result instance.old instance.new
        (Does instance.old (acts.wrote
        (written (machine_at instance.old).memory address bytes.now)) instance.new)
        (NoWrite instance.old address bytes.now) }
{
    number_of(instance.write(address, bytes))
}

/// Writes bytes into memory where nothing runs, or where a function of the host is called, or none where they would pass the end.
pub fn memory_write(alloc: Global, instance: &mut Handle, address: u32, bytes: &[u8]) -> u32
    ensures misuse { is_none (living instance.old.held) ≡ true
        → (result ≡ MISUSE) × (instance.new.held ≡ instance.old.held) }
    ensures written { IfSome (living instance.old.held)
        (λ old. IsSomeAnd (living instance.new.held)
        (λ new. Answered result old new (Does old
        (acts.wrote (written (machine_at old).memory address bytes.now)) new)
        (NoWrite old address bytes.now))) }
    ensures bytes { bytes_of instance.new.held ≡ bytes_of instance.old.held }
{
    let Some(mut held) = instance.take(alloc) else {
        return MISUSE;
    };
    let answer = match &mut *held {
        HandleContent::Instance(living) => store(&mut living.instance, address, bytes),
        _ => MISUSE,
    };
    instance.put(held);
    answer
}
