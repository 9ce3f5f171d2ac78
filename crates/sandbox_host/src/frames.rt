//! Which functions are at work, where they stand, and what they are called.

ghost use Rattle.std.specs.Prelude.{◌≡◌, ◌-◌, ◌^◌, min, None, IfSome, is_none, true, length, slice_get};
ghost use Rattle.wasm_interp.specs.Frames.{frames_of};
ghost use Rattle.wasm_syntax.specs.declared.profile.Profile.{Profile as ProfileValue};
ghost use Rattle.wasm_syntax.specs.Module.{SpellsWith};
ghost use Rattle.sandbox_host.specs.Sessions.{bytes_in, bytes_of, IsShown};
ghost use Rattle.sandbox_host.specs.Frames.{instruction_of, IsOffset, TellsFrame, machine_in, machine_of, name_of, number_name};

use crate::handle::Handle;
use crate::held::HandleContent;
use crate::numbers::{MISUSE, OK};
use crate::showing::show;
use arrayvec::ArrayString;
use itoa::Buffer;
use sandbox_core::{Frame, Valid};
use sandbox_inspect::{ModuleBytes, called};
use std::alloc::Global;

/// No function is at work with so many inside it.
pub const NO_FRAME: u32 = 101;

/// A function at work, as C has it.
#[repr(C)]
#[derive(Clone, Copy)]
pub struct FunctionFrame {
    /// Its index, the imported ones counted first.
    pub function: u32,
    /// Where its instruction begins in the module's bytes.
    pub offset: u32,
}

/// The instruction at which a function stands that goes on with this one: a caller at its call, which is the one before.
fn instruction_of(number: usize, next: usize) -> usize
    ensures { result ≡ instruction_of number next }
{
    if number == 0 {
        next
    } else {
        next.saturating_sub(1)
    }
}

/// A number as four bytes hold it: the largest for those that they don't.
fn in_four_bytes(number: usize) -> u32
    ensures { result ≡ min number (2 ^ 32 - 1) }
{
    u32::try_from(number).unwrap_or(u32::MAX)
}

/// Where the instruction of this index begins, of one of the module's own functions, in bytes from the first of the module.
fn offset_of(
    alloc: Global,
    module: &Valid<'_>,
    bytes: &mut ModuleBytes<'_>,
    own: usize,
    instruction: usize,
) -> u32
    ensures told { (p : ProfileValue) → SpellsWith p bytes.old «module».now
        → IfSome (slice_get «module».now.bodies own) (IsOffset bytes.old own instruction result) }
    ensures kept { bytes.new ≡ bytes.old }
{
    let Some(body) = module.module().bodies.as_slice().get(own) else {
        return 0;
    };
    match bytes.instruction_offset(alloc, own, body, instruction) {
        Some(offset) => in_four_bytes(offset),
        None => 0,
    }
}

/// Tells a function at work that has so many inside it.
fn tell_frame(
    alloc: Global,
    module: &Valid<'_>,
    bytes: &mut ModuleBytes<'_>,
    number: usize,
    frame: Frame,
) -> FunctionFrame
    ensures told { TellsFrame bytes.old «module».now number frame result }
    ensures kept { bytes.new ≡ bytes.old }
{
    let imported = module.module().imports.as_slice().len();
    let index = imported.saturating_add(frame.own);
    let instruction = instruction_of(number, frame.next);
    FunctionFrame {
        function: in_four_bytes(index),
        offset: offset_of(alloc, module, bytes, frame.own, instruction),
    }
}

/// Tells the function at work that has so many inside it, or that there is none.
fn frame_of(
    alloc: Global,
    module: &Valid<'_>,
    bytes: &mut ModuleBytes<'_>,
    number: usize,
    frame: Option<Frame>,
    told: &mut FunctionFrame,
) -> u32
    ensures none { frame ≡ None → (result ≡ 101) × (told.new ≡ told.old) }
    ensures told { IfSome frame (λ frame. (result ≡ 0)
        × TellsFrame bytes.old «module».now number frame told.new) }
    ensures kept { bytes.new ≡ bytes.old }
{
    match frame {
        Some(frame) => {
            *told = tell_frame(alloc, module, bytes, number, frame);
            OK
        }
        None => NO_FRAME,
    }
}

/// Tells the function at work of a session or an instance that isn't finished.
fn frame_in(alloc: Global, held: &mut HandleContent, number: usize, told: &mut FunctionFrame) -> u32
    ensures misuse { is_none (machine_in held.old) ≡ true → (result ≡ 100) × (told.new ≡ told.old) }
    ensures none { IfSome (machine_in held.old)
        (λ m. slice_get (frames_of m) number ≡ None → (result ≡ 101) × (told.new ≡ told.old)) }
    ensures told { IfSome (machine_in held.old)
        (λ m. IfSome (slice_get (frames_of m) number)
        (λ frame. (result ≡ 0) × TellsFrame (bytes_in held.old) m.valid number frame told.new)) }
    ensures kept { held.new ≡ held.old }
{
    match held {
        HandleContent::Running(running) => {
            let frame = running.session.frame(number);
            let module = running.session.module();
            frame_of(alloc, module, &mut running.bytes, number, frame, told)
        }
        HandleContent::Instance(living) => {
            let frame = living.instance.frame(number);
            let module = living.instance.module();
            frame_of(alloc, module, &mut living.bytes, number, frame, told)
        }
        _ => MISUSE,
    }
}

/// Tells the function at work that has so many inside it, 0 the innermost: which it is, and where it stands in the module's bytes,
/// at the instruction that comes next, or at its call. While a session or an instance runs they are those of the run then; of a trap,
/// and out of memory, those that were at work.
pub fn frame_at(alloc: Global, session: &mut Handle, number: usize, told: &mut FunctionFrame) -> u32
    ensures misuse { is_none (machine_of session.old.held) ≡ true → (result ≡ MISUSE)
        × (told.new ≡ told.old) }
    ensures none { IfSome (machine_of session.old.held) (λ m. slice_get (frames_of m) number ≡ None
        → (result ≡ NO_FRAME) × (told.new ≡ told.old)) }
    ensures told { IfSome (machine_of session.old.held)
        (λ m. IfSome (slice_get (frames_of m) number)
        (λ frame. (result ≡ OK) × TellsFrame (bytes_of session.old.held) m.valid number frame
        told.new)) }
    ensures kept { session.new.held ≡ session.old.held }
{
    let Some(mut held) = session.take(alloc) else {
        return MISUSE;
    };
    let answer = frame_in(alloc, &mut held, number, told);
    session.put(held);
    answer
}

/// `function[3]`, for a function without a name.
fn number_name(function: u32) -> ArrayString<20>
    ensures { result.bytes ≡ number_name function }
{
    let mut digits = Buffer::new();
    let mut text = ArrayString::new();
    text.push_str("function[");
    text.push_str(digits.format(function));
    text.push_str("]");
    text
}

/// Copies what a function is called as far as there is room, and says how long it is: its name in the module's section `name`, else
/// that of its first export, else `function[3]` with its index. An empty name is none.
pub fn function_name(module: &[u8], function: u32, room: &mut [u8]) -> usize
    ensures length { result ≡ length (name_of «module».now function) }
    ensures shown { IsShown (name_of «module».now function) room.old room.new }
{
    match called(module, u64::from(function)) {
        Some(name) => {
            show(name, room);
            name.len()
        }
        None => {
            let text = number_name(function);
            let bytes = text.as_str().as_bytes();
            show(bytes, room);
            bytes.len()
        }
    }
}
