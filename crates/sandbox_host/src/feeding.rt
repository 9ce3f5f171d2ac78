//! Input that is handed over while an instance runs.

ghost use Rattle.std.specs.Prelude.{◌≡◌, IfSome, IsSomeAnd, MatchResult, is_none, true};
ghost use Rattle.sandbox_host.specs.Numbers.{not_fed_number};
ghost use Rattle.sandbox_host.specs.Sessions.{bytes_of};
ghost use Rattle.sandbox_host.specs.Instances.{EndsInput, IsFed, living};

use crate::handle::Handle;
use crate::held::HandleContent;
use crate::instance::HostInstance;
use crate::numbers::{MISUSE, OK, not_fed_number};
use std::alloc::Global;

/// Hands bytes of its input to an instance.
fn hand_over(alloc: Global, instance: &mut HostInstance, bytes: &[u8]) -> u32
    ensures { IsFed result instance.old instance.new bytes.now }
{
    match instance.feed(alloc, bytes) {
        Ok(()) => OK,
        Err(refusal) => not_fed_number(refusal),
    }
}

/// Hands over bytes of an instance's input, which are copied, at any time. Of one whose module was loaded by `load_plugin` all input
/// was there at the opening.
pub fn feed(alloc: Global, instance: &mut Handle, bytes: &[u8]) -> u32
    ensures misuse { is_none (living instance.old.held) ≡ true
        → (result ≡ MISUSE) × (instance.new.held ≡ instance.old.held) }
    ensures fed { IfSome (living instance.old.held)
        (λ old. IsSomeAnd (living instance.new.held) (λ new. IsFed result old new bytes.now)) }
    ensures bytes { bytes_of instance.new.held ≡ bytes_of instance.old.held }
{
    let Some(mut held) = instance.take(alloc) else {
        return MISUSE;
    };
    let answer = match &mut *held {
        HandleContent::Instance(living) => hand_over(alloc, &mut living.instance, bytes),
        _ => MISUSE,
    };
    instance.put(held);
    answer
}

/// Says that no more bytes of an instance's input come.
pub fn feed_end(alloc: Global, instance: &mut Handle) -> u32
    ensures misuse { is_none (living instance.old.held) ≡ true
        → (result ≡ MISUSE) × (instance.new.held ≡ instance.old.held) }
    ensures ended { IfSome (living instance.old.held)
        (λ old. (result ≡ OK) × IsSomeAnd (living instance.new.held) (EndsInput old)) }
    ensures bytes { bytes_of instance.new.held ≡ bytes_of instance.old.held }
{
    let Some(mut held) = instance.take(alloc) else {
        return MISUSE;
    };
    let answer = match &mut *held {
        HandleContent::Instance(living) => {
            living.instance.end_input(alloc);
            OK
        }
        _ => MISUSE,
    };
    instance.put(held);
    answer
}
