//! What is called of an instance.

ghost use Rattle.std.specs.Prelude.{◌≡◌, ◌≢◌, IfSome, IsSomeAnd, MatchResult, is_none, true};
ghost use Rattle.plugin_core.specs.Handling as acts;
ghost use Rattle.sandbox_host.specs.Numbers.{misuse_number};
ghost use Rattle.sandbox_host.specs.Sessions.{bytes_of};
ghost use Rattle.sandbox_host.specs.Instances.{Answered, Answers, Does, Invokes, IsHandedOver, NoAnswer, NoCall, NoGoing, NoLettingGo, Went, living};

use crate::handle::Handle;
use crate::held::HandleContent;
use crate::instance::HostInstance;
use crate::numbers::{MISUSE, OK, Told, misuse_number, told_fed_event};
use crate::showing::show;
use plugin_session::Misuse;
use std::alloc::Global;
use std::str;

/// The number of what a call answered.
pub(crate) fn number_of(answer: Result<(), Misuse>) -> u32
    ensures { MatchResult answer (λ _. result ≡ 0)
        (λ misuse. (result ≡ misuse_number misuse) × (result ≢ 0)) }
{
    match answer {
        Ok(()) => OK,
        Err(misuse) => misuse_number(misuse),
    }
}

/// Is about to enter the function that is exported by this name.
fn enter(instance: &mut HostInstance, name: &[u8], arguments: &[u64]) -> u32
    ensures { Answered result instance.old instance.new
        (Invokes instance.old instance.new name.now arguments.now)
        (NoCall instance.old name.now arguments.now) }
{
    let Ok(name) = str::from_utf8(name) else {
        // a name of a valid module is UTF-8
        return misuse_number(Misuse::NoFunction);
    };
    number_of(instance.invoke(name, arguments))
}

/// Is about to enter the function that is exported by this name, with these arguments. Nothing runs before `go`.
pub fn invoke(alloc: Global, instance: &mut Handle, name: &[u8], arguments: &[u64]) -> u32
    ensures misuse { is_none (living instance.old.held) ≡ true
        → (result ≡ MISUSE) × (instance.new.held ≡ instance.old.held) }
    ensures invoked { IfSome (living instance.old.held)
        (λ old. IsSomeAnd (living instance.new.held)
        (λ new. Answered result old new (Invokes old new name.now arguments.now)
        (NoCall old name.now arguments.now))) }
    ensures bytes { bytes_of instance.new.held ≡ bytes_of instance.old.held }
{
    let Some(mut held) = instance.take(alloc) else {
        return MISUSE;
    };
    let answer = match &mut *held {
        HandleContent::Instance(living) => enter(&mut living.instance, name, arguments),
        _ => MISUSE,
    };
    instance.put(held);
    answer
}

/// Lets an instance go on for at most this many units, and not past 2^64 - 1 in all.
fn go_on(instance: &mut HostInstance, units: u64, told: &mut Told) -> u32
    ensures went { Answered result instance.old instance.new
        (Went units instance.old instance.new told.new) (NoGoing instance.old) }
    ensures refused { result ≢ 0 → told.new ≡ told.old }
{
    let most = units.min(u64::MAX - instance.used());
    match instance.go(most) {
        Ok(event) => {
            *told = told_fed_event(event, instance.used());
            OK
        }
        Err(misuse) => misuse_number(misuse),
    }
}

/// Lets the guest go on for at most this many units: until a call of WASI was answered, a function of the host is called, or what
/// runs returns or ends, and tells which.
pub fn go(alloc: Global, instance: &mut Handle, units: u64, told: &mut Told) -> u32
    ensures misuse { is_none (living instance.old.held) ≡ true
        → (result ≡ MISUSE) × (instance.new.held ≡ instance.old.held) × (told.new ≡ told.old) }
    ensures went { IfSome (living instance.old.held)
        (λ old. IsSomeAnd (living instance.new.held)
        (λ new. Answered result old new (Went units old new told.new) (NoGoing old)
        × (result ≢ 0 → told.new ≡ told.old))) }
    ensures bytes { bytes_of instance.new.held ≡ bytes_of instance.old.held }
{
    let Some(mut held) = instance.take(alloc) else {
        return MISUSE;
    };
    let answer = match &mut *held {
        HandleContent::Instance(living) => go_on(&mut living.instance, units, told),
        _ => MISUSE,
    };
    instance.put(held);
    answer
}

/// Answers with these results.
fn give(instance: &mut HostInstance, results: &[u64]) -> u32
    ensures { Answered result instance.old instance.new
        (Answers instance.old instance.new results.now) (NoAnswer instance.old results.now) }
{
    number_of(instance.answer_all(results))
}

/// Answers the function of the host that was called.
pub fn answer(alloc: Global, instance: &mut Handle, results: &[u64]) -> u32
    ensures misuse { is_none (living instance.old.held) ≡ true
        → (result ≡ MISUSE) × (instance.new.held ≡ instance.old.held) }
    ensures answered { IfSome (living instance.old.held)
        (λ old. IsSomeAnd (living instance.new.held)
        (λ new. Answered result old new (Answers old new results.now) (NoAnswer old results.now))) }
    ensures bytes { bytes_of instance.new.held ≡ bytes_of instance.old.held }
{
    let Some(mut held) = instance.take(alloc) else {
        return MISUSE;
    };
    let answer = match &mut *held {
        HandleContent::Instance(living) => give(&mut living.instance, results),
        _ => MISUSE,
    };
    instance.put(held);
    answer
}

/// Lets what is at work in an instance go.
fn let_go(instance: &mut HostInstance) -> u32
    ensures { Answered result instance.old instance.new
        (Does instance.old acts.abandoned instance.new) (NoLettingGo instance.old) }
{
    number_of(instance.abandon())
}

/// Lets what is at work go.
pub fn abandon(alloc: Global, instance: &mut Handle) -> u32
    ensures misuse { is_none (living instance.old.held) ≡ true
        → (result ≡ MISUSE) × (instance.new.held ≡ instance.old.held) }
    ensures abandoned { IfSome (living instance.old.held)
        (λ old. IsSomeAnd (living instance.new.held)
        (λ new. Answered result old new (Does old acts.abandoned new) (NoLettingGo old))) }
    ensures bytes { bytes_of instance.new.held ≡ bytes_of instance.old.held }
{
    let Some(mut held) = instance.take(alloc) else {
        return MISUSE;
    };
    let answer = match &mut *held {
        HandleContent::Instance(living) => let_go(&mut living.instance),
        _ => MISUSE,
    };
    instance.put(held);
    answer
}

/// Copies what an instance has to hand over: where a function of the host is called its arguments, the first one first; else the
/// result of what has returned last, if it has one. Says how many these are.
fn show_values(instance: &HostInstance, room: &mut [u64]) -> usize
    ensures { IsHandedOver instance.now room.old room.new result }
{
    if let Some(call) = instance.asked() {
        show(call.arguments, room);
        return call.arguments.len();
    }
    let result = instance.result();
    show(result.as_slice(), room);
    result.as_slice().len()
}

/// Copies the arguments of the host's function that is called, or the result of what has returned, as many as there is room for,
/// and says how many there are.
pub fn values(alloc: Global, instance: &mut Handle, room: &mut [u64]) -> usize
    ensures shown { IfSome (living instance.old.held)
        (λ s. IsHandedOver s room.old room.new result) }
    ensures none { is_none (living instance.old.held) ≡ true → (result ≡ 0)
        × (room.new ≡ room.old) }
    ensures kept { instance.new.held ≡ instance.old.held }
{
    let Some(held) = instance.take(alloc) else {
        return 0;
    };
    let count = match &*held {
        HandleContent::Instance(living) => show_values(&living.instance, room),
        _ => 0,
    };
    instance.put(held);
    count
}
