//! What is done with an instance behind a handle, of either kind.

ghost use Rattle.std.specs.Prelude.{◌≡◌, ◌+◌, ◌^◌, ◌<◌, IfErr, IfOk};
ghost use Rattle.wasm_store.specs.Bytes.{written};
ghost use Rattle.plugin_core.specs.Handling as acts;
ghost use Rattle.sandbox_host.specs.Kinds.{machine_at, used_at};
ghost use Rattle.sandbox_host.specs.Instances.{Answers, Does, EndsInput, Feeds, Goes, Invokes, NoAnswer, NoFeeding, NoGoing, NoLettingGo, NoWrite, RefusesCallOf};

use crate::instance::HostInstance;
use fed_session::{FedEvent, NotFed};
use plugin_session::Misuse;
use std::alloc::Global;

impl HostInstance {
    /// Is about to enter the function that is exported by this name.
    pub(crate) fn invoke(&mut self, name: &str, arguments: &[u64]) -> Result<(), Misuse>
        ensures invoked { IfOk result (λ _. Invokes self.old self.new name.now arguments.now) }
        ensures refused { IfErr result (λ e. (self.new ≡ self.old)
            × RefusesCallOf self.old name.now arguments.now e) }
    {
        match self {
            HostInstance::Plain(plain) => plain.invoke(name, arguments),
            HostInstance::Fed(fed) => fed.invoke(name, arguments),
        }
    }

    /// Goes on for at most this many units.
    pub(crate) fn go(&mut self, units: u64) -> Result<FedEvent, Misuse>
        requires { used_at self.old + units < 2 ^ 64 }
        ensures went { IfOk result (Goes self.old self.new units) }
        ensures refused { IfErr result (λ e. (self.new ≡ self.old) × NoGoing self.old e) }
    {
        match self {
            HostInstance::Plain(plain) => match plain.go(units) {
                Ok(event) => Ok(FedEvent::Event(event)),
                Err(misuse) => Err(misuse),
            },
            HostInstance::Fed(fed) => fed.go(units),
        }
    }

    /// Answers the function of the host that was called.
    pub(crate) fn answer_all(&mut self, results: &[u64]) -> Result<(), Misuse>
        ensures answered { IfOk result (λ _. Answers self.old self.new results.now) }
        ensures refused { IfErr result (λ e. (self.new ≡ self.old)
            × NoAnswer self.old results.now e) }
    {
        match self {
            HostInstance::Plain(plain) => plain.answer_all(results),
            HostInstance::Fed(fed) => fed.answer_all(results),
        }
    }

    /// Writes bytes into memory.
    pub(crate) fn write(&mut self, address: u32, bytes: &[u8]) -> Result<(), Misuse>
        ensures written { IfOk result (λ _. Does self.old
            (acts.wrote (written (machine_at self.old).memory address bytes.now)) self.new) }
        ensures refused { IfErr result (λ e. (self.new ≡ self.old)
            × NoWrite self.old address bytes.now e) }
    {
        match self {
            HostInstance::Plain(plain) => plain.write(address, bytes),
            HostInstance::Fed(fed) => fed.write(address, bytes),
        }
    }

    /// Lets what is at work go.
    pub(crate) fn abandon(&mut self) -> Result<(), Misuse>
        ensures abandoned { IfOk result (λ _. Does self.old acts.abandoned self.new) }
        ensures refused { IfErr result (λ e. (self.new ≡ self.old) × NoLettingGo self.old e) }
    {
        match self {
            HostInstance::Plain(plain) => plain.abandon(),
            HostInstance::Fed(fed) => fed.abandon(),
        }
    }

    /// Hands over bytes of the input.
    pub(crate) fn feed(&mut self, alloc: Global, bytes: &[u8]) -> Result<(), NotFed>
        ensures fed { IfOk result (λ _. Feeds self.old self.new bytes.now) }
        ensures refused { IfErr result (λ e. (self.new ≡ self.old) × NoFeeding self.old e) }
    {
        match self {
            HostInstance::Plain(_) => Err(NotFed::Ended),
            HostInstance::Fed(fed) => fed.feed(alloc, bytes),
        }
    }

    /// Says that no more bytes of the input come.
    pub(crate) fn end_input(&mut self, alloc: Global)
        ensures { EndsInput self.old self.new }
    {
        match self {
            HostInstance::Plain(_) => {}
            HostInstance::Fed(fed) => fed.end_input(alloc),
        }
    }
}
