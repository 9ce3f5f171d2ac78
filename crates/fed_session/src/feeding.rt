//! Instances whose input goes on.

ghost use Rattle.std.specs.Prelude.{◌≡◌, ◌+◌, ◌^◌, ◌<◌, ℕ, List, IfErr, IfOk, IfSome, None, Some, length, true};
ghost use Rattle.std.specs.Bool.{OnFalse, OnTrue};
ghost use Rattle.wasm_syntax.specs.declared.module.FuncType.{FuncType as FuncTypeValue};
ghost use Rattle.wasm_store.specs.Bytes.{written};
ghost use Rattle.wasm_interp.specs.Invoking.{IsAskedFor, IsAsking};
ghost use Rattle.sandbox_core.specs.Session.{given};
ghost use Rattle.plugin_core.specs.Handling as acts;
ghost use Rattle.plugin_session.specs.Refusals.{RefusesCall, RefusesWrite, not_gone_on_at, not_let_go_at};
ghost use Rattle.plugin_session.specs.Instance.{limited_to, session_of};
ghost use Rattle.fed_input.specs.Feeding.{IsNotFed};
ghost use Rattle.fed_session.specs.Waiting.{deferred_at};
ghost use Rattle.fed_session.specs.Feeding.{Answers, Does, Ends, Feeds, Goes, Invokes, IsRefused, Opens, RefusesAnswerOf, Starves, Waits, around, used_by};

use crate::linking::is_deferred;
use crate::plugin::FedPlugin;
use fed_input::{FedInput, NotFed};
use plugin_session::{Instance, Misuse};
use sandbox_core::{Finished, RefusedParts, of_host, of_instance};
use std::alloc::Global;
use std::marker::Model;
use stream_answers::Outlet;
use vol_sector::Device;
use vol_tree::Volume;
use wasi_calls::{HostParts, RefusedHost, Settings, WasiHost};
use wasm_interp::Event;
use wasm_steps::Pause;
use wasm_store::HostCall;

/// Why an instance came back whose input may go on.
#[derive(Clone, Copy)]
pub enum FedEvent {
    Event(Event),
    /// The guest reads its input, and asks for so many bytes: fewer are there, and more may come. It stands before that read. Hand
    /// some over, or say that no more come, and let it go on.
    Starved(u64),
}

/// An instance of a module with its volume and its streams, whose exported functions are called, and whose input may go on.
#[derive(Drop)]
pub struct FedInstance<'a, 's, 't, D: Device, W1: Outlet, W2: Outlet> {
    instance: Instance<'a, 's, 't, D, FedInput, W1, W2>,
    goes_on: bool,
}

impl<'a, 's, 't, D: Device, W1: Outlet, W2: Outlet> Model for FedInstance<'a, 's, 't, D, W1, W2> {
    ghost use Rattle.fed_session.specs.Feeding.{FedState};

    ghost Value = { FedState D W1 W2 };

    ghost view = { λ i. record { instance = i.instance; goes_on = i.goes_on } };
}

impl<'a, 's, 't, D, W1, W2> FedInstance<'a, 's, 't, D, W1, W2>
where
    D: Device + Drop,
    W1: Outlet + Drop,
    W2: Outlet + Drop,
{
    ghost use Rattle.sandbox_core.specs.Session.{HandsBack, Shares};

    /// An instance of the module, which has used nothing yet, as `Instance::new` of plugin_session makes one. The settings have the
    /// pages that the module was prepared for. A refusal hands everything back, and comes in the same order.
    pub fn new(
        alloc: Global,
        plugin: &FedPlugin<'a>,
        settings: Settings<'s, 't>,
        volume: Volume<D>,
        input: FedInput,
        out: W1,
        err: W2,
    ) -> Result<FedInstance<'a, 's, 't, D, W1, W2>, RefusedParts<'s, 't, D, FedInput, W1, W2>>
        requires { settings.pages ≡ plugin.now.ready.pages }
        ensures opens { IfOk result (λ i. Opens plugin.now.goes_on plugin.now.ready.valid
            (given settings.entry volume input out err) i.instance
            × (i.goes_on ≡ plugin.now.goes_on)) }
        ensures shares { IfOk result (λ i. Shares D.Device
            (given settings.entry volume input out err) (session_of i.instance)) }
        ensures hands_back { IfErr result (λ r. HandsBack D.Device plugin.now.ready.valid
            (given settings.entry volume input out err)
            (record { valid = plugin.now.ready.valid; parts = r.parts; fault = r.fault })) }
        ensures refused { IfErr result (λ r. IsRefused plugin.now.goes_on D.honest r.fault
            plugin.now.ready.valid (given settings.entry volume input out err)) }
    {
        let parts = HostParts {
            settings,
            volume,
            input,
            out,
            err,
        };
        FedInstance::of_parts(alloc, plugin, parts)
    }

    /// The same, of parts that are packed.
    pub fn of_parts(
        alloc: Global,
        plugin: &FedPlugin<'a>,
        parts: HostParts<'s, 't, D, FedInput, W1, W2>,
    ) -> Result<FedInstance<'a, 's, 't, D, W1, W2>, RefusedParts<'s, 't, D, FedInput, W1, W2>>
        requires { parts.settings.pages ≡ plugin.now.ready.pages }
        ensures opens { IfOk result (λ i. Opens plugin.now.goes_on plugin.now.ready.valid
            parts.entry i.instance × (i.goes_on ≡ plugin.now.goes_on)) }
        ensures shares { IfOk result (λ i. Shares D.Device parts.entry (session_of i.instance)) }
        ensures hands_back { IfErr result (λ r. HandsBack D.Device plugin.now.ready.valid parts.entry
            (record { valid = plugin.now.ready.valid; parts = r.parts; fault = r.fault })) }
        ensures refused { IfErr result (λ r. IsRefused plugin.now.goes_on D.honest r.fault
            plugin.now.ready.valid parts.entry) }
    {
        parts.volume.is_a_tree(); // a law for the contract
        let mut host = match WasiHost::new(alloc, parts) {
            Ok(host) => host,
            Err(RefusedHost { parts, fault }) => {
                return Err(RefusedParts {
                    parts,
                    fault: of_host(fault),
                });
            }
        };
        let machine = match plugin.open(alloc) {
            Ok(machine) => machine,
            Err(fault) => {
                return Err(RefusedParts {
                    parts: host.into_parts(),
                    fault: of_instance(fault),
                });
            }
        };
        match host.preopen() {
            Ok(()) => Ok(FedInstance {
                instance: Instance::of(machine, host),
                goes_on: plugin.goes_on,
            }),
            Err(fault) => Err(RefusedParts {
                parts: host.into_parts(),
                fault: of_host(fault),
            }),
        }
    }

    /// What is seen of it.
    pub fn instance(&self) -> &Instance<'a, 's, 't, D, FedInput, W1, W2>
        ensures { result.now ≡ self.now.instance }
    {
        &self.instance
    }

    /// Sets how many values the guest's stack has at most, as `Instance::limit_values` of plugin_session does.
    pub fn limit_values(&mut self, most: usize)
        ensures { self.new ≡ record self.old { instance = limited_to most self.old.instance } }
    {
        self.instance.limit_values(most)
    }

    /// Whether the guest stands before a read that waits.
    fn waits(&self) -> bool
        ensures yes { OnTrue result (Waits self.now) }
        ensures no { OnFalse result ((x : ℕ) (f : FuncTypeValue) (arguments : List ℕ)
            → IsAskedFor self.now.instance.machine x f arguments
            → deferred_at self.now.goes_on self.now.instance.machine.valid x ≡ None) }
    {
        let Some(call) = self.instance.asked() else {
            return false;
        };
        if !self.goes_on {
            return false;
        }
        is_deferred(self.instance.module().module(), call.import)
    }

    /// How many bytes of the input the guest asks for, where fewer are there and more may come.
    fn starves(&mut self) -> Option<u64>
        ensures starves { IfSome result (Starves self.old.instance) }
        ensures kept { self.new ≡ self.old }
    {
        let wanted = self.instance.wanted_input()?;
        let input = self.instance.input();
        let ended = input.has_ended();
        let held = input.held() as u64;
        if ended || wanted <= held {
            return None;
        }
        Some(wanted)
    }

    /// Goes on as `Instance::go` of plugin_session does, or until the guest waits for input.
    pub fn go(&mut self, units: u64) -> Result<FedEvent, Misuse>
        requires { used_by self.old + units < 2 ^ 64 }
        ensures went { IfOk result (Goes
            (around D.Device W1.Write W2.Write W1.took W1.refused W2.took W2.refused) self.old
            self.new units) }
        ensures refused { IfErr result (λ e. (self.new ≡ self.old)
            × (not_gone_on_at self.old.instance.stage ≡ Some e)) }
    {
        let end = self.instance.used() + units;
        let event = self.instance.go_to(units)?;
        let Event::Asked(_) = event else {
            return Ok(FedEvent::Event(event));
        };
        if !self.waits() {
            self.instance.take_ask();
            return Ok(FedEvent::Event(event));
        }
        if self.instance.used() == end {
            return Ok(FedEvent::Event(Event::Paused(Pause::Spent)));
        }
        if let Some(wanted) = self.starves() {
            return Ok(FedEvent::Starved(wanted));
        }
        let errno = self.instance.grant(HostCall::FdRead);
        Ok(FedEvent::Event(Event::Paused(Pause::Called(HostCall::FdRead, errno))))
    }

    /// Hands over bytes of the input.
    pub fn feed(&mut self, alloc: Global, bytes: &[u8]) -> Result<(), NotFed>
        ensures fed { IfOk result (λ _. Feeds self.old.instance self.new.instance bytes.now
            × (self.new.goes_on ≡ self.old.goes_on)) }
        ensures refused { IfErr result (λ e. (self.new ≡ self.old)
            × IsNotFed self.old.instance.host.input.reader e) }
    {
        let mut nothing = FedInput::new(alloc);
        nothing.end();
        let mut input = self.instance.replace_input(nothing);
        let answer = input.feed(bytes);
        let _nothing = self.instance.replace_input(input);
        answer
    }

    /// Says that no more bytes of the input come.
    pub fn end_input(&mut self, alloc: Global)
        ensures ends { Ends self.old.instance self.new.instance }
        ensures same { self.new.goes_on ≡ self.old.goes_on }
    {
        let mut nothing = FedInput::new(alloc);
        nothing.end();
        let mut input = self.instance.replace_input(nothing);
        input.end();
        let _nothing = self.instance.replace_input(input);
    }

    /// Is about to enter the function of the module's own that is exported by this name, as `Instance::invoke` of plugin_session.
    pub fn invoke(&mut self, name: &str, arguments: &[u64]) -> Result<(), Misuse>
        ensures invoked { IfOk result (λ _. Invokes
            (around D.Device W1.Write W2.Write W1.took W1.refused W2.took W2.refused) self.old
            self.new name.now arguments.now) }
        ensures refused { IfErr result (λ e. (self.new ≡ self.old)
            × RefusesCall self.old.instance name.now arguments.now e) }
    {
        self.instance.invoke(name, arguments)
    }

    /// Answers the call of the embedder's function, with its result if it has one. A read is not the embedder's to answer.
    pub fn answer_all(&mut self, results: &[u64]) -> Result<(), Misuse>
        ensures answered { IfOk result (λ _. Answers
            (around D.Device W1.Write W2.Write W1.took W1.refused W2.took W2.refused) self.old
            self.new results.now) }
        ensures refused { IfErr result (λ e. (self.new ≡ self.old)
            × RefusesAnswerOf self.old results.now e) }
    {
        if self.waits() {
            return Err(Misuse::NotAsked);
        }
        self.instance.answer_all(results)
    }

    /// Writes bytes into memory where nothing runs, or where a function of the embedder was called.
    pub fn write(&mut self, address: u32, bytes: &[u8]) -> Result<(), Misuse>
        ensures written { IfOk result (λ _. Does
            (around D.Device W1.Write W2.Write W1.took W1.refused W2.took W2.refused) self.old
            (acts.wrote (written self.old.instance.machine.memory address bytes.now)) self.new) }
        ensures refused { IfErr result (λ e. (self.new ≡ self.old)
            × RefusesWrite self.old.instance address (length bytes.now) e) }
    {
        self.instance.write(address, bytes)
    }

    /// Lets what is at work go, as `Instance::abandon` of plugin_session.
    pub fn abandon(&mut self) -> Result<(), Misuse>
        ensures abandoned { IfOk result (λ _. Does
            (around D.Device W1.Write W2.Write W1.took W1.refused W2.took W2.refused) self.old
            acts.abandoned self.new) }
        ensures refused { IfErr result (λ e. (self.new ≡ self.old)
            × (not_let_go_at self.old.instance.stage ≡ Some e)) }
    {
        self.instance.abandon()
    }
}

impl<'a, 's, 't, D, W1, W2> FedInstance<'a, 's, 't, D, W1, W2>
where
    D: Device + Drop,
    W1: Outlet + Drop,
    W2: Outlet + Drop,
{
    ghost use Rattle.sandbox_core.specs.Session.{Finishes};

    /// Commits all calls of WASI so far, and gives back what `Session::finish` of sandbox_core does. What is at work is let go.
    pub fn finish(self) -> Finished<D, FedInput, W1, W2>
        ensures { Finishes D.Device (session_of self.entry.instance) result }
    {
        let FedInstance {
            instance,
            goes_on: _,
        } = self;
        instance.finish()
    }
}
