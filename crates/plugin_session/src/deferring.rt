//! An embedder that leaves some calls of its guest to the instance's own host, and says when it answers them.

ghost use Rattle.std.specs.Prelude.{◌≡◌, ◌≢◌, ◌+◌, ◌^◌, ◌<◌, IfErr, IfOk, IfSome, Some};
ghost use Rattle.wasm_store.specs.declared.call.HostCall.TheVariants.{ProcExit as ProcExitCall};
ghost use Rattle.wasm_interp.specs.Invoking.{IsAsking};
ghost use Rattle.sandbox_core.specs.Devices.{devices};
ghost use Rattle.plugin_core.specs.Handling as acts;
ghost use Rattle.plugin_session.specs.Refusals.{not_gone_on_at};

use crate::handling::{Misuse, may_go};
use crate::instance::Instance;
use plugin_core::Stage;
use stream_answers::{Inlet, Outlet};
use vol_sector::Device;
use wasi_calls::WasiHost;
use wasm_interp::{Event, InvokedMachine};
use wasm_store::{Answer, Errno, HostCall};

impl<'a, 's, 't, D, R, W1, W2> Instance<'a, 's, 't, D, R, W1, W2>
where
    D: Device + Drop,
    R: Inlet + Drop,
    W1: Outlet + Drop,
    W2: Outlet + Drop,
{
    ghost use Rattle.std.specs.Io.KnownBytes.{IsAtEnd};
    ghost use Rattle.std.specs.Prelude.{true};
    ghost use Rattle.plugin_session.specs.Instance.{used_by};
    ghost use Rattle.plugin_session.specs.Deferring.{GivesErrno, GoesTo, Grants, Wants};

    /// An instance over a machine that has just been opened, and its host. Its start function and its `_initialize` are about to
    /// run.
    pub fn of(
        machine: InvokedMachine<'a>,
        host: WasiHost<'s, 't, D, R, W1, W2>,
    ) -> Instance<'a, 's, 't, D, R, W1, W2>
        ensures { result ≡ record {
          machine = machine.entry;
          host = host.entry;
          stage =
              Stage.Opening;
        } }
    {
        Instance {
            machine,
            host,
            stage: Stage::Opening,
        }
    }

    /// Goes on as `go` does. Where a function of the embedder is called the function stays at work: `take_ask` makes it the
    /// embedder's to answer, `grant` lets the host answer it, and else the next call asks again.
    pub fn go_to(&mut self, units: u64) -> Result<Event, Misuse>
        requires { used_by self.old + units < 2 ^ 64 }
        ensures went { IfOk result (GoesTo
            (devices D.Device R.Read W1.Write W2.Write R.gave R.refused W1.took W1.refused W2.took
            W2.refused) self.old self.new units) }
        ensures refused { IfErr result (λ e. (self.new ≡ self.old)
            × (not_gone_on_at self.old.stage ≡ Some e)) }
    {
        may_go(self.stage)?;
        let event = self.machine.go(&mut self.host, units);
        if let Event::Asked(_) = event {
            return Ok(event);
        }
        self.stage = self.stage.after_event(event, self.machine.result());
        Ok(event)
    }

    /// What is asked is the embedder's to answer.
    pub fn take_ask(&mut self)
        ensures { self.new ≡ record self.old { stage = acts.asked_at self.old.stage } }
    {
        self.stage = self.stage.after_ask();
    }

    /// Lets the host answer what is asked.
    pub fn grant(&mut self, call: HostCall) -> Errno
        requires asked { IsAsking self.old.machine }
        requires typed { GivesErrno self.old.machine }
        requires goes_on { call ≢ ProcExitCall }
        ensures { Grants
            (devices D.Device R.Read W1.Write W2.Write R.gave R.refused W1.took W1.refused W2.took
            W2.refused) self.old self.new call result }
    {
        let answer = match self.machine.offer(&mut self.host, call) {
            Some(answer) => answer,
            None => unreachable!(),
        };
        let errno = match answer {
            Answer::Value(errno) => errno,
            Answer::Exit(_) => unreachable!(),
        };
        let number = u32::from(errno.0);
        match self.machine.answer(Some(u64::from(number))) {
            Ok(()) => errno,
            Err(_) => unreachable!(),
        }
    }

    /// How many bytes of the input the call that is asked would read as `fd_read`, where no check refuses it.
    pub fn wanted_input(&mut self) -> Option<u64>
        ensures wanted { IfSome result (Wants self.old) }
        ensures kept { self.new ≡ self.old }
    {
        let call = self.machine.asked()?;
        let memory = self.machine.guest_memory();
        self.host.wanted_input(memory, call.arguments)
    }

    /// The reader of descriptor 0.
    pub fn input(&self) -> &R
        ensures { result.now ≡ self.now.host.input.reader }
    {
        self.host.input()
    }

    /// Gives descriptor 0 another reader, and hands back the one that it had. Once the guest has seen the end of its input, neither
    /// has bytes left that it tells.
    pub fn replace_input(&mut self, reader: R) -> R
        requires { self.old.host.input.ended ≡ true → IsAtEnd (R.remaining reader) }
        ensures replaced { self.new ≡ record self.old {
          host = record self.old.host {
            input =
                record self.old.host.input { reader = reader };
          };
        } }
        ensures before { result ≡ self.old.host.input.reader }
        ensures end { self.old.host.input.ended ≡ true → IsAtEnd (R.remaining result) }
    {
        self.host.replace_input(reader)
    }
}
