//! What is done with an instance.

ghost use Rattle.std.specs.Prelude.{◌≡◌, ℕ, ◌+◌, ◌^◌, ◌<◌, IfOk, IfErr, IfSome, IfNone, MatchResult, Contains, length, None, Some};
ghost use Rattle.std.specs.Option.{option_to_list};
ghost use Rattle.wasm_syntax.specs.declared.module.ExportKind.TheVariants as exports;
ghost use Rattle.wasm_store.specs.Bytes.{written};
ghost use Rattle.sandbox_core.specs.Devices.{devices};
ghost use Rattle.plugin_core.specs.Handling as acts;
ghost use Rattle.plugin_session.specs.Refusals.{RefusesAnswer, RefusesCall, RefusesWrite, not_answered_at, not_gone_on_at, not_invoked_at, not_let_go_at, not_written_at};

use crate::instance::Instance;
use plugin_core::Stage;
use stream_answers::{Inlet, Outlet};
use vol_sector::Device;
use wasm_interp::{Event, NotAnswered, NotInvoked, NotWritten};
use wasm_module::{Export, ExportKind, Module};

/// Why an instance doesn't do what it is told. It is as it was.
#[derive(Clone, Copy, Debug, PartialEq, Eq)]
pub enum Misuse {
    /// Nothing runs: a function is to be called first.
    Idle,
    /// A function is at work.
    AtWork,
    /// A function of the embedder was called: it is to be answered first.
    Asked,
    /// No function of the embedder was called.
    NotAsked,
    /// The function that was called has trapped, or was refused memory: it is to be abandoned first.
    Stopped,
    /// The opening didn't return, or a function called `proc_exit`.
    Over,
    /// The module exports no function of its own by this name, or it takes more than `MOST_ARGUMENTS`.
    NoFunction,
    /// It takes or gives another number of values, or one of them isn't of its type.
    Mistyped,
    /// The bytes would pass the end of memory.
    PastEnd,
}

/// Whether a function may be called at this stage, or why not.
fn may_invoke(stage: Stage) -> Result<(), Misuse>
    ensures may { MatchResult result (λ _. acts.Rests stage) (λ _. acts.Rests stage → ⊥) }
    ensures told { MatchResult result (λ _. not_invoked_at stage ≡ None)
        (λ e. not_invoked_at stage ≡ Some e) }
{
    match stage {
        Stage::Ready | Stage::Stopped => Ok(()),
        Stage::Asked | Stage::AskedOpening => Err(Misuse::Asked),
        Stage::Running | Stage::Opening => Err(Misuse::AtWork),
        Stage::Over => Err(Misuse::Over),
    }
}

/// Whether the machine may go on at this stage, or why not.
pub(crate) fn may_go(stage: Stage) -> Result<(), Misuse>
    ensures may { MatchResult result (λ _. acts.Goes stage) (λ _. acts.Goes stage → ⊥) }
    ensures told { MatchResult result (λ _. not_gone_on_at stage ≡ None)
        (λ e. not_gone_on_at stage ≡ Some e) }
{
    match stage {
        Stage::Running | Stage::Opening => Ok(()),
        Stage::Asked | Stage::AskedOpening => Err(Misuse::Asked),
        Stage::Ready | Stage::Stopped => Err(Misuse::Idle),
        Stage::Over => Err(Misuse::Over),
    }
}

/// Whether the embedder may answer at this stage, or why not.
fn may_answer(stage: Stage) -> Result<(), Misuse>
    ensures may { MatchResult result (λ _. acts.Asks stage) (λ _. acts.Asks stage → ⊥) }
    ensures told { MatchResult result (λ _. not_answered_at stage ≡ None)
        (λ e. not_answered_at stage ≡ Some e) }
{
    match stage {
        Stage::Asked | Stage::AskedOpening => Ok(()),
        Stage::Over => Err(Misuse::Over),
        Stage::Running | Stage::Opening | Stage::Ready | Stage::Stopped => Err(Misuse::NotAsked),
    }
}

/// Whether memory may be written at this stage, or why not.
fn may_write(stage: Stage) -> Result<(), Misuse>
    ensures may { MatchResult result (λ _. acts.IsWritable stage) (λ _. acts.IsWritable stage → ⊥) }
    ensures told { MatchResult result (λ _. not_written_at stage ≡ None)
        (λ e. not_written_at stage ≡ Some e) }
{
    match stage {
        Stage::Ready | Stage::Asked | Stage::AskedOpening => Ok(()),
        Stage::Running | Stage::Opening => Err(Misuse::AtWork),
        Stage::Stopped => Err(Misuse::Stopped),
        Stage::Over => Err(Misuse::Over),
    }
}

/// Whether what is at work may be let go at this stage, or why not.
fn may_abandon(stage: Stage) -> Result<(), Misuse>
    ensures may { MatchResult result (λ _. acts.IsOpen stage) (λ _. acts.IsOpen stage → ⊥) }
    ensures told { MatchResult result (λ _. not_let_go_at stage ≡ None)
        (λ e. not_let_go_at stage ≡ Some e) }
{
    if let Stage::Over = stage {
        return Err(Misuse::Over);
    }
    Ok(())
}

/// The function of this export, if it has this name.
fn named_function(export: &Export, name: &str) -> Option<u32>
    ensures found { IfSome result (λ x. export.now
        ≡ record { name = name.now; kind = exports.Function x }) }
    ensures other { IfNone result ((x : ℕ) → export.now
        ≡ record { name = name.now; kind = exports.Function x } → ⊥) }
{
    let ExportKind::Function(function) = export.kind else {
        return None;
    };
    if export.name.as_str() != name {
        return None;
    }
    Some(function)
}

/// The function that is exported by this name.
fn exported_function(guest: &Module, name: &str) -> Option<u32>
    ensures found { IfSome result (λ x. Contains guest.now.exports
        (record { name = name.now; kind = exports.Function x })) }
    ensures missing { IfNone result ((x : ℕ)
        → Contains guest.now.exports (record { name = name.now; kind = exports.Function x }) → ⊥) }
{
    for export in guest.exports.as_slice() {
        if let Some(function) = named_function(export, name) {
            return Some(function);
        }
    }
    None
}

impl<'a, 's, 't, D, R, W1, W2> Instance<'a, 's, 't, D, R, W1, W2>
where
    D: Device + Drop,
    R: Inlet + Drop,
    W1: Outlet + Drop,
    W2: Outlet + Drop,
{
    ghost use Rattle.plugin_session.specs.Instance.{Answers, Does, Goes, Invokes, used_by};

    /// Is about to enter the function of the module's own that is exported by this name, with these arguments, each a number of
    /// its type. Nothing runs yet.
    pub fn invoke(&mut self, name: &str, arguments: &[u64]) -> Result<(), Misuse>
        ensures invoked { IfOk result (λ _. Invokes
            (devices D.Device R.Read W1.Write W2.Write R.gave R.refused W1.took W1.refused W2.took
            W2.refused) self.old self.new name.now arguments.now) }
        ensures refused { IfErr result (λ e. (self.new ≡ self.old)
            × RefusesCall self.old name.now arguments.now e) }
    {
        may_invoke(self.stage)?;
        let Some(function) = exported_function(self.machine.module().module(), name) else {
            return Err(Misuse::NoFunction);
        };
        match self.machine.invoke(function, arguments) {
            Ok(()) => {}
            Err(NotInvoked::Absent) => return Err(Misuse::NoFunction),
            Err(NotInvoked::Mistyped) => return Err(Misuse::Mistyped),
        }
        self.stage = Stage::Running;
        Ok(())
    }

    /// Goes on for at most this many units of fuel: until one call of WASI was answered, a function of the embedder is called,
    /// what runs returns or ends, or the next step would take a unit that isn't left.
    pub fn go(&mut self, units: u64) -> Result<Event, Misuse>
        requires { used_by self.old + units < 2 ^ 64 }
        ensures went { IfOk result (Goes (devices D.Device R.Read W1.Write W2.Write R.gave R.refused
            W1.took W1.refused W2.took W2.refused) self.old self.new units) }

        // It is refused just where no function is at work.
        ensures refused { IfErr result (λ e. (self.new ≡ self.old) × (acts.Goes self.old.stage → ⊥)
            × (not_gone_on_at self.old.stage ≡ Some e)) }
    {
        may_go(self.stage)?;
        let event = self.machine.go(&mut self.host, units);
        self.stage = self.stage.after_event(event, self.machine.result());
        Ok(event)
    }

    /// Answers the call of the embedder's function, with its result if it has one.
    pub fn answer(&mut self, value: Option<u64>) -> Result<(), Misuse>
        ensures answered { IfOk result (λ _. Answers
            (devices D.Device R.Read W1.Write W2.Write R.gave R.refused W1.took W1.refused W2.took
            W2.refused) self.old self.new (option_to_list value)) }
        ensures refused { IfErr result (λ e. (self.new ≡ self.old)
            × RefusesAnswer self.old (option_to_list value) e) }
    {
        may_answer(self.stage)?;
        match self.machine.answer(value) {
            Ok(()) => {}
            Err(NotAnswered::NotAsked) => return Err(Misuse::NotAsked),
            Err(NotAnswered::Mistyped) => return Err(Misuse::Mistyped),
        }
        self.stage = self.stage.after_answer();
        Ok(())
    }

    /// Answers as `answer` does with a list of results: no function has more than one.
    pub fn answer_all(&mut self, results: &[u64]) -> Result<(), Misuse>
        ensures answered { IfOk result (λ _. Answers
            (devices D.Device R.Read W1.Write W2.Write R.gave R.refused W1.took W1.refused W2.took
            W2.refused) self.old self.new results.now) }
        ensures refused { IfErr result (λ e. (self.new ≡ self.old)
            × RefusesAnswer self.old results.now e) }
    {
        match results {
            [] => self.answer(None),
            [value] => self.answer(Some(*value)),
            _ => {
                may_answer(self.stage)?;
                Err(Misuse::Mistyped)
            }
        }
    }

    /// Writes bytes into memory where nothing runs, or where a function of the embedder was called.
    pub fn write(&mut self, address: u32, bytes: &[u8]) -> Result<(), Misuse>
        ensures written { IfOk result (λ _. Does
            (devices D.Device R.Read W1.Write W2.Write R.gave R.refused W1.took W1.refused W2.took
            W2.refused) self.old (acts.wrote (written self.old.machine.memory address bytes.now))
            self.new) }
        ensures refused { IfErr result (λ e. (self.new ≡ self.old)
            × RefusesWrite self.old address (length bytes.now) e) }
    {
        may_write(self.stage)?;
        match self.machine.write(address, bytes) {
            Ok(()) => {}
            Err(NotWritten::AtWork) => return Err(Misuse::AtWork),
            Err(NotWritten::PastEnd) => return Err(Misuse::PastEnd),
        }
        Ok(())
    }

    /// Lets what is at work go, with all that it left in memory, the table and the globals. Where it was the opening, the
    /// instance is over.
    pub fn abandon(&mut self) -> Result<(), Misuse>
        ensures abandoned { IfOk result (λ _. Does
            (devices D.Device R.Read W1.Write W2.Write R.gave R.refused W1.took W1.refused W2.took
            W2.refused) self.old acts.abandoned self.new) }

        // It is refused just where the instance is over.
        ensures refused { IfErr result (λ e. (self.new ≡ self.old)
            × (acts.IsOpen self.old.stage → ⊥) × (not_let_go_at self.old.stage ≡ Some e)) }
    {
        may_abandon(self.stage)?;
        self.machine.abandon();
        self.stage = self.stage.after_letting_go();
        Ok(())
    }
}
