//! Laws over definitions alone.

ghost use Rattle.deferred_calls.specs.Machines.{Deferring, MachinesDefer};
ghost use Rattle.deferred_calls.specs.Deferring.{AsksInTheWhole, GrantIsTheCall, ServesTheWhole, StepsOfTheWhole};

use wasm_interp::SnapshotMeaning;
use wasm_store::Host;

/// A law: a run of an instance that defers calls is one of the whole instance, with the same answers and units: what it defers it
/// doesn't pass.
pub fn steps_of_the_whole<H: Host>()
    ensures { StepsOfTheWhole H H.calls }
{}

/// A law: an embedder that is stopped before a deferred call and lets the host answer it does what the whole instance does, whose
/// host answers that call itself. It takes the same unit.
pub fn grant_is_the_call<H: Host>()
    ensures { GrantIsTheCall H H.calls }
{}

/// A law: where an embedder is asked for a function, the whole instance calls it, too.
pub fn asks_in_the_whole()
    ensures { AsksInTheWhole }
{}

/// A law: the answer of a function that stands for no call of the host is one in the whole instance.
pub fn serves_the_whole()
    ensures { ServesTheWhole }
{}

/// A law: what a machine that defers calls promises, by whichever relation it stands for configurations, it promises of the whole
/// instance. Asked for a deferred call it has merely used its units; once the host has answered, the whole instance has called it.
pub fn machines_defer<M: SnapshotMeaning, H: Host>()
    ensures { (deferred : Deferring) → MachinesDefer deferred M.stands H H.calls }
{}
