//! Laws of the steps, over definitions only.

ghost use Rattle.wasm_steps.specs.Units.{StepsTakeTheirUnits};

use wasm_store::Host;

/// With any host a step takes one unit where it rewrites a plain instruction, and else none. So
/// entering a function, leaving a function or a block at its end, and a host's answer are free.
pub fn steps_take_their_units<H: Host>()
    ensures { StepsTakeTheirUnits H H.calls }
{}
