//! Machines, by what they stand for.

ghost use Rattle.wasm_steps.specs.Configuration.{Instance, Configuration};

/// A machine that stands for configurations of instances.
pub trait InstanceMachine {
    /// The machine stands for this configuration of this instance.
    ghost stands: { Self → Instance → Configuration → Type 0 };
}
