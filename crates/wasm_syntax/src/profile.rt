//! What of the standard is taken.

/// What of the standard a module may hold. Both have the whole numbers of WebAssembly 1.0, sign extension, `memory.copy`,
/// `memory.fill` and the data count section.
#[derive(Clone, Copy, PartialEq, Eq)]
pub enum Profile {
    /// Integers alone: a type or an instruction of floating point is refused.
    Integers,
    /// Floats too: f32 and f64 with all their instructions, the saturating conversions, and the table of an indirect
    /// call as a number of up to five bytes.
    Floats,
}

impl Profile {
    ghost use Rattle.std.specs.Prelude.{◌≡◌};
    ghost use Rattle.wasm_syntax.specs.internal.TypesReading.{takes_floats};

    /// Whether floats are taken.
    pub fn takes_floats(self) -> bool
        ensures { result ≡ takes_floats self }
    {
        match self {
            Profile::Integers => false,
            Profile::Floats => true,
        }
    }
}
