//! The types of a function's locals.

ghost use Rattle.std.specs.Prelude.{◌≡◌, slice_get, IfOk};

use std::alloc::{AllocError, Global};
use std::marker::Model;
use wasm_module::{Locals, ValueType};

/// The types of the parameters and of the other locals, which stand in groups of one type each. A
/// group may have very many, so that they are found by where each group ends.
#[derive(Drop)]
pub struct LocalTypes<'m> {
    params: &'m [ValueType],
    groups: &'m [Locals],
    /// How many locals there are up to the end of each group, at most 2 ^ 64 - 1.
    ends: Vec<u64>,
}

impl<'m> Model for LocalTypes<'m> {
    ghost use Rattle.std.specs.Prelude.{◌≡◌, List, ◌++◌, length};
    ghost use Rattle.wasm_syntax.specs.declared.instruction.ValueType.{ValueType as ValueTypeValue};
    ghost use Rattle.wasm_valid.specs.Spaces.{local_types};
    ghost use Rattle.wasm_valid.specs.internal.Ends.{ends_from};

    ghost Value = { List ValueTypeValue };

    ghost view = { λ l. l.params.now ++ local_types l.groups.now };

    ghost invariant = { λ l. l.ends.items ≡ ends_from (length l.params.now) l.groups.now };
}

impl<'m> LocalTypes<'m> {
    ghost use Rattle.std.specs.Prelude.{◌++◌};
    ghost use Rattle.wasm_valid.specs.Spaces.{local_types};

    /// The locals of a function with these parameters.
    pub fn new(
        alloc: Global,
        params: &'m [ValueType],
        groups: &'m [Locals],
    ) -> Result<LocalTypes<'m>, AllocError>
        ensures { IfOk result (λ l. l ≡ params.now ++ local_types groups.now) }
    {
        let mut ends = Vec::new(alloc);
        let mut end = params.len() as u64;
        for group in groups {
            end = end.saturating_add(u64::from(group.count));
            ends.push(end)?;
        }
        Ok(LocalTypes {
            params,
            groups,
            ends,
        })
    }

    /// The type of a local.
    pub fn get(&self, index: u32) -> Option<ValueType>
        ensures { result ≡ slice_get self.now index }
    {
        if let Some(param) = self.params.get(index as usize) {
            return Some(*param);
        }
        let place = u64::from(index);
        let group = self.ends.as_slice().partition_point(|end| *end <= place);
        Some(self.groups.get(group)?.value_type)
    }
}
