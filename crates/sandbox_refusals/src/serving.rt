//! Which calls a guest is given.

use sandbox_inspect::Links;
use wasi_calls::call_of;
use wasm_module::FuncType;
use wasm_store::HostCall;

/// The calls that a guest is given.
pub struct Served;

impl Links for Served {
    ghost use Rattle.wasi_calls.specs.host.Links.{link};

    ghost links = { link };

    fn link(&self, module_name: &str, name: &str, func_type: &FuncType) -> Option<HostCall> {
        call_of(module_name, name, func_type)
    }
}
