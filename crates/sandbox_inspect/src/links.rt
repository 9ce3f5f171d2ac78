//! Which calls a guest can import.

ghost use Rattle.std.specs.Prelude.{◌≡◌};

use wasm_module::FuncType;
use wasm_store::HostCall;

/// Which call an import is, as a host links it.
pub trait Links {
    ghost use Rattle.wasm_store.specs.Instantiation.{LinksOf};

    // The call of a module name, a name and a type, if there is one.
    ghost links: { LinksOf };

    /// The call of this module name, name and type, if there is one.
    fn link(&self, module_name: &str, name: &str, func_type: &FuncType) -> Option<HostCall>
        ensures { result ≡ links module_name.now name.now func_type.now };
}
