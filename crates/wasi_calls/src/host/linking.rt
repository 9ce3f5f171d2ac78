//! Which calls there are, by the names and types of WASI preview 1.

ghost use Rattle.std.specs.Prelude.{◌≡◌, codes};
ghost use Rattle.wasi_calls.specs.host.Links.{supply_calls, descriptor_calls, byte_calls, path_calls, calls, letter_of, are_types, link};
ghost use Rattle.wasi_calls.specs.internal.host.Linking.{typed_in, typed_as, of_type};

use wasm_module::{FuncType, ValueType};
use wasm_store::HostCall;

/// The module that all calls are of.
const MODULE_NAME: &str = "wasi_snapshot_preview1";

/// A call with the types of its parameters and of its results: `I` marks i64, `i` i32.
type Typed = (&'static [u8], &'static [u8], HostCall);

/// The call of this name, if it is one of texts, clocks, random bytes and the end.
fn supply_named(name: &str) -> Option<Typed>
    ensures { typed_as result ≡ typed_in supply_calls name.now }
{
    match name {
        "args_sizes_get" => Some((b"ii", b"i", HostCall::ArgsSizesGet)),
        "args_get" => Some((b"ii", b"i", HostCall::ArgsGet)),
        "environ_sizes_get" => Some((b"ii", b"i", HostCall::EnvironSizesGet)),
        "environ_get" => Some((b"ii", b"i", HostCall::EnvironGet)),
        "clock_res_get" => Some((b"ii", b"i", HostCall::ClockResGet)),
        "clock_time_get" => Some((b"iIi", b"i", HostCall::ClockTimeGet)),
        "random_get" => Some((b"ii", b"i", HostCall::RandomGet)),
        "proc_exit" => Some((b"i", b"", HostCall::ProcExit)),
        _ => None,
    }
}

/// The call of this name, if it is one of what descriptors are and where they stand.
fn descriptor_named(name: &str) -> Option<Typed>
    ensures { typed_as result ≡ typed_in descriptor_calls name.now }
{
    match name {
        "fd_close" => Some((b"i", b"i", HostCall::FdClose)),
        "fd_fdstat_get" => Some((b"ii", b"i", HostCall::FdFdstatGet)),
        "fd_filestat_get" => Some((b"ii", b"i", HostCall::FdFilestatGet)),
        "fd_filestat_set_size" => Some((b"iI", b"i", HostCall::FdFilestatSetSize)),
        "fd_prestat_get" => Some((b"ii", b"i", HostCall::FdPrestatGet)),
        "fd_prestat_dir_name" => Some((b"iii", b"i", HostCall::FdPrestatDirName)),
        "fd_seek" => Some((b"iIii", b"i", HostCall::FdSeek)),
        "fd_tell" => Some((b"ii", b"i", HostCall::FdTell)),
        _ => None,
    }
}

/// The call of this name, if it is one of bytes of files and streams, or of lists of directories.
fn byte_named(name: &str) -> Option<Typed>
    ensures { typed_as result ≡ typed_in byte_calls name.now }
{
    match name {
        "fd_read" => Some((b"iiii", b"i", HostCall::FdRead)),
        "fd_pread" => Some((b"iiiIi", b"i", HostCall::FdPread)),
        "fd_write" => Some((b"iiii", b"i", HostCall::FdWrite)),
        "fd_pwrite" => Some((b"iiiIi", b"i", HostCall::FdPwrite)),
        "fd_sync" => Some((b"i", b"i", HostCall::FdSync)),
        "fd_datasync" => Some((b"i", b"i", HostCall::FdDatasync)),
        "fd_readdir" => Some((b"iiiIi", b"i", HostCall::FdReaddir)),
        _ => None,
    }
}

/// The call of this name, if it is one on paths.
fn path_named(name: &str) -> Option<Typed>
    ensures { typed_as result ≡ typed_in path_calls name.now }
{
    match name {
        "path_create_directory" => Some((b"iii", b"i", HostCall::PathCreateDirectory)),
        "path_filestat_get" => Some((b"iiiii", b"i", HostCall::PathFilestatGet)),
        "path_open" => Some((b"iiiiiIIii", b"i", HostCall::PathOpen)),
        "path_remove_directory" => Some((b"iii", b"i", HostCall::PathRemoveDirectory)),
        "path_rename" => Some((b"iiiiii", b"i", HostCall::PathRename)),
        "path_unlink_file" => Some((b"iii", b"i", HostCall::PathUnlinkFile)),
        _ => None,
    }
}

/// The call of this name.
fn call_named(name: &str) -> Option<Typed>
    ensures { typed_as result ≡ typed_in calls name.now }
{
    if let Some(call) = supply_named(name) {
        return Some(call);
    }
    if let Some(call) = descriptor_named(name) {
        return Some(call);
    }
    if let Some(call) = byte_named(name) {
        return Some(call);
    }
    path_named(name)
}

/// The letter that marks the type.
fn letter_of(value_type: &ValueType) -> u8
    ensures { result ≡ letter_of value_type.now }
{
    match value_type {
        ValueType::I32 => b'i',
        ValueType::I64 => b'I',
        ValueType::F32 => b'f',
        ValueType::F64 => b'F',
    }
}

/// Whether these are the types that the letters say.
fn are_types(letters: &[u8], types: &[ValueType]) -> bool
    ensures { result ≡ are_types letters.now types.now }
{
    match letters {
        [] => types.is_empty(),
        [letter, letters @ ..] => match types {
            [] => false,
            [value_type, types @ ..] => {
                *letter == letter_of(value_type) && are_types(letters, types)
            }
        },
    }
}

/// The call, where a function of this type can be it.
fn of_type(params: &[u8], results: &[u8], call: HostCall, func_type: &FuncType) -> Option<HostCall>
    ensures { result ≡ of_type func_type.now (params.now, results.now, call) }
{
    if are_types(params, func_type.params.as_slice())
        && are_types(results, func_type.results.as_slice())
    {
        Some(call)
    } else {
        None
    }
}

/// The call of this module name, name and type: a listed one where it has its type, and for any other
/// name with one i32 result a call that answers that there is none such.
pub fn call_of(module_name: &str, name: &str, func_type: &FuncType) -> Option<HostCall>
    ensures { result ≡ link module_name.now name.now func_type.now }
{
    if module_name != MODULE_NAME {
        return None;
    }
    match call_named(name) {
        Some((params, results, call)) => of_type(params, results, call, func_type),
        None => {
            if are_types(b"i", func_type.results.as_slice()) {
                Some(HostCall::Nosys)
            } else {
                None
            }
        }
    }
}
