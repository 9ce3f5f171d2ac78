//! Sessions and modules that are discarded.

ghost use Rattle.std.specs.Prelude.{◌≡◌, ◌≢◌, ◌⊎◌, None, Some, IfSome, IsSomeAnd, is_none, true, false};
ghost use Rattle.sandbox_host.specs.Sessions.{finished, finished_in, loaded, loaded_in, prepared, prepared_in, bytes_of, bytes_in, module_of, has_session, has_module};

use crate::handle::Handle;
use crate::held::{Ended, HandleContent};
use crate::numbers::{MISUSE, OK};
use std::alloc::Global;

/// Discards a session, also what of it isn't committed.
pub fn close(alloc: Global, session: &mut Handle) -> u32
    ensures misuse { has_session session.old.held ≡ false
        → (result ≡ MISUSE) × (session.new.held ≡ session.old.held) }
    ensures closed { has_session session.old.held ≡ true → (result ≡ OK)
        × (session.new.held ≡ None) }
{
    let Some(held) = session.take(alloc) else {
        return MISUSE;
    };
    if !held.is_session() {
        session.put(held);
        return MISUSE;
    }
    drop(held);
    OK
}

/// Discards a loaded module.
pub fn unload(alloc: Global, module: &mut Handle) -> u32
    ensures misuse { has_module «module».old.held ≡ false
        → (result ≡ MISUSE) × («module».new.held ≡ «module».old.held) }
    ensures closed { has_module «module».old.held ≡ true → (result ≡ OK)
        × («module».new.held ≡ None) }
{
    let Some(held) = module.take(alloc) else {
        return MISUSE;
    };
    if !held.is_loaded() {
        module.put(held);
        return MISUSE;
    }
    drop(held);
    OK
}

/// What a finished session becomes where its module is kept.
fn unloaded(held: HandleContent) -> (HandleContent, u32)
    ensures kept { IfSome (finished_in held)
        (λ e. (result.1 ≡ 0) × (loaded_in result.0 ≡ Some (module_of e.loaded))
        × (prepared_in result.0 ≡ prepared_in held)) }
    ensures other { is_none (finished_in held) ≡ true → (result.1 ≡ 100) × (result.0 ≡ held) }
    ensures bytes { bytes_in result.0 ≡ bytes_in held }
{
    match held {
        HandleContent::Finished(
            Ended {
                loaded,
                bytes,
                device,
                out,
                err,
            },
        ) => {
            drop(device);
            drop(out);
            drop(err);
            (HandleContent::Loaded(loaded, bytes), OK)
        }
        other => (other, MISUSE),
    }
}

/// Discards a finished session, whose module becomes a loaded one.
pub fn close_loaded(alloc: Global, session: &mut Handle, module: &mut Handle) -> u32
    ensures misuse { (is_none (finished session.old.held) ≡ true)
        ⊎ (is_none «module».old.held ≡ false) → (result ≡ MISUSE)
        × (session.new.held ≡ session.old.held) × («module».new.held ≡ «module».old.held) }
    ensures closed { IfSome (finished session.old.held)
        (λ e. is_none «module».old.held ≡ true → (result ≡ OK) × (session.new.held ≡ None)
        × (loaded «module».new.held ≡ Some (module_of e.loaded))
        × (prepared «module».new.held ≡ prepared session.old.held)) }
    ensures bytes { result ≡ 0 → bytes_of «module».new.held ≡ bytes_of session.old.held }
{
    if !module.is_closed() {
        return MISUSE;
    }
    let Some(mut held) = session.take(alloc) else {
        return MISUSE;
    };
    let (after, number) = unloaded(Box::replace(&mut held, HandleContent::Nothing));
    drop(Box::replace(&mut held, after));
    if number == OK {
        module.put(held);
    } else {
        session.put(held);
    }
    number
}
