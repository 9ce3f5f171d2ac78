//! What a host in C keeps of a session or a module: a pointer.

ghost use Rattle.std.specs.Prelude.{◌≡◌, Option, None, Some, false, is_none, option_map};
ghost use Rattle.sandbox_host.specs.declared.held.HandleContent.{HandleContent};
ghost use Rattle.sandbox_host.specs.Handles.{held_coded, handle_owns};

use crate::held::HandleContent;
use crate::parts::HandleParts;
use std::alloc::{Allocator, Global};
use std::marker::Model;
use std::mem;
use std::ptr::null_mut;

/// A pointer to a session or a loaded module on the heap, or null. C has it as a struct of one pointer.
#[repr(C)]
#[derive(Drop)]
pub struct Handle {
    at: *mut u8,
    alloc: Global,
    pub ghost held: { Option HandleContent } by { held_coded },
}

impl Model for Handle {
    ghost also_owns = { λ h. handle_owns (⟦<Global as Allocator>⟧.dealloc_token h.alloc) h.at h.held };
}

impl Handle {
    /// Whether there is nothing behind it.
    pub(crate) fn is_closed(&mut self) -> bool
        ensures { (result ≡ is_none self.old.held) × (self.new ≡ self.old) }
    {
        self.at == null_mut()
    }

    /// Takes out what it has.
    pub(crate) fn take(&mut self, alloc: Global) -> Option<Box<HandleContent>>
        ensures taken { option_map (λ b. b.value) result ≡ self.old.held }
        ensures closed { self.new.held ≡ None }
    {
        if self.is_closed() {
            return None;
        }
        Some(
            mem::replace(self, Handle::empty(alloc))
                .into_parts()
                .into_box(),
        )
    }

    /// Gives it this. It has to be closed: what it had else is leaked.
    pub(crate) fn put(&mut self, held: Box<HandleContent>)
        ensures { self.new.held ≡ Some held.value }
    {
        let _before = mem::replace(self, Handle::of_parts(HandleParts::of(held)));
    }

    /// One that has nothing, as C's NULL.
    pub fn empty(alloc: Global) -> Handle
        ensures { result.held ≡ None }
    {
        Handle {
            at: null_mut(),
            alloc,
        }
    }

    fn of_parts(parts: HandleParts<HandleContent, Global>) -> Handle
        ensures { result.held ≡ Some parts.value }
    {
        let HandleParts { ptr, alloc } = parts;
        Handle {
            at: ptr as *mut u8,
            alloc,
        }
    }

    fn into_parts(self) -> HandleParts<HandleContent, Global>
        requires { is_none self.held ≡ false }
        ensures { self.held ≡ Some result.value }
    {
        let Handle { at, alloc } = self;
        HandleParts {
            ptr: at as *mut HandleContent,
            alloc,
        }
    }
}

// It has what it points to for itself alone.
unsafe impl Send for Handle {}

/// Says that a type may go to another thread.
fn crosses<T: Send>() {}

/// What a handle has may, and so may a handle: an `unsafe impl` alone proves nothing.
pub(crate) fn handle_crosses() {
    crosses::<HandleContent>();
    crosses::<Handle>();
}
