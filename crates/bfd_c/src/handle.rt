//! A handle.
ghost use Rattle.std.specs.Prelude.{◌≡◌, None, Some, option_map, is_some};

use crate::apart::Apart;
use crate::engine::Engine;
use crate::owned::Owned;
use std::alloc::Global;

/// A handle, which C keeps: closed, or open with an engine. Zeros are a closed one.
#[repr(C)]
pub struct Handle {
    pub(crate) kept: Owned,
    pub(crate) is_open: bool,
    ghost fits: { is_some kept.held ≡ is_open },
}

impl Handle {
    /// A closed handle.
    pub(crate) fn closed(alloc: Global) -> Handle
        ensures { result.kept.held ≡ None }
    {
        Handle {
            kept: Owned::empty(alloc),
            is_open: false,
        }
    }

    /// An open handle with this engine.
    pub(crate) fn hold(engine: Box<Engine>) -> Handle
        ensures { result.kept.held ≡ Some engine.value }
    {
        Handle {
            kept: Owned::of_apart(Apart::of(engine)),
            is_open: true,
        }
    }

    /// Opens a closed handle with this engine.
    pub(crate) fn put(&mut self, engine: Box<Engine>)
        requires { self.old.kept.held ≡ None }
        ensures { self.new.kept.held ≡ Some engine.value }
    {
        self.kept = Owned::of_apart(Apart::of(engine));
        self.is_open = true;
    }

    /// The engine, if the handle is open.
    pub(crate) fn into_engine(self) -> Option<Box<Engine>>
        ensures { option_map (λ b. b.value) result ≡ self.kept.held }
    {
        let Handle { kept, is_open } = self;
        if is_open {
            Some(kept.into_apart().into_box())
        } else {
            None
        }
    }

    /// Takes the engine out, if the handle is open, and leaves it closed.
    pub(crate) fn take(&mut self, alloc: Global) -> Option<Box<Engine>>
        ensures closed { self.new.kept.held ≡ None }
        ensures value { option_map (λ b. b.value) result ≡ self.old.kept.held }
    {
        std::mem::replace(self, Handle::closed(alloc)).into_engine()
    }
}

/// Frees an engine. (Apart from a handle's drop, so that each call has no more than the look whether there is one.)
#[cold]
#[inline(never)]
fn free(engine: Box<Engine>) {
    drop(engine);
}

impl Drop for Handle {
    fn drop(self) {
        if let Some(engine) = self.into_engine() {
            free(engine);
        }
    }
}
