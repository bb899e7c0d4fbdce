//! What a handle keeps, in a form that C may hold: no field of it has a type that leads to a `Vec` or a `Box`.
ghost use Rattle.std.specs.Prelude.{◌≡◌, None, Some, Option, is_some, true};
ghost use Rattle.bfd_c.specs.Engines.{Instance};
ghost use Rattle.bfd_c.specs.Owning.{kept_owns};

use crate::apart::Apart;
use crate::engine::Engine;
use std::alloc::Global;
use std::marker::Model;

/// What stands behind the pointer, as C sees it.
#[repr(C)]
pub struct Opaque {
    byte: u8,
}

/// Nothing, or what a box of an engine owns. Only a `Handle` has one, and frees it.
#[repr(C)]
#[derive(Drop)]
pub struct Owned {
    ptr: *mut Opaque,
    alloc: Global,
    pub ghost held: { Option Instance },
}

impl Model for Owned {
    ghost also_owns = { λ k. kept_owns k.alloc k.ptr k.held };
}

impl Owned {
    /// Nothing, behind a null pointer.
    pub(crate) fn empty(alloc: Global) -> Owned
        ensures { result.held ≡ None }
    {
        Owned {
            ptr: std::ptr::null_mut(),
            alloc,
        }
    }

    /// What a box owned that was taken apart.
    pub(crate) fn of_apart(apart: Apart<Engine, Global>) -> Owned
        ensures { result.held ≡ Some apart.value }
    {
        let Apart { ptr, alloc } = apart;
        Owned {
            ptr: ptr as *mut Opaque,
            alloc,
        }
    }

    /// The parts of the box again, where there are some.
    pub(crate) fn into_apart(self) -> Apart<Engine, Global>
        requires { is_some self.held ≡ true }
        ensures { Some result.value ≡ self.held }
    {
        let Owned { ptr, alloc } = self;
        Apart {
            ptr: ptr as *mut Engine,
            alloc,
        }
    }
}

/// No part of an engine is shared with another thread, so a handle may go to one between two calls.
unsafe impl Send for Owned {}
