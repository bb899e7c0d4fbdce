//! The list, and its edits.
ghost use Rattle.std.specs.Prelude.{◌≡◌, List};
ghost use Rattle.std.specs.List.{insert, remove};
ghost use Rattle.std.specs.Borrow.{ftrue};

use std::marker::{Model, PhantomData};

/// A list of `T` as clauses see it, under the name `items`. It has no bytes and owns nothing.
pub struct GhostList<T> {
    of: PhantomData<T>,
    pub ghost items: { List T },
}

impl<T> Model for GhostList<T> {
    ghost also_owns = { λ _. ftrue };
}

impl<T> GhostList<T> {
    /// The list of these elements.
    pub fn of(elements: &Vec<T>) -> GhostList<T>
        ensures { result.items ≡ elements.now.items }
    {
        GhostList { of: PhantomData }
    }

    /// The list with `element` at `place`, and each from there on one place later.
    pub fn inserted(&self, place: &usize, element: &T) -> GhostList<T>
        ensures { result.items ≡ insert self.now.items place.now element.now }
    {
        GhostList { of: PhantomData }
    }

    /// The list without the element at `place`, and each after it one place earlier.
    pub fn removed(&self, place: &usize) -> GhostList<T>
        ensures { result.items ≡ remove self.now.items place.now }
    {
        GhostList { of: PhantomData }
    }
}

impl<T> Drop for GhostList<T> {
    fn drop(self) {
        let Self { of: _ } = self;
    }
}

unsafe impl<T> Send for GhostList<T> {}

unsafe impl<T> Sync for GhostList<T> {}
