//! Where C keeps a box between calls.
ghost use Rattle.live_book.specs.declared.object.Object.{Object};
ghost use Rattle.std.specs.Prelude.{◌≡◌, Option, Some, None, option_map, true, false};

use crate::parts::Parts;
use live_book::Object;
use std::alloc::Global;
use std::marker::Model;

/// A box, or none: for C a pointer, and whether it is one.
#[repr(C)]
pub struct Held {
    at: *mut u8,
    is_full: bool,
    alloc: Global,
    ghost value: { Option Object },
}

impl Model for Held {
    ghost use Rattle.live_held.specs.Owned.{held_owns};

    ghost also_owns = { λ s. held_owns s.alloc s.at s.is_full s.value };
}

impl Drop for Held {
    fn drop(self) {
        let _ = self.into_box();
    }
}

impl Held {
    /// None.
    pub fn empty(alloc: Global) -> Held
        ensures { result.value ≡ None }
    {
        Held {
            at: std::ptr::null_mut(),
            is_full: false,
            alloc,
        }
    }

    fn of_parts(parts: Parts<Object, Global>) -> Held
        ensures { result.value ≡ Some parts.value }
    {
        let Parts { ptr, alloc } = parts;
        Held {
            at: ptr as *mut u8,
            is_full: true,
            alloc,
        }
    }

    fn into_parts(self) -> Option<Parts<Object, Global>>
        ensures { option_map (λ p. p.value) result ≡ self.value }
    {
        let Held { at, is_full, alloc } = self;
        if is_full {
            let ptr = at as *mut Object;
            Some(Parts { ptr, alloc })
        } else {
            None
        }
    }

    /// Of a box.
    pub fn of(value: Box<Object>) -> Held
        ensures { result.value ≡ Some value.value }
    {
        Held::of_parts(Parts::of(value))
    }

    /// The box.
    pub fn into_box(self) -> Option<Box<Object>>
        ensures { option_map (λ b. b.value) result ≡ self.value }
    {
        match self.into_parts() {
            Some(parts) => Some(parts.into_box()),
            None => None,
        }
    }

    /// Takes the box out.
    pub fn take(&mut self, alloc: Global) -> Option<Box<Object>>
        ensures taken { option_map (λ b. b.value) result ≡ self.old.value }
        ensures empty { self.new.value ≡ None }
    {
        let held = std::mem::replace(self, Held::empty(alloc));
        held.into_box()
    }

    /// Puts a box in.
    pub fn put(&mut self, value: Box<Object>)
        ensures { self.new.value ≡ Some value.value }
    {
        *self = Held::of(value);
    }
}

unsafe impl Send for Held {}
