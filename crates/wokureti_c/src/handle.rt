//! What C holds: a pointer to an engine, or null.
ghost use Rattle.std.specs.Prelude.{◌≡◌, Option, None, Some, option_map};
ghost use Rattle.wokureti_c.specs.Held.{held_owns};
ghost use Rattle.wokureti_c.specs.declared.engine.Engine.{Engine};

use crate::engine::Engine;
use crate::unboxed::Unboxed;
use std::alloc::Global;
use std::marker::Model;
use std::mem::replace;
use std::ptr::null_mut;

/// A handle: a pointer to an engine on the heap, or null. C neither copies it nor writes it.
#[repr(C)]
#[derive(Drop)]
pub struct Handle {
    at: *mut u8,
    alloc: Global,
    pub ghost held: { Option Engine },
}

impl Model for Handle {
    ghost also_owns = { λ handle. held_owns handle.alloc handle.at handle.held };
}

impl Handle {
    /// A handle that holds nothing.
    pub fn empty(alloc: Global) -> Handle
        ensures { result.held ≡ None }
    {
        Handle {
            at: null_mut(),
            alloc,
        }
    }

    /// A handle that holds an engine.
    pub fn of(parts: Unboxed<Engine, Global>) -> Handle
        ensures { result.held ≡ Some parts.value }
    {
        let Unboxed { at, alloc } = parts;
        Handle {
            at: at as *mut u8,
            alloc,
        }
    }

    /// The engine that it holds, if it holds one.
    pub fn into_parts(self) -> Option<Unboxed<Engine, Global>>
        ensures { option_map (λ parts. parts.value) result ≡ self.held }
    {
        let Handle { at, alloc } = self;
        if at.is_null() {
            None
        } else {
            Some(Unboxed {
                at: at as *mut Engine,
                alloc,
            })
        }
    }
}

/// Takes the engine out of a handle, which holds nothing afterwards.
pub fn take(handle: &mut Handle, alloc: Global) -> Option<Box<Engine>>
    ensures value { option_map (λ engine. engine.value) result ≡ handle.old.held }
    ensures empty { handle.new.held ≡ None }
{
    let whole = replace(handle, Handle::empty(alloc));
    match whole.into_parts() {
        Some(parts) => Some(parts.into_box()),
        None => None,
    }
}

/// Puts an engine into a handle. What the handle held is dropped.
pub fn put(handle: &mut Handle, engine: Box<Engine>)
    ensures { handle.new.held ≡ Some engine.value }
{
    *handle = Handle::of(Unboxed::of(engine));
}
