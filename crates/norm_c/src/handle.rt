//! A gate in C's hands.
ghost use Rattle.std.specs.Prelude.{◌≡◌, true, false, Option, Some, None};
ghost use Rattle.std.specs.Option.{MatchOption};
ghost use Rattle.norm_gate.specs.GateState.{Gated};

use loose::Loose;
use norm_gate::Gate;
use std::alloc::Global;
use std::marker::Model;
use std::mem::replace;
use std::ptr::null_mut;

/// A gate in C's hands, or none. All octets zero is a closed handle.
#[repr(C)]
pub struct Handle {
    live: bool,
    at: *mut u8,
    ghost value: { Option Gated },
}

impl Model for Handle {
    ghost use Rattle.norm_c.specs.Held.{held};

    ghost also_owns = { λ h. held h.live h.at h.value };
}

impl Handle {
    fn closed() -> Handle
        ensures { (result.live ≡ false) × (result.value ≡ None) }
    {
        Handle {
            live: false,
            at: null_mut(),
        }
    }

    fn of(gate: Loose<Gate, Global>) -> Handle
        ensures { (result.live ≡ true) × (result.value ≡ Some gate.value) }
    {
        let Loose { at, alloc: _ } = gate;
        Handle {
            live: true,
            at: at as *mut u8,
        }
    }

    fn take(self, alloc: Global) -> Option<Loose<Gate, Global>>
        ensures { MatchOption result (self.value ≡ None) (λ gate. self.value ≡ Some gate.value) }
    {
        let Handle { live, at } = self;
        if live {
            Some(Loose {
                at: at as *mut Gate,
                alloc,
            })
        } else {
            None
        }
    }

    // Takes the gate out of this handle, if it has one.
    fn into_gate(self, alloc: Global) -> Option<Box<Gate>>
        ensures { MatchOption result (self.value ≡ None) (λ gate. self.value ≡ Some gate.value) }
    {
        match self.take(alloc) {
            Some(loose) => Some(loose.into_box()),
            None => None,
        }
    }
}

/// Takes the gate out of a handle, which is closed then.
pub(crate) fn take_gate(handle: &mut Handle, alloc: Global) -> Option<Box<Gate>>
    ensures gate { MatchOption result (handle.old.value ≡ None) (λ gate. handle.old.value ≡ Some gate.value) }
    ensures closed { handle.new.value ≡ None }
{
    replace(handle, Handle::closed()).into_gate(alloc)
}

/// Puts a gate into a handle.
pub(crate) fn put_gate(handle: &mut Handle, gate: Box<Gate>, alloc: Global)
    ensures { handle.new.value ≡ Some gate.value }
{
    let _none = replace(handle, Handle::of(Loose::of(gate))).into_gate(alloc);
}
