//! A list that grows and shrinks at one end.
ghost use Rattle.std.specs.Prelude.{◌≡◌, ◌<◌, ◌∷◌, [], List, OnOk, IfSome, IfNone};

use std::alloc::{AllocError, Global};
use std::marker::Model;

/// A list of which the element added last is taken off first. Contracts see that element first, and
/// for how many elements more there is room.
#[derive(Drop)]
pub(crate) struct Stack<T> {
    elements: Vec<T>,
}

impl<T> Model for Stack<T> {
    ghost use Rattle.std.specs.Prelude.{◌-◌, reverse, vec_capacity, vec_len};
    ghost use Rattle.tk_engine_unit_events.specs.Stacks.{StackView};

    ghost Value = { StackView T };

    ghost view = { λ s. record {
      elements = reverse s.elements.items;
      room = vec_capacity s.elements - vec_len s.elements;
    } };
}

impl<T: Drop> Stack<T> {
    /// No element.
    pub(crate) fn new(alloc: Global) -> Stack<T>
        ensures { result.elements ≡ [] }
    {
        Stack {
            elements: Vec::new(alloc),
        }
    }

    /// Makes room for one element more.
    pub(crate) fn reserve(&mut self) -> Result<(), AllocError>
        ensures room { OnOk result (0 < self.new.room) }
        ensures same { self.new.elements ≡ self.old.elements }
    {
        self.elements.reserve(1)
    }

    /// Adds an element, for which there is room, and which is on top then.
    pub(crate) fn push_reserved(&mut self, element: T)
        requires { 0 < self.old.room }
        ensures { self.new.elements ≡ element ∷ self.old.elements }
    {
        self.elements.push_reserved(element);
    }

    /// The element on top.
    pub(crate) fn top(&self) -> Option<&T>
        ensures some { IfSome result (λ top. (rest : List T)
            × (self.now.elements ≡ top.now ∷ rest)) }
        ensures none { IfNone result (self.now.elements ≡ []) }
    {
        self.elements.as_slice().last()
    }

    /// Takes the element on top off.
    pub(crate) fn pop(&mut self) -> Option<T>
        ensures some { IfSome result (λ top. self.old.elements ≡ top ∷ self.new.elements) }
        ensures none { IfNone result
            ((self.old.elements ≡ []) × (self.new.elements ≡ [])) }
    {
        self.elements.pop()
    }
}
