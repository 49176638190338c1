//! Descriptors of tests and containers.
ghost use Rattle.std.specs.Prelude.{◌≡◌, IfOk};

use crate::ids::UniqueId;
use crate::locks::Locks;
use crate::texts::Text;
use std::alloc::AllocError;

/// Whether a descriptor is a container, a test, or both. JUnit: `TestDescriptor.Type`.
#[derive(Clone, Copy, PartialEq, Eq, Debug)]
pub enum DType {
    /// It has children or may have some.
    Container,
    /// It is executed, and has no children.
    Test,
    /// It is executed, and has children or may have some.
    Both,
}

impl DType {
    ghost use Rattle.tk_ids.specs.DTypes.{is_test, is_container};

    /// Whether it is a test, as `Test` and `Both` are.
    pub fn is_test(self) -> bool
        ensures { result ≡ is_test self }
    {
        matches!(self, DType::Test | DType::Both)
    }

    /// Whether it has children or may have some, as `Container` and `Both` do.
    pub fn is_container(self) -> bool
        ensures { result ≡ is_container self }
    {
        matches!(self, DType::Container | DType::Both)
    }
}

/// A test or a container. JUnit: `TestDescriptor`.
#[derive(Debug, Drop)]
pub struct Descriptor {
    /// Its path from the root.
    pub id: UniqueId,
    /// The name under which it is shown.
    pub name: Text,
    /// Whether it is a test, a container, or both.
    pub dtype: DType,
    /// The locks that it declares. One that is registered as an engine runs declares none.
    pub locks: Locks,
}

impl Descriptor {
    /// Makes another descriptor with the same contents, which shares the id.
    ///
    /// # Errors
    /// `AllocError` where a request for memory is refused.
    pub fn try_clone(&self) -> Result<Descriptor, AllocError>
        ensures { IfOk result (λ d. d ≡ self.now) }
    {
        Ok(Descriptor {
            id: self.id.try_clone()?,
            name: self.name.try_clone()?,
            dtype: self.dtype,
            locks: self.locks.try_clone()?,
        })
    }
}
