//! Why the numbers of bodies don't fit the nodes.
ghost use Rattle.std.specs.Prelude.{◌≡◌, Some};
ghost use Rattle.tk_plan_nodes.specs.BodiesFaultTexts.{bodies_fault_text};

use std::alloc::AllocError;
use std::error::Error;
use std::fmt;
use tk_events::fmt_field;
use tk_ids::Text;

/// Why the numbers of bodies don't fit the nodes of a plan.
///
/// It is shown as `body of [engine:shop]/[suite:all] is never called`. An id is written as ids are,
/// also where it is no right id.
#[derive(Debug, Drop)]
pub enum BodiesFault {
    /// The node with this id has a body that is never called: it is no test, it stands on the spine,
    /// or it is dynamic.
    NeverCalled(Text),
    /// The test with this id has no body, and others have one.
    Missing(Text),
    /// A request for memory was refused.
    Memory,
}

/// The fault in one line: an id is written with the escapes of a text field.
impl fmt::Display for BodiesFault {
    ghost output = { λ fault. Some (bodies_fault_text fault) };

    fn fmt<W: fmt::Write>(&self, f: &mut fmt::Formatter<W>) -> fmt::Result {
        match self {
            BodiesFault::NeverCalled(id) => {
                f.write_str("body of ")?;
                fmt_field(id.as_str(), f)?;
                f.write_str(" is never called")
            }
            BodiesFault::Missing(id) => {
                f.write_str("no body for ")?;
                fmt_field(id.as_str(), f)
            }
            BodiesFault::Memory => f.write_str("out of memory"),
        }
    }
}

impl Error for BodiesFault {}

impl From<AllocError> for BodiesFault {
    ghost use Rattle.tk_plan_nodes.specs.declared.bodies_faults.BodiesFault.TheVariants.{Memory};

    ghost from_gives = { λ _ e. e ≡ Memory };

    fn from(_: AllocError) -> BodiesFault {
        BodiesFault::Memory
    }
}
