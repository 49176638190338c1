//! The numbers of a plan's nodes.
ghost use Rattle.std.specs.Prelude.{◌≡◌, ◌+◌, ◌≤◌, ◌<◌, ◌^◌, length, if◌then◌else◌};
ghost use Rattle.tk_plan.specs.Numbers.{numbered_from};

use crate::trees::nodes::NumberedNode;

/// The numbers that the next nodes take.
#[derive(Drop)]
struct Next {
    of_static: u32,
    of_dynamic: u32,
}

impl Next {
    fn take(&mut self, is_static: bool) -> u32
        requires of_static { self.old.of_static < 2 ^ 31 }
        requires of_dynamic { self.old.of_dynamic < 2 ^ 31 }
        ensures number { result ≡ (if is_static then self.old.of_static else self.old.of_dynamic) }
        ensures of_static { self.new.of_static
            ≡ (if is_static then self.old.of_static + 1 else self.old.of_static) }
        ensures of_dynamic { self.new.of_dynamic
            ≡ (if is_static then self.old.of_dynamic else self.old.of_dynamic + 1) }
    {
        if is_static {
            self.of_static += 1;
            self.of_static - 1
        } else {
            self.of_dynamic += 1;
            self.of_dynamic - 1
        }
    }
}

/// Gives each static node the number of those before it, and each other node a number from
/// `statics` on.
pub(crate) fn set_numbers(statics: u32, nodes: &mut [NumberedNode])
    requires { statics + length nodes.old ≤ 2 ^ 31 }
    ensures { nodes.new ≡ numbered_from 0 statics nodes.old }
{
    let mut next = Next {
        of_static: 0,
        of_dynamic: statics,
    };
    for index in 0..nodes.len() {
        let number = next.take(nodes[index].node.is_static);
        nodes[index].number = number;
    }
}
