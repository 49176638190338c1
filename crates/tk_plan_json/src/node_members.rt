//! The members of a node.
ghost use Rattle.std.specs.Prelude.{◌≡◌};
ghost use Rattle.tk_plan_json.specs.steps.Fields.{AreMembers};

use serde_json::Value;

/// The value of a node, and those of its members, each of which may be missing. The member `files`
/// is looked for in the value, since only a node of a plan of version 2 may have it.
#[derive(Clone, Copy, Drop)]
pub(crate) struct NodeMembers<'v> {
    pub value: &'v Value,
    pub dtype: Option<&'v Value>,
    pub segment: Option<&'v Value>,
    pub name: Option<&'v Value>,
    pub mode: Option<&'v Value>,
    pub isolated: Option<&'v Value>,
    pub locks: Option<&'v Value>,
    pub skip: Option<&'v Value>,
    pub result: Option<&'v Value>,
    pub entries: Option<&'v Value>,
    pub children: Option<&'v Value>,
    pub dynamic: Option<&'v Value>,
}

impl<'v> NodeMembers<'v> {
    /// Finds the members of a node in one pass.
    pub fn of(value: &'v Value) -> NodeMembers<'v>
        ensures value { result.value.now ≡ value.now }
        ensures members { AreMembers result }
    {
        let mut found = NodeMembers {
            value,
            dtype: None,
            segment: None,
            name: None,
            mode: None,
            isolated: None,
            locks: None,
            skip: None,
            result: None,
            entries: None,
            children: None,
            dynamic: None,
        };
        let Value::Object(members) = value else {
            return found;
        };
        for (name, member) in members {
            match name.as_str() {
                "type" => found.dtype = Some(member),
                "segment" => found.segment = Some(member),
                "name" => found.name = Some(member),
                "mode" => found.mode = Some(member),
                "isolated" => found.isolated = Some(member),
                "locks" => found.locks = Some(member),
                "skip" => found.skip = Some(member),
                "result" => found.result = Some(member),
                "entries" => found.entries = Some(member),
                "children" => found.children = Some(member),
                "dynamic" => found.dynamic = Some(member),
                _ => continue,
            }
        }
        found
    }
}
