//! Values that stand for nodes, and where they stand.
ghost use Rattle.std.specs.Prelude.{◌≡◌, flat_map};
ghost use Rattle.tk_plan_json.specs.Checks.{escape};
ghost use Rattle.tk_plan_json.specs.steps.CodeValues.{member_name, has_static};

use crate::members::json_paths::JsonPath;
use serde_json::Value;
use tk_ids::UniqueId;

/// Where a node stands.
#[derive(Clone, Copy, Drop)]
pub(crate) struct NodePlace<'a> {
    pub path: JsonPath<'a>,
    /// The root has level 1.
    pub level: u32,
    pub is_static: bool,
    /// Whether the plan is of version 2, in which a node may have files.
    pub takes_files: bool,
    /// The parent's id.
    pub above: Option<&'a UniqueId>,
}

/// A value that stands for a node.
#[derive(Clone, Copy, Drop)]
pub(crate) struct NodeInput<'a> {
    pub place: NodePlace<'a>,
    pub value: &'a Value,
}

/// A member whose items stand for the nodes below a node.
#[derive(Clone, Copy, Drop)]
pub(crate) enum BelowMember {
    /// The static nodes.
    Children,
    /// The dynamic ones.
    Dynamic,
}

impl BelowMember {
    /// The member's name, which needs no escape.
    pub fn name(self) -> &'static str
        ensures name { result.now ≡ member_name self }
        ensures plain { flat_map escape result.now ≡ result.now }
    {
        match self {
            BelowMember::Children => "children",
            BelowMember::Dynamic => "dynamic",
        }
    }

    /// Whether the nodes in the member are static.
    pub fn is_static(self) -> bool
        ensures { result ≡ has_static self }
    {
        match self {
            BelowMember::Children => true,
            BelowMember::Dynamic => false,
        }
    }
}
