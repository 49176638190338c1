//! Parts of JSON values, lent or taken out of them.
ghost use Rattle.std.specs.Prelude.{◌≡◌, ◌≢◌, map, option_map};
ghost use Rattle.serde_json.specs.Find.{get, as_array};
ghost use Rattle.serde_json.specs.View.{view, items_view};
ghost use Rattle.tk_plan_json.specs.Contents.{listed};

use serde_json::Value;
use std::alloc::Global;

/// The items of an array.
pub(crate) fn items_in(value: &Value) -> Option<&[Value]>
    ensures { option_map (λ vs. items_view vs.now) result ≡ as_array (view value.now) }
{
    match value {
        Value::Array(items) => Some(items.as_slice()),
        _ => None,
    }
}

/// Takes the values of two members out of an object, and drops all else of it.
pub fn into_members(object: Value, first: &str, second: &str) -> (Option<Value>, Option<Value>)
    requires { first.now ≢ second.now }
    ensures of_first { option_map view result.0 ≡ get first.now (view object) }
    ensures of_second { option_map view result.1 ≡ get second.now (view object) }
{
    let Value::Object(mut members) = object else {
        return (None, None);
    };
    let of_first = members.remove(first);
    let of_second = members.remove(second);
    (of_first, of_second)
}

/// Takes the items out of an array. Anything else has none.
pub fn into_items(alloc: Global, value: Option<Value>) -> Vec<Value>
    ensures { map view result.items ≡ listed (option_map view value) }
{
    let Some(value) = value else {
        return Vec::new(alloc);
    };
    match value {
        Value::Array(items) => items,
        _ => Vec::new(alloc),
    }
}
