//! Numbers that are read as floats.
ghost use Rattle.std.specs.Prelude.{◌≡◌};
ghost use Rattle.serde_json.specs.View.{view, items_view, members_view};
ghost use Rattle.serde_json.specs.Written as spec;

use serde_json::{Map, Value};

/// Whether a number at any depth is read as a float.
#[cycle(has_float)]
pub(crate) fn has_float(value: &Value) -> bool
    ensures { result ≡ spec.has_float (view value.now) }
{
    match value {
        Value::Null => false,
        Value::Bool(_) => false,
        Value::Number(n) => n.is_f64(),
        Value::String(_) => false,
        Value::Array(items) => items_have_float(items),
        Value::Object(members) => members_have_float(members),
    }
}

#[cycle(has_float)]
fn items_have_float(items: &Vec<Value>) -> bool
    ensures { result ≡ spec.items_have_float (items_view items.now.items) }
{
    for item in items {
        if has_float(item) {
            return true;
        }
    }
    false
}

#[cycle(has_float)]
pub(crate) fn members_have_float(members: &Map<String, Value>) -> bool
    ensures { result ≡ spec.members_have_float (members_view members.now.entries) }
{
    for (_, member) in members.iter() {
        if has_float(member) {
            return true;
        }
    }
    false
}
