//! The names of an object's members.
ghost use Rattle.std.specs.Prelude.{◌≡◌, map};
ghost use Rattle.serde_json.specs.View.{view, members_view};
ghost use Rattle.script_events.specs.Json.{are_named_so, is_name_of, is_object_of};

use serde_json::{Map, Value};

/// Whether the value is an object with members of these names alone.
pub(crate) fn has_only(value: &Value, names: &[&str]) -> bool
    ensures { result ≡ is_object_of (map (λ name. name.now) names.now) (view value.now) }
{
    let Some(members) = value.as_object() else {
        return false;
    };
    members_have_only(members, names)
}

/// Whether the members have these names alone.
fn members_have_only(members: &Map<String, Value>, names: &[&str]) -> bool
    ensures { result ≡ are_named_so (map (λ name. name.now) names.now) (members_view members.now.entries) }
{
    for (name, _) in members.iter() {
        if !is_one_of(name.as_str(), names) {
            return false;
        }
    }
    true
}

/// Whether the name is one of these.
fn is_one_of(name: &str, names: &[&str]) -> bool
    ensures { result ≡ is_name_of (map (λ name. name.now) names.now) name.now }
{
    for other in names {
        if name == *other {
            return true;
        }
    }
    false
}
