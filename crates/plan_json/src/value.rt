//! Texts as JSON: items of lists and members of objects.

ghost use Rattle.std.specs.Prelude.{◌≡◌, ◌++◌, ◌∷◌, [], IfOk, OnOk, map, string_bytes};
ghost use Rattle.serde_json.specs.Data.{string, put as with_member};
ghost use Rattle.serde_json.specs.View.{view, members_view};
ghost use Rattle.plan_json.specs.Values as spec;

use serde_json::{Map, Value, push, put};
use std::alloc::{AllocError, Global};

/// Adds a text to a list.
pub fn push_text(alloc: Global, list: &mut Vec<Value>, text: &str) -> Result<(), AllocError>
    ensures { OnOk result (map view list.new.items ≡ map view list.old.items ++ string text.now ∷ []) }
{
    push(list, Value::try_from_str(alloc, text)?)
}

/// A list of texts.
pub fn texts_value(alloc: Global, texts: &[String]) -> Result<Value, AllocError>
    ensures { IfOk result (λ v. view v ≡ spec.texts_data (map string_bytes texts.now)) }
{
    let mut list = Vec::new(alloc);
    for text in texts {
        push_text(alloc, &mut list, text.as_str())?;
    }
    Ok(Value::Array(list))
}

/// Adds a text to an object.
pub fn put_text(
    alloc: Global,
    members: &mut Map<String, Value>,
    key: &str,
    text: &str,
) -> Result<(), AllocError>
    ensures { OnOk result (members_view members.new.entries ≡ with_member key.now (string text.now) (members_view members.old.entries)) }
{
    put(members, alloc, key, Value::try_from_str(alloc, text)?)
}

/// Adds a list of texts to an object.
pub fn put_texts(
    alloc: Global,
    members: &mut Map<String, Value>,
    key: &str,
    texts: &[String],
) -> Result<(), AllocError>
    ensures { OnOk result (members_view members.new.entries ≡ with_member key.now (spec.texts_data (map string_bytes texts.now)) (members_view members.old.entries)) }
{
    put(members, alloc, key, texts_value(alloc, texts)?)
}
