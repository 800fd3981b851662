//! Looking into a value that may be absent, as a member of an object may be.

ghost use Rattle.std.specs.Prelude.{◌≡◌, option_map};
ghost use Rattle.serde_json.specs.View.{view, items_view, members_view};
ghost use Rattle.json_text.specs.Look.{unless_null, text_in, whole_in, boolean_in, items_in, object_in};

use serde_json::{Map, Value};

/// The value, absent also where it is null.
pub fn unless_null<'v>(value: Option<&'v Value>) -> Option<&'v Value>
    ensures { option_map (λ v. view v.now) result
        ≡ unless_null (option_map (λ v. view v.now) value.entry) }
{
    match value {
        Some(value) if !value.is_null() => Some(value),
        _ => None,
    }
}

/// The text that the value is; absent where it is none.
pub fn text_in<'v>(value: Option<&'v Value>) -> Option<&'v str>
    ensures { option_map (λ s. s.now) result ≡ text_in (option_map (λ v. view v.now) value.entry) }
{
    match value {
        Some(value) => value.as_str(),
        None => None,
    }
}

/// The whole number from 0 to 2^64 - 1 that the value is; absent where it is none.
pub fn whole_in(value: Option<&Value>) -> Option<u64>
    ensures { result ≡ whole_in (option_map (λ v. view v.now) value.entry) }
{
    match value {
        Some(value) => value.as_u64(),
        None => None,
    }
}

/// The boolean that the value is; absent where it is none.
pub fn boolean_in(value: Option<&Value>) -> Option<bool>
    ensures { result ≡ boolean_in (option_map (λ v. view v.now) value.entry) }
{
    match value {
        Some(value) => value.as_bool(),
        None => None,
    }
}

/// The items of the array that the value is; absent where it is none.
pub fn items_in<'v>(value: Option<&'v Value>) -> Option<&'v Vec<Value>>
    ensures { option_map (λ v. items_view v.now.items) result
        ≡ items_in (option_map (λ v. view v.now) value.entry) }
{
    match value {
        Some(value) => value.as_array(),
        None => None,
    }
}

/// The members of the object that the value is; absent where it is none.
pub fn object_in<'v>(value: Option<&'v Value>) -> Option<&'v Map<String, Value>>
    ensures { option_map (λ m. members_view m.now.entries) result
        ≡ object_in (option_map (λ v. view v.now) value.entry) }
{
    match value {
        Some(value) => value.as_object(),
        None => None,
    }
}
