//! Arrays of two items, and the fronts of texts.
ghost use Rattle.std.specs.Prelude.{◌≡◌, ◌++◌, ℕ, List, true, false, option_map, IfSome, IfNone, IfOk};
ghost use Rattle.serde_json.specs.Data.{array, item, no_items};
ghost use Rattle.serde_json.specs.View.{view};
ghost use Rattle.entries.specs.Items.{pair_in};

use json_tree::NoMemory;
use serde_json::Value;
use std::alloc::Global;

/// The items of an array of two.
pub(crate) fn pair_of(value: &Value) -> Option<(&Value, &Value)>
    ensures { option_map (λ pair. (view pair.0.now, view pair.1.now)) result ≡ pair_in (view value.now) }
{
    let items = value.as_array()?.as_slice();
    if items.len() != 2 {
        return None;
    }
    Some((&items[0], &items[1]))
}

/// The array of these two.
pub(crate) fn pair(alloc: Global, first: Value, second: Value) -> Result<Value, NoMemory>
    ensures { IfOk result (λ value. view value ≡ array (item (view first) (item (view second) no_items))) }
{
    let mut items = Vec::with_capacity(alloc, 2)?;
    items.push(first)?;
    items.push(second)?;
    Ok(Value::Array(items))
}

/// Two texts are the same.
pub(crate) fn same(one: &[u8], other: &[u8]) -> bool
    ensures same { result ≡ true → one.now ≡ other.now }
    ensures apart { result ≡ false → one.now ≡ other.now → ⊥ }
{
    one == other
}

/// What stands behind a front that a text begins with.
pub(crate) fn behind<'a>(text: &'a [u8], front: &[u8]) -> Option<&'a [u8]>
    ensures some { IfSome result (λ rest. text.now ≡ front.now ++ rest.now) }
    ensures none { IfNone result ((rest : List ℕ) → text.now ≡ front.now ++ rest → ⊥) }
{
    text.strip_prefix(front)
}
