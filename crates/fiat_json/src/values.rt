ghost use Rattle.std.specs.Prelude.{◌≡◌, ◌≤◌, option_map, length, IfSome};
ghost use Rattle.serde_json.specs.View.{view, items_view};
ghost use Rattle.fiat_json.specs.Shape.{list_of, text_in, list_in};
ghost use Rattle.fiat_json.specs.Widths.{widest};

use serde_json::Value;

/// The text under a key of an object.
pub fn text_at<'v>(value: &'v Value, key: &str) -> Option<&'v str>
    ensures { option_map (λ s. s.now) result ≡ text_in key.now (view value.now) }
{
    value.get(key)?.as_str()
}

/// The items of the array under a key of an object.
#[tactic(auto, using(crate::proofs::ListWidths::list_width))]
pub fn list_at<'v>(value: &'v Value, key: &str) -> Option<&'v [Value]>
    ensures list { option_map (λ list. list_of (items_view list.now)) result ≡ list_in key.now (view value.now) }
    ensures width { IfSome result (λ list. length list.now ≤ widest (view value.now)) }
{
    Some(value.get(key)?.as_array()?.as_slice())
}
