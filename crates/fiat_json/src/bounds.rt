ghost use Rattle.std.specs.Prelude.{◌≡◌, [], ◌∷◌, option_map, IfOk};
ghost use Rattle.serde_json.specs.View.{view, items_view};
ghost use Rattle.fiat_json.specs.Shape.{list_of, texts_from, bound_texts, bounds_said};

use serde_json::Value;
use std::alloc::{AllocError, Global};
use word_program::{Items, Text, Texts};

/// The texts of an array, where each of its items is one.
pub fn texts_in(alloc: Global, list: &[Value]) -> Result<Option<Texts>, AllocError>
    ensures { IfOk result (λ found. found ≡ texts_from [] (list_of (items_view list.now))) }
{
    let mut texts = Items::new(alloc);
    for value in list {
        let Some(text) = value.as_str() else {
            return Ok(None);
        };
        texts.push(Text::from_str(alloc, text)?)?;
    }
    Ok(Some(texts))
}

/// The texts of a list of bounds, which is a text or an array of texts.
fn bound_texts(alloc: Global, value: &Value) -> Result<Option<Texts>, AllocError>
    ensures { IfOk result (λ found. found ≡ bound_texts (view value.now)) }
{
    if let Some(text) = value.as_str() {
        let mut texts = Items::new(alloc);
        texts.push(Text::from_str(alloc, text)?)?;
        return Ok(Some(texts));
    }
    match value.as_array() {
        Some(list) => texts_in(alloc, list.as_slice()),
        None => Ok(None),
    }
}

/// The texts of a list of bounds that may be missing.
pub fn bounds_said(
    alloc: Global,
    value: Option<&Value>,
) -> Result<Option<Option<Texts>>, AllocError>
    ensures { IfOk result (λ found. found ≡ bounds_said (option_map (λ v. view v.now) value.entry)) }
{
    let Some(value) = value else {
        return Ok(Some(None));
    };
    match bound_texts(alloc, value)? {
        Some(texts) => Ok(Some(Some(texts))),
        None => Ok(None),
    }
}
