//! The fields of a record's object.
ghost use Rattle.std.specs.Prelude.{◌≡◌, true, Bool, List, [], ◌∷◌, ◌++◌, Option, Some, option_map, map, IfOk, OnOk};
ghost use Rattle.std.specs.List.{AllByRecursion};
ghost use Rattle.serde_json.specs.Data.{boolean, string};
ghost use Rattle.serde_json.specs.Find.{get};
ghost use Rattle.serde_json.specs.View.{view, items_view};
ghost use Rattle.keyed_rows.specs.Sorted.{is_in_order, IsInOrder};
ghost use Rattle.scope_filters.specs.Scopes.{scope_text};
ghost use Rattle.scope_filters.specs.declared.scope.RawScope.{RawScope};
ghost use Rattle.hub_rows.specs.SharedScopes.{scope_cmp};
ghost use Rattle.record_texts.specs.Fields.{whole, maybe, strings, lines, IfThere};
ghost use Rattle.key_texts.specs.Finds.{Finds};
ghost use Rattle.key_texts.specs.KeyTexts.{IsScope};

use crate::whole::Whole;
use hub_kit::key::Key;
use hub_kit::list::List;
use hub_rows::shared_scopes::SharedScopes;
use key_texts::textual::Textual;
use key_texts::unread::Unread;
use keyed_rows::sorted::Sorted;
use scope_filters::scope::RawScope;
use serde_json::Value;
use std::alloc::{AllocError, Global};

/// What two readers found. A record's fields are read by twos and the twos put together, so that one early return is left: each
/// drops what was read before it, and the proof follows each drop.
pub(crate) fn both<A: Drop, B: Drop>(
    first: Result<A, Unread>,
    second: Result<B, Unread>,
) -> Result<(A, B), Unread>
    ensures { (a : A) (b : B) → Finds first a → Finds second b → Finds result (a, b) }
{
    match first {
        Ok(first) => match second {
            Ok(second) => Ok((first, second)),
            Err(error) => Err(error),
        },
        Err(error) => Err(error),
    }
}

pub(crate) fn bool_at(value: &Value, name: &str) -> Result<bool, Unread>
    ensures { (b : Bool) → get name.now (view value.now) ≡ Some (boolean b) → Finds result b }
{
    match value.get(name).and_then(Value::as_bool) {
        Some(found) => Ok(found),
        None => Err(Unread::Bad),
    }
}

pub(crate) fn number_at<N: Whole>(value: &Value, name: &str) -> Result<N, Unread>
    ensures { (x : N) → N.valid x → get name.now (view value.now) ≡ Some (whole (N.number_of x)) → Finds result x }
{
    match value.get(name).and_then(Value::as_u64) {
        Some(number) => number_of(number),
        None => Err(Unread::Bad),
    }
}

fn number_of<N: Whole>(number: u64) -> Result<N, Unread>
    ensures { (x : N) → N.valid x → N.number_of x ≡ number → Finds result x }
{
    match N::of_number(number) {
        Some(found) => Ok(found),
        None => Err(Unread::Bad),
    }
}

/// A number, or null.
pub(crate) fn maybe_number_at<N: Whole>(value: &Value, name: &str) -> Result<Option<N>, Unread>
    ensures { (o : Option N) → IfThere N.valid o → get name.now (view value.now) ≡ Some (maybe (λ x. whole (N.number_of x)) o)
        → Finds result o }
{
    let Some(field) = value.get(name) else {
        return Err(Unread::Bad);
    };
    if field.is_null() {
        return Ok(None);
    }
    match field.as_u64() {
        Some(number) => Ok(Some(number_of(number)?)),
        None => Err(Unread::Bad),
    }
}

/// A number, or no member of the name.
pub(crate) fn lacking_number_at<N: Whole>(value: &Value, name: &str) -> Result<Option<N>, Unread>
    ensures { (o : Option N) → IfThere N.valid o → get name.now (view value.now) ≡ option_map (λ x. whole (N.number_of x)) o
        → Finds result o }
{
    match value.get(name).and_then(Value::as_u64) {
        Some(number) => Ok(Some(number_of(number)?)),
        None => Ok(None),
    }
}

/// A number, or null.
pub(crate) fn maybe_number<N: Whole>(number: &Option<N>) -> Value
    ensures value { view result ≡ maybe (λ x. whole (N.number_of x)) number.now }
    ensures valid { IfThere N.valid number.now }
{
    match number {
        Some(number) => Value::from(number.number()),
        None => Value::Null,
    }
}

fn text_in<T: Textual>(alloc: Global, value: &Value) -> Result<T, Unread>
    ensures { (x : T) → T.valid x → view value.now ≡ string (T.text_of x) → Finds result x }
{
    match value.as_str() {
        Some(text) => T::of_text(alloc, text),
        None => Err(Unread::Bad),
    }
}

pub(crate) fn text_at<T: Textual>(alloc: Global, value: &Value, name: &str) -> Result<T, Unread>
    ensures { (x : T) → T.valid x → get name.now (view value.now) ≡ Some (string (T.text_of x)) → Finds result x }
{
    match value.get(name) {
        Some(field) => text_in(alloc, field),
        None => Err(Unread::Bad),
    }
}

/// A text, or null.
pub(crate) fn maybe_text_at<T: Textual>(
    alloc: Global,
    value: &Value,
    name: &str,
) -> Result<Option<T>, Unread>
    ensures { (o : Option T) → IfThere T.valid o → get name.now (view value.now) ≡ Some (maybe (λ x. string (T.text_of x)) o)
        → Finds result o }
{
    let Some(field) = value.get(name) else {
        return Err(Unread::Bad);
    };
    if field.is_null() {
        return Ok(None);
    }
    Ok(Some(text_in(alloc, field)?))
}

pub(crate) fn text_value<T: Textual>(alloc: Global, text: &T) -> Result<Value, AllocError>
    ensures value { IfOk result (λ v. view v ≡ string (T.text_of text.now)) }
    ensures valid { OnOk result (T.valid text.now) }
{
    let text = text.text(alloc)?;
    Value::try_from_str(alloc, text.as_str())
}

/// A text, or null.
pub(crate) fn maybe_text<T: Textual>(alloc: Global, text: &Option<T>) -> Result<Value, AllocError>
    ensures value { IfOk result (λ v. view v ≡ maybe (λ x. string (T.text_of x)) text.now) }
    ensures valid { OnOk result (IfThere T.valid text.now) }
{
    match text {
        Some(text) => text_value(alloc, text),
        None => Ok(Value::Null),
    }
}

/// The list of these texts.
pub(crate) fn texts_value<T: Textual>(alloc: Global, texts: &[T]) -> Result<Value, AllocError>
    ensures value { IfOk result (λ v. view v ≡ lines T.text_of texts.now) }
    ensures valid { OnOk result (AllByRecursion T.valid texts.now) }
{
    let mut items = Vec::new(alloc);
    for text in texts {
        items.push(text_value(alloc, text)?)?;
    }
    Ok(Value::Array(items))
}

/// Adds an item to a list.
pub(crate) fn add<T: Drop>(items: &mut Vec<T>, item: T) -> Result<(), AllocError>
    ensures { OnOk result (items.new.items ≡ items.old.items ++ item ∷ []) }
{
    match items.push(item) {
        Ok(()) => Ok(()),
        Err(_) => Err(AllocError),
    }
}

fn texts_in<T: Textual>(alloc: Global, items: &[Value]) -> Result<List<T>, Unread>
    ensures { (xs : List T) → AllByRecursion T.valid xs → items_view items.now ≡ strings (map T.text_of xs) → Finds result xs }
{
    let mut texts = Vec::new(alloc);
    for item in items {
        let text = match text_in(alloc, item) {
            Ok(text) => text,
            Err(error) => return Err(error),
        };
        add(&mut texts, text)?;
    }
    Ok(List::from_vec(texts))
}

pub(crate) fn texts_at<T: Textual>(
    alloc: Global,
    value: &Value,
    name: &str,
) -> Result<List<T>, Unread>
    ensures { (xs : List T) → AllByRecursion T.valid xs → get name.now (view value.now) ≡ Some (lines T.text_of xs) → Finds result xs }
{
    match value.get(name).and_then(Value::as_array) {
        Some(items) => texts_in(alloc, items),
        None => Err(Unread::Bad),
    }
}

pub(crate) fn sorted_at<K: Key + Copy + Textual>(
    alloc: Global,
    value: &Value,
    name: &str,
) -> Result<Sorted<K>, Unread>
    ensures { (xs : List K) → AllByRecursion K.valid xs → is_in_order K.Ord.cmp xs ≡ true
        → get name.now (view value.now) ≡ Some (lines K.text_of xs) → Finds result xs }
{
    sorted(texts_at(alloc, value, name)?)
}

fn sorted<K: Key + Copy>(keys: List<K>) -> Result<Sorted<K>, Unread>
    ensures { is_in_order K.Ord.cmp keys ≡ true → Finds result keys }
{
    match Sorted::of_ordered(keys.into_vec()) {
        Some(keys) => Ok(keys),
        None => Err(Unread::Bad),
    }
}

/// The scopes of a share.
pub(crate) fn shared_at(alloc: Global, value: &Value, name: &str) -> Result<SharedScopes, Unread>
    ensures { (xs : List RawScope) → AllByRecursion IsScope xs → IsInOrder scope_cmp xs
        → get name.now (view value.now) ≡ Some (lines scope_text xs) → Finds result xs }
{
    shared(alloc, texts_at(alloc, value, name)?)
}

fn shared(alloc: Global, scopes: List<RawScope>) -> Result<SharedScopes, Unread>
    ensures { IsInOrder scope_cmp scopes → Finds result scopes }
{
    match SharedScopes::of_ordered(alloc, scopes)? {
        Some(scopes) => Ok(scopes),
        None => Err(Unread::Bad),
    }
}
