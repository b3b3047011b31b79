//! The object of a record, written field by field.
ghost use Rattle.std.specs.Prelude.{◌≡◌, IfOk, OnOk};
ghost use Rattle.std.specs.List.{AllByRecursion};
ghost use Rattle.serde_json.specs.Data.{object, string, no_members, put as with_member};
ghost use Rattle.serde_json.specs.View.{view, members_view};
ghost use Rattle.record_texts.specs.Fields.{whole, maybe, lines, IfThere};

use crate::field::{maybe_number, maybe_text, text_value, texts_value};
use crate::whole::Whole;
use key_texts::textual::Textual;
use serde_json::{Map, Value};
use std::alloc::{AllocError, Global};

/// The fields that were written so far. Each call takes them and gives them back with one more, so that a record's writer has
/// none to drop where it fails: its proof would follow each drop.
#[derive(Drop)]
pub(crate) struct Fields {
    alloc: Global,
    members: Map<String, Value>,
}

impl Fields {
    pub(crate) fn new(alloc: Global) -> Fields
        ensures { members_view result.members.entries ≡ no_members }
    {
        Fields {
            alloc,
            members: Map::new(alloc),
        }
    }

    pub(crate) fn value(self, name: &str, value: Value) -> Result<Fields, AllocError>
        ensures { IfOk result (λ fields. members_view fields.members.entries ≡ with_member name.now (view value)
            (members_view self.members.entries)) }
    {
        let mut members = self.members;
        serde_json::put(&mut members, self.alloc, name, value)?;
        Ok(Fields {
            alloc: self.alloc,
            members,
        })
    }

    pub(crate) fn number(self, name: &str, number: u64) -> Result<Fields, AllocError>
        ensures { IfOk result (λ fields. members_view fields.members.entries ≡ with_member name.now (whole number)
            (members_view self.members.entries)) }
    {
        self.value(name, Value::from(number))
    }

    /// A number, or null.
    pub(crate) fn maybe_number<N: Whole>(
        self,
        name: &str,
        number: &Option<N>,
    ) -> Result<Fields, AllocError>
        ensures members { IfOk result (λ fields. members_view fields.members.entries ≡ with_member name.now
            (maybe (λ x. whole (N.number_of x)) number.now) (members_view self.members.entries)) }
        ensures valid { OnOk result (IfThere N.valid number.now) }
    {
        self.value(name, maybe_number(number))
    }

    pub(crate) fn string(self, name: &str, text: &str) -> Result<Fields, AllocError>
        ensures { IfOk result (λ fields. members_view fields.members.entries ≡ with_member name.now (string text.now)
            (members_view self.members.entries)) }
    {
        let value = Value::try_from_str(self.alloc, text)?;
        self.value(name, value)
    }

    pub(crate) fn text<T: Textual>(self, name: &str, text: &T) -> Result<Fields, AllocError>
        ensures members { IfOk result (λ fields. members_view fields.members.entries ≡ with_member name.now (string (T.text_of text.now))
            (members_view self.members.entries)) }
        ensures valid { OnOk result (T.valid text.now) }
    {
        let value = text_value(self.alloc, text)?;
        self.value(name, value)
    }

    /// A text, or null.
    pub(crate) fn maybe_text<T: Textual>(
        self,
        name: &str,
        text: &Option<T>,
    ) -> Result<Fields, AllocError>
        ensures members { IfOk result (λ fields. members_view fields.members.entries ≡ with_member name.now
            (maybe (λ x. string (T.text_of x)) text.now) (members_view self.members.entries)) }
        ensures valid { OnOk result (IfThere T.valid text.now) }
    {
        let value = maybe_text(self.alloc, text)?;
        self.value(name, value)
    }

    /// The list of these texts.
    pub(crate) fn texts<T: Textual>(self, name: &str, texts: &[T]) -> Result<Fields, AllocError>
        ensures members { IfOk result (λ fields. members_view fields.members.entries ≡ with_member name.now (lines T.text_of texts.now)
            (members_view self.members.entries)) }
        ensures valid { OnOk result (AllByRecursion T.valid texts.now) }
    {
        let value = texts_value(self.alloc, texts)?;
        self.value(name, value)
    }

    pub(crate) fn into_object(self) -> Value
        ensures { view result ≡ object (members_view self.members.entries) }
    {
        Value::Object(self.members)
    }
}
