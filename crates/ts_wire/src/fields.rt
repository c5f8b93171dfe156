//! A head has a list of fields, each with a name in lower case and a value.
ghost use Rattle.std.specs.Prelude.{◌≡◌, ◌++◌, ◌∷◌, [], not, filter, bytes_eq, IfOk, OnOk, OnErr};
ghost use Rattle.ts_wire.specs.FieldList.{is_named};
ghost use Rattle.ts_wire.specs.OneHead.{MayAdd, MayRemove};

use http_header::{HeaderName, HeaderValue};
use std::alloc::Global;
use std::marker::Model;
use ts_link::NoMemory;

/// A field of a head: a name, which is in lower case, and a value.
#[derive(Drop)]
pub struct Field {
    pub name: HeaderName,
    pub value: HeaderValue,
}

impl Field {
    /// A field with the same name and value.
    pub fn copy(&self) -> Result<Field, NoMemory>
        ensures { IfOk result (λ f. f ≡ self.now) }
    {
        let name = self.name.clone()?;
        let value = self.value.clone()?;
        Ok(Field { name, value })
    }
}

/// The fields of a head in their order. A contract sees the list of them.
#[derive(Drop)]
pub struct Fields {
    list: Vec<Field>,
}

impl Model for Fields {
    ghost use Rattle.std.specs.Prelude.{List};
    ghost use Rattle.ts_wire.specs.declared.fields.Field.{Field};

    ghost Value = { List Field };

    ghost view = { λ f. f.list.items };
}

impl Fields {
    /// No fields.
    pub fn new(alloc: Global) -> Fields
        ensures { result ≡ [] }
    {
        Fields {
            list: Vec::new(alloc),
        }
    }

    /// No fields, with room for this many.
    pub(crate) fn with_room(alloc: Global, count: usize) -> Result<Fields, NoMemory>
        ensures { IfOk result (λ fields. fields ≡ []) }
    {
        Ok(Fields {
            list: Vec::with_capacity(alloc, count)?,
        })
    }

    /// The fields.
    pub fn items(&self) -> &[Field]
        ensures { result.now ≡ self.now }
    {
        self.list.as_slice()
    }

    /// Puts a field at the end.
    pub fn push(&mut self, field: Field) -> Result<(), NoMemory>
        ensures ok { OnOk result (self.new ≡ self.old ++ field ∷ []) }
        ensures err { OnErr result (self.new ≡ self.old) }

        // A header rule that adds a field of a free name leaves the framing and Host alone.
        ensures rule { OnOk result (MayAdd self.old field self.new) }
    {
        self.list.push(field)?;
        Ok(())
    }

    /// Removes every field of the name, and keeps the order of the rest.
    pub fn remove_all(&mut self, name: &HeaderName)
        ensures removed { self.new ≡ filter (λ f. not (is_named name.now f)) self.old }

        // So does one that removes a free name.
        ensures rule { MayRemove self.old name.now self.new }
    {
        remove_named(&mut self.list, name);
    }
}

fn has_other_name(field: &Field, name: &HeaderName) -> bool
    ensures { result ≡ not (is_named name.now field.now) }
{
    field.name.as_bytes() != name.as_bytes()
}

fn remove_named(list: &mut Vec<Field>, name: &HeaderName)
    ensures { list.new.items ≡ filter (λ f. not (is_named name.now f)) list.old.items }
{
    list.retain(|field| has_other_name(field, name));
}
