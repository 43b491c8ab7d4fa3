//! What is declared around a walk.
ghost use Rattle.std.specs.Prelude.{◌≡◌, [], IfOk, Option, Some, None};
ghost use Rattle.ml_scope.specs.Names.{find, spelling};
ghost use Rattle.ml_scope.specs.Uses.{constructor_of, constant, field_of, fields_of, first_of};

use crate::meaning::Meaning;
use crate::scope::Scope;
use ml_tree::{ConName, Ref};
use oxml_base::{Items, NoMemory, Span};
use std::alloc::Global;
use std::marker::Model;

/// The text of a program, and what its items have declared so far.
#[derive(Drop)]
pub struct Known<'a> {
    pub alloc: Global,
    pub text: &'a [u8],
    pub constructors: Scope,
    pub fields: Scope,
    pub types: Scope,
}

impl<'a> Model for Known<'a> {
    ghost use Rattle.ml_scope.specs.Names.{Known};

    ghost Value = { Known };

    ghost view = { λ k. record { text = k.text.now; constructors = k.constructors; fields = k.fields; types = k.types } };
}

/// The bytes at a place of a text.
pub fn spelling(text: &[u8], place: Span) -> &[u8]
    ensures { result.now ≡ spelling text.now place }
{
    let end = (place.end as usize).min(text.len());
    let start = (place.start as usize).min(end);
    &text[start..end]
}

/// A constant of a predefined type.
fn constant(declaration: u32, place: u32) -> Meaning
    ensures { result ≡ constant declaration place }
{
    Meaning {
        target: Ref::Con(declaration, place),
        declaration,
        place,
        parts: 0,
    }
}

impl<'a> Known<'a> {
    pub fn alloc(&self) -> Global {
        self.alloc
    }

    /// The bytes of a name.
    pub fn spelling(&self, place: Span) -> &[u8]
        ensures { result.now ≡ spelling self.now.text place }
    {
        spelling(self.text, place)
    }

    /// The declaration that a name of a type means.
    pub fn named_type(&self, name: Span) -> Option<Meaning>
        ensures { result ≡ find self.now.types (spelling self.now.text name) }
    {
        self.types.find(spelling(self.text, name))
    }

    /// What a constructor means; the constants are numbered as the predefined declarations are.
    pub fn constructor(&self, name: ConName) -> Option<Meaning>
        ensures { result ≡ constructor_of self.now name }
    {
        match name {
            ConName::Named(place) => self.constructors.find(spelling(self.text, place)),
            ConName::True => Some(constant(3, 1)),
            ConName::False => Some(constant(3, 0)),
            ConName::Unit => Some(constant(4, 0)),
            ConName::Nil => Some(constant(5, 0)),
        }
    }

    /// What the name of a field means.
    pub fn field(&self, name: Span) -> Option<Meaning>
        ensures { result ≡ field_of self.now name }
    {
        self.fields.find(spelling(self.text, name))
    }

    /// What the first of the names of fields means.
    pub fn first_field(&self, names: &[Span]) -> Option<Meaning>
        ensures { result ≡ first_of self.now names.now }
    {
        match names.first() {
            None => None,
            Some(name) => self.field(*name),
        }
    }

    /// What all of these names of fields mean; `None` where one of them means nothing.
    pub fn all_fields(&self, names: &[Span]) -> Result<Option<Items<Meaning>>, NoMemory>
        ensures { IfOk result (λ all. all ≡ fields_of self.now names.now []) }
    {
        let mut list = Items::new(self.alloc);
        for name in names {
            match self.field(*name) {
                None => return Ok(None),
                Some(meaning) => list.push(meaning)?,
            }
        }
        Ok(Some(list))
    }
}
