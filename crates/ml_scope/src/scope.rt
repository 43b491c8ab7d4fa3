//! The names in scope of one kind, with what they stand for.
ghost use Rattle.std.specs.Prelude.{◌≡◌, ◌∷◌, ◌-◌, ◌≤◌, [], drop, length, None, OnOk};
ghost use Rattle.std.specs.Str.{bytes_eq};
ghost use Rattle.indexmap.specs.IndexMap.{insert_entry};
ghost use Rattle.ml_scope.specs.Names.{find};
ghost use Rattle.ml_scope.specs.Chains.{joined, look_up};

use crate::meaning::Meaning;
use indexmap::IndexMap;
use oxml_base::{Items, NoMemory};
use std::alloc::Global;
use std::marker::Model;

/// A binder: its name, what it stands for, and what the name stood for before it.
#[derive(Drop)]
pub struct Bound {
    name: Vec<u8>,
    meaning: Meaning,
    hidden: Option<Meaning>,
}

/// Names and what they stand for. Contracts see the list of the binders, the nearest first.
///
/// The table has for each name what its nearest binder stands for, so that a name is found at once
/// however many are bound; a binder that goes out of scope gives the name back what it hid.
#[derive(Drop)]
pub struct Scope {
    alloc: Global,
    bound: Vec<Bound>,
    nearest: IndexMap<Vec<u8>, Option<Meaning>>,
}

impl Model for Scope {
    ghost use Rattle.ml_scope.specs.Names.{Env};
    ghost use Rattle.ml_scope.specs.Chains.{seen, look_up, IsChained};

    ghost Value = { Env };

    ghost view = { λ s. seen s.bound.items };

    ghost invariant = { λ s. IsChained s.bound.items (look_up s.nearest.entries (λ key. key.items)) };
}

/// What the table has for a name.
fn nearest(table: &IndexMap<Vec<u8>, Option<Meaning>>, name: &[u8]) -> Option<Meaning>
    ensures { result ≡ joined (look_up table.now.entries (λ key. key.items) name.now) }
{
    match table.get(name) {
        None => None,
        Some(meaning) => *meaning,
    }
}

/// Gives a name in the table the meaning that it had. It takes no memory, since the name is there.
fn give_back(
    table: &mut IndexMap<Vec<u8>, Option<Meaning>>,
    name: Vec<u8>,
    meaning: Option<Meaning>,
)
    requires { look_up table.old.entries (λ key. key.items) name.items ≡ None → ⊥ }
    ensures { table.new.entries ≡ insert_entry (λ x y. bytes_eq x.items y.items) table.old.entries name meaning }
{
    match table.insert(name, meaning) {
        Ok(_) => {}
        Err(_) => {}
    }
}

impl Scope {
    /// No name is in scope.
    pub fn new(alloc: Global) -> Scope
        ensures { result ≡ [] }
    {
        Scope {
            alloc,
            bound: Vec::new(alloc),
            nearest: IndexMap::new(alloc),
        }
    }

    /// How many binders are in scope.
    pub fn len(&self) -> usize
        ensures { result ≡ length self.now }
    {
        self.bound.len()
    }

    /// What the nearest binder of a name stands for; `None` where none is in scope.
    pub fn find(&self, name: &[u8]) -> Option<Meaning>
        ensures { result ≡ find self.now name.now }
    {
        nearest(&self.nearest, name)
    }

    /// One binder more, the nearest.
    pub fn bind(&mut self, name: &[u8], meaning: Meaning) -> Result<(), NoMemory>
        ensures { OnOk result (self.new ≡ (name.now, meaning) ∷ self.old) }
    {
        let hidden = nearest(&self.nearest, name);
        let key = Vec::from_slice(self.alloc, name)?;
        let name = Vec::from_slice(self.alloc, name)?;
        self.bound.push(Bound {
            name,
            meaning,
            hidden,
        })?;
        match self.nearest.insert(key, Some(meaning)) {
            Ok(_) => Ok(()),
            Err(_) => {
                self.bound.pop();
                Err(NoMemory)
            }
        }
    }

    /// Takes the nearest binder out of scope.
    fn unbind(&mut self)
        ensures { self.new ≡ drop 1 self.old }
    {
        match self.bound.pop() {
            None => {}
            Some(
                Bound {
                    name,
                    meaning: _,
                    hidden,
                },
            ) => give_back(&mut self.nearest, name, hidden),
        }
    }

    /// Takes the nearest binders out of scope until `count` are left.
    #[tactic(auto, using(crate::proofs::Tables::left_one_more, crate::proofs::Tables::left_all))]
    pub fn leave(&mut self, count: usize)
        ensures { self.new ≡ drop (length self.old - count) self.old }
    {
        while self.len() > count {
            self.unbind();
        }
    }
}
