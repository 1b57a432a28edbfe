//! The squares bound to names.
ghost use Rattle.std.specs.Prelude.{◌≡◌, ◌<◌, [], ◌∷◌, length, drop, IfOk, OnOk, OnErr};
ghost use Rattle.cql_syntax.specs.Meaning.{is_bound_to};
ghost use Rattle.cql_syntax.specs.Values.{squares_where};
ghost use Rattle.cql_values.specs.Bindings.{rebound};
ghost use Rattle.cql_values.specs.ValueModel.{as_value};

use crate::value::Value;
use cq_common::{Bytes, NoMemory};
use cq_geometry::Square;
use std::alloc::Global;
use std::marker::Model;

/// The squares bound to names. In contracts it is a list of both, the innermost binding first.
#[derive(Drop)]
pub struct Names {
    alloc: Global,
    pairs: Vec<(Bytes, Square)>,
}

impl Model for Names {
    ghost use Rattle.std.specs.Prelude.{ℕ, List};
    ghost use Rattle.cql_values.specs.Names.{names_inside};

    ghost Value = { List (List ℕ × ℕ) };

    ghost view = { names_inside };
}

impl Names {
    /// Returns no bindings. Takes no memory.
    pub fn new(alloc: Global) -> Names
        ensures { result ≡ [] }
    {
        Names {
            alloc,
            pairs: Vec::new(alloc),
        }
    }

    /// Binds a name to a square, inside all bindings that there are.
    ///
    /// # Errors
    ///
    /// `NoMemory` if out of memory. The bindings are then unchanged.
    pub fn bind(&mut self, name: &[u8], s: Square) -> Result<(), NoMemory>
        ensures ok { OnOk result (self.new ≡ (name.now, s) ∷ self.old) }
        ensures err { OnErr result (self.new ≡ self.old) }
    {
        let name = Bytes::from_slice(self.alloc, name)?;
        self.pairs.push((name, s))?;
        Ok(())
    }

    /// Binds the innermost name to another square. At least one name is bound.
    pub fn rebind(&mut self, s: Square)
        requires { 0 < length self.old }
        ensures { self.new ≡ rebound self.old s }
    {
        let last = self.pairs.len() - 1;
        self.pairs[last].1 = s;
    }

    /// Drops the innermost binding. At least one name is bound.
    pub fn unbind(&mut self)
        requires { 0 < length self.old }
        ensures { self.new ≡ drop 1 self.old }
    {
        let kept = self.pairs.len() - 1;
        self.pairs.truncate(kept);
    }

    /// Returns the same bindings with one more inside of them.
    ///
    /// # Errors
    ///
    /// `NoMemory` if out of memory.
    pub fn with(&self, alloc: Global, name: &[u8], s: Square) -> Result<Names, NoMemory>
        ensures { IfOk result (λ inner. inner ≡ (name.now, s) ∷ self.now) }
    {
        let mut inner = self.copy(alloc)?;
        inner.bind(name, s)?;
        Ok(inner)
    }

    /// Returns the same bindings.
    ///
    /// # Errors
    ///
    /// `NoMemory` if out of memory.
    pub fn copy(&self, alloc: Global) -> Result<Names, NoMemory>
        ensures { IfOk result (λ same. same ≡ self.now) }
    {
        let mut copied = Names::new(alloc);
        for pair in self.pairs.as_slice() {
            copied.bind(pair.0.as_slice(), pair.1)?;
        }
        Ok(copied)
    }

    /// Returns the square that is bound to a name, as a set. The set is empty if the name isn't bound.
    pub fn squares_of(&self, name: &[u8]) -> Value
        ensures { as_value result ≡ squares_where (is_bound_to self.now name.now) }
    {
        let mut kept = self.pairs.len();
        while kept > 0 {
            kept -= 1;
            if self.pairs[kept].0.as_slice() == name {
                return Value::Set(1 << self.pairs[kept].1.number());
            }
        }
        Value::Set(0)
    }
}
