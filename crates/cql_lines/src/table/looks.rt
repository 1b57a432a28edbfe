//! Writes and reads of a table of atoms. Nothing else reads its bits, and each read counts a step.
ghost use Rattle.std.specs.Prelude.{◌≡◌, ℕ, ◌+◌, ◌<◌, ◌≤◌, ◌||◌, true, false, IfOk, replicate};
ghost use Rattle.cql_lines.specs.Internal.Lengths.{is_set, at};
ghost use Rattle.cql_lines.specs.Limits.{most_nodes};
ghost use Rattle.cql_lines.specs.Tables.{atoms_of, nodes_of, words_of, holds_in};

use crate::table::AtomTable;
use cq_common::{NoMemory, Steps};
use std::alloc::Global;
use std::marker::PhantomData;
use std::sync::ledger::Ledger;

impl<L: Ledger> AtomTable<L> {
    /// Returns a table of at most 64 atoms and 65,536 nodes, in which no atom holds at any node.
    ///
    /// # Errors
    ///
    /// `NoMemory` if out of memory.
    pub fn new(alloc: Global, atoms: u32, nodes: u32) -> Result<AtomTable<L>, NoMemory>
        requires atoms { atoms ≤ 64 }
        requires nodes { nodes ≤ most_nodes }
        ensures atoms { IfOk result (λ table. atoms_of table ≡ atoms) }
        ensures bits { IfOk result (λ table. words_of table ≡ replicate nodes 0) }
    {
        let words = vec![in alloc; 0; nodes as usize]?;
        Ok(AtomTable {
            atoms,
            words,
            counted_by: PhantomData,
        })
    }

    /// Sets an atom to hold at a node.
    #[tactic(auto, using(crate::proofs::Puts::put_here, crate::proofs::Puts::put_there))]
    pub fn put(&mut self, atom: u32, node: u32)
        requires atom { atom < atoms_of self.old }
        requires node { node < nodes_of self.old }
        ensures here { holds_in self.new atom node ≡ true }
        ensures others { (a n : ℕ) → ((a ≡ atom) × (n ≡ node) → ⊥)
            → holds_in self.new a n ≡ holds_in self.old a n }
        ensures size { (atoms_of self.new ≡ atoms_of self.old) × (nodes_of self.new ≡ nodes_of self.old) }
    {
        let word = with_bit(self.words[node as usize], atom, true);
        self.words[node as usize] = word;
    }

    /// Returns true if an atom holds at a node. Takes one step of the counter.
    pub fn look(&self, atom: u32, node: u32, steps: &mut Steps<L>) -> bool
        requires atom { atom < atoms_of self.now }
        requires node { node < nodes_of self.now }
        ensures held { result ≡ holds_in self.now atom node }
        ensures step { steps.new ≡ steps.old + 1 }
    {
        steps.tick();
        (self.words[node as usize] >> atom) & 1 == 1
    }

    /// Returns all atoms that hold at a node, bit k for atom k. Takes one step for each atom of the table.
    pub(crate) fn held(&self, node: usize, steps: &mut Steps<L>) -> u64
        requires node { node < nodes_of self.now }
        ensures held { (a : ℕ) → a < atoms_of self.now → is_set result a ≡ holds_in self.now a node }
        ensures cost { steps.new ≡ steps.old + atoms_of self.now }
    {
        let mut mask = 0;
        for atom in 0..self.atoms {
            let holds = self.look(atom, node as u32, steps);
            mask = with_bit(mask, atom, holds);
        }
        mask
    }

    /// Returns the number of atoms.
    pub fn atoms(&self) -> u32
        ensures { result ≡ atoms_of self.now }
    {
        self.atoms
    }

    /// Returns the number of nodes.
    pub fn nodes(&self) -> usize
        ensures { result ≡ nodes_of self.now }
    {
        self.words.len()
    }
}

// The mask, with the atom added if it holds.
fn with_bit(mask: u64, atom: u32, holds: bool) -> u64
    requires { atom < 64 }
    ensures set { is_set result atom ≡ (holds || is_set mask atom) }
    ensures beside { (a : ℕ) → (a ≡ atom → ⊥) → is_set result a ≡ is_set mask a }
    ensures others { (a : ℕ) → a < atom → is_set result a ≡ is_set mask a }
    ensures above { (a : ℕ) → atom < a → is_set mask a ≡ false → is_set result a ≡ false }
{
    if holds { mask | (1 << atom) } else { mask }
}
