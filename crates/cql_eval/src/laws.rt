//! A law of the cost of columns, for readers of their bounds.
ghost use Rattle.std.specs.Prelude.{◌≡◌, ℕ};
ghost use Rattle.cql_syntax.specs.Trees.{FilterTrees};
ghost use Rattle.cql_eval.specs.AtomsAround.{looks_in};
ghost use Rattle.cql_columns.specs.Costs.{filters_cost};

/// The greatest cost of flat filters is a sum over the atoms of their lines. Each atom costs a look at each searched node, 64 times for
/// each `square` around it. The equation holds of all filters, but a family counts nothing in it, and flat filters have none.
#[tactic(auto, using(crate::proofs::CostSums::costs_are_looks))]
pub fn costs_are_sums()
    ensures { (searched : ℕ) (items : FilterTrees) → filters_cost searched items ≡ looks_in searched items }
{}
