//! The parts of several queries, which no program tells.
ghost use Rattle.std.specs.Prelude.{◌≡◌, Bool, ℕ, [], ◌∷◌, length};
ghost use Rattle.cq_position.specs.Games.{Game};
ghost use Rattle.cq_position.specs.Search.{nodes_in};
ghost use Rattle.cql_syntax.specs.Trees.{filter_at, plain};
ghost use Rattle.cql_syntax.specs.declared.leaves.Plain.TheVariants.{Wtm};
ghost use Rattle.cql_values.specs.Trees.{searched_tree};
ghost use Rattle.cq_shared.specs.Matching.{plan_cost};

use crate::plans::read_query;
use cq_common::{NoMemory, Refusal};
use cq_shared::SharedPlan;
use cql_syntax::{QueryFault, TypedQuery};
use std::alloc::Global;
use std::process::Abort;
use std::test::Fail;

// Returns the queries that some texts spell.
fn read_queries(alloc: Global, texts: &[&[u8]]) -> Result<Vec<TypedQuery>, Refusal<QueryFault>> {
    let mut queries = Vec::new(alloc);
    for text in texts {
        queries.push(read_query(alloc, *text)?)?;
    }
    Ok(queries)
}

// Returns the plan of one to sixteen queries.
fn make_plan<R: Abort>(
    rt: &R,
    alloc: Global,
    queries: &[TypedQuery],
) -> Result<SharedPlan, NoMemory> {
    assert!(rt; !queries.is_empty());
    assert!(rt; queries.len() <= 16);
    SharedPlan::make(alloc, queries)
}

// Returns the plan of the queries that some texts spell.
fn plan_of<R: Abort>(
    rt: &R,
    alloc: Global,
    texts: &[&[u8]],
) -> Result<SharedPlan, Refusal<QueryFault>> {
    let queries = read_queries(alloc, texts)?;
    Ok(make_plan(rt, alloc, queries.as_slice())?)
}

const WTM: &[u8] = b"cql() wtm";

const SIXTEEN: [&[u8]; 16] = [WTM; 16];

/// Queries, and the number of their different parts. Their matches are among the examples of `model/worked.py`.
type PartsCase<'a> = (&'a [&'a [u8]], u32);

static ROWS: [PartsCase<'static>; 7] = [
    (&[b"cql() wtm check", b"cql() check wtm"], 2),
    (&[WTM, b"cql(variations) wtm"], 2),
    (&[b"cql() {btm check}", b"cql() (check and btm)  Qa8"], 3),
    (
        &[b"cql() sort \"p\" ply sort min \"p\" ply", b"cql() Qa8"],
        3,
    ),
    (
        &[
            b"cql() mate sort \"p\" ply",
            b"cql() wtm sort \"p\" ply Qa8",
        ],
        4,
    ),
    (&[b"cql() comment \"a\" comment \"b\""], 0),
    (&SIXTEEN, 1),
];

// Returns true if a plan has the queries and the parts of a row.
fn has_parts(plan: &SharedPlan, row: &PartsCase<'_>) -> bool {
    plan.len() as usize == row.0.len() && plan.parts() == row.1
}

fn expect<R: Abort>(rt: &R, alloc: Global, row: &PartsCase<'_>) -> Result<(), Fail> {
    let plan = plan_of(rt, alloc, row.0)?;
    let right = has_parts(&plan, row);
    drop(plan);
    assert!(rt; right);
    Ok(())
}

// Queries without a part take no step. Queries with the one part `wtm`, however many they are, take one step a searched node.
#[tactic(auto, using(crate::proofs::Steps::wtm_cost))]
fn a_part_costs_a_step_a_node()
    ensures none { (game : Game) → plan_cost game [] ≡ 0 }
    ensures wtm { (game : Game) (variations : Bool) (at : ℕ)
        → plan_cost game (record { variations = variations; filter = filter_at at (plain Wtm) } ∷ [])
        ≡ length (nodes_in (searched_tree game variations)) }
{}

#[test]
fn several_queries_have_their_parts(rt: HostRuntime) -> Result<(), Fail> {
    a_part_costs_a_step_a_node();
    for row in ROWS.iter() {
        expect(&rt, rt.alloc(), row)?;
    }
    Ok(())
}
