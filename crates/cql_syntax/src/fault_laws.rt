//! The faults of a query's tree at worked rows.
ghost use Rattle.cql_syntax.specs.FaultExamples.{RuleExamples, LimitExamples};

/// The faults of small queries.
#[tactic(auto, using(crate::proofs::FaultExamples::rule_rows, crate::proofs::FaultExamples::limit_rows))]
pub fn faults_are_as_worked()
    ensures rules { RuleExamples }
    ensures limits { LimitExamples }
{}
