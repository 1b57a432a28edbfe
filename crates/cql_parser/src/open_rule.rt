//! A rule that is being read.
ghost use Rattle.std.specs.Prelude.{◌≡◌, IfOk};
ghost use Rattle.cql_parser.specs.PartialFilters.{node_of};
ghost use Rattle.cql_parser.specs.RuleStates.{next};
ghost use Rattle.cql_parser.specs.Internal.TreeBuilder.{tree_builder};
ghost use Rattle.cql_parser.specs.Internal.Models.{node_model, partial_filter_model, rule_model};

use crate::partial_filter::{Node, PartialFilter};
use crate::rule_state::RuleState;
use cq_common::NoMemory;
use cql_syntax::QueryToken;
use std::alloc::Global;

/// The state after the first token of a rule, the state after its last part, and the filter so far.
#[derive(Drop)]
pub struct OpenRule {
    pub root: RuleState,
    pub end: RuleState,
    pub draft: PartialFilter,
}

impl OpenRule {
    /// Returns a rule with its first token, which leads to a state.
    ///
    /// # Errors
    ///
    /// Returns `NoMemory` if memory runs out.
    pub fn new(alloc: Global, token: &QueryToken, place: RuleState) -> Result<OpenRule, NoMemory>
        ensures { IfOk result (λ r. rule_model r ≡ tree_builder.first_of token.now place) }
    {
        Ok(OpenRule {
            root: place,
            end: place,
            draft: PartialFilter::new(alloc, token, place)?,
        })
    }

    /// Returns the rule with a token more, and the state after it. On an error the rule is dropped by a call, whose proof is shorter
    /// than that of a `?`.
    ///
    /// # Errors
    ///
    /// Returns `NoMemory` if memory runs out.
    pub fn add(
        self,
        alloc: Global,
        token: &QueryToken,
        place: RuleState,
    ) -> Result<OpenRule, NoMemory>
        ensures { IfOk result (λ r. rule_model r ≡ tree_builder.add_of (rule_model self) token.now place) }
    {
        let mut rule = self;
        if let Err(refused) = rule.draft.add(alloc, token, rule.end) {
            drop(rule);
            return Err(refused);
        }
        rule.end = place;
        Ok(rule)
    }

    /// Returns the rule with a filter more. On an error the rule is dropped.
    ///
    /// # Errors
    ///
    /// Returns `NoMemory` if memory runs out.
    pub fn put(self, alloc: Global, node: Node) -> Result<OpenRule, NoMemory>
        ensures { IfOk result (λ r. rule_model r ≡ tree_builder.put_of (rule_model self) (node_model node) (next self.end)) }
    {
        let mut rule = self;
        if let Err(refused) = rule.draft.put(alloc, node, rule.end) {
            drop(rule);
            return Err(refused);
        }
        rule.end = rule.end.next();
        Ok(rule)
    }

    /// Returns the node of the rule at its end.
    ///
    /// # Errors
    ///
    /// Returns `NoMemory` if memory runs out.
    pub fn build(self, alloc: Global) -> Result<Node, NoMemory>
        ensures { IfOk result (λ n. node_model n ≡ node_of (partial_filter_model self.draft)) }
    {
        let OpenRule { draft, .. } = self;
        draft.build(alloc)
    }
}
