//! Filters without parts.
ghost use Rattle.std.specs.Prelude.{◌≡◌, IfOk};
ghost use Rattle.cql_local.specs.Internal.NodeValues.{IsAt, value_at};
ghost use Rattle.cql_syntax.specs.TreeOf.{filter_tree};
ghost use Rattle.cql_values.specs.ValueModel.{as_value};

use crate::node_scope::GameNode;
use crate::not_local::NotLocal;
use cq_common::Refusal;
use cql_syntax::{Filter, Form};
use cql_values::headers::{has_text, is_result, rating};
use cql_values::names::Names;
use cql_values::numbers::count_value;
use cql_values::value::Value;
use cql_values::words::{local_word, standing_on};

/// Returns the value of a filter without parts.
///
/// # Errors
///
/// `NotLocal` if the filter has parts, or if its value depends on other nodes.
#[inline(always)]
#[tactic(auto, unfolding(cql_syntax::specs::Meaning::value, cql_syntax::specs::Contexts::designator_image))]
pub(crate) fn local_leaf(
    f: &Filter,
    place: &GameNode,
    names: &Names,
) -> Result<Value, Refusal<NotLocal>>
    requires { IsAt place.now }
    ensures { IfOk result (λ v. as_value v ≡ value_at place.now names.now (filter_tree f.now) place.now.node) }
{
    match &f.form {
        Form::Squares(d) => Ok(Value::Set(standing_on(place.game.position(place.node), d))),
        Form::Number(number) => Ok(count_value(*number)),
        Form::Name(name) => Ok(names.squares_of(name.as_slice())),
        Form::Plain(word) => local_word(*word, place.game, place.node).ok_or(Refusal::Fault(
            NotLocal,
        )),
        Form::Tagged(field, text) => {
            let there = has_text(place.game, *field, text.as_slice());
            Ok(Value::Truth(there))
        }
        Form::Outcome(outcome) => Ok(Value::Truth(is_result(*outcome, place.game.result()))),
        Form::Elo(of) => Ok(Value::Number(rating(place.game, *of))),
        Form::Comment(_) => Ok(Value::Truth(true)),
        _ => Err(Refusal::Fault(NotLocal)),
    }
}
