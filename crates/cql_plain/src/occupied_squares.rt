//! The squares that have the men of a designator.
ghost use Rattle.std.specs.Prelude.{◌≡◌};
ghost use Rattle.cql_syntax.specs.Contexts as contexts;
ghost use Rattle.cql_syntax.specs.Meaning as meaning;
ghost use Rattle.cql_values.specs.ValueModel.{as_value};

use cq_position::Position;
use cq_symmetry::Mapping;
use cql_images::contexts::designator_image;
use cql_syntax::Designator;
use cql_values::value::Value;
use cql_values::words::standing_on;

/// Returns the squares of a designator's image that have one of its men. Without an image there are none.
pub(crate) fn occupied_squares(position: &Position, context: &[Mapping], d: &Designator) -> Value
    ensures { as_value result ≡ meaning.standing_of position.now.men (contexts.designator_image context.now d.now) }
{
    match designator_image(context, d) {
        Some(image) => Value::Set(standing_on(position, &image)),
        None => Value::Set(0),
    }
}
