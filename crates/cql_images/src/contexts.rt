//! The image of a leaf of a query in a context. Each mapping of the context maps the leaf in turn, the innermost
//! first.
ghost use Rattle.std.specs.Prelude.{◌≡◌, ◌∷◌, IfOk, if◌then◌else◌};
ghost use Rattle.cql_syntax.specs.Contexts as spec;

use cq_common::NoMemory;
use cq_geometry::Compass;
use cq_symmetry::{Mapping, changes_light, image, image_compass};
use cql_syntax::{Designator, Field, Of, Outcome, Plain, Unary, Way};
use std::alloc::Global;

/// Returns a context with one more mapping inside.
///
/// # Errors
///
/// Returns `NoMemory` if memory runs out.
pub fn inside(alloc: Global, first: Mapping, context: &[Mapping]) -> Result<Vec<Mapping>, NoMemory>
    ensures { IfOk result (λ g. g.items ≡ first ∷ context.now) }
{
    let mut longer = Vec::new(alloc);
    longer.push(first)?;
    longer.extend_from_slice(context)?;
    Ok(longer)
}

/// Returns the image of a designator. There is none once all its squares have left the board.
#[tactic(auto, unfolding(cql_syntax::specs::Contexts::designator_image))]
pub fn designator_image(context: &[Mapping], d: &Designator) -> Option<Designator>
    ensures { result ≡ spec.designator_image context.now d.now }
{
    let mut image = *d;
    for mapping in context {
        image = image_of_designator(*mapping, image)?;
    }
    Some(image)
}

fn image_of_designator(m: Mapping, d: Designator) -> Option<Designator>
    ensures { result ≡ spec.image_of_designator m d }
{
    let men = image_of_men(m.exchange, d.men);
    let part = image(m, d.part)?;
    Some(Designator { men, part })
}

// The men, with their colours exchanged if the flag is true.
fn image_of_men(exchange: bool, men: u16) -> u16
    ensures { result ≡ (if exchange then spec.men_exchanged men else men) }
{
    if exchange {
        men % 64 * 64 + men / 64 % 64 + men / 4096 * 4096
    } else {
        men
    }
}

/// Returns the image of a word: an exchange of colours exchanges the sides to move.
pub fn word_image(context: &[Mapping], word: Plain) -> Plain
    ensures { result ≡ spec.word_image context.now word }
{
    let mut image = word;
    for mapping in context {
        image = word_under(mapping.exchange, image);
    }
    image
}

fn word_under(exchange: bool, word: Plain) -> Plain
    ensures { result ≡ (if exchange then spec.exchanged_word word else word) }
{
    match (exchange, word) {
        (true, Plain::Wtm) => Plain::Btm,
        (true, Plain::Btm) => Plain::Wtm,
        _ => word,
    }
}

/// Returns the image of a player: an exchange of colours exchanges White and Black.
pub fn of_image(context: &[Mapping], of: Of) -> Of
    ensures { result ≡ spec.of_image context.now of }
{
    let mut image = of;
    for mapping in context {
        image = of_under(mapping.exchange, image);
    }
    image
}

fn of_under(exchange: bool, of: Of) -> Of
    ensures { result ≡ (if exchange then spec.exchanged_of of else of) }
{
    match (exchange, of) {
        (true, Of::White) => Of::Black,
        (true, Of::Black) => Of::White,
        _ => of,
    }
}

/// Returns the image of a tag: an exchange of colours exchanges the players.
pub fn field_image(context: &[Mapping], field: Field) -> Field
    ensures { result ≡ spec.field_image context.now field }
{
    let mut image = field;
    for mapping in context {
        image = field_under(mapping.exchange, image);
    }
    image
}

fn field_under(exchange: bool, field: Field) -> Field
    ensures { result ≡ (if exchange then spec.exchanged_field field else field) }
{
    match field {
        Field::Player(of) => Field::Player(of_under(exchange, of)),
        Field::Event => Field::Event,
        Field::Site => Field::Site,
    }
}

/// Returns the image of a result: an exchange of colours exchanges the wins.
pub fn outcome_image(context: &[Mapping], outcome: Outcome) -> Outcome
    ensures { result ≡ spec.outcome_image context.now outcome }
{
    let mut image = outcome;
    for mapping in context {
        image = outcome_under(mapping.exchange, image);
    }
    image
}

fn outcome_under(exchange: bool, outcome: Outcome) -> Outcome
    ensures { result ≡ (if exchange then spec.exchanged_outcome outcome else outcome) }
{
    match (exchange, outcome) {
        (true, Outcome::White) => Outcome::Black,
        (true, Outcome::Black) => Outcome::White,
        _ => outcome,
    }
}

/// Returns the image of a word before a part: some mappings exchange `light` and `dark`.
pub fn unary_image(context: &[Mapping], word: Unary) -> Unary
    ensures { result ≡ spec.unary_image context.now word }
{
    let mut image = word;
    for mapping in context {
        image = unary_under(changes_light(*mapping), image);
    }
    image
}

fn unary_under(exchange: bool, word: Unary) -> Unary
    ensures { result ≡ (if exchange then spec.exchanged_light word else word) }
{
    match (exchange, word) {
        (true, Unary::Light) => Unary::Dark,
        (true, Unary::Dark) => Unary::Light,
        _ => word,
    }
}

/// Returns the image of a direction. The words for several directions stay as they are.
pub fn way_image(context: &[Mapping], way: Way) -> Way
    ensures { result ≡ spec.way_image context.now way }
{
    let mut image = way;
    for mapping in context {
        image = way_under(*mapping, image);
    }
    image
}

fn way_under(m: Mapping, way: Way) -> Way
    ensures { result ≡ spec.way_under m way }
{
    match way {
        Way::Up => way_of(image_compass(m, Compass::Up)),
        Way::Down => way_of(image_compass(m, Compass::Down)),
        Way::Left => way_of(image_compass(m, Compass::Left)),
        Way::Right => way_of(image_compass(m, Compass::Right)),
        Way::Northeast => way_of(image_compass(m, Compass::Northeast)),
        Way::Northwest => way_of(image_compass(m, Compass::Northwest)),
        Way::Southeast => way_of(image_compass(m, Compass::Southeast)),
        Way::Southwest => way_of(image_compass(m, Compass::Southwest)),
        Way::Diagonal | Way::Orthogonal | Way::AnyDirection => way,
    }
}

fn way_of(direction: Compass) -> Way
    ensures { result ≡ spec.way_of direction }
{
    match direction {
        Compass::Up => Way::Up,
        Compass::Down => Way::Down,
        Compass::Left => Way::Left,
        Compass::Right => Way::Right,
        Compass::Northeast => Way::Northeast,
        Compass::Northwest => Way::Northwest,
        Compass::Southeast => Way::Southeast,
        Compass::Southwest => Way::Southwest,
    }
}
