//! A rule part by part, and the filter that it becomes.
ghost use Rattle.std.specs.Prelude.{◌≡◌, true, IfOk, OnOk, Some};
ghost use Rattle.std.specs.Option.{option_map};
ghost use Rattle.cql_syntax.specs.TreeOf.{filter_tree, form_tree, body_tree, parts_tree, played_tree, written_tree};
ghost use Rattle.cql_syntax.specs.Trees.{move_of, written};
ghost use Rattle.cql_parser.specs.PartialFilters.{name_of, partial_filter_of, with_word, next_part, with_sign, extent_of, with_number, say, take, need, field_of, search_of, form, form_of, with_body, node_of, filter_of, body_of as body_by};
ghost use Rattle.cql_parser.specs.Productions.{is_leaf};
ghost use Rattle.cql_parser.specs.Internal.Models.{node_model, partial_filter_model};
ghost use Rattle.cql_parser.specs.declared.production.Production.TheVariants as productions;

use crate::production::{Production, production_of};
use crate::rule_state::RuleState;
use cq_common::{Bytes, NoMemory};
use cq_symmetry::Family;
use cql_syntax::{
    Body, Chain, Constituent, Constituents, Extent, Field, Filter, Filters, Form, Line, Mark, Of,
    Outcome, Pair, PathLength, Played, QueryToken, QueryTokenKind, Sign, Unary, Way, Word, sign_of,
    word_of,
};
use std::alloc::Global;

/// A filter, or parts of a line in parentheses.
#[derive(Drop)]
pub enum Node {
    Filter(Filter),
    Group(Constituents),
}

/// A filter so far: the values of the tokens and filters along its rule.
#[derive(Drop)]
pub struct PartialFilter {
    pub at: u32,
    pub production: Production,
    pub flag: bool,
    pub back: bool,
    pub side: Of,
    pub result: Outcome,
    pub text: Bytes,
    pub least: u32,
    pub most: u32,
    pub extent: Extent,
    pub slots: OperandSlots,
    pub row: Filters,
    pub line: Parts,
}

/// The operands of a rule that has a slot for each.
#[derive(Drop)]
pub struct OperandSlots {
    pub one: Option<Box<Filter>>,
    pub two: Option<Box<Filter>>,
    pub three: Option<Box<Filter>>,
    pub last: Option<Box<Filter>>,
}

/// The parts of a line but for the last one, and the last one with its mark.
#[derive(Drop)]
pub struct Parts {
    pub parts: Constituents,
    pub body: Option<Body>,
    pub mark: Mark,
}

// A name's text.
fn copied_name(alloc: Global, kind: &QueryTokenKind) -> Result<Bytes, NoMemory>
    ensures { IfOk result (λ text. text ≡ name_of kind.now) }
{
    match kind {
        QueryTokenKind::Name(text) => Ok(Bytes::from_slice(alloc, text.as_slice())?),
        _ => Ok(Bytes::new(alloc)),
    }
}

// The extent from one length to another, or any extent if one of them is no length of a path.
fn extent_between(least: Option<PathLength>, most: Option<PathLength>) -> Extent
    ensures { result ≡ extent_of least most }
{
    match (least, most) {
        (Some(least), Some(most)) => Extent::Within(least, most),
        _ => Extent::Any,
    }
}

impl PartialFilter {
    /// Returns the partial filter of a rule's first token, which leads to a state.
    ///
    /// # Errors
    ///
    /// Returns `NoMemory` if memory runs out.
    pub fn new(
        alloc: Global,
        token: &QueryToken,
        place: RuleState,
    ) -> Result<PartialFilter, NoMemory>
        ensures { IfOk result (λ d. partial_filter_model d ≡ partial_filter_of token.now place) }
    {
        Ok(PartialFilter {
            at: token.at,
            production: production_of(&token.kind, place),
            flag: false,
            back: false,
            side: Of::Either,
            result: Outcome::Unfinished,
            text: copied_name(alloc, &token.kind)?,
            least: 1,
            most: 7,
            extent: Extent::Any,
            slots: OperandSlots {
                one: None,
                two: None,
                three: None,
                last: None,
            },
            row: Filters::new(alloc),
            line: Parts {
                parts: Constituents::new(alloc),
                body: None,
                mark: Mark::Once,
            },
        })
    }

    // Adds a word.
    fn with_word(&mut self, word: Option<Word>)
        ensures { partial_filter_model self.new ≡ with_word (partial_filter_model self.old) word }
    {
        match word {
            Some(Word::White) => self.side = Of::White,
            Some(Word::Black) => self.side = Of::Black,
            Some(Word::All | Word::Min | Word::Primary) => self.flag = true,
            _ => {}
        }
    }

    // Begins the next part of a line.
    fn next_part(&mut self) -> Result<(), NoMemory>
        ensures { OnOk result (partial_filter_model self.new ≡ next_part (partial_filter_model self.old)) }
    {
        if let Some(body) = self.line.body.take() {
            self.line.parts.push(Constituent {
                body,
                mark: self.line.mark,
            })?;
        }
        self.line.mark = Mark::Once;
        Ok(())
    }

    // Adds a mark.
    fn with_sign(&mut self, sign: Option<Sign>) -> Result<(), NoMemory>
        ensures { OnOk result (partial_filter_model self.new ≡ with_sign (partial_filter_model self.old) sign) }
    {
        match sign {
            Some(Sign::Arrow) => self.next_part()?,
            Some(Sign::BackArrow) => {
                self.next_part()?;
                self.back = true;
            }
            Some(Sign::Star) => self.line.mark = Mark::Star,
            Some(Sign::Plus) => self.line.mark = Mark::Plus,
            Some(Sign::Question) => self.line.mark = Mark::Maybe,
            _ => {}
        }
        Ok(())
    }

    // Adds a number, by the state before it.
    fn with_number(&mut self, number: u32, place: RuleState)
        ensures { partial_filter_model self.new ≡ with_number (partial_filter_model self.old) number place }
    {
        match place {
            RuleState::OneNumber => {}
            RuleState::LineMost => {
                self.extent = extent_between(PathLength::new(self.least), PathLength::new(number));
            }
            RuleState::Count(..) => {
                self.least = number;
                self.line.mark = Mark::Times(number, number);
            }
            RuleState::UpTo(..) => self.line.mark = Mark::Times(self.least, number),
            _ => self.least = number,
        }
        self.most = number;
    }

    /// Adds a token, by the state before it.
    ///
    /// # Errors
    ///
    /// Returns `NoMemory` if memory runs out.
    pub fn add(
        &mut self,
        alloc: Global,
        token: &QueryToken,
        place: RuleState,
    ) -> Result<(), NoMemory>
        ensures { OnOk result (partial_filter_model self.new ≡ say (partial_filter_model self.old) token.now.kind place) }
    {
        match &token.kind {
            QueryTokenKind::Word(number) => self.with_word(word_of(*number)),
            QueryTokenKind::Mark(number) => self.with_sign(sign_of(*number))?,
            QueryTokenKind::Number(number) => self.with_number(*number, place),
            QueryTokenKind::Text(text) | QueryTokenKind::Name(text) => {
                self.text = Bytes::from_slice(alloc, text.as_slice())?;
            }
            QueryTokenKind::Outcome(outcome) => self.result = *outcome,
            _ => {}
        }
        Ok(())
    }

    /// Adds a filter, by the state before it.
    ///
    /// # Errors
    ///
    /// Returns `NoMemory` if memory runs out.
    pub fn put(&mut self, alloc: Global, node: Node, place: RuleState) -> Result<(), NoMemory>
        ensures { OnOk result (partial_filter_model self.new ≡ take (partial_filter_model self.old) (node_model node) place) }
    {
        match place {
            RuleState::Condition
            | RuleState::SquaresDue
            | RuleState::BetweenFirst
            | RuleState::Origin => { fill(&mut self.slots.one, alloc, node) }
            RuleState::Consequence | RuleState::BetweenSecond | RuleState::Goal => {
                fill(&mut self.slots.two, alloc, node)
            }
            RuleState::Taken => fill(&mut self.slots.three, alloc, node),
            RuleState::ListFirst
            | RuleState::ListSecond
            | RuleState::ListMore
            | RuleState::Braces
            | RuleState::BracesMore => self.row.push(filter_in(node)),
            RuleState::Part(..) => fill_body(&mut self.line.body, alloc, node),
            _ => fill(&mut self.slots.last, alloc, node),
        }
    }

    // The text of the rule.
    fn into_text(self) -> Bytes
        ensures { result ≡ self.text }
    {
        let PartialFilter { text, .. } = self;
        text
    }

    // The operands in their slots.
    fn into_slots(self) -> OperandSlots
        ensures { result ≡ self.slots }
    {
        let PartialFilter { slots, .. } = self;
        slots
    }

    // The filters in a row.
    fn into_row(self) -> Filters
        ensures { result ≡ self.row }
    {
        let PartialFilter { row, .. } = self;
        row
    }

    // The parts of a line.
    fn into_parts(self) -> Parts
        ensures { result ≡ self.line }
    {
        let PartialFilter { line, .. } = self;
        line
    }

    // A word before one filter.
    fn unary(self, alloc: Global, unary: Unary) -> Result<Form, NoMemory>
        ensures { IfOk result (λ f. form_tree f ≡ form_of (partial_filter_model self) (productions.Unary unary)) }
    {
        let unary = search_of(unary, self.back);
        Ok(Form::Unary(unary, self.into_slots().last(alloc)?))
    }

    // Steps in a direction.
    fn steps(self, alloc: Global, way: Way) -> Result<Form, NoMemory>
        ensures { IfOk result (λ f. form_tree f ≡ form_of (partial_filter_model self) (productions.Direction way)) }
    {
        let least = self.least;
        let most = self.most;
        Ok(Form::Steps(way, least, most, self.into_slots().last(alloc)?))
    }

    // A filter under a family of transformations.
    fn transform(self, alloc: Global, family: Family) -> Result<Form, NoMemory>
        ensures { IfOk result (λ f. form_tree f ≡ form_of (partial_filter_model self) (productions.Family family)) }
    {
        Ok(Form::Transform(family, self.into_slots().last(alloc)?))
    }

    // A condition and the two filters of its branches.
    fn choice(self, alloc: Global) -> Result<Form, NoMemory>
        ensures { IfOk result (λ f. form_tree f ≡ form_of (partial_filter_model self) productions.If) }
    {
        let (condition, then, otherwise) = self.into_slots().three(alloc)?;
        Ok(Form::If(condition, then, otherwise))
    }

    // A filter for every square of a set, or for some square.
    fn square(self, alloc: Global) -> Result<Form, NoMemory>
        ensures { IfOk result (λ f. form_tree f ≡ form_of (partial_filter_model self) productions.Square) }
    {
        let PartialFilter {
            flag,
            text,
            slots,
            ..
        } = self;
        let (squares, filter) = slots.first_and_last(alloc)?;
        Ok(Form::Square(flag, text, squares, filter))
    }

    // A filter that is the sort key of matches.
    fn sort(self, alloc: Global) -> Result<Form, NoMemory>
        ensures { IfOk result (λ f. form_tree f ≡ form_of (partial_filter_model self) productions.Sort) }
    {
        let PartialFilter {
            flag,
            text,
            slots,
            ..
        } = self;
        Ok(Form::Sort(flag, text, slots.last(alloc)?))
    }

    // The squares between those of two filters.
    fn between(self, alloc: Global) -> Result<Form, NoMemory>
        ensures { IfOk result (λ f. form_tree f ≡ form_of (partial_filter_model self) productions.Between) }
    {
        let (first, second) = self.into_slots().two(alloc)?;
        Ok(Form::Pair(Pair::Between, first, second))
    }

    // A line of nodes.
    fn path(self) -> Result<Form, NoMemory>
        ensures { IfOk result (λ f. form_tree f ≡ form_of (partial_filter_model self) productions.Line) }
    {
        let back = self.back;
        let primary = self.flag;
        let extent = self.extent;
        let parts = self.into_parts().whole()?;
        Ok(Form::Line(Line {
            back,
            primary,
            extent,
            parts,
        }))
    }

    // The form of a rule without a text and filters.
    fn leaf(&self) -> Form
        requires { is_leaf self.now.production ≡ true }
        ensures { form_tree result ≡ form_of (partial_filter_model self.now) self.now.production }
    {
        match self.production {
            Production::Designator(designator) => Form::Squares(designator),
            Production::Number(number) => Form::Number(number),
            Production::Plain(word) => Form::Plain(word),
            Production::Outcome => Form::Outcome(self.result),
            Production::Elo => Form::Elo(self.side),
            _ => Form::Number(0),
        }
    }

    // The form of the rule. If it takes nothing of the partial filter, that is dropped by a call, whose proof is shorter.
    fn form(self, alloc: Global) -> Result<Form, NoMemory>
        ensures { IfOk result (λ f. form_tree f ≡ form_of (partial_filter_model self) self.production) }
    {
        match self.production {
            Production::Name => Ok(Form::Name(self.into_text())),
            Production::Tagged(field) => {
                let field = field_of(field, self.side);
                Ok(Form::Tagged(field, self.into_text()))
            }
            Production::Comment => Ok(Form::Comment(self.into_text())),
            Production::Unary(unary) => self.unary(alloc, unary),
            Production::Direction(way) => self.steps(alloc, way),
            Production::Family(family) => self.transform(alloc, family),
            Production::If => self.choice(alloc),
            Production::Square => self.square(alloc),
            Production::Sort => self.sort(alloc),
            Production::Between => self.between(alloc),
            Production::List(chain) => Ok(Form::Chain(chain, self.into_row())),
            Production::Parens => Ok(self.into_slots().inner()),
            Production::Line => self.path(),
            Production::Move => Ok(Form::Played(self.into_slots().played())),
            _ => {
                let leaf = self.leaf();
                drop(self);
                Ok(leaf)
            }
        }
    }

    /// Returns the node of the rule at its end.
    ///
    /// # Errors
    ///
    /// Returns `NoMemory` if memory runs out.
    pub fn build(self, alloc: Global) -> Result<Node, NoMemory>
        ensures { IfOk result (λ n. node_model n ≡ node_of (partial_filter_model self)) }
    {
        match self.production {
            Production::Group => Ok(Node::Group(self.into_parts().whole()?)),
            _ => {
                let at = self.at;
                Ok(Node::Filter(Filter {
                    at,
                    form: self.form(alloc)?,
                }))
            }
        }
    }
}

impl Parts {
    // All parts of the line.
    fn whole(self) -> Result<Constituents, NoMemory>
        ensures { IfOk result (λ cs.
            parts_tree cs ≡ with_body (parts_tree self.parts) (option_map body_tree self.body) self.mark) }
    {
        let Parts { parts, body, mark } = self;
        let mut all = parts;
        if let Some(body) = body {
            all.push(Constituent { body, mark })?;
        }
        Ok(all)
    }
}

impl OperandSlots {
    fn last(self, alloc: Global) -> Result<Box<Filter>, NoMemory>
        ensures { IfOk result (λ f. filter_tree f.value ≡ need (written_tree self.last)) }
    {
        let OperandSlots { last, .. } = self;
        needed(alloc, last)
    }

    fn two(self, alloc: Global) -> Result<(Box<Filter>, Box<Filter>), NoMemory>
        ensures { IfOk result (λ fs.
            (filter_tree fs.0.value ≡ need (written_tree self.one))
            × (filter_tree fs.1.value ≡ need (written_tree self.two))) }
    {
        let OperandSlots { one, two, .. } = self;
        let first = needed(alloc, one)?;
        Ok((first, needed(alloc, two)?))
    }

    fn first_and_last(self, alloc: Global) -> Result<(Box<Filter>, Box<Filter>), NoMemory>
        ensures { IfOk result (λ fs.
            (filter_tree fs.0.value ≡ need (written_tree self.one))
            × (filter_tree fs.1.value ≡ need (written_tree self.last))) }
    {
        let OperandSlots { one, last, .. } = self;
        let first = needed(alloc, one)?;
        Ok((first, needed(alloc, last)?))
    }

    fn three(self, alloc: Global) -> Result<(Box<Filter>, Box<Filter>, Box<Filter>), NoMemory>
        ensures { IfOk result (λ fs.
            (filter_tree fs.0.value ≡ need (written_tree self.one))
            × (filter_tree fs.1.value ≡ need (written_tree self.two))
            × (filter_tree fs.2.value ≡ need (written_tree self.last))) }
    {
        let OperandSlots { one, two, last, .. } = self;
        let first = needed(alloc, one)?;
        let second = needed(alloc, two)?;
        Ok((first, second, needed(alloc, last)?))
    }

    fn played(self) -> Played
        ensures { played_tree result ≡
            move_of (written_tree self.one) (written_tree self.two) (written_tree self.three) (written_tree self.last) }
    {
        let OperandSlots {
            one,
            two,
            three,
            last,
        } = self;
        Played {
            origin: one,
            goal: two,
            taken: three,
            promoted: last,
        }
    }

    // The form of a filter in parentheses.
    fn inner(self) -> Form
        ensures { form_tree result ≡ form (need (written_tree self.last)) }
    {
        let OperandSlots { last, .. } = self;
        match last {
            Some(boxed) => {
                let filter = Box::into_inner(boxed);
                filter.form
            }
            None => Form::Number(0),
        }
    }
}

/// Returns the filter of a node. A group occurs only in a line, and gives the number 0 here.
pub fn filter_in(node: Node) -> Filter
    ensures { filter_tree result ≡ filter_of (node_model node) }
{
    match node {
        Node::Filter(filter) => filter,
        Node::Group(_) => Filter {
            at: 0,
            form: Form::Number(0),
        },
    }
}

/// Returns the filter in a box.
///
/// # Errors
///
/// Returns `NoMemory` if memory runs out.
pub fn boxed_filter(alloc: Global, filter: Filter) -> Result<Box<Filter>, NoMemory>
    ensures { IfOk result (λ f. filter_tree f.value ≡ filter_tree filter) }
{
    Ok(Box::new(alloc, filter)?)
}

fn boxed(alloc: Global, node: Node) -> Result<Box<Filter>, NoMemory>
    ensures { IfOk result (λ f. filter_tree f.value ≡ filter_of (node_model node)) }
{
    boxed_filter(alloc, filter_in(node))
}

// Puts the filter of a part into its slot.
fn fill(slot: &mut Option<Box<Filter>>, alloc: Global, node: Node) -> Result<(), NoMemory>
    ensures { OnOk result (written_tree slot.new ≡ written (filter_of (node_model node))) }
{
    *slot = Some(boxed(alloc, node)?);
    Ok(())
}

// Puts a part of a line into its slot.
fn fill_body(slot: &mut Option<Body>, alloc: Global, node: Node) -> Result<(), NoMemory>
    ensures { OnOk result (option_map body_tree slot.new ≡ Some (body_by (node_model node))) }
{
    *slot = Some(body_of(alloc, node)?);
    Ok(())
}

// A part of a line.
fn body_of(alloc: Global, node: Node) -> Result<Body, NoMemory>
    ensures { IfOk result (λ b. body_tree b ≡ body_by (node_model node)) }
{
    match node {
        Node::Filter(filter) => Ok(Body::Atom(boxed_filter(alloc, filter)?)),
        Node::Group(parts) => Ok(Body::Group(parts)),
    }
}

// The filter of a slot. A rule at its end has it; the number 0 takes the place of a missing one.
fn needed(alloc: Global, filter: Option<Box<Filter>>) -> Result<Box<Filter>, NoMemory>
    ensures { IfOk result (λ f. filter_tree f.value ≡ need (written_tree filter)) }
{
    match filter {
        Some(filter) => Ok(filter),
        None => boxed_filter(
            alloc,
            Filter {
                at: 0,
                form: Form::Number(0),
            },
        ),
    }
}

// The field with the player whose tag is meant.
fn field_of(field: Field, side: Of) -> Field
    ensures { result ≡ field_of field side }
{
    match field {
        Field::Player(_) => Field::Player(side),
        field => field,
    }
}

// The direction of `find`.
fn search_of(unary: Unary, back: bool) -> Unary
    ensures { result ≡ search_of unary back }
{
    match unary {
        Unary::Find if back => Unary::FindUp,
        unary => unary,
    }
}
