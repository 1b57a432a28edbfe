//! The parser, which reads a query token by token.
ghost use Rattle.std.specs.Prelude.{◌≡◌, ◌≤◌, [], ◌∷◌, false, IfOk, OnOk};
ghost use Rattle.cql_syntax.specs.Limits.{most_open};
ghost use Rattle.cql_syntax.specs.TreeOf.{filters_tree, query_tree};
ghost use Rattle.cql_syntax.specs.declared.token.QueryToken.{QueryToken};
ghost use Rattle.cql_parser.specs.PartialFilters.{node_of};
ghost use Rattle.cql_parser.specs.RuleStates.{role as role_by, joint, joins, level_of};
ghost use Rattle.cql_parser.specs.Internal.Machine.{InRule as in_rule, Reading as reading, depth as open_in, due as due_in, start, join, after_item, onward, after, head_to, feed, begun};
ghost use Rattle.cql_parser.specs.Internal.TreeBuilder.{tree_builder};
ghost use Rattle.cql_parser.specs.Internal.Models.{node_model, partial_filter_model, rule_model};
ghost use Rattle.cql_parser.specs.Internal.Frames.{frame_model};
ghost use Rattle.cql_parser.specs.Internal.ParserStates.{at_start, head_in, items_in, frames_in, state_model, is_fault, step_model, HasEnded, query_in};

use crate::head::Head;
use crate::infix::joined;
use crate::open_rule::OpenRule;
use crate::partial_filter::{Node, filter_in};
use crate::role::{Role, infix_level, infix_operator_of, joins, role_of, takes};
use crate::rule_state::{HeadState, RuleState, goes, heads, opens};
use crate::stack::{DEPTH_LIMIT, Frame, Stack};
use cq_common::NoMemory;
use cql_syntax::{Filters, Query, QueryToken};
use std::alloc::Global;

/// The result so far: the head of a query, its items, and the open frames after them.
#[derive(Drop)]
pub struct Parser {
    pub head: Head,
    pub items: Filters,
    pub stack: Stack,
}

/// The state of the parser.
#[derive(Clone, Copy)]
pub enum ParserState {
    /// In the head of the query.
    Opening(HeadState),
    /// After the head.
    Reading,
    /// After the end of the query.
    Done,
    /// No query begins with these tokens, because of the depth alone.
    Deep,
    /// No query begins with these tokens.
    Stuck,
}

/// The step of the parser at a token after a rule.
#[derive(Drop)]
pub enum ParserStep {
    /// The rule is at its end: a filter of a level, before the token.
    Ended(u8, Node),
    Continued(ParserState),
}

impl ParserState {
    /// Returns true if no query begins with the tokens so far.
    pub fn is_fault(self) -> bool
        ensures { result ≡ is_fault self }
    {
        matches!(self, ParserState::Deep | ParserState::Stuck)
    }
}

impl Parser {
    /// Returns a parser that has read nothing.
    ///
    /// # Errors
    ///
    /// Returns `NoMemory` if memory runs out.
    pub fn new(alloc: Global) -> Result<Parser, NoMemory>
        ensures { IfOk result (λ r. state_model at_start r ≡ begun tree_builder) }
    {
        Ok(Parser {
            head: Head::new(alloc)?,
            items: Filters::new(alloc),
            stack: Stack::new(alloc),
        })
    }

    // Opens one frame more.
    fn open_frame(&mut self, frame: Frame) -> Result<ParserState, NoMemory>
        requires { open_in tree_builder (frame_model frame ∷ frames_in self.old) ≤ most_open }
        ensures { IfOk result (λ r. state_model r self.new ≡
            reading (head_in self.old) (items_in self.old) (frame_model frame ∷ frames_in self.old)) }
    {
        self.stack.push(frame)?;
        Ok(ParserState::Reading)
    }

    // Reads the first token of a rule, which leads to a state.
    fn begin(
        &mut self,
        alloc: Global,
        token: &QueryToken,
        place: RuleState,
    ) -> Result<ParserState, NoMemory>
        requires { open_in tree_builder (in_rule (tree_builder.first_of token.now place) ∷ frames_in self.old) ≤ most_open }
        ensures { IfOk result (λ r. state_model r self.new ≡
            reading (head_in self.old) (items_in self.old) (in_rule (tree_builder.first_of token.now place) ∷ frames_in self.old)) }
    {
        let rule = OpenRule::new(alloc, token, place)?;
        self.open_frame(Frame::InRule(rule))
    }

    // Reads a token at a point where a filter is due.
    fn start(
        &mut self,
        alloc: Global,
        token: &QueryToken,
        role: Role,
    ) -> Result<ParserState, NoMemory>
        ensures { IfOk result (λ r. state_model r self.new ≡
            start tree_builder most_open (head_in self.old) (items_in self.old) (frames_in self.old) token.now role) }
    {
        let Some(place) = opens(self.stack.around(), role) else {
            return Ok(ParserState::Stuck);
        };
        let binds = self.stack.due() <= place.level();
        let fits = self.stack.depth() + place.depth() <= DEPTH_LIMIT;
        match (binds, fits) {
            (true, true) => self.begin(alloc, token, place),
            (true, false) => Ok(ParserState::Deep),
            (false, _) => Ok(ParserState::Stuck),
        }
    }

    // Reads a token between a filter of a level and the next one.
    fn join(&mut self, level: u8, node: Node, role: Role) -> Result<ParserState, NoMemory>
        requires { open_in tree_builder (frames_in self.old) ≤ most_open }
        ensures { IfOk result (λ r. (x : QueryToken) → state_model r self.new ≡
            join tree_builder (head_in self.old) (items_in self.old) level (node_model node) (frames_in self.old) x (joint role)) }
    {
        match infix_operator_of(role) {
            Some(joint) if takes(joint, level) => self.open_frame(Frame::Joining(
                level, node, joint,
            )),
            _ => {
                drop(node);
                Ok(ParserState::Stuck)
            }
        }
    }

    // Reads a token after an item.
    fn after_item(
        &mut self,
        alloc: Global,
        token: &QueryToken,
        role: Role,
    ) -> Result<ParserState, NoMemory>
        requires { frames_in self.old ≡ [] }
        ensures { IfOk result (λ r. state_model r self.new ≡
            after_item tree_builder most_open (head_in self.old) (items_in self.old) token.now role) }
    {
        match role {
            Role::End => Ok(ParserState::Done),
            role => self.start(alloc, token, role),
        }
    }

    // Reads a token after the parts of a rule.
    fn onward(
        &mut self,
        alloc: Global,
        rule: OpenRule,
        token: &QueryToken,
        role: Role,
    ) -> Result<ParserStep, NoMemory>
        requires { open_in tree_builder (in_rule (rule_model rule) ∷ frames_in self.old) ≤ most_open }
        ensures same { IfOk result (λ p. step_model p self.new token.now role ≡
            onward tree_builder most_open (head_in self.old) (items_in self.old) (rule_model rule) (frames_in self.old) token.now role
            (after tree_builder most_open (head_in self.old) (items_in self.old) (level_of rule.root) (node_of (partial_filter_model rule.draft))
            (frames_in self.old) token.now role)) }
        ensures short { IfOk result (λ p. HasEnded p self.old self.new) }
    {
        if let Some(place) = goes(rule.end, role) {
            let rule = rule.add(alloc, token, place)?;
            return Ok(ParserStep::Continued(self.open_frame(Frame::InRule(rule))?));
        }
        if rule.end.is_whole() {
            let level = rule.root.level();
            return Ok(ParserStep::Ended(level, rule.build(alloc)?));
        }
        self.stack.push(Frame::InRule(rule))?;
        Ok(ParserStep::Continued(self.start(alloc, token, role)?))
    }

    // Passes a token that follows a filter and joins it to no other. The filter ends the innermost
    // frame.
    #[tactic(auto, unfolding(crate::specs::Internal::Machine::after))]
    fn pass(
        &mut self,
        alloc: Global,
        frame: Frame,
        level: u8,
        node: Node,
        token: &QueryToken,
        role: Role,
    ) -> Result<ParserStep, NoMemory>
        requires over { joins (due_in tree_builder (frame_model frame ∷ frames_in self.old)) role ≡ false }
        requires few { open_in tree_builder (frame_model frame ∷ frames_in self.old) ≤ most_open }
        ensures same { IfOk result (λ p. step_model p self.new token.now role ≡
            after tree_builder most_open (head_in self.old) (items_in self.old) level (node_model node)
            (frame_model frame ∷ frames_in self.old) token.now role) }
        ensures short { IfOk result (λ p. HasEnded p self.old self.new) }
    {
        match frame {
            Frame::Joining(first_level, first, joint) => {
                let row = joined(alloc, first_level, first, joint, node)?;
                Ok(ParserStep::Ended(infix_level(joint), row))
            }
            Frame::InRule(rule) => self.onward(alloc, rule.put(alloc, node)?, token, role),
        }
    }

    // Reads a token after the last filter of an item.
    #[tactic(auto, unfolding(crate::specs::Internal::Machine::after))]
    fn end_item(
        &mut self,
        alloc: Global,
        level: u8,
        node: Node,
        token: &QueryToken,
        role: Role,
    ) -> Result<ParserState, NoMemory>
        requires all { frames_in self.old ≡ [] }
        requires over { joins 0 role ≡ false }
        ensures { IfOk result (λ r. state_model r self.new ≡
            after tree_builder most_open (head_in self.old) (items_in self.old) level (node_model node) [] token.now role) }
    {
        self.items.push(filter_in(node))?;
        self.after_item(alloc, token, role)
    }

    // Reads a token after a filter of a level.
    fn after(
        &mut self,
        alloc: Global,
        level: u8,
        node: Node,
        token: &QueryToken,
        role: Role,
    ) -> Result<ParserState, NoMemory>
        ensures { IfOk result (λ r. state_model r self.new ≡
            after tree_builder most_open (head_in self.old) (items_in self.old) level (node_model node) (frames_in self.old) token.now role) }
    {
        let mut level = level;
        let mut node = node;
        'frames: while !joins(self.stack.due(), role) {
            let Some(frame) = self.stack.pop() else {
                return self.end_item(alloc, level, node, token, role);
            };
            match self.pass(alloc, frame, level, node, token, role)? {
                ParserStep::Ended(outer, whole) => {
                    level = outer;
                    node = whole;
                }
                ParserStep::Continued(reached) => return Ok(reached),
            }
        }
        self.join(level, node, role)
    }

    // Reads a token after the head.
    #[tactic(auto, unfolding(crate::specs::Internal::Machine::feed))]
    fn read(
        &mut self,
        alloc: Global,
        token: &QueryToken,
        role: Role,
    ) -> Result<ParserState, NoMemory>
        requires { role ≡ role_by token.now.kind }
        ensures { IfOk result (λ r. state_model r self.new ≡
            feed tree_builder most_open (reading (head_in self.old) (items_in self.old) (frames_in self.old)) token.now) }
    {
        match self.stack.pop() {
            Some(Frame::InRule(rule)) => match self.onward(alloc, rule, token, role)? {
                ParserStep::Ended(level, node) => self.after(alloc, level, node, token, role),
                ParserStep::Continued(reached) => Ok(reached),
            },
            Some(frame) => {
                self.stack.push(frame)?;
                self.start(alloc, token, role)
            }
            None => self.start(alloc, token, role),
        }
    }

    // Goes on with the next state of the head, or with the items, of which there are none yet.
    fn open(&mut self, alloc: Global, place: Option<HeadState>) -> ParserState
        ensures { state_model result self.new ≡ head_to tree_builder (head_in self.old) place }
    {
        match place {
            Some(HeadState::Over) => {
                self.items = Filters::new(alloc);
                self.stack = Stack::new(alloc);
                ParserState::Reading
            }
            Some(place) => ParserState::Opening(place),
            None => ParserState::Stuck,
        }
    }

    /// Reads one token more, and returns the state after it.
    ///
    /// # Errors
    ///
    /// Returns `NoMemory` if memory runs out.
    #[tactic(auto, unfolding(crate::specs::Internal::Machine::feed))]
    pub fn feed(
        &mut self,
        alloc: Global,
        reached: ParserState,
        token: &QueryToken,
    ) -> Result<ParserState, NoMemory>
        ensures { IfOk result (λ r. state_model r self.new ≡ feed tree_builder most_open (state_model reached self.old) token.now) }
    {
        let role = role_of(&token.kind);
        match reached {
            ParserState::Opening(place) => {
                self.head.add_token(alloc, token)?;
                Ok(self.open(alloc, heads(place, role)))
            }
            ParserState::Reading => self.read(alloc, token, role),
            ParserState::Deep => Ok(ParserState::Deep),
            ParserState::Done | ParserState::Stuck => Ok(ParserState::Stuck),
        }
    }

    /// Returns the query that was read.
    pub fn finish(self) -> Query
        ensures { query_tree result ≡ query_in self }
    {
        let Parser { head, items, .. } = self;
        let Head {
            variations,
            match_at,
            match_text,
            ..
        } = head;
        Query {
            variations,
            match_at,
            match_text,
            items,
        }
    }
}
