//! The frames that are open while a query is read.
ghost use Rattle.std.specs.Prelude.{◌≡◌, ◌≤◌, [], ◌∷◌, OnOk};
ghost use Rattle.cql_syntax.specs.Limits.{most_open};
ghost use Rattle.cql_parser.specs.Internal.Machine.{depth as open_in, due as due_in, around as around_in};
ghost use Rattle.cql_parser.specs.Internal.TreeBuilder.{tree_builder};
ghost use Rattle.cql_parser.specs.Internal.Frames.{frame_model, stack_model, opened, Popped};

use crate::open_rule::OpenRule;
use crate::partial_filter::Node;
use crate::role::{InfixOperator, infix_level};
use crate::rule_state::OperandContext;
use cq_common::NoMemory;
use std::alloc::Global;

/// The greatest number of constructs that are open at a place. Constructs are parentheses, braces, and all that takes
/// one filter or more. Filters in a row and the parts of a line don't count.
pub const DEPTH_LIMIT: u32 = 64;

/// An open frame.
#[derive(Drop)]
pub enum Frame {
    /// The parts of a rule.
    InRule(OpenRule),
    /// A filter of a level, and the operation of the token after it.
    Joining(u8, Node, InfixOperator),
}

/// The open frames, the innermost last.
#[derive(Drop)]
pub struct Stack {
    frames: Vec<Frame>,
    depth: u32,
    ghost counted: { depth ≡ open_in tree_builder (stack_model frames.items) },
    ghost few: { depth ≤ most_open },
}

impl Frame {
    // The number of counted rules that the frame adds, 0 or 1.
    fn depth(&self) -> u32
        ensures value { result ≡ opened self.now }
        ensures few { result ≤ 1 }
    {
        match self {
            Frame::InRule(rule) => rule.root.depth(),
            Frame::Joining(..) => 0,
        }
    }

    // The least level of the filter that is due after the frame.
    fn due(&self) -> u8
        ensures { result ≡ due_in tree_builder (frame_model self.now ∷ []) }
    {
        match self {
            Frame::InRule(rule) => rule.end.least(),
            Frame::Joining(_, _, joint) => infix_level(*joint) + 1,
        }
    }

    // The context of the filter that is due after the frame.
    fn around(&self) -> OperandContext
        ensures { result ≡ around_in tree_builder (frame_model self.now ∷ []) }
    {
        match self {
            Frame::InRule(rule) => rule.end.context(),
            Frame::Joining(..) => OperandContext::Within,
        }
    }
}

impl Stack {
    /// Returns an empty stack. It allocates nothing.
    #[tactic(auto, using(crate::proofs::Frames::shown_none))]
    pub fn new(alloc: Global) -> Stack
        ensures { stack_model result.frames.items ≡ [] }
    {
        Stack {
            frames: Vec::new(alloc),
            depth: 0,
        }
    }

    /// Returns the number of counted rules that are open.
    pub fn depth(&self) -> u32
        ensures value { result ≡ open_in tree_builder (stack_model self.now.frames.items) }
        ensures few { result ≤ most_open }
    {
        self.depth
    }

    /// Returns the least level of the filter that is due.
    #[tactic(auto, using(crate::proofs::Frames::due_last, crate::proofs::Frames::due_none))]
    pub fn due(&self) -> u8
        ensures { result ≡ due_in tree_builder (stack_model self.now.frames.items) }
    {
        match self.frames.last() {
            Some(frame) => frame.due(),
            None => 0,
        }
    }

    /// Returns the context of the filter that is due.
    #[tactic(auto, using(crate::proofs::Frames::around_last, crate::proofs::Frames::around_none))]
    pub fn around(&self) -> OperandContext
        ensures { result ≡ around_in tree_builder (stack_model self.now.frames.items) }
    {
        match self.frames.last() {
            Some(frame) => frame.around(),
            None => OperandContext::Within,
        }
    }

    /// Adds a frame as the innermost one.
    ///
    /// # Errors
    ///
    /// Returns `NoMemory` if memory runs out.
    #[tactic(auto, using(crate::proofs::Frames::shown_more, crate::proofs::Frames::depth_more))]
    pub fn push(&mut self, frame: Frame) -> Result<(), NoMemory>
        requires { open_in tree_builder (frame_model frame ∷ stack_model self.old.frames.items) ≤ most_open }
        ensures { OnOk result (stack_model self.new.frames.items ≡ frame_model frame ∷ stack_model self.old.frames.items) }
    {
        let more = frame.depth();
        self.frames.push(frame)?;
        self.depth += more;
        Ok(())
    }

    /// Removes and returns the innermost frame, or returns `None` if none is open.
    #[tactic(auto, using(crate::proofs::Frames::shown_more, crate::proofs::Frames::depth_more, crate::proofs::Frames::shown_none))]
    pub fn pop(&mut self) -> Option<Frame>
        ensures { Popped (stack_model self.old.frames.items) (stack_model self.new.frames.items) result }
    {
        let frame = self.frames.pop()?;
        self.depth -= frame.depth();
        Some(frame)
    }
}
