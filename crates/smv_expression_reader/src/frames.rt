//! What is open in an expression: `OpenFrames`, a stack of open parts.
//!
//! It counts its parentheses, so that how deep they are nested takes no walk.
ghost use Rattle.std.specs.Prelude.{◌≡◌, ◌≤◌, ◌∷◌, [], OnOk, IfSome, None};
ghost use Rattle.smv_expression_reader.specs.Views.{has_no_frame};
ghost use Rattle.smv_expression_reader.specs.Depth.{groups};

use base_values::OutOfMemory;
use std::alloc::Global;
use std::marker::Model;

/// What is open.
#[derive(Clone, Copy, Debug, PartialEq, Eq)]
pub enum OpenFrame {
    Group,
    Moment,
    Members,
    FirstChoice,
    Condition,
    Outcome,
}

/// All that is open, which contracts see as a list with the innermost first.
#[derive(Drop)]
pub struct OpenFrames {
    frames: Vec<OpenFrame>,
    groups: usize,
}

impl Model for OpenFrames {
    ghost use Rattle.std.specs.Prelude.{◌≡◌, List};
    ghost use Rattle.smv_expression_reader.specs.declared.frames.OpenFrame.{OpenFrame as Frame};
    ghost use Rattle.smv_expression_reader.specs.Views.{stack_of};
    ghost use Rattle.smv_expression_reader.specs.Depth.{groups as open_groups};

    ghost Value = { List Frame };

    ghost view = { λ open_. stack_of open_.frames.items };

    ghost invariant = { λ open_. open_.groups ≡ open_groups (stack_of open_.frames.items) };
}

/// How many groups a frame is.
fn weight(frame: OpenFrame) -> usize
    ensures value { result ≡ groups (frame ∷ []) }
    ensures small { result ≤ 1 }
{
    match frame {
        OpenFrame::Group => 1,
        _ => 0,
    }
}

impl OpenFrames {
    /// Nothing is open.
    #[tactic(auto, using(crate::proofs::Stacks::no_frames))]
    pub fn new(alloc: Global) -> OpenFrames
        ensures { result ≡ [] }
    {
        OpenFrames {
            frames: Vec::new(alloc),
            groups: 0,
        }
    }

    /// Opens a frame.
    #[tactic(auto, using(crate::proofs::Stacks::pushed, crate::proofs::Stacks::groups_popped, crate::proofs::Stacks::groups_within))]
    pub fn push(&mut self, frame: OpenFrame) -> Result<(), OutOfMemory>
        ensures { OnOk result (self.new ≡ frame ∷ self.old) }
    {
        self.frames.push(frame)?;
        self.groups += weight(frame);
        Ok(())
    }

    /// Closes the innermost frame.
    #[tactic(auto, using(crate::proofs::Stacks::pushed, crate::proofs::Stacks::no_frames, crate::proofs::Stacks::groups_popped))]
    pub fn pop(&mut self) -> Option<OpenFrame>
        ensures some { IfSome result (λ frame. self.old ≡ frame ∷ self.new) }
        ensures none { result ≡ None → (self.old ≡ []) × (self.new ≡ []) }
    {
        match self.frames.pop() {
            Some(frame) => {
                self.groups -= weight(frame);
                Some(frame)
            }
            None => None,
        }
    }

    /// Closes all.
    #[tactic(auto, using(crate::proofs::Stacks::no_frames))]
    pub fn clear(&mut self)
        ensures { self.new ≡ [] }
    {
        self.frames.clear();
        self.groups = 0;
    }

    /// The number of open groups.
    pub fn groups(&self) -> usize
        ensures { result ≡ groups self.now }
    {
        self.groups
    }

    /// Whether nothing is open.
    #[tactic(auto, using(crate::proofs::Stacks::empty_stack))]
    pub fn is_empty(&self) -> bool
        ensures { result ≡ has_no_frame self.now }
    {
        self.frames.len() == 0
    }
}
