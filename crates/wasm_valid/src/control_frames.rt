//! The blocks that are open while a body is walked.

ghost use Rattle.std.specs.Prelude.{◌≡◌};
ghost use Rattle.wasm_valid.specs.Arities.{results_of};
ghost use Rattle.wasm_valid.specs.internal.Blocks.{label_of};

use std::alloc::{AllocError, Global};
use std::marker::Model;
use wasm_module::BlockType;

/// How a block that is open began.
#[derive(Clone, Copy)]
pub enum BlockKind {
    /// With `block`, as the body of a function or with the `else` of an `if`.
    Block,
    /// With `loop`.
    Loop,
    /// With an `if` whose `else` hasn't come.
    If,
}

/// What is kept of the operands around a block while it is open: how many they are, and whether
/// the code around it can't be reached.
#[derive(Clone, Copy)]
pub struct Mark {
    pub height: usize,
    pub unreachable: bool,
}

/// A block that is open.
#[derive(Clone, Copy)]
pub struct ControlFrame {
    pub kind: BlockKind,
    /// What it leaves.
    pub block_type: BlockType,
    pub around: Mark,
}

/// What a branch to a block keeps (section 3.1.1).
fn label_of(control_frame: &ControlFrame) -> BlockType
    ensures { results_of result ≡ label_of control_frame.now.kind control_frame.now.block_type }
{
    match control_frame.kind {
        BlockKind::Block | BlockKind::If => control_frame.block_type,
        BlockKind::Loop => BlockType::Empty,
    }
}

/// The blocks that are open, the innermost first.
#[derive(Drop)]
pub struct ControlFrames {
    control_frames: Vec<ControlFrame>,
}

impl Model for ControlFrames {
    ghost use Rattle.std.specs.Prelude.{List, reverse};
    ghost use Rattle.wasm_valid.specs.declared.control_frames.ControlFrame.{ControlFrame as FrameValue};

    ghost Value = { List FrameValue };

    ghost view = { λ f. reverse f.control_frames.items };
}

impl ControlFrames {
    ghost use Rattle.std.specs.Prelude.{◌≡◌, ◌<◌, [], ◌∷◌, length, drop, slice_get, MatchOption, IfOk, OnErr};
    ghost use Rattle.std.specs.Option.{option_map};
    ghost use Rattle.wasm_valid.specs.Arities.{results_of};
    ghost use Rattle.wasm_valid.specs.internal.Operands.{control_frame_labels};

    pub fn new(alloc: Global) -> ControlFrames
        ensures { result ≡ [] }
    {
        ControlFrames {
            control_frames: Vec::new(alloc),
        }
    }

    pub fn len(&self) -> usize
        ensures { result ≡ length self.now }
    {
        self.control_frames.len()
    }

    pub fn push(&mut self, control_frame: ControlFrame) -> Result<(), AllocError>
        ensures pushed { IfOk result (λ _. self.new ≡ control_frame ∷ self.old) }
        ensures unchanged { OnErr result (self.new ≡ self.old) }
    {
        self.control_frames.push(control_frame)?;
        Ok(())
    }

    pub fn pop(&mut self) -> Option<ControlFrame>
        ensures { MatchOption result (self.old ≡ []) (λ f. self.old ≡ f ∷ self.new) }
    {
        self.control_frames.pop()
    }

    /// The innermost block.
    pub fn innermost(&self) -> Option<ControlFrame>
        ensures { result ≡ slice_get self.now 0 }
    {
        self.control_frames.last().copied()
    }

    /// Puts another in the place of the innermost block.
    pub fn replace(&mut self, control_frame: ControlFrame)
        requires { 0 < length self.old }
        ensures { self.new ≡ control_frame ∷ drop 1 self.old }
    {
        let place = self.control_frames.len() - 1;
        self.control_frames[place] = control_frame;
    }

    /// What a branch to the block of this index, counted from the innermost, keeps.
    pub fn label(&self, index: u32) -> Option<BlockType>
        ensures { option_map results_of result ≡ slice_get (control_frame_labels self.now) index }
    {
        let place = self.control_frames.len().checked_sub(index as usize)?;
        let control_frame = self.control_frames.get(place.checked_sub(1)?)?;
        Some(label_of(control_frame))
    }
}
