// The steps of a function.

use lua_num::Names;
use lua_tree::{Exp, Exps, StatKind};

/// A step of a function: a statement without blocks, or what the words of one with blocks make beside these. Where a step goes, or a local ends, is the number of a
/// step, or how many there are.
#[derive(Clone, Copy, Debug, PartialEq, Eq)]
pub struct Step {
    pub kind: StepKind,
    /// The pc of its first word.
    pub pc: u32,
    /// How many locals are active before it.
    pub base: u32,
    /// One more than the highest register of a captured local that is active before it, or 0.
    pub captured: u32,
    /// How many levels it needs: a statement with its expressions; a loop's head likewise; of a test the expression alone.
    pub levels: u32,
}

/// What a step is.
#[derive(Clone, Copy, Debug, PartialEq, Eq)]
pub enum StepKind {
    /// An assignment, a call or a function statement.
    Act,
    Return,
    /// Locals, where they end, and whether one of them is captured.
    Declaration {
        end: usize,
        captured: bool,
    },
    /// A test goes to its target where its expression holds or not, as `when` says. It has `negated` levels where it is written negated.
    Test {
        when: bool,
        target: usize,
        negated: u32,
    },
    Jump {
        target: usize,
    },
    /// The captured locals from this register on are closed; `declared` is the step that declares the local in it, as it is active there, if one does.
    Close {
        from: u32,
        declared: Option<usize>,
    },
    /// The head of a `for`: where its foot is, where its hidden locals and its variables end, and whether a variable is captured.
    Head {
        numeric: bool,
        foot: usize,
        end: usize,
        variables_end: usize,
        captured: bool,
    },
    /// The foot of a `for`, which goes back to its target.
    Foot {
        numeric: bool,
        target: usize,
    },
}

/// What stands of the source in a step.
#[derive(Drop)]
pub enum StepPart {
    /// Of jumps, closings and feet.
    Nothing,
    /// Of acts and declarations.
    Statement(StatKind),
    /// Of a return.
    Values(Exps),
    /// Of a test.
    Condition(Exp),
    /// Of a head: its values and its variables.
    Head { values: Exps, names: Names },
}

/// The parameters and the steps of a function, and the part of the source in each step.
#[derive(Drop)]
pub struct Reading {
    pub params: Names,
    pub steps: Vec<Step>,
    pub parts: Vec<StepPart>,
}
