// Tokens and trees of Lua source.
#![tactic(auto)]

mod laws;
mod speller;
mod token;
mod tree;
mod word;

pub use laws::{faults_are_one, lines_are_one, never_both, spelled_as_spelling, tokens_are_one};
pub use speller::spell;
pub use token::{Token, TokenKind, Tokens};
pub use tree::{
    Args, Arm, Arms, BinaryOp, Block, Body, Exp, ExpKind, Exps, Item, ItemKind, Items, Separator,
    Stat, StatKind, Tree, UnaryOp,
};
pub use word::{is_name, keyword};
