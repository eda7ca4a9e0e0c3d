// The tree of a source.
use lexer::lex;
use lua_tree::{Tokens, Tree, spell};
use parser::{SyntaxFault, parse};
use std::alloc::{AllocError, Global};

/// The tree of a source, or why there is none.
pub(crate) fn tree_of(alloc: Global, source: &[u8]) -> Result<Result<Tree, String>, AllocError> {
    match lex(alloc, source) {
        Ok(tokens) => tree_of_tokens(alloc, &tokens),
        Err(fault) => Ok(Err(format!(in alloc; "{fault}")?)),
    }
}

fn tree_of_tokens(alloc: Global, tokens: &Tokens) -> Result<Result<Tree, String>, AllocError> {
    match parse(alloc, tokens) {
        Ok(tree) if spells(&spell(alloc, &tree)?, tokens) => Ok(Ok(tree)),
        Ok(_) => Ok(Err(String::from_str(alloc, "it is spelled otherwise")?)),
        Err(SyntaxFault::OutOfMemory) => Err(AllocError),
        Err(fault) => Ok(Err(format!(in alloc; "{fault}")?)),
    }
}

fn spells(spelled: &Tokens, tokens: &Tokens) -> bool {
    spelled.items().len() == tokens.items().len()
        && spelled
            .items()
            .iter()
            .zip(tokens.items())
            .all(|(mine, other)| mine.kind == other.kind)
}

/// Whether a source is a tree that spells its tokens, or the fault.
pub(crate) fn parsed(alloc: Global, source: &[u8]) -> Result<String, AllocError> {
    match tree_of(alloc, source)? {
        Ok(_) => String::from_str(alloc, "a tree"),
        Err(fault) => Ok(fault),
    }
}
