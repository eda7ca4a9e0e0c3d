// What the names of a source mean.
use crate::trees::tree_of;
use lua_tree::Tree;
use scopes::{NameUse, ScopeFault, Scopes, Source, resolve};
use std::alloc::{AllocError, Global};

/// What each name means, then whether each declaration is captured, then for each function its upvalues, with `|` between;
/// or the fault. L, U and G are a local's declaration, an upvalue's slot and a global.
pub(crate) fn meanings(alloc: Global, source: &[u8]) -> Result<String, AllocError> {
    match scopes_of(alloc, source)? {
        Ok(scopes) => scopes_text(alloc, &scopes),
        Err(fault) => Ok(fault),
    }
}

/// Whether a source keeps the rules of scoping, or the fault.
pub(crate) fn kept(alloc: Global, source: &[u8]) -> Result<String, AllocError> {
    match scopes_of(alloc, source)? {
        Ok(_) => String::from_str(alloc, "kept"),
        Err(fault) => Ok(fault),
    }
}

fn scopes_of(alloc: Global, source: &[u8]) -> Result<Result<Scopes, String>, AllocError> {
    match tree_of(alloc, source)? {
        Ok(tree) => scopes_of_tree(alloc, &tree),
        Err(fault) => Ok(Err(fault)),
    }
}

fn scopes_of_tree(alloc: Global, tree: &Tree) -> Result<Result<Scopes, String>, AllocError> {
    match resolve(alloc, tree) {
        Ok(scopes) => Ok(Ok(scopes)),
        Err(ScopeFault::OutOfMemory) => Err(AllocError),
        Err(fault) => Ok(Err(format!(in alloc; "{fault:?}")?)),
    }
}

fn scopes_text(alloc: Global, scopes: &Scopes) -> Result<String, AllocError> {
    let mut text = String::new(alloc);
    for i in 0..scopes.name_count() {
        text.push_str(&name_text(alloc, scopes.name(i))?)?;
    }
    text.push('|')?;
    for declaration in 0..scopes.declaration_count() {
        let mark = if scopes.captured(declaration) {
            'c'
        } else {
            '-'
        };
        text.push(mark)?;
    }
    for function in 0..scopes.function_count() {
        text.push('|')?;
        for source in scopes.upvalues(function) {
            text.push_str(&source_text(alloc, *source)?)?;
        }
    }
    Ok(text)
}

fn name_text(alloc: Global, name: NameUse) -> Result<String, AllocError> {
    match name {
        NameUse::Local(declaration) => format!(in alloc; "L{declaration} "),
        NameUse::Upvalue(slot) => format!(in alloc; "U{slot} "),
        NameUse::Global => format!(in alloc; "G "),
    }
}

fn source_text(alloc: Global, source: Source) -> Result<String, AllocError> {
    match source {
        Source::Local(declaration) => format!(in alloc; "L{declaration} "),
        Source::Upvalue(slot) => format!(in alloc; "U{slot} "),
    }
}
