// Reads rows, a word and a source each, and prints behind each row what the compiler makes of the source: `code` the listing of its
// chunk, with `|` for each line end, `fits` only whether it has one, or its fault. Any other row is a heading.
#![tactic(auto)]

use code_builder::CodeFault;
use codegen::compile;
use lexer::lex;
use lister::list;
use lua_num::ByteText;
use parser::parse;
use proto::Proto;
use row_source::read_source;
use scopes::resolve;
use std::alloc::{AllocError, Global};
use std::io;

fn main(rt: HostRuntime) -> io::Result<()> {
    for line in rt.lines(rt.alloc()) {
        let row = line?;
        match answer(rt.alloc(), row.as_str())? {
            Some(answer) => println!(rt; "{row}  =>  {answer}")?,
            None => println!(rt; "{row}")?,
        }
    }
    Ok(())
}

fn answer(alloc: Global, row: &str) -> Result<Option<String>, AllocError> {
    let (word, text) = row.split_once(' ').unwrap_or((row, ""));
    let source = read_source(alloc, text)?;
    let answer = match word {
        "code" => coded(alloc, &source)?,
        "fits" => fitting(alloc, &source)?,
        _ => return Ok(None),
    };
    Ok(Some(answer))
}

// The listing, on one line.
fn coded(alloc: Global, source: &[u8]) -> Result<String, AllocError> {
    match proto_of(alloc, source)? {
        Ok(proto) => on_one_line(alloc, list(alloc, &proto)?.bytes()),
        Err(fault) => Ok(fault),
    }
}

fn fitting(alloc: Global, source: &[u8]) -> Result<String, AllocError> {
    match proto_of(alloc, source)? {
        Ok(_) => String::from_str(alloc, "fits"),
        Err(fault) => Ok(fault),
    }
}

// The chunk of a source, or the text of its fault.
fn proto_of(alloc: Global, source: &[u8]) -> Result<Result<Proto, String>, AllocError> {
    let Ok(tokens) = lex(alloc, source) else {
        return Ok(Err(String::from_str(alloc, "no tokens")?));
    };
    let Ok(tree) = parse(alloc, &tokens) else {
        return Ok(Err(String::from_str(alloc, "no tree")?));
    };
    let Ok(scopes) = resolve(alloc, &tree) else {
        return Ok(Err(String::from_str(alloc, "no scopes")?));
    };
    let name = ByteText::from_slice(alloc, b"@a.lua")?;
    match compile(alloc, &tree, &scopes, &name) {
        Ok(proto) => Ok(Ok(proto)),
        Err(CodeFault::OutOfMemory) => Err(AllocError),
        Err(fault) => Ok(Err(format!(in alloc; "{fault:?}")?)),
    }
}

// A listing has ASCII alone.
fn on_one_line(alloc: Global, listing: &[u8]) -> Result<String, AllocError> {
    let mut line = String::new(alloc);
    for byte in listing {
        let shown = if *byte == b'\n' {
            '|'
        } else {
            char::from(*byte)
        };
        line.push(shown)?;
    }
    Ok(line)
}
