// Reads rows, a word and a source each, and prints behind each row what the front end makes of the source: `lex` its tokens,
// `parse` whether it is a tree, `group` how its first expression groups, `names` what its names mean, `rules` whether it
// keeps the rules of scoping, and `word` whether it is a keyword or a name. Any other row is a heading.
#![tactic(auto)]

mod groups;
mod names;
mod tokens;
mod trees;

use row_source::read_source;
use std::alloc::{AllocError, Global};
use std::io;

fn main(rt: HostRuntime) -> io::Result<()> {
    for line in rt.lines(rt.alloc()) {
        let row = line?;
        match answer(rt.alloc(), row.as_str())? {
            Some(answer) => println!(rt; "{row}  =>  {answer}")?,
            None => println!(rt; "{row}")?,
        }
    }
    Ok(())
}

fn answer(alloc: Global, row: &str) -> Result<Option<String>, AllocError> {
    let (word, text) = row.split_once(' ').unwrap_or((row, ""));
    let source = read_source(alloc, text)?;
    let answer = match word {
        "lex" => tokens::lexed(alloc, &source)?,
        "parse" => trees::parsed(alloc, &source)?,
        "group" => groups::grouped(alloc, &source)?,
        "names" => names::meanings(alloc, &source)?,
        "rules" => names::kept(alloc, &source)?,
        "word" => tokens::word_text(alloc, &source)?,
        _ => return Ok(None),
    };
    Ok(Some(answer))
}
