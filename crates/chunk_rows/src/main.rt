// Reads rows, a word and bytes each, and prints behind each row what the chunk of the bytes comes to. Bytes are the base chunk,
// which the row `base` gives, that chunk with other bytes from an offset on, as `at 4 52`, or hexadecimal digits; a cut of them
// is `cut 60 at 4 52`. `undump` says whether they are a chunk, `list` lists it, `strip` writes it stripped, `as le4` writes it
// in a layout, and `same` compares it with a second one, behind a comma, or with the base chunk. `cuts` and `changes` go over
// each cut and each changed byte of the base chunk, and `constants` numbers constants. Any other row is a heading.
#![tactic(auto)]

mod chunks;
mod constants;
mod every;
mod fault;
mod row_bytes;

use fault::RowFault;
use row_bytes::read_bytes;
use std::alloc::{AllocError, Global};
use std::io;

fn main(rt: HostRuntime) -> io::Result<()> {
    let mut base = Vec::new(rt.alloc());
    for line in rt.lines(rt.alloc()) {
        let row = line?;
        if let Some(text) = row.as_str().strip_prefix("base ") {
            base = read_bytes(rt.alloc(), &[], text)?;
        }
        match answer(rt.alloc(), base.as_slice(), row.as_str())? {
            Some(answer) => println!(rt; "{row}  =>  {answer}")?,
            None => println!(rt; "{row}")?,
        }
    }
    Ok(())
}

fn answer(alloc: Global, base: &[u8], row: &str) -> Result<Option<String>, AllocError> {
    match try_answer(alloc, base, row) {
        Ok(answer) => Ok(answer),
        Err(RowFault::OutOfMemory) => Err(AllocError),
        Err(RowFault::Chunk(fault)) => Ok(Some(format!(in alloc; "{fault}")?)),
        Err(RowFault::Constant(fault)) => Ok(Some(format!(in alloc; "{fault}")?)),
    }
}

fn try_answer(alloc: Global, base: &[u8], row: &str) -> Result<Option<String>, RowFault> {
    let (word, text) = row.split_once(' ').unwrap_or((row, ""));
    let answer = match word {
        "base" => chunks::undumped(alloc, base)?,
        "undump" => chunks::undumped(alloc, &read_bytes(alloc, base, text)?)?,
        "list" => chunks::listed(alloc, &read_bytes(alloc, base, text)?)?,
        "strip" => chunks::stripped(alloc, &read_bytes(alloc, base, text)?)?,
        "as" => chunks::written(alloc, base, text)?,
        "same" => chunks::compared(alloc, base, text)?,
        "cuts" => every::cuts(alloc, base)?,
        "changes" => every::changes(alloc, base)?,
        "constants" => constants::numbers(alloc, text)?,
        _ => return Ok(None),
    };
    Ok(Some(answer))
}
