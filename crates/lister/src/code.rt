// The code of a function as a listing shows it.
ghost use Rattle.std.specs.Prelude.{◌≡◌, ◌++◌, false, OnOk, slice_get, codes};
ghost use Rattle.lister.specs.Listing.{code_lines, digits, line_number, word_text, shown, is_block_next as is_block_next_in};
ghost use Rattle.lister.specs.Parts.{with_lists, code_part};

use crate::instruction::put_instruction;
use crate::lists::put_count;
use crate::text::put_number;
use lua_num::ByteText;
use opcode::{Instr, Op, decode};
use proto::Constant;
use std::alloc::{AllocError, Global};

/// Appends how many words there are, and a line for each.
#[tactic(auto, unfolding(crate::specs::Parts::count_line, crate::specs::Parts::code_part))]
pub fn put_code(
    alloc: Global,
    out: &mut ByteText,
    code: &[u32],
    lines: &[u32],
    constants: &[Constant],
) -> Result<(), AllocError>
    ensures { OnOk result (out.new ≡ out.old ++ code_part code.now lines.now constants.now) }
{
    put_count(alloc, out, "code", code.len())?;
    put_code_lines(alloc, out, code, lines, constants)
}

fn put_code_lines(
    alloc: Global,
    out: &mut ByteText,
    code: &[u32],
    lines: &[u32],
    constants: &[Constant],
) -> Result<(), AllocError>
    ensures { OnOk result (out.new ≡ out.old ++ code_lines (with_lists lines.now constants.now) false 0 code.now) }
{
    let mut raw = false;
    for (pc, word) in code.iter().enumerate() {
        let instr = shown_as(raw, *word);
        put_place(alloc, out, pc, lines)?;
        put_word(alloc, out, constants, pc, *word, instr)?;
        out.push(b'\n')?;
        raw = is_block_next(instr);
    }
    Ok(())
}

/// Appends a pc, and its line between brackets.
fn put_place(alloc: Global, out: &mut ByteText, pc: usize, lines: &[u32]) -> Result<(), AllocError>
    ensures { OnOk result (out.new ≡ out.old ++ (digits pc ++ (codes " [" ++ (line_number (slice_get lines.now pc) ++ codes "] ")))) }
{
    put_number(alloc, out, pc)?;
    out.extend(b" [")?;
    put_line_number(alloc, out, pc, lines)?;
    out.extend(b"] ")
}

fn put_line_number(
    alloc: Global,
    out: &mut ByteText,
    pc: usize,
    lines: &[u32],
) -> Result<(), AllocError>
    ensures { OnOk result (out.new ≡ out.old ++ line_number (slice_get lines.now pc)) }
{
    match lines.get(pc) {
        Some(line) => put_number(alloc, out, *line as usize),
        None => out.push(b'-'),
    }
}

fn put_word(
    alloc: Global,
    out: &mut ByteText,
    constants: &[Constant],
    pc: usize,
    word: u32,
    instr: Option<Instr>,
) -> Result<(), AllocError>
    ensures { OnOk result (out.new ≡ out.old ++ word_text constants.now pc word instr) }
{
    match instr {
        Some(instr) => put_instruction(alloc, out, constants, pc, instr),
        None => {
            out.extend(b"WORD ")?;
            put_number(alloc, out, word as usize)
        }
    }
}

/// The instruction that a word is shown as. A raw one is a block number, and is shown as none.
fn shown_as(raw: bool, word: u32) -> Option<Instr>
    ensures { result ≡ shown raw word }
{
    if raw { None } else { decode(word) }
}

/// Whether the next word is a raw block number.
fn is_block_next(instr: Option<Instr>) -> bool
    ensures { result ≡ is_block_next_in instr }
{
    matches!(
        instr,
        Some(Instr {
            op: Op::SetList,
            c: 0,
            ..
        })
    )
}
