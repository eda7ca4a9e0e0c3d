// The words of a function that was made.
ghost use Rattle.std.specs.Prelude.{◌≡◌, ◌+◌, ◌<◌, ◌^◌, ◌↔◌, get_or, unsigned_abs, IsTrue, IfOk, OnErr};
ghost use Rattle.opcode.specs.Word.{InRange, word_of as the_word_of};
ghost use Rattle.scheme.specs.Functions as functions;

use opcode::{Format, Instr};
use proto::{Code, Lines};
use scheme::{Item, Piece};
use std::alloc::{AllocError, Global};

// The pc of a label.
fn target(labels: &[usize], label: usize) -> usize
    ensures { result ≡ get_or labels.now label 0 }
{
    match labels.get(label) {
        Some(target) => *target,
        None => 0,
    }
}

// How far a word jumps.
fn reach_at(labels: &[usize], pc: usize, piece: Piece) -> usize
    requires { pc + 1 < 2 ^ 64 }
    ensures { result ≡ functions.reach_at labels.now pc piece }
{
    match piece {
        Piece::Jump { label, .. } => target(labels, label).abs_diff(pc + 1),
        _ => 0,
    }
}

/// The longest jump.
pub fn reach(labels: &[usize], items: &[Item]) -> usize
    ensures { result ≡ functions.reach_from labels.now 0 items.now }
{
    let mut reach = 0;
    for pc in 0..items.len() {
        reach = reach_at(labels, pc, items[pc].piece).max(reach);
    }
    reach
}

// The sBx of a jump to a target. No jump within the limit is too far for an i32; one that is counts as want of memory.
fn offset(pc: usize, target: usize) -> Result<i32, AllocError>
    requires { pc + 1 < 2 ^ 64 }
    ensures sbx { IfOk result (λ sbx. sbx ≡ functions.distance pc target) }
    ensures err { OnErr result (131071 < unsigned_abs (functions.distance pc target)) }
{
    let next = pc + 1;
    if target >= next {
        i32::try_from(target - next).map_err(|_| AllocError)
    } else {
        let back = i32::try_from(next - target).map_err(|_| AllocError)?;
        Ok(-back)
    }
}

// Whether the fields fit in a word.
fn fits(instr: Instr) -> bool
    ensures { IsTrue result ↔ InRange instr }
{
    if instr.a > 255 {
        return false;
    }
    match instr.op.format() {
        Format::Abc => instr.b < 512 && instr.c < 512 && instr.bx == 0 && instr.sbx == 0,
        Format::Abx => instr.b == 0 && instr.c == 0 && instr.bx < 262_144 && instr.sbx == 0,
        Format::Asbx => {
            instr.b == 0
                && instr.c == 0
                && instr.bx == 0
                && instr.sbx >= -131_071
                && instr.sbx <= 131_072
        }
    }
}

// The word of an instruction.
fn word_of(instr: Instr) -> Result<u32, AllocError>
    ensures word { IfOk result (λ word. word ≡ the_word_of instr) }
    ensures err { OnErr result (InRange instr → ⊥) }
{
    // No scheme that fits has such a word; what does not fit in a word is taken as want of memory.
    if !fits(instr) {
        return Err(AllocError);
    }
    Ok(opcode::encode(instr))
}

// The word at a pc.
fn word_at(labels: &[usize], pc: usize, piece: Piece) -> Result<u32, AllocError>
    requires { pc + 1 < 2 ^ 64 }
    ensures { IfOk result (λ word. word ≡ functions.word_at labels.now pc piece) }
{
    match piece {
        Piece::Abc { op, a, b, c } => word_of(Instr {
            op,
            a,
            b,
            c,
            bx: 0,
            sbx: 0,
        }),
        Piece::Abx { op, a, bx } => word_of(Instr {
            op,
            a,
            b: 0,
            c: 0,
            bx,
            sbx: 0,
        }),
        Piece::Jump { op, a, label } => {
            let sbx = offset(pc, target(labels, label))?;
            word_of(Instr {
                op,
                a,
                b: 0,
                c: 0,
                bx: 0,
                sbx,
            })
        }
        Piece::Bare(n) => Ok(n),
    }
}

/// The words.
pub fn words(alloc: Global, labels: &[usize], items: &[Item]) -> Result<Code, AllocError>
    ensures { IfOk result (λ words. words ≡ functions.words_from labels.now 0 items.now) }
{
    let mut words = Vec::with_capacity(alloc, items.len())?;
    for pc in 0..items.len() {
        words.push(word_at(labels, pc, items[pc].piece)?)?;
    }
    Ok(Code::from_vec(words))
}

/// The line of each word.
pub fn lines(alloc: Global, items: &[Item]) -> Result<Lines, AllocError>
    ensures { IfOk result (λ lines. lines ≡ functions.lines_of items.now) }
{
    let lines = items.iter().map(|item| item.line).collect(alloc)?;
    Ok(Lines::from_vec(lines))
}
