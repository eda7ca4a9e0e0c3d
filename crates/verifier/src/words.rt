// The words of a function, and which of them belong to others.
ghost use Rattle.std.specs.Prelude.{◌-◌, IfSome, is_some, ◌^◌, ◌≡◌, ℕ, ◌<◌, ◌+◌, suc, length, Some, None, IfOk, map, option_map};
ghost use Rattle.proto.specs.Chunk.{own, functions, functions_of, function_at};
ghost use Rattle.proto.specs.View.{view_proto};
ghost use Rattle.rules.specs.Words.{instr_at};
ghost use Rattle.opcode.specs.Word.{InRange};
ghost use Rattle.opcode.specs.Reading.{instr_of};
ghost use Rattle.rules.specs.Places.{further_words, is_further as is_further_in, belonging, belonging_to, words_of, next_pc as next_pc_of, target, is_place as is_place_of, jmp_at};

use opcode::{Instr, Op, decode, words_are_read};
use proto::{Constant, Proto};
use std::alloc::{AllocError, Global};
use std::marker::Model;

/// A function, with a mark for each word that belongs to a CLOSURE or a SETLIST before it. Contracts
/// see its `Proto`. It has fewer than 2^32 words.
#[derive(Drop)]
pub struct Function<'a> {
    proto: &'a Proto,
    further: Vec<bool>,
}

impl<'a> Model for Function<'a> {
    ghost use Rattle.proto.specs.declared.proto.Proto.{Proto as TheProto};
    ghost use Rattle.verifier.specs.Functions.{proto_of, IsMarked};
    ghost use Rattle.proto.specs.contracts.proto.Proto.{the_row};

    ghost Value = { TheProto };

    ghost coded = { the_row.coded };

    ghost view = { proto_of };

    ghost invariant = { IsMarked };
}

/// How many further words are to come after a word, where so many were to come before it.
fn left_after(proto: &Proto, left: usize, word: u32) -> usize
    ensures none { left ≡ 0 → result ≡ belonging (functions (view_proto proto.now)) (instr_of word) }
    ensures some { (n : ℕ) → left ≡ suc n → result ≡ n }
{
    match left.checked_sub(1) {
        Some(less) => less,
        None => belonging_of(proto, decoded(word)),
    }
}

/// The mark of each word. The time is linear in the words.
fn further_marks(alloc: Global, proto: &Proto) -> Result<Vec<bool>, AllocError>
    ensures { IfOk result (λ marks. marks.items ≡ further_words (view_proto proto.now)) }
{
    let words = code_of(proto);
    let mut marks = Vec::with_capacity(alloc, words.len())?;
    let mut left = 0;
    for word in words {
        marks.push(left > 0)?;
        left = left_after(proto, left, *word);
    }
    Ok(marks)
}

/// The functions that stand directly in one.
fn functions_in(proto: &Proto) -> &[Proto]
    ensures { functions (view_proto proto.now) ≡ functions_of (map view_proto result.now) }
{
    proto.functions.items()
}

fn code_of(proto: &Proto) -> &[u32]
    ensures { result.now ≡ (own (view_proto proto.now)).code }
{
    proto.code.items()
}

fn upvalues_of(proto: &Proto) -> u8
    ensures { result ≡ (own (view_proto proto.now)).upvalues }
{
    proto.upvalues
}

/// How many upvalues a function in one has, where there is one of that number.
fn inner_upvalues(proto: &Proto, number: u32) -> Option<u8>
    ensures { result ≡ option_map (λ f. (own f).upvalues) (function_at (functions (view_proto proto.now)) number) }
{
    match functions_in(proto).get(number as usize) {
        Some(inner) => Some(upvalues_of(inner)),
        None => None,
    }
}

/// How many words belong to an instruction, whether or not they are there.
fn belonging_of(proto: &Proto, instr: Option<Instr>) -> usize
    ensures count { result ≡ belonging (functions (view_proto proto.now)) instr }
    ensures small { result < 256 }
{
    match instr {
        Some(
            Instr {
                op: Op::Closure,
                bx,
                ..
            },
        ) => match inner_upvalues(proto, bx) {
            Some(upvalues) => usize::from(upvalues),
            None => 0,
        },
        Some(
            Instr {
                op: Op::SetList,
                c: 0,
                ..
            },
        ) => 1,
        _ => 0,
    }
}

/// The instruction of a word.
pub fn decoded(word: u32) -> Option<Instr>
    ensures reading { result ≡ instr_of word }
    ensures fields { IfSome result InRange }
{
    // A law: the fields of what is read are in range.
    words_are_read();
    decode(word)
}

impl<'a> Function<'a> {
    /// In linear time in the words.
    pub fn new(alloc: Global, proto: &'a Proto) -> Result<Function<'a>, AllocError>
        requires { length (own (view_proto proto.now)).code < 2 ^ 32 }
        ensures { IfOk result (λ function. function ≡ proto.now) }
    {
        let further = further_marks(alloc, proto)?;
        Ok(Function { proto, further })
    }

    /// How many words there are.
    pub fn len(&self) -> usize
        ensures len { result ≡ length (own (view_proto self.now)).code }
        ensures small { result < 2 ^ 32 }
    {
        code_of(self.proto).len()
    }

    /// The instruction at a pc.
    pub fn instr(&self, pc: usize) -> Option<Instr>
        ensures instr { result ≡ instr_at (view_proto self.now) pc }
        ensures fields { IfSome result InRange }
        ensures there { IfSome result (λ _. pc < length (own (view_proto self.now)).code) }
        ensures small { IfSome result (λ _. pc < 2 ^ 32 - 1) }
    {
        match code_of(self.proto).get(pc) {
            Some(word) => decoded(*word),
            None => None,
        }
    }

    /// Whether the word at a pc belongs to one before it.
    pub fn is_further(&self, pc: usize) -> bool
        ensures { result ≡ is_further_in (view_proto self.now) pc }
    {
        matches!(self.further.get(pc), Some(true))
    }

    /// Whether a pc is in the code and its word belongs to none before it.
    pub fn is_place(&self, pc: usize) -> bool
        ensures { result ≡ is_place_of (view_proto self.now) (Some pc) }
    {
        pc < self.len() && !self.is_further(pc)
    }

    /// How many words belong to an instruction, whether or not they are there.
    pub fn belonging(&self, instr: Instr) -> usize
        ensures count { result ≡ belonging_to (functions (view_proto self.now)) instr.op instr }
        ensures small { result < 256 }
    {
        belonging_of(self.proto, Some(instr))
    }

    /// The words that belong to the instruction at a pc, those that are there.
    pub fn words(&self, pc: usize, instr: Instr) -> &[u32]
        requires small { pc < 2 ^ 32 }
        ensures { result.now ≡ words_of (view_proto self.now) pc instr }
    {
        let words = code_of(self.proto);
        let first = words.len().min(pc + 1);
        let end = words.len().min(first + self.belonging(instr));
        &words[first..end]
    }

    /// The pc after the word at a pc and those that belong to it.
    pub fn next_pc(&self, pc: usize, instr: Instr) -> usize
        requires small { pc < 2 ^ 32 }
        ensures { result ≡ next_pc_of (view_proto self.now) pc instr }
    {
        pc + 1 + self.belonging(instr)
    }

    /// The distance of the JMP at a pc, where one stands there.
    pub fn jmp(&self, pc: usize) -> Option<i32>
        ensures { result ≡ jmp_at (view_proto self.now) pc }
    {
        match self.instr(pc) {
            Some(
                Instr {
                    op: Op::Jmp,
                    sbx,
                    ..
                },
            ) => Some(sbx),
            _ => None,
        }
    }

    /// How many registers there are.
    pub fn registers(&self) -> u32
        ensures { result ≡ (own (view_proto self.now)).registers }
    {
        u32::from(self.proto.registers)
    }

    /// How many parameters there are.
    pub fn params(&self) -> u32
        ensures { result ≡ (own (view_proto self.now)).params }
    {
        u32::from(self.proto.params)
    }

    /// The vararg flags.
    pub fn flags(&self) -> u8
        ensures { result ≡ (own (view_proto self.now)).flags }
    {
        self.proto.vararg
    }

    /// How many upvalues there are.
    pub fn upvalues(&self) -> u32
        ensures { result ≡ (own (view_proto self.now)).upvalues }
    {
        u32::from(self.proto.upvalues)
    }

    /// The constants.
    pub fn constants(&self) -> &[Constant]
        ensures { result.now ≡ (own (view_proto self.now)).constants }
    {
        self.proto.constants.items()
    }

    /// Whether there is a function of this number in it.
    pub fn has_function(&self, number: u32) -> bool
        ensures { result ≡ is_some (function_at (functions (view_proto self.now)) number) }
    {
        inner_upvalues(self.proto, number).is_some()
    }
}

/// Where a jump by a distance from a pc goes; `None` below 0.
pub fn jump(pc: usize, distance: i32) -> Option<usize>
    requires small { pc < 2 ^ 32 }
    ensures { result ≡ target pc distance }
{
    usize::try_from(pc as i64 + 1 + i64::from(distance)).ok()
}
