// A function whose words are read, and its words, constants and upvalues.
#![tactic(auto, using(crate::proofs::Blames::free_fits))]

ghost use Rattle.std.specs.Prelude.{◌≡◌, ◌-◌, ◌^◌, ◌<◌, length, true, false, Some, None, IfOk, IfErr, OnOk, OnErr, slice_get, option_and_then};
ghost use Rattle.opcode.specs.Reading.{instr_of};
ghost use Rattle.proto.specs.Chunk.{own};
ghost use Rattle.proto.specs.View.{view_proto};
ghost use Rattle.recover_expr.specs.Entries.{IsLostOnlyWhere};
ghost use Rattle.recover_expr.specs.Faults.{IsFaultOf};
ghost use Rattle.recover_expr.specs.Items.{is_so};
ghost use Rattle.recover_expr.specs.Locals.{IsFaultOnlyWhere};
ghost use Rattle.recover_expr.specs.Reading.{ends_code};
ghost use Rattle.recover_expr.specs.Situation.{view_function, instr_at, is_return, word_at, jump_behind, constant_in, global_in, upvalue_in, upvalues_in, target};

use crate::blame::{bad_name, code_of, constants_of, instr_at, not_scheme, upvalue_names_of};
use crate::fault::Fault;
use crate::lost::{Lost, check, number_at};
use lua_tree::is_name;
use opcode::{Instr, Op};
use proto::{Constant, Proto};
use std::alloc::Global;

// From this one on an operand of a word is a constant.
pub const FIRST_CONSTANT: u32 = 256;

/// A function whose words are read. `short` asks for the forms of fewest levels.
#[derive(Clone, Copy)]
pub struct Function<'a> {
    pub alloc: Global,
    pub proto: &'a Proto,
    pub short: bool,
    /// The pc of its last word.
    pub last: u32,
}

/// A word: its pc, the pc behind it, and its instruction.
#[derive(Clone, Copy)]
pub struct Word {
    pub pc: u32,
    pub next: u32,
    pub instr: Instr,
}

impl Word {
    /// The word is of no source.
    pub fn lost(self) -> Lost
        ensures { result ≡ Lost.NotScheme self.pc }
    {
        Lost::NotScheme { pc: self.pc }
    }

    /// The word is of a source only where this holds.
    pub fn check(self, holds: bool) -> Result<(), Lost>
        ensures ok { OnOk result (holds ≡ true) }
        ensures lost { IfErr result (IsLostOnlyWhere (holds ≡ false)) }
    {
        check(holds, self.pc)
    }
}

/// The pc of the last word, which is a RETURN of no values.
pub fn last_pc(proto: &Proto) -> Result<u32, Lost>
    ensures last { IfOk result (λ last. last ≡ length (own (view_proto proto.now)).code - 1) }
    ensures ends { OnOk result (ends_code (own (view_proto proto.now)) ≡ true) }
    ensures lost { length (own (view_proto proto.now)).code < 2 ^ 32 → IfErr result (IsLostOnlyWhere (ends_code (own (view_proto proto.now)) ≡ false)) }
{
    let last = number_at(0, code_of(proto).len().saturating_sub(1))?;
    check(ends_at(proto, last), last)?;
    Ok(last)
}

// Whether a RETURN of no values stands at a pc.
fn ends_at(proto: &Proto, pc: u32) -> bool
    ensures { result ≡ is_so (is_return 0 1) (option_and_then instr_of (slice_get (own (view_proto proto.now)).code pc)) }
{
    match instr_at(proto, pc) {
        Some(instr) => is_return(instr, 0, 1),
        None => false,
    }
}

/// A RETURN with these fields.
pub fn is_return(instr: Instr, a: u32, b: u32) -> bool
    ensures { result ≡ is_return a b instr }
{
    instr.op == Op::Return && instr.a == a && instr.b == b && instr.c == 0
}

impl<'a> Function<'a> {
    /// The instruction at a pc.
    pub fn instr(&self, pc: u32) -> Option<Instr>
        ensures { result ≡ instr_at (view_function self.now) pc }
    {
        instr_at(self.proto, pc)
    }

    /// The word at a pc.
    pub fn word(&self, pc: u32) -> Result<Word, Lost>
        ensures word { IfOk result (λ word. Some word ≡ word_at (view_function self.now) pc) }
        ensures lost { OnErr result (word_at (view_function self.now) pc ≡ None) }
    {
        match (self.instr(pc), pc.checked_add(1)) {
            (Some(instr), Some(next)) => Ok(Word { pc, next, instr }),
            _ => Err(Lost::NotScheme { pc }),
        }
    }

    /// The JMP behind a word, where that is not the last.
    pub fn jump_behind(&self, word: Word) -> Result<Word, Lost>
        ensures jump { IfOk result (λ jump. Some jump ≡ jump_behind (view_function self.now) word) }
        ensures lost { OnErr result (jump_behind (view_function self.now) word ≡ None) }
    {
        let Ok(jump) = self.word(word.next) else {
            return Err(word.lost());
        };
        if jump.pc < self.last && jump.instr.op == Op::Jmp {
            Ok(jump)
        } else {
            Err(word.lost())
        }
    }

    /// The number of a constant that the word at a pc names.
    pub fn constant(&self, number: u32, pc: u32) -> Result<u32, Lost>
        ensures constant { IfOk result (λ constant. Some constant ≡ constant_in (view_function self.now) number) }
        ensures lost { OnErr result (constant_in (view_function self.now) number ≡ None) }
    {
        if (number as usize) < constants_of(self.proto).len() {
            Ok(number)
        } else {
            Err(Lost::NotScheme { pc })
        }
    }

    /// The number of the name of the global that a word reads or writes.
    pub fn global(&self, word: Word) -> Result<u32, Fault>
        ensures fault { IfErr result (IsFaultOf self.now.proto.now) }
        ensures global { IfOk result (λ global. Some global ≡ global_in (view_function self.now) word.instr) }
        ensures refused { IfErr result (IsFaultOnlyWhere (global_in (view_function self.now) word.instr ≡ None)) }
    {
        match constants_of(self.proto).get(word.instr.bx as usize) {
            Some(Constant::Text(name)) if is_name(name.bytes()) => Ok(word.instr.bx),
            Some(Constant::Text(_)) => Err(bad_name(self.proto, word.pc)),
            _ => Err(not_scheme(word.pc)),
        }
    }

    /// The upvalue that a word reads or writes.
    pub fn upvalue(&self, word: Word) -> Result<u32, Fault>
        ensures fault { IfErr result (IsFaultOf self.now.proto.now) }
        ensures upvalue { IfOk result (λ upvalue. Some upvalue ≡ upvalue_in (view_function self.now) word.instr) }
        ensures refused { IfErr result (IsFaultOnlyWhere (upvalue_in (view_function self.now) word.instr ≡ None)) }
    {
        match upvalue_names_of(self.proto).get(word.instr.b as usize) {
            Some(name) if is_name(name.bytes()) => Ok(word.instr.b),
            Some(_) => Err(bad_name(self.proto, word.pc)),
            None => Err(not_scheme(word.pc)),
        }
    }

    /// How many upvalues a function in this one has.
    pub fn upvalues_of(&self, number: u32) -> Option<u8>
        ensures { result ≡ upvalues_in (view_function self.now) number }
    {
        match self.proto.functions.items().get(number as usize) {
            Some(inner) => Some(inner.upvalues),
            None => None,
        }
    }

    /// Where a word jumps to, in the code.
    pub fn target(&self, word: Word) -> Result<u32, Lost>
        ensures target { IfOk result (λ to. Some to ≡ target (view_function self.now) word) }
        ensures lost { OnErr result (target (view_function self.now) word ≡ None) }
    {
        let target = i64::from(word.next) + i64::from(word.instr.sbx);
        if target < 0 || target > i64::from(self.last) {
            return Err(word.lost());
        }
        Ok(target as u32)
    }
}
