// What registers and numbers stand for.
ghost use Rattle.std.specs.Prelude.{◌≡◌, Some, OnOk, IfSome, option_copied, option_map};
ghost use Rattle.core_expr.specs.Held.{place_of, name_of, wordings_with};
ghost use Rattle.core_expr.specs.Places.{constant_at, text_at, constant_name, as_name, field_name, field_number};
ghost use Rattle.core_expr.specs.Values.{view_operand};
ghost use Rattle.core_expr.specs.Writing.{no_wordings, view_written, view_written_list};

use crate::cores::{Core, Operand};
use lua_num::ByteText;
use lua_tree::{Exp, Exps, is_name};
use proto::{Constant, Proto};
use std::alloc::{AllocError, Global};

/// The greatest number of a constant that a word can have as an operand.
pub const MOST_SMALL: u32 = 255;

/// What registers and numbers stand for where an expression is written: the function, the entry of its locals in each register, and whether calls of one string or constructor
/// are written without parentheses, which needs fewest levels.
#[derive(Clone, Copy)]
pub struct Scope<'a> {
    pub proto: &'a Proto,
    pub entries: &'a [usize],
    pub short: bool,
}

/// A variable: a local by its register, an upvalue, or a global by the constant that is its name.
#[derive(Clone, Copy)]
pub enum Variable {
    Local(u32),
    Upvalue(u32),
    Global(u32),
}

/// An expression, and how many levels it needs.
#[derive(Drop)]
pub struct Written {
    pub exp: Box<Exp>,
    pub levels: u32,
}

/// Expressions, and how many levels they need at most.
#[derive(Drop)]
pub struct WrittenList {
    pub exps: Exps,
    pub levels: u32,
}

impl WrittenList {
    /// No expressions, which takes no memory.
    pub(crate) fn new(alloc: Global) -> Self
        ensures { view_written_list result ≡ no_wordings }
    {
        Self {
            exps: Exps::new(alloc),
            levels: 0,
        }
    }

    /// Appends an expression.
    pub(crate) fn push(&mut self, written: Written) -> Result<(), AllocError>
        ensures { OnOk result (view_written_list self.new ≡ wordings_with (view_written_list self.old) (view_written written)) }
    {
        self.levels = self.levels.max(written.levels);
        self.exps.push(Box::into_inner(written.exp))
    }
}

impl<'a> Scope<'a> {
    /// A constant, by its number.
    pub(crate) fn constant(&self, number: u32) -> Option<&'a Constant>
        ensures { option_copied result ≡ constant_at (place_of self.now) number }
    {
        self.proto.constants.items().get(number as usize)
    }

    /// The text that a constant is.
    pub(crate) fn text(&self, number: u32) -> Option<&'a ByteText>
        ensures { option_copied result ≡ text_at (place_of self.now) number }
    {
        match self.constant(number) {
            Some(Constant::Text(text)) => Some(text),
            _ => None,
        }
    }

    /// The name that a constant is.
    pub(crate) fn constant_name(&self, number: u32) -> Option<&'a ByteText>
        ensures { option_copied result ≡ constant_name (place_of self.now) number }
    {
        named(self.text(number)?)
    }

    /// The name of a variable.
    pub(crate) fn name(&self, variable: Variable) -> Option<&'a ByteText>
        ensures { option_copied result ≡ name_of (place_of self.now) variable }
    {
        match variable {
            Variable::Local(register) => {
                let entry = self.entries.get(register as usize)?;
                let local = self.proto.locals.items().get(*entry)?;
                named(&local.name)
            }
            Variable::Upvalue(number) => {
                let name = self.proto.upvalue_names.items().get(number as usize)?;
                named(name)
            }
            Variable::Global(number) => self.constant_name(number),
        }
    }

    /// The name of a key that can be written as a field, and its number among the constants.
    pub(crate) fn field_name(&self, key: &Operand) -> Option<(u32, &'a ByteText)>
        ensures name { option_map (λ found. found.1.now) result ≡ field_name (place_of self.now) (view_operand key.now) }
        ensures number { IfSome result (λ found. field_number (view_operand key.now) ≡ Some found.0) }
    {
        let number = field_number(key)?;
        let name = self.constant_name(number)?;
        Some((number, name))
    }
}

// A text, where it is a name.
fn named(text: &ByteText) -> Option<&ByteText>
    ensures { option_copied result ≡ as_name (Some text.now) }
{
    if is_name(text.bytes()) {
        Some(text)
    } else {
        None
    }
}

// The number of the constant that a key is, where a field makes the same words: a name goes to a register where its number is too great for an operand, and not else.
fn field_number(key: &Operand) -> Option<u32>
    ensures { result ≡ field_number (view_operand key.now) }
{
    match key {
        Operand::Constant(number) => Some(*number),
        Operand::Value(Core::Constant(number)) if *number > MOST_SMALL => Some(*number),
        Operand::Value(_) => None,
    }
}
