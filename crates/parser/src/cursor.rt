// A place among the tokens.
ghost use Rattle.std.specs.Prelude.{◌≡◌, ◌≤◌, ◌<◌, ◌+◌, ◌==◌, length, IfOk, IfErr, option_copied, Some};
ghost use Rattle.parser.specs.Program.{one_name};
ghost use Rattle.parser.specs.Runs.{kind_of, line_of};
ghost use Rattle.parser.specs.Fields.{literal_view};
ghost use Rattle.parser.specs.Classes.{literal_of, name_of, text_of, start_of, suffix_of, is_block_end};
ghost use Rattle.parser.specs.Operators.{infix_of, unary_of};
ghost use Rattle.parser.specs.Marks.{kind_of_mark};
ghost use Rattle.parser.specs.Finds.{Accepts, Takes, Tests, TakesNot, Wants, WantsNot, Finds, Refuses};
ghost use Rattle.parser.specs.declared.cursor.Halt.TheVariants.{OutOfMemory, Unexpected};

use crate::classes::{self, Start, Suffix};
use crate::mark::{Mark, mark_of};
use crate::nodes::boxed;
use crate::operator::Infix;
use lua_num::ByteText;
use lua_tree::{Exp, ExpKind, Token, TokenKind, UnaryOp};
use std::alloc::{AllocError, Global};

/// The greatest depth of a tree.
pub const MOST: usize = 200;

/// Why there is no tree. The place is the cursor's.
#[derive(Clone, Copy, Debug, PartialEq, Eq)]
pub enum Halt {
    Unexpected,
    TooDeep,
    OutOfMemory,
}

impl From<AllocError> for Halt {
    ghost from_gives = { λ _ halt. halt ≡ OutOfMemory };

    fn from(_error: AllocError) -> Self {
        Halt::OutOfMemory
    }
}

/// The tokens that are left, and the line of the token before them.
#[derive(Drop)]
pub struct Cursor<'a> {
    pub rest: &'a [Token],
    pub line: u32,
}

impl<'a> Cursor<'a> {
    /// What the next token is.
    pub fn kind(&self) -> Option<&'a TokenKind>
        ensures { option_copied result ≡ kind_of self.now.rest.now }
    {
        match self.rest {
            [] => None,
            [token, ..] => Some(&token.kind),
        }
    }

    /// The line of the next token, or 0.
    pub fn next_line(&self) -> u32
        ensures { result ≡ line_of self.now.rest.now }
    {
        match self.rest {
            [] => 0,
            [token, ..] => token.line,
        }
    }

    /// Whether the next token stands on the line of the token before it.
    pub fn is_on_line(&self) -> bool
        ensures { result ≡ (self.now.line == line_of self.now.rest.now) }
    {
        self.line == self.next_line()
    }

    /// Whether the next token is this mark.
    pub fn is(&self, mark: Mark) -> bool
        ensures { Tests (kind_of_mark mark) self.now.rest.now result }
    {
        match mark_of(self.kind()) {
            Some(next) => next == mark,
            None => false,
        }
    }

    /// Takes the next token, where that is not too deep.
    pub fn take(&mut self, depth: usize) -> Result<(), Halt>
        ensures taken { IfOk result (λ _. Takes depth self.old.rest.now self.new.line self.new.rest.now) }
        ensures not_taken { IfErr result (TakesNot depth self.old.rest.now self.new.rest.now) }
        ensures shorter { IfOk result (λ _. length self.old.rest.now ≡ length self.new.rest.now + 1) }
    {
        let Some((token, rest)) = self.rest.split_first() else {
            return Err(Halt::Unexpected);
        };
        if depth > MOST {
            return Err(Halt::TooDeep);
        }
        self.rest = rest;
        self.line = token.line;
        Ok(())
    }

    /// Takes a mark.
    pub fn want(&mut self, mark: Mark) -> Result<(), Halt>
        ensures taken { IfOk result (λ _. Wants (kind_of_mark mark) self.old.rest.now self.new.line self.new.rest.now) }
        ensures not_taken { IfErr result (WantsNot (kind_of_mark mark) self.old.rest.now self.new.rest.now) }
        ensures shorter { IfOk result (λ _. length self.old.rest.now ≡ length self.new.rest.now + 1) }
    {
        if !self.is(mark) {
            return Err(Halt::Unexpected);
        }
        self.take(0)
    }

    /// Whether the next token is this mark, which is taken then.
    pub fn accept(&mut self, mark: Mark) -> bool
        ensures accepted { Accepts (kind_of_mark mark) self.old.line self.old.rest.now self.new.line self.new.rest.now result }
        ensures shorter { length self.new.rest.now ≤ length self.old.rest.now }
    {
        match self.rest {
            [token, rest @ ..] if mark_of(Some(&token.kind)) == Some(mark) => {
                self.rest = rest;
                self.line = token.line;
                true
            }
            _ => false,
        }
    }

    /// The name that is next, where one is.
    pub fn next_name(&self) -> Option<&'a ByteText>
        ensures { option_copied result ≡ name_of (kind_of self.now.rest.now) }
    {
        classes::name_of(self.kind())
    }

    /// The text that is next, where one is.
    pub fn next_text(&self) -> Option<&'a ByteText>
        ensures { option_copied result ≡ text_of (kind_of self.now.rest.now) }
    {
        classes::text_of(self.kind())
    }

    /// The statement that the next token begins.
    pub fn next_start(&self) -> Start
        ensures { result ≡ start_of (kind_of self.now.rest.now) }
    {
        classes::start_of(self.kind())
    }

    /// What the next token adds to a prefix expression.
    pub fn next_suffix(&self) -> Suffix
        ensures { result ≡ suffix_of (kind_of self.now.rest.now) }
    {
        classes::suffix_of(self.kind())
    }

    /// The operator between two operands that is next, where one is.
    pub fn next_infix(&self) -> Option<Infix>
        ensures { result ≡ infix_of (kind_of self.now.rest.now) }
    {
        classes::infix_of(self.kind())
    }

    /// The unary operator that is next, where one is.
    pub fn next_unary(&self) -> Option<UnaryOp>
        ensures { result ≡ unary_of (kind_of self.now.rest.now) }
    {
        classes::unary_of(self.kind())
    }

    /// Whether a block ends here.
    pub fn is_block_end(&self) -> bool
        ensures { result ≡ is_block_end (kind_of self.now.rest.now) }
    {
        classes::is_block_end(self.kind())
    }

    /// A name.
    pub fn name(&mut self, alloc: Global) -> Result<ByteText, Halt>
        ensures found { IfOk result (λ name. Finds one_name self.old.line self.old.rest.now name self.new.line self.new.rest.now) }
        ensures refused { IfErr result (Refuses one_name self.old.line self.old.rest.now self.new.rest.now) }
        ensures shorter { IfOk result (λ _. length self.new.rest.now < length self.old.rest.now) }
    {
        let Some(name) = self.next_name() else {
            return Err(Halt::Unexpected);
        };
        self.take(0)?;
        let copy = copy_of(alloc, name)?;
        Ok(copy)
    }

    /// The literal that is next, where one is.
    pub fn literal(&self, alloc: Global) -> Result<Option<Box<Exp>>, AllocError>
        ensures { IfOk result (λ e. literal_view e ≡ literal_of (line_of self.now.rest.now) (kind_of self.now.rest.now)) }
    {
        let line = self.next_line();
        let kind = match self.kind() {
            Some(TokenKind::Nil) => ExpKind::Nil,
            Some(TokenKind::True) => ExpKind::True,
            Some(TokenKind::False) => ExpKind::False,
            Some(TokenKind::DotDotDot) => ExpKind::Vararg,
            Some(TokenKind::Number(n)) if *n >= 0 => ExpKind::Number(*n),
            Some(TokenKind::Text(text)) => ExpKind::Text(copy_of(alloc, text)?),
            _ => return Ok(None),
        };
        let literal = boxed(alloc, line, kind)?;
        Ok(Some(literal))
    }
}

/// A copy of a text.
pub fn copy_of(alloc: Global, text: &ByteText) -> Result<ByteText, AllocError>
    ensures { IfOk result (λ copy. copy ≡ text.now) }
{
    ByteText::from_slice(alloc, text.bytes())
}
