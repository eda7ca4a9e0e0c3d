// What is printed so far.
ghost use Rattle.std.specs.Prelude.{◌≡◌, ◌*◌, [], ◌∷◌, ◌++◌, replicate, Some, IfOk, OnOk};
ghost use Rattle.lua_tree.specs.declared.token.TokenKind.{TokenKind};
ghost use Rattle.printer.specs.Layout.{token, new_line, finished_text};
ghost use Rattle.printer.specs.Sheets.{Sheet, empty_sheet, with_text, put_piece, put_pieces};

use crate::printing::spacing::{Spacing, spacing_of, stands_apart};
use crate::printing::words::word_text;
use lister::put_quoted;
use lua_num::{ByteText, decimal};
use lua_tree::TokenKind;
use std::alloc::{AllocError, Global};
use std::marker::Model;

/// A text to which tokens and line starts are put. Contracts see the text, and how its last token stands beside others.
#[derive(Drop)]
pub struct Page {
    alloc: Global,
    text: ByteText,
    last: Option<Spacing>,
}

impl Model for Page {
    ghost use Rattle.printer.specs.Sheets.{Sheet};

    ghost Value = { Sheet };

    ghost view = { λ p. record { text = p.text; last = p.last } };
}

impl Page {
    /// An empty page, which takes no memory.
    pub fn new(alloc: Global) -> Self
        ensures { result ≡ empty_sheet }
    {
        Self {
            alloc,
            text: ByteText::new(alloc),
            last: None,
        }
    }

    /// Appends a token.
    pub fn put(&mut self, kind: &TokenKind) -> Result<(), AllocError>
        ensures { OnOk result (Some self.new ≡ put_piece (token kind.now) (Some self.old)) }
    {
        match kind {
            TokenKind::Name(name) => self.put_name(name),
            TokenKind::Number(number) => self.put_number(*number),
            TokenKind::Text(text) => self.put_text(text.bytes()),
            _ => self.put_bytes(spacing_of(kind), word_text(kind)),
        }
    }

    /// Appends a name.
    pub fn put_name(&mut self, name: &ByteText) -> Result<(), AllocError>
        ensures { OnOk result (Some self.new ≡ put_piece (token (TokenKind.Name name.now)) (Some self.old)) }
    {
        self.put_bytes(Spacing::Operand, name.bytes())
    }

    /// Appends a token and a name.
    pub fn put_name_behind(&mut self, kind: &TokenKind, name: &ByteText) -> Result<(), AllocError>
        ensures { OnOk result (Some self.new ≡ put_pieces (token kind.now ∷ token (TokenKind.Name name.now) ∷ []) (Some self.old)) }
    {
        self.put(kind)?;
        self.put_name(name)
    }

    /// Appends a numeral.
    pub fn put_number(&mut self, number: i64) -> Result<(), AllocError>
        ensures { OnOk result (Some self.new ≡ put_piece (token (TokenKind.Number number)) (Some self.old)) }
    {
        let digits = decimal(self.alloc, number)?;
        self.put_bytes(Spacing::Pointed, digits.bytes())
    }

    /// Appends a text between quotes.
    pub fn put_text(&mut self, text: &[u8]) -> Result<(), AllocError>
        ensures { OnOk result (Some self.new ≡ put_piece (token (TokenKind.Text text.now)) (Some self.old)) }
    {
        self.put_space(Spacing::Operand)?;
        put_quoted(&mut self.text, text)
    }

    /// Begins a line, two spaces further in for each block around. The first line of a text begins by itself.
    pub fn start_line(&mut self, blocks: usize) -> Result<(), AllocError>
        ensures { OnOk result (Some self.new ≡ put_piece (new_line blocks) (Some self.old)) }
    {
        self.last = None;
        if self.text.bytes().is_empty() {
            return Ok(());
        }
        self.text.push(b'\n')?;
        indent(&mut self.text, blocks)
    }

    /// The text. It ends with a line end, but for the empty one.
    pub fn finish(mut self) -> Result<ByteText, AllocError>
        ensures { IfOk result (λ text. text ≡ finished_text self.text) }
    {
        if !self.text.bytes().is_empty() {
            self.text.push(b'\n')?;
        }
        Ok(self.text)
    }

    // A token by its text.
    fn put_bytes(&mut self, next: Spacing, bytes: &[u8]) -> Result<(), AllocError>
        ensures { OnOk result (self.new ≡ with_text next bytes.now self.old) }
    {
        self.put_space(next)?;
        self.text.extend(bytes)
    }

    // What stands between the last token of a line and the next.
    fn put_space(&mut self, next: Spacing) -> Result<(), AllocError>
        ensures { OnOk result (self.new ≡ with_text next [] self.old) }
    {
        if let Some(last) = self.last
            && stands_apart(last, next)
        {
            self.text.push(b' ')?;
        }
        self.last = Some(next);
        Ok(())
    }
}

// Two spaces for each block.
fn indent(text: &mut ByteText, blocks: usize) -> Result<(), AllocError>
    ensures { OnOk result (text.new ≡ text.old ++ replicate (2 * blocks) 32) }
{
    for _ in 0..blocks {
        text.extend(b"  ")?;
    }
    Ok(())
}
