// The parts of a tree that hold no statement and no expression.
#![tactic(auto, using(crate::proofs::SheetLemmas::put_pieces_append, crate::proofs::SheetLemmas::put_tokens_append))]

ghost use Rattle.std.specs.Prelude.{◌≡◌, suc, [], ◌∷◌, ◌++◌, Some, OnOk, IfOk};
ghost use Rattle.lua_tree.specs.Spelling.{spell_op, spell_unary, spell_separator, spell_semi, spell_names, spell_method, spell_dots, spell_params};
ghost use Rattle.lua_tree.specs.declared.token.TokenKind.{TokenKind};
ghost use Rattle.printer.specs.Layout.{token, new_line, tokens};
ghost use Rattle.printer.specs.Sheets.{put_pieces};

use crate::printing::page::Page;
use lua_num::{ByteText, Names};
use lua_tree::{BinaryOp, Separator, TokenKind, UnaryOp};
use std::alloc::AllocError;

/// One block more around. No memory holds a tree that is deeper than a word counts.
pub fn deeper(blocks: usize) -> Result<usize, AllocError>
    ensures { IfOk result (λ inside. inside ≡ suc blocks) }
{
    blocks.checked_add(1).ok_or(AllocError)
}

/// A line with the token that ends a block.
pub fn put_end(out: &mut Page, blocks: usize) -> Result<(), AllocError>
    ensures { OnOk result (Some out.new ≡ put_pieces (new_line blocks ∷ token TokenKind.End ∷ []) (Some out.old)) }
{
    out.start_line(blocks)?;
    out.put(&TokenKind::End)
}

/// Names with a mark between them.
pub fn put_names(out: &mut Page, mark: &TokenKind, names: &Names) -> Result<(), AllocError>
    ensures { OnOk result (Some out.new ≡ put_pieces (tokens (spell_names mark.now names.now)) (Some out.old)) }
{
    if let [first, rest @ ..] = names.items() {
        out.put_name(first)?;
        for name in rest {
            out.put_name_behind(mark, name)?;
        }
    }
    Ok(())
}

/// The parameters of a function, in parentheses.
pub fn put_params(out: &mut Page, names: &Names, vararg: bool) -> Result<(), AllocError>
    ensures { OnOk result (Some out.new ≡ put_pieces (tokens (TokenKind.OpenParen ∷ spell_params names.now vararg ++ TokenKind.CloseParen ∷ [])) (Some out.old)) }
{
    out.put(&TokenKind::OpenParen)?;
    put_names(out, &TokenKind::Comma, names)?;
    put_dots(out, names, vararg)?;
    out.put(&TokenKind::CloseParen)
}

// The `...` behind parameters, where there is one.
fn put_dots(out: &mut Page, names: &Names, vararg: bool) -> Result<(), AllocError>
    ensures { OnOk result (Some out.new ≡ put_pieces (tokens (spell_dots names.now vararg)) (Some out.old)) }
{
    if vararg {
        if !names.items().is_empty() {
            out.put(&TokenKind::Comma)?;
        }
        out.put(&TokenKind::DotDotDot)?;
    }
    Ok(())
}

/// The beginning of a function statement.
pub fn put_path(out: &mut Page, path: &Names, method: &Option<ByteText>) -> Result<(), AllocError>
    ensures { OnOk result (Some out.new ≡ put_pieces (tokens (TokenKind.Function ∷ spell_names TokenKind.Dot path.now ++ spell_method method.now)) (Some out.old)) }
{
    out.put(&TokenKind::Function)?;
    put_names(out, &TokenKind::Dot, path)?;
    if let Some(name) = method {
        out.put_name_behind(&TokenKind::Colon, name)?;
    }
    Ok(())
}

/// The beginning of a numeric `for`.
pub fn put_for(out: &mut Page, name: &ByteText) -> Result<(), AllocError>
    ensures { OnOk result (Some out.new ≡ put_pieces (tokens (TokenKind.For ∷ TokenKind.Name name.now ∷ TokenKind.Equal ∷ [])) (Some out.old)) }
{
    out.put_name_behind(&TokenKind::For, name)?;
    out.put(&TokenKind::Equal)
}

/// The beginning of a generic `for`.
pub fn put_for_names(out: &mut Page, names: &Names) -> Result<(), AllocError>
    ensures { OnOk result (Some out.new ≡ put_pieces (tokens (TokenKind.For ∷ spell_names TokenKind.Comma names.now ++ TokenKind.In ∷ [])) (Some out.old)) }
{
    out.put(&TokenKind::For)?;
    put_names(out, &TokenKind::Comma, names)?;
    out.put(&TokenKind::In)
}

pub fn put_semicolon(out: &mut Page, semi: bool) -> Result<(), AllocError>
    ensures { OnOk result (Some out.new ≡ put_pieces (tokens (spell_semi semi)) (Some out.old)) }
{
    if semi {
        out.put(&TokenKind::Semicolon)?;
    }
    Ok(())
}

pub fn put_separator(out: &mut Page, separator: Separator) -> Result<(), AllocError>
    ensures { OnOk result (Some out.new ≡ put_pieces (tokens (spell_separator separator)) (Some out.old)) }
{
    match separator {
        Separator::Comma => out.put(&TokenKind::Comma),
        Separator::Semicolon => out.put(&TokenKind::Semicolon),
        Separator::Missing => Ok(()),
    }
}

pub fn binary_kind(op: BinaryOp) -> TokenKind
    ensures { result ≡ spell_op op }
{
    match op {
        BinaryOp::Add => TokenKind::Plus,
        BinaryOp::Sub => TokenKind::Minus,
        BinaryOp::Mul => TokenKind::Star,
        BinaryOp::Div => TokenKind::Slash,
        BinaryOp::Rem => TokenKind::Percent,
        BinaryOp::Pow => TokenKind::Caret,
        BinaryOp::Concat => TokenKind::DotDot,
        BinaryOp::Eq => TokenKind::EqualEqual,
        BinaryOp::Ne => TokenKind::TildeEqual,
        BinaryOp::Lt => TokenKind::Less,
        BinaryOp::Le => TokenKind::LessEqual,
        BinaryOp::Gt => TokenKind::Greater,
        BinaryOp::Ge => TokenKind::GreaterEqual,
    }
}

pub fn unary_kind(op: UnaryOp) -> TokenKind
    ensures { result ≡ spell_unary op }
{
    match op {
        UnaryOp::Neg => TokenKind::Minus,
        UnaryOp::Not => TokenKind::Not,
        UnaryOp::Len => TokenKind::Hash,
    }
}
