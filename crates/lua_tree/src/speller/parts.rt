// The parts of a tree that hold no statement and no expression.
ghost use Rattle.std.specs.Prelude.{◌≡◌, [], ◌∷◌, ◌++◌, OnOk};
ghost use Rattle.lua_tree.specs.Spelling.{spell_op, spell_unary, spell_separator, spell_semi, spell_names, spell_method, spell_params};
ghost use Rattle.lua_tree.specs.TreeLists.{mark_of};

use super::spelled::Spelled;
use crate::token::TokenKind;
use crate::tree::{BinaryOp, Separator, UnaryOp};
use lua_num::{ByteText, Names};
use std::alloc::{AllocError, Global};

/// What stands between two names.
#[derive(Clone, Copy)]
pub enum Mark {
    Comma,
    Dot,
}

fn mark_kind(mark: Mark) -> TokenKind
    ensures { result ≡ mark_of mark }
{
    match mark {
        Mark::Comma => TokenKind::Comma,
        Mark::Dot => TokenKind::Dot,
    }
}

pub fn put_names(
    alloc: Global,
    out: &mut Spelled,
    mark: Mark,
    names: &Names,
) -> Result<(), AllocError>
    ensures { OnOk result (out.new ≡ out.old ++ spell_names (mark_of mark) names.now) }
{
    if let [first, rest @ ..] = names.items() {
        out.put_name(alloc, first)?;
        for name in rest {
            out.put_name_behind(alloc, mark_kind(mark), name)?;
        }
    }
    Ok(())
}

pub fn put_params(
    alloc: Global,
    out: &mut Spelled,
    names: &Names,
    vararg: bool,
) -> Result<(), AllocError>
    ensures { OnOk result (out.new ≡ out.old ++ spell_params names.now vararg) }
{
    put_names(alloc, out, Mark::Comma, names)?;
    if vararg {
        if !names.items().is_empty() {
            out.put(TokenKind::Comma)?;
        }
        out.put(TokenKind::DotDotDot)?;
    }
    Ok(())
}

/// The `:` and the name of a method, where there is one.
pub fn put_method(
    alloc: Global,
    out: &mut Spelled,
    method: &Option<ByteText>,
) -> Result<(), AllocError>
    ensures { OnOk result (out.new ≡ out.old ++ spell_method method.now) }
{
    if let Some(name) = method {
        out.put_name_behind(alloc, TokenKind::Colon, name)?;
    }
    Ok(())
}

/// The beginning of a numeric `for`.
pub fn put_for(alloc: Global, out: &mut Spelled, name: &ByteText) -> Result<(), AllocError>
    ensures { OnOk result (out.new ≡ out.old ++ TokenKind.For ∷ TokenKind.Name name.now ∷ TokenKind.Equal ∷ []) }
{
    out.put_name_behind(alloc, TokenKind::For, name)?;
    out.put(TokenKind::Equal)
}

pub fn put_semicolon(out: &mut Spelled, semi: bool) -> Result<(), AllocError>
    ensures { OnOk result (out.new ≡ out.old ++ spell_semi semi) }
{
    if semi {
        out.put(TokenKind::Semicolon)?;
    }
    Ok(())
}

pub fn put_separator(out: &mut Spelled, separator: Separator) -> Result<(), AllocError>
    ensures { OnOk result (out.new ≡ out.old ++ spell_separator separator) }
{
    match separator {
        Separator::Comma => out.put(TokenKind::Comma),
        Separator::Semicolon => out.put(TokenKind::Semicolon),
        Separator::Missing => Ok(()),
    }
}

pub fn binary_kind(op: BinaryOp) -> TokenKind
    ensures { result ≡ spell_op op }
{
    match op {
        BinaryOp::Add => TokenKind::Plus,
        BinaryOp::Sub => TokenKind::Minus,
        BinaryOp::Mul => TokenKind::Star,
        BinaryOp::Div => TokenKind::Slash,
        BinaryOp::Rem => TokenKind::Percent,
        BinaryOp::Pow => TokenKind::Caret,
        BinaryOp::Concat => TokenKind::DotDot,
        BinaryOp::Eq => TokenKind::EqualEqual,
        BinaryOp::Ne => TokenKind::TildeEqual,
        BinaryOp::Lt => TokenKind::Less,
        BinaryOp::Le => TokenKind::LessEqual,
        BinaryOp::Gt => TokenKind::Greater,
        BinaryOp::Ge => TokenKind::GreaterEqual,
    }
}

pub fn unary_kind(op: UnaryOp) -> TokenKind
    ensures { result ≡ spell_unary op }
{
    match op {
        UnaryOp::Neg => TokenKind::Minus,
        UnaryOp::Not => TokenKind::Not,
        UnaryOp::Len => TokenKind::Hash,
    }
}
