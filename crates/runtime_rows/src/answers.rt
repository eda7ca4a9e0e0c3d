// The texts of answers.
ghost use Rattle.lua_heap.specs.State.{IsOf, AreOf};
ghost use Rattle.meta_ops.specs.Acts.{IsActOf, IsCalleeOf};
ghost use Rattle.natives.specs.Answers.{IsActOf as IsNativeActOf};

use lua_heap::Heap;
use lua_model::Value;
use meta_ops::{Act, Callee, Then};
use natives::{NativeAct, builtin_name};
use std::alloc::{AllocError, Global};

/// The text of a value of the heap.
pub(crate) fn value_text(alloc: Global, heap: &Heap, value: Value) -> Result<String, AllocError>
    requires { IsOf heap.now value }
{
    match value {
        Value::Nil => String::from_str(alloc, "nil"),
        Value::Bool(truth) => format!(in alloc; "{truth}"),
        Value::Number(number) => format!(in alloc; "{number}"),
        Value::Text(id) => quoted(alloc, heap.pool().bytes(id)),
        Value::Table(id) => format!(in alloc; "table {}", heap.table_number(id)),
        Value::Closure(id) => format!(in alloc; "closure {}", heap.closure_number(id)),
        Value::Native(id) => format!(in alloc; "builtin {}", builtin_name(id).escape_ascii()),
        Value::Host(host) => format!(in alloc; "host {}", heap.host_name(host).escape_ascii()),
    }
}

/// What an operator answers.
pub(crate) fn act_text(alloc: Global, heap: &Heap, act: &Act) -> Result<String, AllocError>
    requires { IsActOf heap.now act.now }
{
    match act {
        Act::Value(value) => format!(in alloc; "= {}", value_text(alloc, heap, *value)?),
        Act::Call {
            handler,
            args,
            then,
        } => {
            let handler = value_text(alloc, heap, *handler)?;
            let args = value_texts(alloc, heap, args.items())?;
            format!(in alloc; "calls {handler} ({args}) {}", then_word(*then))
        }
        Act::Fail(value) => format!(in alloc; "fails {}", value_text(alloc, heap, *value)?),
    }
}

/// What a call goes to.
pub(crate) fn callee_text(alloc: Global, heap: &Heap, callee: Callee) -> Result<String, AllocError>
    requires { IsCalleeOf heap.now callee }
{
    match callee {
        Callee::Plain(f) => format!(in alloc; "goes to {}", value_text(alloc, heap, f)?),
        Callee::Through(h) => format!(in alloc; "goes through {}", value_text(alloc, heap, h)?),
        Callee::Fail(value) => format!(in alloc; "fails {}", value_text(alloc, heap, value)?),
    }
}

/// What a built-in function answers.
pub(crate) fn native_act_text(
    alloc: Global,
    heap: &Heap,
    act: &NativeAct,
) -> Result<String, AllocError>
    requires { IsNativeActOf heap.now act.now }
{
    match act {
        NativeAct::Values(values) => {
            let texts = value_texts(alloc, heap, values.items())?;
            let texts = if texts.is_empty() {
                "nothing"
            } else {
                texts.as_str()
            };
            format!(in alloc; "gives {texts}")
        }
        NativeAct::Print(piece) => format!(in alloc; "prints {}", quoted(alloc, piece.bytes())?),
        NativeAct::Fail(value) => format!(in alloc; "fails {}", value_text(alloc, heap, *value)?),
        NativeAct::Protect { f, args } => {
            let f = value_text(alloc, heap, *f)?;
            let args = value_texts(alloc, heap, args.items())?;
            format!(in alloc; "protects {f} ({args})")
        }
        NativeAct::CloseHost(name) => format!(in alloc; "closes {}", quoted(alloc, name.bytes())?),
    }
}

fn then_word(then: Then) -> &'static str {
    match then {
        Then::Take => "take",
        Then::Truth => "truth",
        Then::Negate => "negate",
        Then::Discard => "discard",
    }
}

/// The texts of values, with commas.
fn value_texts(alloc: Global, heap: &Heap, values: &[Value]) -> Result<String, AllocError>
    requires { AreOf heap.now values.now }
{
    let mut texts = String::new(alloc);
    for value in values {
        if !texts.is_empty() {
            texts.push_str(", ")?;
        }
        texts.push_str(&value_text(alloc, heap, *value)?)?;
    }
    Ok(texts)
}

fn quoted(alloc: Global, bytes: &[u8]) -> Result<String, AllocError> {
    format!(in alloc; "\"{}\"", bytes.escape_ascii())
}
