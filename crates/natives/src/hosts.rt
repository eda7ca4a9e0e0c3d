// Calls of hosts (manual 5.1; hosts are this suite's own).
ghost use Rattle.std.specs.Prelude.{◌≡◌, ◌<◌, ◌^◌, [], length, get_or, suc, ◌++◌, codes, IfOk};
ghost use Rattle.lua_num.specs.Bytes.{Text as Bytes};
ghost use Rattle.lua_model.specs.Datum.{kind_name as kind_name_of};
ghost use Rattle.lua_model.specs.Acts.{fails};
ghost use Rattle.lua_model.specs.Store.{as_plain};
ghost use Rattle.lua_model.specs.Builtins.{bad_argument as bad_argument_in};
ghost use Rattle.lua_heap.specs.State.{datum, IsOf, Keeps, AreOf, OnlyTexts};
ghost use Rattle.natives.specs.HostAnswers.{IsHostActOf, HostAnswers};
ghost use Rattle.lua_heap.specs.Grown.{Grown};

use crate::refusal::argument_failure;
use lua_heap::{Heap, kind_name, text_value};
use lua_model::{Plain, PlainList, Value};
use lua_num::ByteText;
use std::alloc::{AllocError, Global};

/// What a call of a host comes to: it is asked with plain values, or fails with a value and is not asked.
#[derive(Debug, Drop)]
pub enum HostAct {
    Ask(PlainList),
    Fail(Value),
}

/// What a call of this host with these arguments comes to, where it is live or closed: a closed one fails, whatever the
/// arguments are, and a live one where an argument is a table or a function. In time linear in the arguments and their
/// texts. Where memory runs out only texts of the heap changed.
pub fn host_call(
    alloc: Global,
    heap: &mut Heap,
    host: usize,
    live: bool,
    args: &[Value],
) -> Result<HostAct, AllocError>
    requires host { host < length heap.old.host_names }
    requires args { AreOf heap.old args.now }
    ensures act { IfOk result (HostAnswers heap.old heap.new host live args.now) }
    ensures known { IfOk result (IsHostActOf heap.new) }
    ensures only_texts { OnlyTexts heap.old heap.new }
    ensures keeps { Keeps heap.old heap.new }
{
    if !live {
        return Ok(HostAct::Fail(text_value(alloc, heap, b"host is closed")?));
    }
    let mut plain = PlainList::new(alloc);
    for i in 0..args.len() {
        let Some(value) = plain_of(alloc, heap, args[i])? else {
            let failure = not_plain(alloc, heap, host, i, args[i])?;
            return Ok(HostAct::Fail(failure));
        };
        plain.push(value)?;
    }
    Ok(HostAct::Ask(plain))
}

/// A value as a plain one, which a table and a function are not.
fn plain_of(alloc: Global, heap: &Heap, v: Value) -> Result<Option<Plain>, AllocError>
    requires { IsOf heap.now v }
    ensures { IfOk result (λ r. r ≡ as_plain (datum heap.now v)) }
{
    match v {
        Value::Nil => Ok(Some(Plain::Nil)),
        Value::Bool(b) => Ok(Some(Plain::Bool(b))),
        Value::Number(n) => Ok(Some(Plain::Number(n))),
        Value::Text(id) => {
            let text = ByteText::from_slice(alloc, heap.pool().bytes(id))?;
            Ok(Some(Plain::Text(text)))
        }
        _ => Ok(None),
    }
}

/// The failure of a host's argument that is no plain value, at this place from 0.
fn not_plain(
    alloc: Global,
    heap: &mut Heap,
    host: usize,
    place: usize,
    v: Value,
) -> Result<Value, AllocError>
    requires host { host < length heap.old.host_names }
    requires place { place < 2 ^ 62 }
    ensures failure { IfOk result (λ r. (name : Bytes) → name ≡ get_or heap.old.host_names host [] → fails (datum heap.new r) ≡ bad_argument_in (suc place) name (codes "plain value expected, got " ++ kind_name_of (datum heap.old v))) }
    ensures known { IfOk result (IsOf heap.new) }
    ensures grown { Grown heap.old heap.new }
{
    let mut what = ByteText::from_slice(alloc, b"plain value expected, got ")?;
    what.extend(kind_name(v))?;
    let message = argument_failure(alloc, place as i64 + 1, heap.host_name(host), what.bytes())?;
    let failure = text_value(alloc, heap, message.bytes())?;
    Ok(failure)
}
