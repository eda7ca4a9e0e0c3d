// Built-in functions on values: print, type, tostring, tonumber, rawequal and select (manual 5.1).
ghost use Rattle.std.specs.Prelude.{◌≡◌, map, List, IfOk};
ghost use Rattle.std.specs.Result.{IfErr};
ghost use Rattle.std.specs.List.{join_with_byte};
ghost use Rattle.lua_model.specs.Datum.{Datum};
ghost use Rattle.lua_model.specs.Store.{Store};
ghost use Rattle.lua_model.specs.Acts as model;
ghost use Rattle.lua_model.specs.Builtins.{print as print_in, type_of as type_of_in, tostring as tostring_in, tonumber as tonumber_in, rawequal as rawequal_in, select as select_in, selected as selected_in, is_count_mark as is_count_mark_in};
ghost use Rattle.lua_heap.specs.State.{HeapState, datum, IsOf, AreOf};
ghost use Rattle.lua_heap.specs.Grown.{Grown};
ghost use Rattle.natives.specs.Refusals.{Gives, Refuses};
ghost use Rattle.natives.specs.Shown.{shown_beside};

use crate::arguments::{a_number, any_value, argument_or_nil, first, rest};
use crate::native_act::NativeAct;
use crate::refusal::Refusal;
use crate::results::results;
use crate::shown::shown;
use lua_heap::{Heap, is_nil, kind_name, number_of, text_value};
use lua_model::Value;
use lua_num::ByteText;
use std::alloc::{AllocError, Global};

pub fn print(alloc: Global, heap: &Heap, args: &[Value]) -> Result<NativeAct, Refusal>
    requires { AreOf heap.now args.now }
    ensures { Gives print_in heap.now heap.now args.now result }
{
    let mut piece = shown_in_a_row(alloc, heap, args)?;
    piece.push(b'\n')?;
    Ok(NativeAct::Print(piece))
}

pub fn type_of(alloc: Global, heap: &mut Heap, args: &[Value]) -> Result<NativeAct, Refusal>
    requires { AreOf heap.old args.now }
    ensures act { Gives type_of_in heap.old heap.new args.now result }
    ensures grown { Grown heap.old heap.new }
{
    let v = any_value(args, 1, b"type")?;
    let name = text_value(alloc, heap, kind_name(v))?;
    Ok(results(alloc, &[name])?)
}

pub fn tostring(alloc: Global, heap: &mut Heap, args: &[Value]) -> Result<NativeAct, Refusal>
    requires { AreOf heap.old args.now }
    ensures act { Gives tostring_in heap.old heap.new args.now result }
    ensures grown { Grown heap.old heap.new }
{
    let v = any_value(args, 1, b"tostring")?;
    let text = shown(alloc, heap, v)?;
    let text = text_value(alloc, heap, text.bytes())?;
    Ok(results(alloc, &[text])?)
}

pub fn tonumber(alloc: Global, heap: &Heap, args: &[Value]) -> Result<NativeAct, Refusal>
    requires { AreOf heap.now args.now }
    ensures { Gives tonumber_in heap.now heap.now args.now result }
{
    let v = any_value(args, 1, b"tonumber")?;
    let base = argument_or_nil(args, 2);
    if !is_nil(base) {
        return Err(Refusal::BadArgument {
            position: 2,
            function: b"tonumber",
            what: b"base is not supported",
        });
    }
    let number = match number_of(heap, v) {
        Some(n) => Value::Number(n),
        None => Value::Nil,
    };
    Ok(results(alloc, &[number])?)
}

pub fn rawequal(alloc: Global, heap: &Heap, args: &[Value]) -> Result<NativeAct, Refusal>
    requires { AreOf heap.now args.now }
    ensures { Gives rawequal_in heap.now heap.now args.now result }
{
    let a = any_value(args, 1, b"rawequal")?;
    let b = any_value(args, 2, b"rawequal")?;
    let are_equal = heap.raw_equal(a, b);
    Ok(results(alloc, &[Value::Bool(are_equal)])?)
}

pub fn select(alloc: Global, heap: &Heap, args: &[Value]) -> Result<NativeAct, Refusal>
    requires { AreOf heap.now args.now }
    ensures { Gives select_in heap.now heap.now args.now result }
{
    let others = rest(args);
    if is_count_mark(heap, first(args)) {
        let count = others.len() as i64;
        return Ok(results(alloc, &[Value::Number(count)])?);
    }
    let n = a_number(heap, args, 1, b"select")?;
    let chosen = selected(n, others)?;
    Ok(results(alloc, chosen)?)
}

/// The texts of values, with a tab between each two.
fn shown_in_a_row(alloc: Global, heap: &Heap, values: &[Value]) -> Result<ByteText, AllocError>
    requires { AreOf heap.now values.now }
    ensures { IfOk result (λ t. t ≡ join_with_byte 9 (map (λ v. shown_beside heap.now.host_names (datum heap.now v)) values.now)) }
{
    let mut piece = ByteText::new(alloc);
    for (index, v) in values.iter().enumerate() {
        if index > 0 {
            piece.push(b'\t')?;
        }
        piece.extend(shown(alloc, heap, *v)?.bytes())?;
    }
    Ok(piece)
}

fn is_count_mark(heap: &Heap, v: Value) -> bool
    requires { IsOf heap.now v }
    ensures { result ≡ is_count_mark_in (datum heap.now v) }
{
    match v {
        Value::Text(id) => heap.pool().bytes(id) == b"#".as_slice(),
        _ => false,
    }
}

/// The values from the n-th on, or the last -n.
fn selected(n: i64, others: &[Value]) -> Result<&[Value], Refusal>
    ensures chosen { IfOk result (λ vs. (h : HeapState) (s : Store) → selected_in n (map (datum h) others.now) s ≡ model.results (map (datum h) vs.now) s) }
    ensures known { IfOk result (λ vs. (h : HeapState) → AreOf h others.now → AreOf h vs.now) }
    ensures refused { IfErr result (λ r. (h : HeapState) (s : Store) (args : List Datum) → Refuses (selected_in n (map (datum h) others.now) s) args r) }
{
    let count = others.len();
    let distance = n.unsigned_abs() as usize;
    if n > 0 && distance <= count {
        Ok(&others[distance - 1..])
    } else if n > 0 {
        Ok(&[])
    } else if n < 0 && distance <= count {
        Ok(&others[count - distance..])
    } else {
        Err(Refusal::BadArgument {
            position: 1,
            function: b"select",
            what: b"index out of range",
        })
    }
}
