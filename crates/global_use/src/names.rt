// How often each global is got and set in a function and the functions in it.
ghost use Rattle.std.specs.Prelude.{◌≡◌, map, Some, OnOk, if◌then◌else◌};
ghost use Rattle.proto.specs.Chunk.{own, functions_of};
ghost use Rattle.proto.specs.View.{view_proto};
ghost use Rattle.rules.specs.Places.{further_words};
ghost use Rattle.global_use.specs.Uses.{is_name, uses_in, uses, uses_of};
ghost use Rattle.global_use.specs.Counts.{does, count_of, named_sum, HasMore, Adds};

use crate::counting::{Counts, constants_of, counted};
use proto::{Constant, Proto};
use std::alloc::{AllocError, Global};
use std::collections::BTreeMap;

/// Adds counts to those that a table has of a name.
fn add_name<'a>(
    names: &mut BTreeMap<&'a [u8], Counts>,
    name: &'a [u8],
    more: Counts,
) -> Result<(), AllocError>
    ensures { OnOk result (HasMore names.old names.new name.now more) }
{
    let had = names.get(name).copied().unwrap_or(Counts::NONE);
    names.insert(name, had.with(more)?)?;
    Ok(())
}

/// Adds the counts that stand beside a constant, where it is a name and they are not none.
fn add_constant<'a>(
    names: &mut BTreeMap<&'a [u8], Counts>,
    constant: &'a Constant,
    counts: Counts,
) -> Result<(), AllocError>
    ensures { OnOk result (Adds names.old names.new (λ kind name. if is_name name (Some constant.now) then count_of kind counts else 0)) }
{
    if counts.is_none() {
        return Ok(());
    }
    match constant {
        Constant::Text(name) => add_name(names, name.bytes(), counts),
        _ => Ok(()),
    }
}

fn add_constants<'a>(
    names: &mut BTreeMap<&'a [u8], Counts>,
    constants: &'a [Constant],
    counts: &[Counts],
) -> Result<(), AllocError>
    ensures { OnOk result (Adds names.old names.new (λ kind name. named_sum kind name constants.now counts.now)) }
{
    for (constant, counts) in constants.iter().zip(counts) {
        add_constant(names, constant, *counts)?;
    }
    Ok(())
}

/// Adds what the words of one function do, by its constants: each of its names is looked up once.
fn add_own<'a>(
    alloc: Global,
    names: &mut BTreeMap<&'a [u8], Counts>,
    proto: &'a Proto,
) -> Result<(), AllocError>
    ensures { OnOk result (Adds names.old names.new (λ kind name. uses_in (does kind) (own (view_proto proto.now)).constants name (further_words (view_proto proto.now)) (own (view_proto proto.now)).code)) }
{
    let counts = counted(alloc, proto)?;
    add_constants(names, constants_of(proto), counts.as_slice())
}

/// Adds what a function and the functions in it do.
#[cycle(names)]
pub fn add_function<'a>(
    alloc: Global,
    names: &mut BTreeMap<&'a [u8], Counts>,
    proto: &'a Proto,
) -> Result<(), AllocError>
    ensures { OnOk result (Adds names.old names.new (λ kind name. uses (does kind) name (view_proto proto.now))) }
{
    add_own(alloc, names, proto)?;
    add_functions(alloc, names, proto.functions.items())
}

#[cycle(names)]
fn add_functions<'a>(
    alloc: Global,
    names: &mut BTreeMap<&'a [u8], Counts>,
    protos: &'a [Proto],
) -> Result<(), AllocError>
    ensures { OnOk result (Adds names.old names.new (λ kind name. uses_of (does kind) name (functions_of (map view_proto protos.now)))) }
{
    for proto in protos {
        add_function(alloc, names, proto)?;
    }
    Ok(())
}
