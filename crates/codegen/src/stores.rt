// Targets of assignments, and what is stored to them from registers.
ghost use Rattle.std.specs.Prelude.{◌≡◌, ◌+◌, OnOk, IfOk, length, ◌≤◌};
ghost use Rattle.scheme.specs.Statements as parts;
ghost use Rattle.code_builder.specs.Made.{maker_of};
ghost use Rattle.code_builder.specs.Places.{place_of};
ghost use Rattle.codegen.specs.Targets.{target_of, targets_of, stored_back as the_stored_back};

use crate::words::{plus, put_abc, put_abx, text_constant};
use code_builder::{Builder, Place, field};
use opcode::Op;
use std::alloc::{AllocError, Global};

/// What an assignment stores to: what a name means, or a table and a key, each with whether it is a bare local.
#[derive(Clone, Copy, Debug, PartialEq, Eq)]
pub enum Target<'t> {
    Name {
        name: &'t [u8],
        place: Place,
    },
    Part {
        on: u32,
        key: u32,
        on_local: bool,
        key_local: bool,
    },
}

/// Stores a register to what a name means.
pub fn set_place(
    alloc: Global,
    builder: &mut Builder,
    line: u32,
    r: u32,
    name: &[u8],
    place: Place,
) -> Result<(), AllocError>
    ensures { OnOk result (maker_of builder.new ≡ parts.set_where line r name.now (place_of place) (maker_of builder.old)) }
{
    match place {
        Place::Register(x) => put_abc(builder, line, Op::Move, field(x)?, r, 0),
        Place::Upvalue(slot) => put_abc(builder, line, Op::SetUpval, r, field(slot)?, 0),
        Place::Global => {
            let k = text_constant(alloc, name)?;
            let number = builder.constant(k)?;
            put_abx(builder, line, Op::SetGlobal, r, number)
        }
    }
}

/// Stores a register to a target.
pub fn store_register(
    alloc: Global,
    builder: &mut Builder,
    line: u32,
    target: &Target,
    r: u32,
) -> Result<(), AllocError>
    ensures { OnOk result (maker_of builder.new ≡ parts.store_register line (target_of target.now) r (maker_of builder.old)) }
{
    match target {
        Target::Name { name, place } => set_place(alloc, builder, line, r, name, *place),
        Target::Part { on, key, .. } => put_abc(builder, line, Op::SetTable, *on, *key, r),
    }
}

/// Stores the registers from one on to targets, from right to left.
pub fn stored_from(
    alloc: Global,
    builder: &mut Builder,
    line: u32,
    r: u32,
    targets: &[Target],
) -> Result<(), AllocError>
    ensures { OnOk result (maker_of builder.new ≡ parts.stored_from line r (targets_of targets.now) (maker_of builder.old)) }
{
    let mut i = targets.len();
    while i > 0 {
        i -= 1;
        let from = plus(r, field(i)?)?;
        store_register(alloc, builder, line, &targets[i], from)?;
    }
    Ok(())
}

// Whether a local is the table or the key of a target.
fn is_part_of(x: u32, target: &Target) -> bool
    ensures { result ≡ parts.is_part_of x (target_of target.now) }
{
    match target {
        Target::Name { .. } => false,
        Target::Part {
            on,
            key,
            on_local,
            key_local,
        } => (*on_local && *on == x) || (*key_local && *key == x),
    }
}

// Whether a local is a target.
fn is_target(x: u32, target: &Target) -> bool
    ensures { result ≡ parts.is_target x (target_of target.now) }
{
    match target {
        Target::Name {
            place: Place::Register(y),
            ..
        } => x as usize == *y,
        _ => false,
    }
}

// Whether a local is the table or the key of a target, and is itself a target further right.
fn clashes(x: u32, targets: &[Target]) -> bool
    ensures { result ≡ parts.clashes x (targets_of targets.now) }
{
    let mut among = false;
    let mut found = false;
    let mut i = targets.len();
    while i > 0 {
        i -= 1;
        let target = &targets[i];
        found = (is_part_of(x, target) && among) || found;
        among = is_target(x, target) || among;
    }
    found
}

// The target with a copy in place of a local.
fn renamed<'t>(x: u32, copy: u32, target: Target<'t>) -> Target<'t>
    ensures { target_of result ≡ parts.renamed x copy (target_of target.entry) }
{
    match target {
        Target::Name { .. } => target,
        Target::Part {
            on,
            key,
            on_local,
            key_local,
        } => Target::Part {
            on: if on_local && on == x { copy } else { on },
            key: if key_local && key == x { copy } else { key },
            on_local,
            key_local,
        },
    }
}

// The targets left of a local's last place as a target use its copy.
fn with_copy(x: u32, copy: u32, targets: &mut [Target])
    ensures { targets_of targets.new ≡ parts.with_copy x copy (targets_of targets.old) }
{
    let mut among = false;
    let mut i = targets.len();
    while i > 0 {
        i -= 1;
        let target = targets[i];
        if among {
            targets[i] = renamed(x, copy, target);
        }
        among = among || is_target(x, &target);
    }
}

// The copies, where there is more than one target.
fn some_copies(
    builder: &mut Builder,
    line: u32,
    count: u32,
    originals: &[Target],
    targets: &mut [Target],
) -> Result<(), AllocError>
    requires { targets.old ≡ originals.now }
    ensures targets { OnOk result (targets_of targets.new ≡ (parts.copies line count (targets_of originals.now) (maker_of builder.old)).value) }
    ensures made { OnOk result (maker_of builder.new ≡ (parts.copies line count (targets_of originals.now) (maker_of builder.old)).after) }
{
    for x in 0..count {
        if clashes(x, originals) {
            let copy = builder.free;
            builder.take_registers(1)?;
            put_abc(builder, line, Op::Move, copy, x, 0)?;
            with_copy(x, copy, targets);
        }
    }
    Ok(())
}

/// Of the locals in so many registers, in order, those that are the table or the key of a target and are themselves a target
/// further right are copied. Gives the targets with these copies.
pub fn copies<'t>(
    alloc: Global,
    builder: &mut Builder,
    line: u32,
    count: u32,
    targets: Vec<Target<'t>>,
) -> Result<Vec<Target<'t>>, AllocError>
    ensures targets { IfOk result (λ places. targets_of places.items ≡ (parts.copies line count (targets_of targets.entry.items) (maker_of builder.old)).value) }
    ensures made { OnOk result (maker_of builder.new ≡ (parts.copies line count (targets_of targets.entry.items) (maker_of builder.old)).after) }
{
    let mut places = Vec::from_slice(alloc, targets.as_slice())?;
    some_copies(
        builder,
        line,
        count,
        targets.as_slice(),
        places.as_mut_slice(),
    )?;
    Ok(places)
}

/// Stores registers to the first targets, from right to left.
pub fn stored_back(
    alloc: Global,
    builder: &mut Builder,
    line: u32,
    targets: &[Target],
    registers: &[u32],
) -> Result<(), AllocError>
    requires { length registers.now ≤ length targets.now }
    ensures { OnOk result (maker_of builder.new ≡ the_stored_back line (targets_of targets.now) registers.now (maker_of builder.old)) }
{
    let mut i = registers.len();
    while i > 0 {
        i -= 1;
        store_register(alloc, builder, line, &targets[i], registers[i])?;
    }
    Ok(())
}
