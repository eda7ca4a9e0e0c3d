// From a chunk to a tree.
ghost use Rattle.std.specs.Prelude.{◌≡◌, ◌∷◌, [], ◌<◌, ◌≤◌, ◌^◌, OnOk, IfOk, IfErr, Some, length, map};
ghost use Rattle.core_expr.specs.Values.{view_bodies, view_recovered};
ghost use Rattle.lua_tree.specs.View.{view_tree};
ghost use Rattle.lua_tree.specs.WellFormed.{WellFormed};
ghost use Rattle.proto.specs.Chunk.{Chunk, Functions, functions_of, function_at};
ghost use Rattle.proto.specs.Short.{IsShort, AreShort};
ghost use Rattle.proto.specs.View.{view_proto};
ghost use Rattle.recover_flow.specs.Debug.{HasDebug};
ghost use Rattle.recover_flow.specs.Lost.{IsLostBy};
ghost use Rattle.recover_flow.specs.Recovering.{AreFound, IsFailedOnlyWhere, IsFound, IsLost, IsLostOnlyWhere, IsMainFound, IsOneLost, IsSourceFound};
ghost use Rattle.recover_flow.specs.Stops.{FailsBy, FailsAmong, IsUnfound};
ghost use Rattle.recover_flow.specs.declared.recovering.Failure.TheVariants.{OutOfMemory};

use crate::debug::untold;
use crate::function::{LIMIT, Stop, recover_function};
use crate::lost::Lost;
use core_expr::{Bodies, Recovered};
use lua_tree::{Body, Tree};
use proto::{Path, Proto};
use recover_expr::Reason;
use std::alloc::{AllocError, Global};
use well_formed::is_well_formed;

/// The well-formed tree of a source of a chunk, or why none is recovered.
pub fn recover(alloc: Global, proto: &Proto) -> Result<Tree, Lost>
    requires short { IsShort (view_proto proto.now) }
    ensures told { OnOk result (HasDebug (view_proto proto.now)) }
    ensures formed { IfOk result (λ tree. WellFormed (view_tree tree)) }
    ensures lost { IfErr result (IsLostBy (view_proto proto.now)) }
    ensures found { IfOk result (λ tree. IsSourceFound (view_proto proto.now) (view_tree tree)) }
    ensures only { IfErr result (IsLostOnlyWhere (view_proto proto.now)) }
{
    if let Some(path) = untold(alloc, proto)? {
        return Err(Lost::NoDebug { path });
    }
    recovered(alloc, proto)
}

/// Why no function is recovered: the path of one, and of a word its pc and what is wrong with it.
#[derive(Debug, Drop)]
enum Failure {
    At { path: Path, pc: u32, reason: Reason },
    OutOfMemory,
}

impl From<AllocError> for Failure {
    ghost use Rattle.std.specs.Prelude.{◌≡◌};
    ghost use Rattle.recover_flow.specs.declared.recovering.Failure.TheVariants.{OutOfMemory};

    ghost from_gives = { λ _ failure. failure ≡ OutOfMemory };

    fn from(_error: AllocError) -> Self {
        Failure::OutOfMemory
    }
}

impl From<Failure> for Lost {
    ghost use Rattle.recover_flow.specs.Stops.{TellsFailure};

    ghost from_gives = { λ failure lost. TellsFailure failure lost };

    fn from(failure: Failure) -> Self {
        match failure {
            Failure::At { path, pc, reason } => Lost::At { path, pc, reason },
            Failure::OutOfMemory => Lost::OutOfMemory,
        }
    }
}

// The tree of a chunk that tells what its source is recovered by. It is refused where it is not well formed.
fn recovered(alloc: Global, proto: &Proto) -> Result<Tree, Lost>
    requires short { IsShort (view_proto proto.now) }
    ensures formed { IfOk result (λ tree. WellFormed (view_tree tree)) }
    ensures lost { IfErr result (IsUnfound (view_proto proto.now)) }
    ensures found { IfOk result (λ tree. IsSourceFound (view_proto proto.now) (view_tree tree)) }
    ensures only { IfErr result (IsLostOnlyWhere (view_proto proto.now)) }
{
    let Recovered { body, .. } = main_function(alloc, proto)?;
    let Body { block, .. } = body;
    let tree = Tree {
        body: block,
        last_line: 1,
    };
    if !is_well_formed(&tree) {
        return Err(Lost::At {
            path: Path::new(alloc),
            pc: 0,
            reason: Reason::NotScheme,
        });
    }
    Ok(tree)
}

// The main function, in natural forms, or in those of fewest levels where none is found with these, which may be for want of levels.
fn main_function(alloc: Global, proto: &Proto) -> Result<Recovered, Lost>
    requires short { IsShort (view_proto proto.now) }
    ensures lost { IfErr result (IsUnfound (view_proto proto.now)) }
    ensures found { IfOk result (λ found. IsMainFound (view_proto proto.now) (view_recovered found)) }
    ensures only { IfErr result (IsLostOnlyWhere (view_proto proto.now)) }
{
    match inner_function(alloc, proto, 0, false) {
        Ok(found) => Ok(found),
        Err(Failure::OutOfMemory) => Err(Lost::OutOfMemory),
        Err(Failure::At { .. }) => {
            let found = inner_function(alloc, proto, 0, true)?;
            Ok(found)
        }
    }
}

// A function that stands so deep in others, behind those in it.
#[cycle(recovering)]
fn inner_function(
    alloc: Global,
    proto: &Proto,
    depth: u32,
    short: bool,
) -> Result<Recovered, Failure>
    requires short { IsShort (view_proto proto.now) }
    ensures failed { IfErr result (FailsBy (view_proto proto.now)) }
    ensures found { IfOk result (λ found. IsFound short (view_proto proto.now) (view_recovered found)) }
    ensures only { IfErr result (IsFailedOnlyWhere (IsLost short depth (view_proto proto.now))) }
{
    if depth > LIMIT {
        return Err(Failure::At {
            path: Path::new(alloc),
            pc: 0,
            reason: Reason::NotScheme,
        });
    }
    let bodies = inner_functions(alloc, proto.functions.items(), depth + 1, short)?;
    match recover_function(alloc, proto, bodies, short) {
        Ok(found) => Ok(found),
        Err(Stop::At { pc, reason }) => Err(Failure::At {
            path: Path::new(alloc),
            pc,
            reason,
        }),
        Err(Stop::OutOfMemory) => Err(Failure::OutOfMemory),
    }
}

#[cycle(recovering)]
fn inner_functions(
    alloc: Global,
    protos: &[Proto],
    depth: u32,
    short: bool,
) -> Result<Bodies, Failure>
    requires few { length protos.now < 2 ^ 32 }
    requires short { AreShort (functions_of (map view_proto protos.now)) }
    ensures failed { IfErr result (FailsAmong (functions_of (map view_proto protos.now))) }
    ensures found { IfOk result (λ bodies. AreFound short (functions_of (map view_proto protos.now)) (view_bodies bodies)) }
    ensures only { IfErr result (IsFailedOnlyWhere (IsOneLost short depth (functions_of (map view_proto protos.now)))) }
{
    let mut bodies = Bodies::new(alloc);
    for (number, proto) in protos.iter().enumerate() {
        match inner_function(alloc, proto, depth, short) {
            Ok(found) => bodies.push(found)?,
            Err(failure) => return Err(below(number, failure)),
        }
    }
    Ok(bodies)
}

// A failure in the function of a number, as the function around it sees it.
fn below(number: usize, failure: Failure) -> Failure
    requires { number < 2 ^ 32 }
    ensures failed { (inner : Functions) (c : Chunk) → function_at inner number ≡ Some c → FailsBy c failure → FailsAmong inner result }
    ensures memory { failure ≡ OutOfMemory → result ≡ OutOfMemory }
{
    match failure {
        Failure::At { path, pc, reason } => match longer(number, path) {
            Ok(path) => Failure::At { path, pc, reason },
            Err(_) => Failure::OutOfMemory,
        },
        Failure::OutOfMemory => Failure::OutOfMemory,
    }
}

// A path with a number before it.
fn longer(number: usize, path: Path) -> Result<Path, AllocError>
    requires { number < 2 ^ 32 }
    ensures { IfOk result (λ all. all ≡ number ∷ path) }
{
    let mut numbers = path.into_vec();
    numbers.insert(0, number as u32)?;
    Ok(Path::from_vec(numbers))
}
