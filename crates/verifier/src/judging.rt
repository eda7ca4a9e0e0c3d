// Chunks that are verified.
ghost use Rattle.std.specs.Prelude.{◌≡◌, ◌⊎◌, ◌<◌, ◌^◌, ℕ, List, true, false, IfOk, OnOk, IfErr, length, map};
ghost use Rattle.proto.specs.Chunk.{functions_of};
ghost use Rattle.proto.specs.Short.{IsShort, AreShort};
ghost use Rattle.proto.specs.View.{view_proto};
ghost use Rattle.rules.specs.declared.rule.Rule.{Rule as OneRule};
ghost use Rattle.rules.specs.Sound.{Sound, Rejected};
ghost use Rattle.verifier.specs.Verify.{Judged, AllJudged};
ghost use Rattle.verifier.specs.Refusing.{Refuses};

use crate::scan::{Broken, first_broken};
use proto::{Path, Proto};
use rules::Rule;
use std::alloc::{AllocError, Global};
use std::marker::Model;

/// A sound chunk: no step of its run leaves its frames, constants, functions, upvalues or code. Contracts see its main function.
#[derive(Drop)]
pub struct Verified {
    proto: Proto,
}

impl Model for Verified {
    ghost use Rattle.proto.specs.declared.proto.Proto.{Proto as TheProto};
    ghost use Rattle.proto.specs.Short.{IsShort};
    ghost use Rattle.proto.specs.View.{view_proto};
    ghost use Rattle.rules.specs.Sound.{Sound};
    ghost use Rattle.proto.specs.contracts.proto.Proto.{the_row};

    ghost Value = { TheProto };

    ghost coded = { the_row.coded };

    ghost view = { λ v. v.proto };

    ghost invariant = { λ v. Sound (view_proto v.proto) × IsShort (view_proto v.proto) };
}

impl Verified {
    /// The main function.
    pub fn proto(&self) -> &Proto
        ensures proto { result.now ≡ self.now }
        ensures sound { Sound (view_proto self.now) }
        ensures short { IsShort (view_proto self.now) }
    {
        &self.proto
    }
}

/// Why a chunk is not verified. It is given back unchanged.
#[derive(Drop)]
pub enum Refusal {
    /// A function of the chunk has no notes that break no rule. The path leads to the first such function, and its notes all break
    /// the rule at the pc, where some of them break none at an earlier place. Places go by pc, then by the rule's number.
    Rejected {
        proto: Proto,
        path: Path,
        pc: u32,
        rule: Rule,
    },
    OutOfMemory {
        proto: Proto,
    },
}

/// The first place where a function, or one in it, breaks a rule. The path goes to the function; where it is rejected it has
/// come to go to the one that breaks the rule.
#[cycle(judging)]
fn judge(
    alloc: Global,
    proto: &Proto,
    main: bool,
    path: &mut Path,
) -> Result<Option<Broken>, AllocError>
    requires short { IsShort (view_proto proto.now) }
    ensures { IfOk result (λ broken. Judged (view_proto proto.now) main path.old path.new broken) }
{
    if let Some(broken) = first_broken(alloc, proto, main)? {
        return Ok(Some(broken));
    }
    judge_all(alloc, proto.functions.items(), path)
}

#[cycle(judging)]
fn judge_all(
    alloc: Global,
    functions: &[Proto],
    path: &mut Path,
) -> Result<Option<Broken>, AllocError>
    requires few { length functions.now < 2 ^ 32 }
    requires short { AreShort (functions_of (map view_proto functions.now)) }
    ensures { IfOk result (λ broken. AllJudged (functions_of (map view_proto functions.now)) path.old path.new broken) }
{
    let mut number: u32 = 0;
    for function in functions {
        path.push(number)?;
        if let Some(broken) = judge(alloc, function, false, path)? {
            return Ok(Some(broken));
        }
        path.pop();
        number += 1;
    }
    Ok(None)
}

/// Whether a chunk is sound. The time is about linear in the words for code that a compiler made, and for code whose jumps
/// all go forward; else it is at most 769 times as much.
pub fn verify(alloc: Global, proto: Proto) -> Result<Verified, Refusal>
    requires short { IsShort (view_proto proto) }
    ensures ok { IfOk result (λ verified. verified ≡ proto) }
    ensures sound { IfOk result (λ verified. Sound (view_proto verified)) }
    ensures err { IfErr result (Refuses proto) }
{
    let mut path = Path::new(alloc);
    match judge(alloc, &proto, true, &mut path) {
        Ok(None) => Ok(Verified { proto }),
        Ok(Some(Broken { pc, rule })) => Err(Refusal::Rejected {
            proto,
            path,
            pc,
            rule,
        }),
        Err(AllocError) => Err(Refusal::OutOfMemory { proto }),
    }
}

/// Each chunk is sound or rejected somewhere, as far as memory is there to find out which. Never both, by a law of `rules`.
pub fn sound_or_rejected(alloc: Global, proto: Proto) -> Result<(), AllocError>
    requires short { IsShort (view_proto proto) }
    ensures { OnOk result (Sound (view_proto proto) ⊎ ((path : List ℕ) × (pc : ℕ) × (rule : OneRule) × Rejected (view_proto proto) path pc rule)) }
{
    match verify(alloc, proto) {
        Ok(_) | Err(Refusal::Rejected { .. }) => Ok(()),
        Err(Refusal::OutOfMemory { .. }) => Err(AllocError),
    }
}
