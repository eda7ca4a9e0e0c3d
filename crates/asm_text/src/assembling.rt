// Reading listings back to chunks.
ghost use Rattle.std.specs.Prelude.{◌≡◌, ◌≤◌, length, Ok, IfOk, IfErr};
ghost use Rattle.proto.specs.View.{view_proto};
ghost use Rattle.asm_text.specs.Faults.{Assembles, StopsBy};
ghost use Rattle.asm_text.specs.Reading.{all_of, fault_of as fault_in, line_ends as line_ends_in, line_number as line_number_in, differing_line as differing_line_in};

use crate::fault::ListFault;
use crate::function::whole_of;
use crate::miss::{Miss, ReadError};
use lister::list;
use proto::Proto;
use std::alloc::Global;

/// The chunk of which this text is the listing, or the first line by which it is none. The time and the memory are linear in
/// the text; no count is trusted before its lines are there.
pub fn assemble(alloc: Global, text: &[u8]) -> Result<Proto, ListFault>
    ensures assembles { IfOk result (λ proto. Assembles text.now (view_proto proto)) }
    ensures fault { IfErr result (StopsBy text.now) }
{
    match whole_of(alloc, text) {
        Ok(proto) => compared(alloc, text, proto),
        Err(ReadError::Memory) => Err(ListFault::OutOfMemory),
        Err(ReadError::Miss(miss)) => Err(fault_of(text, miss)),
    }
}

/// The chunk that the lines of the text give, where its listing is the text.
fn compared(alloc: Global, text: &[u8], proto: Proto) -> Result<Proto, ListFault>
    requires { all_of text.now ≡ Ok (view_proto proto) }
    ensures assembles { IfOk result (λ proto. Assembles text.now (view_proto proto)) }
    ensures fault { IfErr result (StopsBy text.now) }
{
    let listing = list(alloc, &proto)?;
    if listing.bytes() == text {
        return Ok(proto);
    }
    let line = differing_line(text, listing.bytes());
    Err(ListFault::Differs { line })
}

/// The fault that a miss is, with the line that begins there.
fn fault_of(text: &[u8], miss: Miss) -> ListFault
    ensures { result ≡ fault_in text.now miss }
{
    match miss {
        Miss::BadLine(left) => ListFault::BadLine {
            line: line_number(text, left),
        },
        Miss::TooDeep(left) => ListFault::TooDeep {
            line: line_number(text, left),
        },
    }
}

/// The line that begins where so many bytes are left, counted from 1.
fn line_number(text: &[u8], left: usize) -> usize
    ensures { result ≡ line_number_in text.now left }
{
    let before = &text[..text.len().saturating_sub(left)];
    line_ends(before) + 1
}

fn line_ends(text: &[u8]) -> usize
    ensures count { result ≡ line_ends_in text.now }
    ensures within { result ≤ length text.now }
{
    let mut ends = 0;
    for byte in text {
        if *byte == b'\n' {
            ends += 1;
        }
    }
    ends
}

/// The first line in which two texts differ, counted from 1.
fn differing_line(text: &[u8], other: &[u8]) -> usize
    ensures { result ≡ differing_line_in text.now other.now }
{
    let mut line = 1;
    for (at, byte) in text.iter().enumerate() {
        if at >= other.len() {
            return line;
        }
        if other[at] != *byte {
            return line;
        }
        if *byte == b'\n' {
            line += 1;
        }
    }
    line
}
