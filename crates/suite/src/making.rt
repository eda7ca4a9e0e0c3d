// Making a text of a file.
ghost use Rattle.std.specs.Prelude.{◌≡◌, IfOk, IfErr};
ghost use Rattle.std.specs.String.{string_bytes};
ghost use Rattle.lua_num.specs.Bytes.{Text};
ghost use Rattle.proto.specs.View.{view_proto};
ghost use Rattle.suite.specs.declared.product.Product.TheVariants as product;
ghost use Rattle.suite.specs.Jobs.{Makes, stripped_if as the_stripped_if};
ghost use Rattle.suite.specs.Refusing.{IsRefusal};

use crate::chunk::{chunk_of, source_chunk, spelled_chunk, verified};
use crate::outcome::Outcome;
use crate::product::Product;
use asm_text::{ListFault, assemble};
use chunk_io::{Layout, dump, dump_as};
use decompile::{Refused, decompile};
use global_use::global_text;
use lister::list;
use lua_num::ByteText;
use proto::Proto;
use std::alloc::Global;
use suite_io::Word;

/// The text that is made of a file, or what the work comes to where there is none.
pub fn made_text(
    alloc: Global,
    bytes: &[u8],
    file: &Word,
    product: Product,
) -> Result<ByteText, Outcome>
    ensures made { IfOk result (Makes product (string_bytes file.now) bytes.now) }
    ensures none { IfErr result (IsRefusal product (string_bytes file.now) bytes.now) }
{
    match product {
        Product::Listing => listing_of(alloc, bytes, file),
        Product::Verdict => verdict_on(alloc, bytes, file),
        Product::Spelling { strip, layout } => spelling_of(alloc, bytes, file, strip, layout),
        Product::Source => source_of(alloc, bytes),
        Product::Globals => globals_of(alloc, bytes, file),
        Product::Assembly => assembly_of(alloc, bytes),
    }
}

fn listing_of(alloc: Global, bytes: &[u8], file: &Word) -> Result<ByteText, Outcome>
    ensures made { IfOk result (Makes product.Listing (string_bytes file.now) bytes.now) }
    ensures none { IfErr result (IsRefusal product.Listing (string_bytes file.now) bytes.now) }
{
    let proto = match chunk_of(alloc, bytes, file) {
        Ok(proto) => proto,
        Err(outcome) => return Err(outcome),
    };
    match list(alloc, &proto) {
        Ok(text) => Ok(text),
        Err(_) => Err(Outcome::OutOfMemory),
    }
}

fn verdict_on(alloc: Global, bytes: &[u8], file: &Word) -> Result<ByteText, Outcome>
    ensures made { IfOk result (Makes product.Verdict (string_bytes file.now) bytes.now) }
    ensures none { IfErr result (IsRefusal product.Verdict (string_bytes file.now) bytes.now) }
{
    // Laws: the chunk of a source is sound, so that it is never rejected.
    front::compiled_is_sound();
    rules::never_both();
    let proto = match chunk_of(alloc, bytes, file) {
        Ok(proto) => proto,
        Err(outcome) => return Err(outcome),
    };
    match verified(alloc, proto) {
        Ok(_) => match ByteText::from_slice(alloc, b"ok\n") {
            Ok(text) => Ok(text),
            Err(_) => Err(Outcome::OutOfMemory),
        },
        Err(outcome) => Err(outcome),
    }
}

fn spelling_of(
    alloc: Global,
    bytes: &[u8],
    file: &Word,
    strip: bool,
    layout: Layout,
) -> Result<ByteText, Outcome>
    ensures made { IfOk result (Makes (product.Spelling strip layout) (string_bytes file.now) bytes.now) }
    ensures none { IfErr result (IsRefusal (product.Spelling strip layout) (string_bytes file.now) bytes.now) }
{
    let proto = match source_chunk(alloc, bytes, file, layout) {
        Ok(proto) => proto,
        Err(outcome) => return Err(outcome),
    };
    let kept = stripped_if(alloc, proto, strip);
    match dump_as(alloc, &kept, layout) {
        Ok(text) => Ok(text),
        Err(_) => Err(Outcome::OutOfMemory),
    }
}

fn source_of(alloc: Global, bytes: &[u8]) -> Result<ByteText, Outcome>
    ensures made { IfOk result (λ text. (file : Text) → Makes product.Source file bytes.now text) }
    ensures none { IfErr result (λ outcome. (file : Text) → IsRefusal product.Source file bytes.now outcome) }
{
    let proto = match spelled_chunk(alloc, bytes) {
        Ok(proto) => proto,
        Err(outcome) => return Err(outcome),
    };
    match decompile(alloc, &proto) {
        Ok(text) => Ok(text),
        Err(Refused::OutOfMemory) => Err(Outcome::OutOfMemory),
        Err(refused) => Err(Outcome::NotDecompiled(refused)),
    }
}

fn globals_of(alloc: Global, bytes: &[u8], file: &Word) -> Result<ByteText, Outcome>
    ensures made { IfOk result (Makes product.Globals (string_bytes file.now) bytes.now) }
    ensures none { IfErr result (IsRefusal product.Globals (string_bytes file.now) bytes.now) }
{
    // Laws: the chunk of a source is sound, so that it is never rejected.
    front::compiled_is_sound();
    rules::never_both();
    let proto = match chunk_of(alloc, bytes, file) {
        Ok(proto) => proto,
        Err(outcome) => return Err(outcome),
    };
    match verified(alloc, proto) {
        Ok(chunk) => match global_text(alloc, chunk.proto()) {
            Ok(text) => Ok(text),
            Err(_) => Err(Outcome::OutOfMemory),
        },
        Err(outcome) => Err(outcome),
    }
}

fn assembly_of(alloc: Global, bytes: &[u8]) -> Result<ByteText, Outcome>
    ensures made { IfOk result (λ text. (file : Text) → Makes product.Assembly file bytes.now text) }
    ensures none { IfErr result (λ outcome. (file : Text) → IsRefusal product.Assembly file bytes.now outcome) }
{
    let proto = match assemble(alloc, bytes) {
        Ok(proto) => proto,
        Err(ListFault::OutOfMemory) => return Err(Outcome::OutOfMemory),
        Err(fault) => return Err(Outcome::BadListing(fault)),
    };
    match dump(alloc, &proto) {
        Ok(text) => Ok(text),
        Err(_) => Err(Outcome::OutOfMemory),
    }
}

fn stripped_if(alloc: Global, proto: Proto, strip: bool) -> Proto
    ensures { view_proto result ≡ the_stripped_if strip (view_proto proto) }
{
    if strip { proto.strip(alloc) } else { proto }
}
