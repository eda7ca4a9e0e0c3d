// Carrying out a command.
ghost use Rattle.std.specs.Prelude.{Some, ℕ, List, Option};
ghost use Rattle.std.specs.String.{string_bytes};
ghost use Rattle.suite_io.specs.declared.calls.FileCall.{FileCall};
ghost use Rattle.suite_io.specs.Contents.{Contents};
ghost use Rattle.host.specs.Views.{set_told};
ghost use Rattle.suite.specs.Words.{job_of, put_product as put_job, store_product as store_job};
ghost use Rattle.suite.specs.Seen.{outside};
ghost use Rattle.suite.specs.Worlds.{World, world};
ghost use Rattle.suite.specs.Work.{Works, Does, DoesAlone};

use crate::making::made_text;
use crate::outcome::Outcome;
use crate::output::{put_text, store_text};
use crate::product::Product;
use crate::running::run_bytes;
use crate::trying::try_source;
use crate::words::{Command, Origin};
use hash_seed::Seed;
use host::HostSet;
use made_source::made;
use std::alloc::Global;
use suite_io::{FileFault, Files, Sink, Word};

/// Fetches the file of a command, or makes its source, and does with the bytes what the command asks for.
pub fn do_command<F: Files, O: Sink>(
    alloc: Global,
    command: &Command,
    files: &mut F,
    out: &mut O,
    hosts: &mut HostSet,
    seed: Seed,
) -> Outcome
    ensures { Works (Some (job_of command.now)) (world (set_told heard hosts.old) (set_told heard hosts.new)) result (outside (F.contents files.old) (F.calls files.old) (O.taken out.old) (O.faults out.old)) (outside (F.contents files.new) (F.calls files.new) (O.taken out.new) (O.faults out.new)) }
{
    match command.origin() {
        Origin::File(file) => match files.fetch(alloc, file) {
            Ok(bytes) => do_bytes(alloc, command, bytes.bytes(), files, out, hosts, seed),
            Err(FileFault::Failed) => Outcome::ReadFault,
            Err(FileFault::OutOfMemory) => Outcome::OutOfMemory,
        },
        Origin::Made(count) => match made(alloc, count) {
            Ok(text) => do_bytes(alloc, command, text.bytes(), files, out, hosts, seed),
            Err(_) => Outcome::OutOfMemory,
        },
    }
}

fn do_bytes<F: Files, O: Sink>(
    alloc: Global,
    command: &Command,
    bytes: &[u8],
    files: &mut F,
    out: &mut O,
    hosts: &mut HostSet,
    seed: Seed,
) -> Outcome
    ensures { Does (job_of command.now) bytes.now (world (set_told heard hosts.old) (set_told heard hosts.new)) result (outside (F.contents files.old) (F.calls files.old) (O.taken out.old) (O.faults out.old)) (outside (F.contents files.new) (F.calls files.new) (O.taken out.new) (O.faults out.new)) }
{
    match command {
        Command::Run { file, steps } => run_bytes(alloc, bytes, file, *steps, out, hosts, seed),
        Command::Put { product, file } => put_product(alloc, bytes, file, *product, out),
        Command::Store {
            product,
            file,
            out: name,
        } => store_product(alloc, bytes, file, *product, name, files),
        Command::Make { .. } => try_source(alloc, bytes, out, hosts, seed),
    }
}

// Puts the text that is made of a file.
fn put_product<O: Sink>(
    alloc: Global,
    bytes: &[u8],
    file: &Word,
    product: Product,
    out: &mut O,
) -> Outcome
    ensures { (contents : Option Contents) (calls : List FileCall) → DoesAlone (put_job product (string_bytes file.now)) bytes.now result (outside contents calls (O.taken out.old) (O.faults out.old)) (outside contents calls (O.taken out.new) (O.faults out.new)) }
{
    match made_text(alloc, bytes, file, product) {
        Ok(text) => put_text(out, text.bytes()),
        Err(outcome) => outcome,
    }
}

// Stores the text that is made of a file.
fn store_product<F: Files>(
    alloc: Global,
    bytes: &[u8],
    file: &Word,
    product: Product,
    name: &Word,
    files: &mut F,
) -> Outcome
    ensures { (taken : Option (List ℕ)) (faults : ℕ) → DoesAlone (store_job product (string_bytes file.now) (string_bytes name.now)) bytes.now result (outside (F.contents files.old) (F.calls files.old) taken faults) (outside (F.contents files.new) (F.calls files.new) taken faults) }
{
    match made_text(alloc, bytes, file, product) {
        Ok(text) => store_text(alloc, files, name, text.bytes()),
        Err(outcome) => outcome,
    }
}
