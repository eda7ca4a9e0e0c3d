// Giving a file of the system new bytes so that a failure leaves the old ones.
ghost use Rattle.std.specs.Prelude.{OnErr, IsErrOf};

use crate::files::FileFault;
use std::alloc::{AllocError, Global};
use std::fs::{self, Metadata, OpenFile, OpenOptions, Permissions};
use std::io::{self, ErrorKind, Write};
use std::os::unix::fs::MetadataExt;
use std::rt;

// How many names beside a file are tried.
const NAMES: u32 = 100;

// What stands under a name that is to be written.
#[derive(Drop)]
enum Old {
    // Nothing, or a plain file under this name alone, which may be written.
    Missing,
    Plain(Metadata),
    // A link, a device, a pipe, a folder, or a file that has other names too.
    Other,
}

// A new file beside the one that is written, which is to take its place.
#[derive(Drop)]
struct Beside<F: Drop> {
    path: String,
    file: F,
}

/// Writes the file of a name. A plain file, also where none is there, is written beside its place and put there when
/// it is whole; anything else is written as it is, and so is a file beside which none can be made of the same
/// owner. Finds no memory only before anything is written.
pub(crate) fn write_file<R: rt::Files>(
    alloc: Global,
    system: &R,
    name: &str,
    bytes: &[u8],
) -> Result<(), FileFault> {
    let old = old_file(system, name)?;
    match file_beside(alloc, system, name, &old)? {
        Some(beside) => replace(system, name, beside, bytes),
        None => fs::write(system, name, bytes),
    }
    .map_err(|_| FileFault::Failed)
}

fn old_file<R: rt::Files>(system: &R, name: &str) -> io::Result<Old> {
    match fs::symlink_metadata(system, name) {
        Ok(found) if found.is_file() && found.nlink() <= 1 => {
            let _writable = OpenOptions::new().write(true).open(system, name)?;
            Ok(Old::Plain(found))
        }
        Ok(_) => Ok(Old::Other),
        Err(error) if error.kind() == ErrorKind::NotFound => Ok(Old::Missing),
        Err(error) => Err(error),
    }
}

// A new file beside the one of this name, with its owner and permissions; none where it cannot be had.
fn file_beside<R: rt::Files>(
    alloc: Global,
    system: &R,
    name: &str,
    old: &Old,
) -> Result<Option<Beside<R::File>>, AllocError> {
    if matches!(old, Old::Other) {
        return Ok(None);
    }
    for number in 0..NAMES {
        let path = format!(in alloc; "{name}.new{number}")?;
        match OpenOptions::new()
            .write(true)
            .create_new(true)
            .open(system, path.as_str())
        {
            Ok(file) => return Ok(fitted(system, Beside { path, file }, old)),
            Err(error) if error.kind() == ErrorKind::AlreadyExists => {}
            Err(_) => return Ok(None),
        }
    }
    Ok(None)
}

// The new file with the permissions of the old one, where they have one owner; else it is taken away again.
fn fitted<R: rt::Files>(system: &R, beside: Beside<R::File>, old: &Old) -> Option<Beside<R::File>> {
    let Old::Plain(old) = old else {
        return Some(beside);
    };
    if takes_place(&beside.file, old) && beside.file.set_permissions(old.permissions()).is_ok() {
        return Some(beside);
    }
    let _ = fs::remove_file(system, beside.path.as_str());
    None
}

fn takes_place<F: OpenFile>(file: &F, old: &Metadata) -> bool {
    match file.metadata() {
        Ok(new) => new.uid() == old.uid() && new.gid() == old.gid(),
        Err(_) => false,
    }
}

// Fills the new file and puts it into the place of the old one. At an error the new file is taken away.
fn replace<R: rt::Files>(
    system: &R,
    name: &str,
    beside: Beside<R::File>,
    bytes: &[u8],
) -> io::Result<()> {
    let Beside { path, mut file } = beside;
    let filled = file.write_all(bytes);
    drop(file);
    let placed = filled.and_then(|()| fs::rename(system, path.as_str(), name));
    if placed.is_err() {
        let _ = fs::remove_file(system, path.as_str());
    }
    placed
}
