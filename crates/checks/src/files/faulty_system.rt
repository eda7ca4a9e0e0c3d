// A system of files that fail in mid-stream.
use std::alloc::Allocator;
use std::fs::{Metadata, OpenFile, OpenOptions};
use std::io::{ErrorKind, Read, Seek, SeekFrom, Write};
use std::{io, rt};

/// Has a file of each name, of which the second read or write gives this error.
#[derive(Drop)]
pub struct FaultySystem {
    pub kind: ErrorKind,
}

#[derive(Drop)]
pub struct FaultyFile {
    kind: ErrorKind,
    fails: bool,
}

impl FaultyFile {
    // How many bytes of so many are read or written.
    fn moved(&mut self, count: usize) -> io::Result<usize> {
        if self.fails {
            return Err(io::Error::from(self.kind));
        }
        self.fails = true;
        Ok(count.min(1))
    }
}

impl Read for FaultyFile {
    fn read(&mut self, buf: &mut [u8]) -> io::Result<usize> {
        let count = self.moved(buf.len())?;
        Ok(count.min(buf.len()))
    }
}

impl Write for FaultyFile {
    fn write(&mut self, buf: &[u8]) -> io::Result<usize> {
        let count = self.moved(buf.len())?;
        Ok(count.min(buf.len()))
    }

    fn flush(&mut self) -> io::Result<()> {
        Ok(())
    }
}

impl Seek for FaultyFile {
    fn seek(&mut self, _to: SeekFrom) -> io::Result<u64> {
        unsupported()
    }
}

impl OpenFile for FaultyFile {
    fn metadata(&self) -> io::Result<Metadata> {
        unsupported()
    }

    fn set_len(&self, _size: u64) -> io::Result<()> {
        unsupported()
    }

    fn sync_all(&self) -> io::Result<()> {
        unsupported()
    }

    fn sync_data(&self) -> io::Result<()> {
        unsupported()
    }
}

impl rt::Files for FaultySystem {
    type File = FaultyFile;

    type Dir = FaultyFile;

    fn open_file(&self, _how: &OpenOptions, _path: &str) -> io::Result<FaultyFile> {
        Ok(FaultyFile {
            kind: self.kind,
            fails: false,
        })
    }

    fn open_dir(&self, _path: &str) -> io::Result<FaultyFile> {
        unsupported()
    }

    fn metadata(&self, _path: &str) -> io::Result<Metadata> {
        unsupported()
    }

    fn symlink_metadata(&self, _path: &str) -> io::Result<Metadata> {
        unsupported()
    }

    fn copy(&self, _from: &str, _to: &str) -> io::Result<u64> {
        unsupported()
    }

    fn rename(&self, _from: &str, _to: &str) -> io::Result<()> {
        unsupported()
    }

    fn remove_file(&self, _path: &str) -> io::Result<()> {
        unsupported()
    }

    fn create_dir(&self, _path: &str) -> io::Result<()> {
        unsupported()
    }

    fn remove_dir(&self, _path: &str) -> io::Result<()> {
        unsupported()
    }

    fn remove_dir_all<B: Allocator>(&self, _alloc: B, _path: &str) -> io::Result<()> {
        unsupported()
    }
}

fn unsupported<T>() -> io::Result<T> {
    Err(io::Error::from(ErrorKind::Unsupported))
}
