// The program: the suite over the system's files, standard output and standard error, with a host `readline` over standard input.
#![tactic(auto)]

use hash_seed::Seed;
use host::{Host, HostSet, LineHost};
use std::io::{BufReader, ErrorKind};
use std::process::ExitCode;
use std::rt::Env;
use std::{env, io};
use suite::{Status, suite};
use suite_io::{RealFiles, RealSink, Word};

fn main(rt: HostRuntime) -> ExitCode {
    let words = match read_words(&rt) {
        Ok(words) => words,
        Err(error) if error.kind() == ErrorKind::OutOfMemory => {
            return ExitCode::from(Status::OutOfMemory.number());
        }
        // A word that is not UTF-8 stands in no command, and neither does no word.
        Err(_) => Vec::new(rt.alloc()),
    };
    let mut files = RealFiles::new(rt.alloc(), &rt);
    let mut out = RealSink::new(rt.stdout());
    let mut err = RealSink::new(rt.stderr());
    let Ok(lines) = BufReader::new(rt.alloc(), rt.stdin()) else {
        return ExitCode::from(Status::OutOfMemory.number());
    };
    let Ok(host) = Box::new(rt.alloc(), LineHost::new(lines)) else {
        return ExitCode::from(Status::OutOfMemory.number());
    };
    let host: Box<dyn Host> = host;
    let mut hosts = HostSet::new(rt.alloc());
    if hosts.add(rt.alloc(), b"readline", host).is_err() {
        return ExitCode::from(Status::OutOfMemory.number());
    }
    let status = suite(
        rt.alloc(),
        &words,
        &mut files,
        &mut out,
        &mut err,
        &mut hosts,
        // Where the system has no random bytes, texts and keys hash as in each other run.
        Seed::new(&rt).unwrap_or(Seed::fixed()),
    );
    ExitCode::from(status.number())
}

// The words after the program's name.
fn read_words(rt: &(impl Env + AllocGlobal)) -> io::Result<Vec<Word>> {
    let mut words = Vec::new(rt.alloc());
    for word in env::args(rt)?.skip(1) {
        words.push(word)?;
    }
    Ok(words)
}
