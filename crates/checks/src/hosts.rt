// A host of lines over a reader that falters: that its faults are those of the reader below it, which no clause can say.
use host::{Host, LineHost};
use lua_model::{Plain, Reply};
use std::io;
use std::io::{BufReader, ErrorKind, Read};
use std::test::Fail;

/// Gives one byte at a read, and three errors between.
#[derive(Drop)]
struct Faltering {
    turn: u8,
}

impl Read for Faltering {
    fn read(&mut self, buf: &mut [u8]) -> io::Result<usize> {
        self.turn = self.turn.saturating_add(1);
        let byte = match self.turn {
            1 => b'a',
            2 => return Err(io::Error::from(ErrorKind::Interrupted)),
            3 => b'b',
            4 => b'\n',
            5 => return Err(io::Error::from(ErrorKind::BrokenPipe)),
            6 => return Err(io::Error::from(ErrorKind::OutOfMemory)),
            7 => b'c',
            _ => return Ok(0),
        };
        let [first, ..] = buf else {
            return Ok(0);
        };
        *first = byte;
        Ok(1)
    }
}

// What a reply shows: a line, the end, a failure, or want of memory.
fn shown(reply: &Reply) -> &[u8] {
    match reply {
        Reply::Values(values) => match values.items() {
            [Plain::Text(line)] => line.bytes(),
            _ => b"the end",
        },
        Reply::Fail(text) => text.bytes(),
        Reply::OutOfMemory => b"out of memory",
    }
}

#[test]
fn a_host_of_lines_fails_where_its_reader_does(rt: HostRuntime) -> Result<(), Fail> {
    let alloc = rt.alloc();
    let mut host = LineHost::new(BufReader::new(alloc, Faltering { turn: 0 })?);
    for wanted in ["ab", "read failed", "out of memory", "c", "the end"] {
        let reply = host.call(alloc, &[]);
        assert_eq!(rt; shown(&reply), wanted.as_bytes());
    }
    Ok(())
}
