//! A reader of std as a source.
use super::*;
use crate::testing::same;
use std::io;
use std::io::{Error, ErrorKind};
use std::process::Abort;

// A reader that gives two bytes and then fails.
#[derive(Drop)]
struct Broken {
    calls: u8,
}

impl Read for Broken {
    fn read(&mut self, buf: &mut [u8]) -> io::Result<usize> {
        if self.calls == 0 && buf.len() >= 2 {
            self.calls = 1;
            buf[0] = b'o';
            buf[1] = b'k';
            return Ok(2);
        }
        Err(Error::from(ErrorKind::BrokenPipe))
    }
}

fn check<R: Read>(rt: &impl Abort, source: &mut StreamSource<R>, want: Result<&[u8], Failed>) {
    let mut buf = [b'.'; 4];
    let got = match source.read(&mut buf) {
        Ok(count) => Ok(&buf[..count]),
        Err(Failed) => Err(Failed),
    };
    same(rt, &got, &want, &want);
}

#[test]
fn stream_source(rt: HostRuntime) {
    let mut source = StreamSource::new(b"abcdef".as_slice());
    check(&rt, &mut source, Ok(b"abcd"));
    check(&rt, &mut source, Ok(b"ef"));
    check(&rt, &mut source, Ok(b""));

    let mut source = StreamSource::new(Broken { calls: 0 });
    check(&rt, &mut source, Ok(b"ok"));
    check(&rt, &mut source, Err(Failed));
    check(&rt, &mut source, Err(Failed));
}
