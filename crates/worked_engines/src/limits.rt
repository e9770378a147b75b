//! The longest input, from a reader that only counts: its second line is faulty, and what follows a
//! faulty line is read and looked at no more.
use engines::{Device, EngineFault, INPUT_MAX, join_text};
use std::alloc::Global;
use std::io;
use std::io::Read;
use texts::{TraceFault, TraceKind};

/// A reader that gives so many bytes, each time a line feed and then what isn't hexadecimal.
#[derive(Drop)]
struct Counted {
    left: usize,
}

impl Read for Counted {
    fn read(&mut self, buf: &mut [u8]) -> io::Result<usize> {
        let count = buf.len().min(self.left);
        if let Some(first) = buf.first_mut() {
            *first = b'\n';
        }
        self.left -= count;
        Ok(count)
    }
}

/// What becomes of an input of so many bytes, and how many the reader gave.
fn join_so_many(alloc: Global, bytes: usize) -> (Result<(), EngineFault>, u64) {
    let mut reader = Device::new(Counted { left: bytes });
    let mut writer = Device::new(Vec::<u8>::new(alloc));
    let joined = join_text(alloc, &mut reader, &mut writer);
    let given = reader.given();
    reader.into_inner();
    writer.into_inner();
    (joined, given)
}

#[test]
fn reads_the_longest_input(rt: HostRuntime) {
    let most = 268_435_456;
    assert!(rt; INPUT_MAX == most);
    let fault = EngineFault::Trace(TraceFault {
        line: 2,
        kind: TraceKind::NotHex,
    });
    assert!(rt; join_so_many(rt.alloc(), most) == (Err(fault), most as u64));
}

#[test]
fn reads_no_longer_input(rt: HostRuntime) {
    let more = 268_435_457;
    assert!(rt; join_so_many(rt.alloc(), more) == (Err(EngineFault::Read), more as u64));
}
