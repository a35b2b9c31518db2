//! Sources and sinks in memory.

use crate::{MemSink, MemSource, Sink, Source};
use nc_name::Blob;
use std::test::Fail;

#[test]
fn a_source_gives_its_bytes_but_at_named_calls(rt: HostRuntime) -> Result<(), Fail> {
    let bytes = Blob::from_slice(rt.alloc(), b"abcde")?;
    let mut source = MemSource::new(rt.alloc(), bytes, 2);
    source.refuse(2)?;
    for (call, count, first) in [
        (1, 2, b'a'),
        (2, 9, 0),
        (3, 2, b'c'),
        (4, 1, b'e'),
        (5, 0, 0),
    ] {
        let mut buf = [0; 4];
        assert_eq!(rt; source.read(&mut buf).unwrap_or(9), count, "call {call}");
        assert_eq!(rt; buf[0], first, "call {call}");
    }
    Ok(())
}

#[test]
fn a_sink_keeps_what_it_takes_but_at_named_calls(rt: HostRuntime) -> Result<(), Fail> {
    let mut sink = MemSink::new(rt.alloc(), 2);
    sink.refuse(2)?;
    assert_eq!(rt; sink.write(b"abc").unwrap_or(9), 2);
    assert!(rt; sink.write(b"cde").is_err());
    assert_eq!(rt; sink.write(b"c").unwrap_or(9), 1);
    assert_eq!(rt; sink.write(&[]).unwrap_or(9), 0);
    assert_eq!(rt; sink.bytes(), b"abc".as_slice());
    Ok(())
}
