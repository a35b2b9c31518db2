//! What bytes and mills look like.

use crate::{say_hex, say_mill};
use nc_stream::MemSink;
use std::test::Fail;

#[test]
fn bytes_are_told_as_digits_on_a_line(rt: HostRuntime) -> Result<(), Fail> {
    let alloc = rt.alloc();
    for len in [0, 1, 255, 256, 257] {
        let bytes = vec![in alloc; 0xa5; len]?;
        let mut out = MemSink::new(alloc, 100);
        assert!(rt; say_hex(&mut out, bytes.as_slice()).is_ok());
        let mut want = Vec::new(alloc);
        for _ in 0..len {
            want.extend_from_slice(b"a5")?;
        }
        want.push(b'\n')?;
        assert!(rt; out.bytes() == want.as_slice(), "{len}");
    }
    Ok(())
}

#[test]
fn a_mill_is_told_on_a_line(rt: HostRuntime) -> Result<(), Fail> {
    let mut out = MemSink::new(rt.alloc(), 7);
    assert!(rt; say_mill(&mut out, 12, 4, 3, 180, &[0x0f; 32]).is_ok());
    let digits = "0f0f0f0f0f0f0f0f0f0f0f0f0f0f0f0f0f0f0f0f0f0f0f0f0f0f0f0f0f0f0f0f";
    let want = format!(in rt.alloc(); "mill 12 width 4 lost 3 fetched 180 sha256 {digits}\n")?;
    assert!(rt; out.bytes() == want.as_bytes());
    Ok(())
}
