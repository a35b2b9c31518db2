use crate::{Blob, Key, Memory, Name, NameFault, read_key};
use std::test::Fail;

#[test]
fn names_have_1_to_100_bytes(rt: HostRuntime) -> Result<(), Fail> {
    let longest =
        "aaaaaaaaaaaaaaaaaaaaaaaaaaaaaaaaaaaaaaaaaaaaaaaaaaaaaaaaaaaaaaaaaaaaaaaaaaaaaaaaaaaaaaaaaaaaaaaaaaaa";
    assert_eq!(rt; Name::read(longest)?.bytes(), longest.as_bytes());
    assert_eq!(rt; Name::read("").err(), Some(NameFault::Empty));
    let longer =
        "aaaaaaaaaaaaaaaaaaaaaaaaaaaaaaaaaaaaaaaaaaaaaaaaaaaaaaaaaaaaaaaaaaaaaaaaaaaaaaaaaaaaaaaaaaaaaaaaaaaaa";
    assert_eq!(rt;
        Name::read(longer).err(),
        Some(NameFault::Long { len: 101 })
    );
    Ok(())
}

#[test]
fn a_line_feed_is_refused_with_its_place(rt: HostRuntime) {
    assert_eq!(rt;
        Name::read("a\nb").err(),
        Some(NameFault::Control { at: 1 })
    );
}

#[test]
fn keys_are_written_and_read(rt: HostRuntime) -> Result<(), Fail> {
    let name = Name::read("a.txt")?;
    let meta = Key::Meta { name, slot: 1 };
    assert_eq!(rt; meta.text().as_str(), "m-612e747874-1");
    let chunk = Key::Chunk {
        name,
        slot: 0,
        row: 1,
    };
    assert_eq!(rt; chunk.text().as_str(), "c-612e747874-0-1");
    let again = read_key("c-612e747874-0-1").ok_or("no key")?;
    assert!(rt; again.is_same(&chunk));
    assert!(rt; !again.is_same(&meta));
    assert!(rt; again.name().is_same(&name));
    Ok(())
}

#[test]
fn other_texts_are_no_keys(rt: HostRuntime) {
    for text in ["m-61-2", "m-6-0", "c-6A-0-0", "c-61-0", "m-0a-0"] {
        assert!(rt; read_key(text).is_none());
    }
}

#[test]
fn a_blob_keeps_its_bytes(rt: HostRuntime) -> Result<(), Memory> {
    let blob = Blob::from_slice(rt.alloc(), b"abc")?;
    assert_eq!(rt; blob.bytes(), b"abc".as_slice());
    Ok(())
}

#[test]
fn bytes_are_put_around_a_blob(rt: HostRuntime) -> Result<(), Memory> {
    let mut blob = Blob::with_room(rt.alloc(), 2, 4)?;
    blob.append(b"abc")?;
    let blob = blob.with_front(rt.alloc(), b"xy")?;
    assert_eq!(rt; blob.bytes(), b"xyabc".as_slice());
    let blob = blob.with_front(rt.alloc(), b"w")?;
    assert_eq!(rt; blob.bytes(), b"wxyabc".as_slice());
    let mut part = blob.into_part(2, 3);
    assert_eq!(rt; part.bytes(), b"yab".as_slice());
    part.append(b"!")?;
    assert_eq!(rt; part.bytes(), b"yab!".as_slice());
    Ok(())
}

fn crosses<T: Send + Sync>() {}

#[test]
fn keys_and_blobs_may_cross_threads() {
    crosses::<Key>();
    crosses::<Blob>();
}
