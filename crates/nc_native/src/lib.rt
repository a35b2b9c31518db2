//! Cutting a file into native chunks, lending them where they stand in it, and joining them.
#![tactic(auto)]

mod cutting;
mod joining;
mod lending;

pub use cutting::{chunk_size, cut};
pub use joining::{join, joins};
pub use lending::{lend_natives, tail_of};
use nc_name::{Blob, Sequence};

/// Native chunks in order.
pub type Natives = Sequence<Blob>;

#[cfg(test)]
mod tests {
    use super::*;
    use std::alloc::Global;
    use std::process::Abort;
    use std::test::Fail;

    fn cuts_and_joins(
        rt: &impl Abort,
        alloc: Global,
        text: &[u8],
        wanted: [&[u8]; 4],
    ) -> Result<(), Fail> {
        let natives = cut(alloc, text, 4)?;
        for (native, want) in natives.items().iter().zip(wanted) {
            assert_eq!(rt; native.bytes(), want);
        }
        joins(text, 4);
        let back = join(alloc, &natives, text.len() as u64)?;
        assert_eq!(rt; back.bytes(), text);
        Ok(())
    }

    #[test]
    fn four_natives_share_eight_bytes(rt: HostRuntime) -> Result<(), Fail> {
        cuts_and_joins(&rt, rt.alloc(), b"abcdefgh", [b"ab", b"cd", b"ef", b"gh"])
    }

    #[test]
    fn a_zero_fills_up_the_last_native(rt: HostRuntime) -> Result<(), Fail> {
        cuts_and_joins(&rt, rt.alloc(), b"abcdefg", [b"ab", b"cd", b"ef", b"g\0"])
    }

    #[test]
    fn an_empty_file_has_empty_natives(rt: HostRuntime) -> Result<(), Fail> {
        cuts_and_joins(&rt, rt.alloc(), b"", [b"", b"", b"", b""])
    }

    /// The natives of a text, of which so many at the end don't lie in it.
    fn lends(
        rt: &impl Abort,
        alloc: Global,
        text: &[u8],
        wanted: [&[u8]; 4],
        behind: usize,
    ) -> Result<(), Fail> {
        let tail = tail_of(alloc, text, 4)?;
        assert_eq!(rt; tail.items().len(), behind);
        let natives = lend_natives(alloc, text, 4, &tail)?;
        assert_eq!(rt; natives.len(), 4);
        for (native, want) in natives.iter().zip(wanted) {
            assert_eq!(rt; *native, want);
        }
        Ok(())
    }

    #[test]
    fn eight_bytes_are_lent_as_they_stand(rt: HostRuntime) -> Result<(), Fail> {
        lends(
            &rt,
            rt.alloc(),
            b"abcdefgh",
            [b"ab", b"cd", b"ef", b"gh"],
            0,
        )
    }

    #[test]
    fn the_last_of_seven_bytes_is_copied(rt: HostRuntime) -> Result<(), Fail> {
        lends(
            &rt,
            rt.alloc(),
            b"abcdefg",
            [b"ab", b"cd", b"ef", b"g\0"],
            1,
        )
    }

    #[test]
    fn one_byte_is_lent_before_zeros(rt: HostRuntime) -> Result<(), Fail> {
        lends(&rt, rt.alloc(), b"a", [b"a", b"\0", b"\0", b"\0"], 3)
    }

    #[test]
    fn of_an_empty_file_nothing_is_lent(rt: HostRuntime) -> Result<(), Fail> {
        lends(&rt, rt.alloc(), b"", [b"", b"", b"", b""], 4)
    }

    #[test]
    fn one_byte_is_lent_at_width_ten(rt: HostRuntime) -> Result<(), Fail> {
        let tail = tail_of(rt.alloc(), b"Z", 10)?;
        assert_eq!(rt; tail.items().len(), 15);
        let natives = lend_natives(rt.alloc(), b"Z", 10, &tail)?;
        assert_eq!(rt; natives.len(), 16);
        assert_eq!(rt; natives[0], b"Z".as_slice());
        assert_eq!(rt; natives[15], b"\0".as_slice());
        Ok(())
    }

    #[test]
    fn chunks_of_a_file(rt: HostRuntime) {
        assert_eq!(rt; chunk_size(3_000_000, 4), 750_000);
        assert_eq!(rt; chunk_size(1, 10), 1);
    }

    #[test]
    fn a_native_is_put_at_the_end(rt: HostRuntime) -> Result<(), Fail> {
        let mut natives = Natives::new(rt.alloc());
        natives.push(nc_name::Blob::from_slice(rt.alloc(), b"ab")?)?;
        assert_eq!(rt; natives.items().len(), 1);
        Ok(())
    }
}
