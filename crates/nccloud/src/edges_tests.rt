//! The parts of `main`: words, folders and exit codes.

use crate::edges::{after_first, ending, folders};
use nc_download::How;
use nc_run::Status;
use nc_vault::Fault;
use std::process::ExitCode;
use std::test::Fail;

#[test]
fn main_joins_these_parts(rt: HostRuntime) -> Result<(), Fail> {
    for (list, count) in [("a,b,c,d", 4), ("a", 1), ("", 1), ("a,,b;c", 3)] {
        let mut words = Vec::new(rt.alloc());
        words.push(String::from_str(rt.alloc(), list)?)?;
        assert_eq!(rt; folders(rt, words.as_slice())?.len(), count, "{list}");
        assert_eq!(rt; after_first(words.as_slice()).len(), 0, "{list}");
        words.push(String::from_str(rt.alloc(), "get")?)?;
        let rest = after_first(words.as_slice());
        assert_eq!(rt; rest.len(), 1, "{list}");
        assert_eq!(rt; rest[0].as_str(), "get", "{list}");
        assert_eq!(rt; folders(rt, rest)?.len(), 1, "{list}");
    }
    assert_eq!(rt; folders(rt, &[])?.len(), 0);
    let damaged = Fault::Damaged {
        cloud: 1,
        row: 2,
        how: How::Missing,
    };
    for (status, code) in [
        (Status::Ok, 0),
        (Status::Usage, 2),
        (Status::BatchLine(4), 2),
        (Status::Vault(Fault::Memory), 1),
        (Status::WriteFault, 9),
        (Status::Vault(damaged), 10),
        (Status::Vault(Fault::Worn), 12),
    ] {
        assert!(rt; ending(&status) == ExitCode::from(code), "{code}");
    }
    Ok(())
}
