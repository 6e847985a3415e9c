//! The texts of errors.
use super::*;
use crate::testing::same;
use enc_front::Encoding;
use std::alloc::Global;
use std::fmt::Display;
use std::process::Abort;
use std::test::Fail;

fn check<E: Display>(rt: &impl Abort, alloc: Global, error: &E, want: &str) -> Result<(), Fail> {
    let text = format!(in alloc; "{error}")?;
    same(rt, &text.as_str(), &want, &want);
    Ok(())
}

const BUILD: [(BuildError, &str); 3] = [
    (
        BuildError::NoTable(Encoding::EucKr),
        "the encoding EUC-KR has no index",
    ),
    (
        BuildError::TooSmall(3),
        "the buffer has 3 bytes, and at least 4 are needed",
    ),
    (BuildError::Memory, "no memory"),
];

const READ: [(ReadError, &str); 2] = [
    (ReadError::ReadFault, "a read of the source failed"),
    (
        ReadError::TooMuch,
        "the source gave more bytes than the limit",
    ),
];

#[test]
fn printed_errors(rt: HostRuntime) -> Result<(), Fail> {
    for row in &BUILD {
        let (error, want) = *row;
        check(&rt, rt.alloc(), &error, want)?;
    }
    for row in &READ {
        let (error, want) = *row;
        check(&rt, rt.alloc(), &error, want)?;
    }
    check(&rt, rt.alloc(), &Failed, "a call on a device failed")
}
