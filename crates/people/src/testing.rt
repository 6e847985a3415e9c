//! What the tests share.
use std::fmt::Debug;
use std::process::Abort;

// Compares two values, of the row of this name. Proved once, so that a test that calls it costs
// little.
pub(crate) fn same<T: PartialEq + Debug, N: Debug>(rt: &impl Abort, got: &T, want: &T, name: &N) {
    assert_eq!(rt; *got, *want, "{name:?}");
}
