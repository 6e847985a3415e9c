//! What the tests share: a comparison, and where a check found no space.
use crate::space::Space;
use std::fmt::Debug;
use std::process::Abort;

// Compares two values, of the row of this name. Proved once, so that a test that calls it costs
// little.
pub(crate) fn same<T: PartialEq + Debug, N: Debug>(rt: &impl Abort, got: &T, want: &T, name: &N) {
    assert_eq!(rt; *got, *want, "{name:?}");
}

// Where a check found no space, the place that it answered.
pub(crate) fn full_at<T: Drop>(space: Space<T>) -> Option<usize> {
    match space {
        Space::Available(_) => None,
        Space::Full(place) => Some(place),
    }
}
