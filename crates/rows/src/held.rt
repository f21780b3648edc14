//! Assertions that are proved faster than `assert!`, whose expansion would be proved in each test.
use std::process::Abort;

/// Ends the test if `holds` is false. The message contains `number`.
pub fn assert_held(rt: &impl Abort, holds: bool, number: u64) {
    assert!(rt; holds, "it doesn't hold at {number}");
}

pub fn assert_condition(rt: &impl Abort, holds: bool, condition: &str) {
    assert!(rt; holds, "assertion failed: {condition}");
}

/// Ends the test if the condition is false, as `assert!` does. The proof of later code can't use the condition.
macro_rules! assert_that {
    ($rt:expr; $condition:expr) => {
        $crate::held::assert_condition($rt, $condition, stringify!($condition))
    };
}

pub(crate) use assert_that;
