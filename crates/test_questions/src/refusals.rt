//! Calls that only the library has, with ample memory and with any one request for memory refused.
//! Where one of them answers `Memory`, all are made once more, and have to succeed.
use crate::conditions::make_conditions;
use crate::executions::filter_two_tests;
use crate::selections::{select_of_other_kinds, select_of_two_tests};
use test_support::again_if_refused;

#[test]
fn selections(rt: HostRuntime) {
    let alloc = rt.alloc();
    assert!(rt; again_if_refused(|| select_of_two_tests(alloc)) == Some(true));
    assert!(rt; again_if_refused(|| select_of_other_kinds(alloc)) == Some(true));
}

#[test]
fn executions(rt: HostRuntime) {
    let alloc = rt.alloc();
    assert!(rt; again_if_refused(|| filter_two_tests(alloc)) == Some(true));
}

#[test]
fn conditions(rt: HostRuntime) {
    let alloc = rt.alloc();
    assert!(rt; again_if_refused(|| make_conditions(alloc)) == Some(true));
}
