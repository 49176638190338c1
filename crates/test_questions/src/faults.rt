//! What is shown of a question's fault, and what a failed assertion prints of an answer.
use test_support::{is_debugged_as, is_shown_as};
use testkit_questions::AskFault;
use tk_query::Loose;
use tk_query_conditions::CondFault;
use tk_record::{Mismatch, Selection};

#[test]
fn ask_faults(rt: HostRuntime) {
    let deep = AskFault::Condition(3, CondFault::Deep);
    let is_shown = is_shown_as(rt.alloc(), &deep, "condition 3 is too deep");
    drop(deep);
    assert!(rt; is_shown);
}

#[test]
fn answers_are_debugged(rt: HostRuntime) {
    assert!(rt; is_debugged_as(rt.alloc(), &Loose::No(3), "No(3)"));
    let mismatch = Mismatch {
        selection: Selection::Failed,
        expected: 1,
        actual: 2,
    };
    let text = "Mismatch { selection: Failed, expected: 1, actual: 2 }";
    assert!(rt; is_debugged_as(rt.alloc(), &mismatch, text));
}
