//! Questions about a record text, from its bytes to the bytes of the answer.
#![tactic(auto)]

mod answers;
mod asking;
mod conditions;
mod execution_lines;
mod expectations;
mod explanations;
mod fault_texts;
mod faults;
pub mod laws;
mod questions;
mod reading;
mod replies;

pub use asking::ask;
pub use conditions::{ConditionsFault, read_conditions};
pub use expectations::read_expectations;
pub use explanations::explain_match;
pub use fault_texts::AskFaultText;
pub use faults::AskFault;
pub use questions::{Mode, Question, QuestionName, Request};
pub use reading::{holders, read_question, read_request};
