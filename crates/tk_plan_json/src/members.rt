//! Single members of a node's JSON.
//!
//! - Readers: `json_members`, `lock_members`, `file_members`, and `result_members` for the result and
//!   the entries. What these readers hand on: `member_values`.
//! - Parts of a JSON value, lent or taken out of it: `json_values`.
//! - Where a value stands: `json_paths`, and `path_texts` to write a place out.

pub mod file_members;
pub mod json_members;
pub mod json_paths;
pub mod json_values;
pub mod lock_members;
pub mod member_values;
pub mod path_texts;
pub mod result_members;
