//! How values are shown.
use std::alloc::Global;
use std::fmt;

/// Returns whether a value is shown as this text.
pub fn is_shown_as<D: fmt::Display>(alloc: Global, value: &D, text: &str) -> bool {
    match format!(in alloc; "{value}") {
        Ok(shown) => shown.as_str() == text,
        Err(_) => false,
    }
}

/// Returns whether a value is shown as some text.
pub fn is_shown<D: fmt::Display>(alloc: Global, value: &D) -> bool {
    match format!(in alloc; "{value}") {
        Ok(shown) => !shown.is_empty(),
        Err(_) => false,
    }
}

/// Returns whether each of the values is shown as the text beside it.
pub fn are_shown_as<D: fmt::Display>(alloc: Global, rows: &[(D, &str)]) -> bool {
    for (value, text) in rows {
        if !is_shown_as(alloc, value, text) {
            return false;
        }
    }
    true
}

/// Returns whether each of the values is shown as some text.
pub fn are_shown<D: fmt::Display>(alloc: Global, values: &[D]) -> bool {
    for value in values {
        if !is_shown(alloc, value) {
            return false;
        }
    }
    true
}

/// Returns whether a failed assertion shows a value as this text.
pub fn is_debugged_as<D: fmt::Debug>(alloc: Global, value: &D, text: &str) -> bool {
    match format!(in alloc; "{value:?}") {
        Ok(shown) => shown.as_str() == text,
        Err(_) => false,
    }
}
