//! The lines in which two reports differ.

use std::alloc::{AllocError, Global};

/// How many lines that agree are shown before lines that differ, and after them.
const CONTEXT: usize = 3;

/// How many lines that differ are shown.
const MAX_SHOWN: usize = 40;

/// How many lines of both texts together are passed over to find where they agree again.
const MAX_APART: usize = 500;

/// How many lines of a report are counts. Its tree of ids stands below them.
const COUNTS: usize = 9;

fn lines_of<'t>(alloc: Global, text: &'t str) -> Result<Vec<&'t str>, AllocError> {
    let mut lines = Vec::new(alloc);
    for line in text.lines() {
        lines.push(line)?;
    }
    Ok(lines)
}

// The lines of a text that are not compared yet, and the number of the first of them.
#[derive(Clone, Copy)]
struct Rest<'s, 't> {
    lines: &'s [&'t str],
    number: usize,
}

impl<'s, 't> Rest<'s, 't> {
    fn of(lines: &'s [&'t str]) -> Rest<'s, 't> {
        Rest { lines, number: 1 }
    }

    // Takes the first lines away, and lends them.
    fn take(self, count: usize) -> (&'s [&'t str], Rest<'s, 't>) {
        let (taken, lines) = self.lines.split_at(count.min(self.lines.len()));
        let number = self.number.saturating_add(taken.len());
        (taken, Rest { lines, number })
    }
}

// Counts the first lines that are the same in both texts.
fn count_same(expected: &[&str], actual: &[&str]) -> usize {
    expected
        .iter()
        .zip(actual.iter())
        .take_while(|(line, other)| line == other)
        .count()
}

// Tells whether two texts agree in their next two lines, or both end.
fn agree(expected: &[&str], actual: &[&str]) -> bool {
    expected.first() == actual.first() && expected.get(1) == actual.get(1)
}

// Counts the lines of each text before those in which both agree again.
fn count_apart(expected: &[&str], actual: &[&str]) -> (usize, usize) {
    for apart in 1..=MAX_APART {
        for removed in 0..=apart {
            let added = apart - removed;
            if let (Some(rest), Some(other)) = (expected.get(removed..), actual.get(added..)) {
                if agree(rest, other) {
                    return (removed, added);
                }
            }
        }
    }
    (expected.len(), actual.len())
}

// Adds lines, each after a mark.
fn add_lines(text: &mut String, mark: &str, lines: &[&str]) -> Result<(), AllocError> {
    for line in lines {
        write!(text, "{mark}{line}\n")?;
    }
    Ok(())
}

// The differences of two texts, written as `diff -u` writes them.
#[derive(Drop)]
struct Differences {
    text: String,
    // How many lines that differ it shows, and how many it doesn't.
    shown: usize,
    left_out: usize,
}

impl Differences {
    fn is_full(&self) -> bool {
        self.shown >= MAX_SHOWN
    }

    // Adds lines that differ, as many as are shown still.
    fn add_changed(&mut self, mark: &str, lines: &[&str]) -> Result<(), AllocError> {
        let room = MAX_SHOWN.saturating_sub(self.shown);
        let (shown, left_out) = lines.split_at(room.min(lines.len()));
        self.shown = self.shown.saturating_add(shown.len());
        self.left_out = self.left_out.saturating_add(left_out.len());
        add_lines(&mut self.text, mark, shown)
    }

    // Adds the head of a difference, and the last lines before it.
    fn add_head(&mut self, before: &[&str], at: usize, other: usize) -> Result<(), AllocError> {
        if self.is_full() {
            return Ok(());
        }
        write!(&mut self.text, "@@ -{at} +{other} @@\n")?;
        let passed = before.len().saturating_sub(CONTEXT);
        add_lines(&mut self.text, " ", before.split_at(passed).1)
    }

    // Adds the lines up to which two texts differ, and a few in which they agree again. Gives what
    // stands after the lines that differ.
    fn add_next<'s, 't>(
        &mut self,
        expected: Rest<'s, 't>,
        actual: Rest<'s, 't>,
    ) -> Result<(Rest<'s, 't>, Rest<'s, 't>), AllocError> {
        let (removed, added) = count_apart(expected.lines, actual.lines);
        let (removed, expected) = expected.take(removed);
        let (added, actual) = actual.take(added);
        self.add_changed("-", removed)?;
        self.add_changed("+", added)?;
        if !self.is_full() {
            let after = count_same(expected.lines, actual.lines).min(CONTEXT);
            add_lines(&mut self.text, " ", expected.take(after).0)?;
        }
        Ok((expected, actual))
    }

    // Adds all lines in which two texts differ, with those around them.
    fn add<'s, 't>(
        &mut self,
        expected: Rest<'s, 't>,
        actual: Rest<'s, 't>,
    ) -> Result<(), AllocError> {
        let (mut expected, mut actual) = (expected, actual);
        for _ in 0..usize::MAX {
            let same = count_same(expected.lines, actual.lines);
            let (before, removed) = expected.take(same);
            let (_, added) = actual.take(same);
            if removed.lines.is_empty() && added.lines.is_empty() {
                break;
            }
            self.add_head(before, removed.number, added.number)?;
            (expected, actual) = self.add_next(removed, added)?;
        }
        Ok(())
    }
}

/// Shows the lines in which a report differs from the expected one: those of its tree first, then
/// its counts. A line `@@ -N +M @@` has the numbers, from 1, of the first line that differs.
pub(crate) fn difference(
    alloc: Global,
    expected: &str,
    actual: &str,
) -> Result<String, AllocError> {
    let expected = lines_of(alloc, expected)?;
    let actual = lines_of(alloc, actual)?;
    let mut found = Differences {
        text: String::from_str(alloc, "--- expected\n+++ actual\n")?,
        shown: 0,
        left_out: 0,
    };
    if expected == actual {
        found.text.push_str("only the ends of lines differ\n")?;
        return Ok(found.text);
    }
    let (expected_counts, expected_tree) = Rest::of(&expected).take(COUNTS);
    let (actual_counts, actual_tree) = Rest::of(&actual).take(COUNTS);
    found.add(expected_tree, actual_tree)?;
    found.add(Rest::of(expected_counts), Rest::of(actual_counts))?;
    if found.left_out > 0 {
        let more = found.left_out;
        write!(&mut found.text, "and {more} more lines differ\n")?;
    }
    Ok(found.text)
}
