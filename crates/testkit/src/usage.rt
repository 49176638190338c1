//! The page of usage.

/// What is printed below the fault line where the words name no command or no question: the text of
/// `usage.txt` in the crate's folder, which `./testkit` prints where it has no program to ask.
pub(crate) const USAGE: &str = "usage:
  testkit ask stats [SELECTION] [NAME=N ..]            < RECORD   nine counts; each N that differs is a mismatch
  testkit ask count SELECTION                          < RECORD   how many events a selection has
  testkit ask list SELECTION [CONDITION ..]            < RECORD   the events that meet all conditions
  testkit ask executions [SELECTION]                   < RECORD   key, ending, first and last stamp of each execution
  testkit ask match [SELECTION] MODE [CONDITION ..]    < RECORD   yes, or the first condition that fails
  testkit ask lifecycle                                < RECORD   does each descriptor start, finish and nest as it may?
  testkit ask exclusive CONDITION [CONDITION]          < RECORD   did tests that share a resource keep apart?
  testkit ask locks                                    < RECORD   did tests that declare a lock keep apart?
  testkit ask report                                   < RECORD   each id's events, without workers, keys and stamps
  testkit ask explain QUESTION ..                      < RECORD   an answer, and why
  testkit replay                                       < REPLAY   plays the steps of an event queue, prints the record
  testkit recover                                      < RECORD   prints what stands before a record's first fault
  testkit run [--workers N] [--record]                 < PLAN     runs a plan with 1 to 15 workers, prints its report or its record

SELECTION  all, tests, containers, or a NAME
NAME       skipped, started, finished, aborted, succeeded, failed, reporting, dynamic, files
MODE       exactly, loosely, in-order
CONDITION  as test, failed, 'failed(TEXT)', 'all(test,id(TEXT))'; docs/FORMATS.md has all
QUESTION   the words of match; stats, list, executions, lifecycle, exclusive or locks with its own words
status     0 done, or yes; 1 no, a failed expectation, or recovered in part; 2 bad words or input; 3 a failure
";
