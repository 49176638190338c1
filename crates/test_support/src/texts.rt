//! Worked texts. Each is what a function answers and no constant, so that no proof reads its bytes.

/// The text of a record of two tests, of which one fails and the other one is skipped.
pub fn two_tests() -> &'static [u8] {
    b"testkit-record|2\nN|C|[engine:e]|e\nN|T|[engine:e]/[t:1]|one\nN|T|[engine:e]/[t:2]|two\nE|0|0|0|start\nE|1|1|1|start\nE|1|1|2|finish|fail|boom\nE|2|2|1|skip|off\nE|0|0|9|finish|ok\n"
}

/// The report of the record of two tests.
pub fn two_tests_report() -> &'static [u8] {
    b"skipped 1\nstarted 2\nfinished 2\naborted 0\nsucceeded 1\nfailed 1\nreporting 0\ndynamic 0\nfiles 0\n[engine:e]\n  start\n  finish|ok\n[engine:e]/[t:1]\n  start\n  finish|fail|boom\n[engine:e]/[t:2]\n  skip|off\n"
}

/// The text of a record of two tests with locks. One name has an escape, one is long.
pub fn two_locked_tests() -> &'static [u8] {
    b"testkit-record|3\nN|C|[engine:e]|e\nN|T|[engine:e]/[t:1]|one\nN|T|[engine:e]/[t:2]|two\nL|1|R|a\\pb\nL|1|W|db\nL|2|W|a resource with a long name\nL|2|R|db\nE|0|0|0|start\nE|1|1|1|start\nE|1|1|2|finish|ok\nE|0|0|9|finish|ok\nZ|4\n"
}

/// The text of a replay of two workers, in version 1, in which all is taken.
pub fn small_replay() -> &'static [u8] {
    b"testkit-replay|1\nW|2\nN|T|[engine:e]|e\nE|1|0|10|start\nE|1|0|11|finish|ok\nE|2|0|20|report|k|v\nS|1|2|1|t|1|2|t|t|t|t\n"
}

/// The record text that the small replay prints, in version 2.
pub fn small_replay_taken() -> &'static [u8] {
    b"testkit-record|2\nN|T|[engine:e]|e\nE|1|0|10|start\nE|2|0|20|report|k|v\nE|1|0|11|finish|ok\n"
}

/// The text of the demo plan.
pub fn demo_plan() -> &'static [u8] {
    b"{\"version\":1,\"root\":{\"type\":\"container\",\"segment\":[\"engine\",\"demo\"],\"name\":\"demo\",\"children\":[
{\"type\":\"container\",\"segment\":[\"class\",\"A\"],\"name\":\"A\",\"mode\":\"concurrent\",\"children\":[
 {\"type\":\"test\",\"segment\":[\"method\",\"m\"],\"name\":\"m\"}]},
{\"type\":\"container\",\"segment\":[\"class\",\"B\"],\"name\":\"B\",\"mode\":\"concurrent\",\"children\":[
 {\"type\":\"test\",\"segment\":[\"method\",\"m\"],\"name\":\"m\",\"result\":{\"status\":\"failed\",\"message\":\"boom\"}}]},
{\"type\":\"container\",\"segment\":[\"class\",\"C\"],\"name\":\"C\",\"mode\":\"concurrent\",\"skip\":\"off\"},
{\"type\":\"container\",\"segment\":[\"class\",\"D\"],\"name\":\"D\",\"mode\":\"concurrent\",\"locks\":[{\"key\":\"db\"}],
 \"dynamic\":[{\"type\":\"test\",\"segment\":[\"dyn\",\"1\"],\"name\":\"one\"}]}]}}"
}

/// The report of the demo plan, for every number of workers.
pub fn demo_report() -> &'static [u8] {
    b"skipped 1\nstarted 7\nfinished 7\naborted 0\nsucceeded 6\nfailed 1\nreporting 0\ndynamic 1\nfiles 0\n[engine:demo]\n  start\n  finish|ok\n[engine:demo]/[class:A]\n  start\n  finish|ok\n[engine:demo]/[class:A]/[method:m]\n  start\n  finish|ok\n[engine:demo]/[class:B]\n  start\n  finish|ok\n[engine:demo]/[class:B]/[method:m]\n  start\n  finish|fail|boom\n[engine:demo]/[class:C]\n  skip|off\n[engine:demo]/[class:D]\n  start\n  finish|ok\n[engine:demo]/[class:D]/[dyn:1]\n  dynamic|T|[engine:demo]/[class:D]/[dyn:1]|one\n  start\n  finish|ok\n"
}
