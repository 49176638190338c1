//! What `Receiver::close` looks for before it takes the tokens in.
ghost use Rattle.std.specs.Prelude.{◌≡◌, ◌+◌, ◌<◌, ◌≤◌, length, false, List, Bool, ℕ, slice_index_or, slice_index, MatchOption};
ghost use Rattle.tk_record.specs.Mixing.{IsWorkerOf};
ghost use Rattle.tk_queue_session.specs.Tokens.{tokens_of, sent_by};
ghost use Rattle.tk_queue_session.specs.Closing.{Least};

use crate::limits::WORKER_SLOTS;
use crate::senders::Ended;
use tk_base::MAX_WORKERS;

// How many tokens the worker has.
fn tokens_of(ended: &[Ended], worker: u8) -> usize
    ensures { result ≡ tokens_of worker ended.now }
{
    ended
        .iter()
        .filter(|token| token.worker() == worker)
        .count()
}

// How many events the worker's token says that it emitted, or 0 where it has no token.
fn emitted_by(ended: &[Ended], worker: u8) -> u64
    ensures { result ≡ length (sent_by ended.now worker) }
{
    for token in ended {
        if token.worker() == worker {
            return token.emitted();
        }
    }
    0
}

/// Returns how many events each worker emitted, by its number; 0 at a number that is no worker's.
pub fn emitted_by_worker(ended: &[Ended], workers: u8) -> [u64; WORKER_SLOTS]
    requires { workers ≤ MAX_WORKERS }
    ensures each { (w : ℕ) → IsWorkerOf workers w
        → slice_index result w ≡ length (sent_by ended.now w) }
    ensures others { (w : ℕ) → ¬ IsWorkerOf workers w → slice_index result w ≡ 0 }
{
    let mut emitted = [0; WORKER_SLOTS];
    for worker in 1..=workers {
        emitted[worker as usize] = emitted_by(ended, worker);
    }
    emitted
}

/// Finds the first worker without a token.
pub fn first_without_token(ended: &[Ended], workers: u8) -> Option<u8>
    ensures { MatchOption result
        ((w : ℕ) → IsWorkerOf workers w → ¬ (tokens_of w ended.now ≡ 0))
        (Least workers (λ w. tokens_of w ended.now ≡ 0)) }
{
    for worker in 1..=workers {
        if tokens_of(ended, worker) == 0 {
            return Some(worker);
        }
    }
    None
}

/// Finds the first worker with more than one token.
pub fn first_with_two_tokens(ended: &[Ended], workers: u8) -> Option<u8>
    ensures { MatchOption result
        ((w : ℕ) → IsWorkerOf workers w → ¬ (1 < tokens_of w ended.now))
        (Least workers (λ w. 1 < tokens_of w ended.now)) }
{
    for worker in 1..=workers {
        if tokens_of(ended, worker) > 1 {
            return Some(worker);
        }
    }
    None
}

/// Finds the first worker whose mark was not taken.
pub fn first_undrained(marked: &[bool; WORKER_SLOTS], workers: u8) -> Option<u8>
    requires { workers ≤ MAX_WORKERS }
    ensures { MatchOption result
        ((w : ℕ) → IsWorkerOf workers w → ¬ (slice_index_or marked.now w false ≡ false))
        (Least workers (λ w. slice_index_or marked.now w false ≡ false)) }
{
    for worker in 1..=workers {
        if !marked[worker as usize] {
            return Some(worker);
        }
    }
    None
}
