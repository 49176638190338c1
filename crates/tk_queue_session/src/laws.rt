//! Laws of sessions, which hold of the definitions alone.
ghost use Rattle.std.specs.Prelude.{◌≡◌, ◌↔◌, ◌<◌, [], ℕ, Bool, false, List, None, length};
ghost use Rattle.tk_events.specs.declared.events.Event.{Event};
ghost use Rattle.tk_record.specs.Mixing.{IsWorkerOf};
ghost use Rattle.tk_queue_session.specs.Core.{items_of, script};
ghost use Rattle.tk_queue_session.specs.declared.close_faults.CloseReason.{CloseReason};
ghost use Rattle.tk_queue_session.specs.Closing.{IsCloseFault, IsComplete};
ghost use Rattle.tk_queue_session.specs.CoreSteps.{HoldsStates, BeginsFresh, PushIsStep, FullIsNone, TakeIsStep, EmptyIsNone, SplitIsNone, BitIsNone, JoinIsNone};
ghost use Rattle.tk_queue_session.specs.Emission.{is_dynamic};
ghost use Rattle.tk_queue_session.specs.Limits.{most_events};
ghost use Rattle.tk_queue_session.specs.Receivers.{NothingWaited, ReceiverView};
ghost use Rattle.tk_queue_session.specs.Recordable.{IsNeverRefused, IsShort};
ghost use Rattle.tk_queue_session.specs.Senders.{EmitsLawfully, IsLawfulAfter, SenderView, refusal_of, sends};

use crate::items::Item;
use crate::limits::MAX_CAPACITY;
use crate::session_rules::{
    JoinSender, PassView, ReceiverPop, SenderPush, SessionRule, SplitSender, WithOneBit,
    WithZeroBit,
};
use crossbeam_queue::protocol::{Join, Outcome, Protocol, Split};

/// Shows that what a session's queue holds and what its passes know is a state of the core between
/// any two steps, and that each step is the core's or none.
pub fn each_step_is_a_core_step()
    ensures rule { HoldsStates ⟦<SessionRule as Protocol<Item, PassView>>⟧.holds }
    ensures first { BeginsFresh ⟦<SessionRule as Protocol<Item, PassView>>⟧.first }
    ensures push { PushIsStep ⟦<SenderPush as Outcome<Item, PassView>>⟧.then }
    ensures full { FullIsNone }
    ensures take { TakeIsStep ⟦<ReceiverPop as Outcome<Item, PassView>>⟧.then }
    ensures empty { EmptyIsNone }
    ensures split { SplitIsNone ⟦<SplitSender as Split<PassView>>⟧.left
        ⟦<SplitSender as Split<PassView>>⟧.right }
    ensures bit_zero { BitIsNone ⟦<WithZeroBit as Split<PassView>>⟧.left
        ⟦<WithZeroBit as Split<PassView>>⟧.right }
    ensures bit_one { BitIsNone ⟦<WithOneBit as Split<PassView>>⟧.left
        ⟦<WithOneBit as Split<PassView>>⟧.right }
    ensures join { JoinIsNone ⟦<JoinSender as Join<PassView>>⟧.both
        ⟦<JoinSender as Join<PassView>>⟧.spent }
{}

/// Shows that the queue of a session holds at most 1,024 items.
pub fn limits()
    ensures capacity { MAX_CAPACITY ≡ 1024 }
{}

/// Shows that a record of the entries that were taken so far, after some of worker 0, has no reason
/// to refuse the entry that is taken next.
pub fn no_entry_is_refused()
    ensures never { IsNeverRefused }
    ensures short { IsShort }
{}

/// Shows that a session that can't be closed has one reason, and one that can be closed has none.
pub fn one_reason_or_none()
    ensures one { (receiver : ReceiverView) (tokens : List SenderView) (a b : CloseReason)
        → IsCloseFault a receiver tokens → IsCloseFault b receiver tokens → a ≡ b }
    ensures none { (receiver : ReceiverView) (tokens : List SenderView) (why : CloseReason)
        → IsComplete receiver tokens → IsCloseFault why receiver tokens → ⊥ }
{}

/// Shows that a sender emitted lawfully exactly where it did so before its last event and this event
/// may follow, and that an event which registers nothing may follow exactly where `send` takes it.
pub fn senders_emit_what_is_admitted()
    ensures last { (sender : SenderView) (event : Event) → EmitsLawfully (sends sender event)
        ↔ (EmitsLawfully sender × IsLawfulAfter sender sender.sent event
        × (length sender.sent < most_events)) }
    ensures admitted { (sender : SenderView) (event : Event) → is_dynamic event ≡ false
        → (refusal_of sender event ≡ None)
        ↔ (IsLawfulAfter sender sender.sent event × (length sender.sent < most_events)) }
{}

/// Shows what `take` says by `None`: of each worker, some events were taken, and after them its mark
/// or nothing; of all others nothing was.
pub fn nothing_waits_after_scripts()
    ensures { (receiver : ReceiverView) → NothingWaited receiver
        ↔ ((w : ℕ) → (sent : List Event) × (ended : Bool)
        × (items_of w receiver.taken ≡ script w sent ended)
        × (¬ IsWorkerOf receiver.workers w → (sent ≡ []) × (ended ≡ false))) }
{}
