//! The queue of a session, its rule, and what each step shows. Most types here are for the proofs
//! alone.
use crate::items::Item;
use crossbeam_queue::protocol::{Join, Lesson, Outcome, Protocol, Split};
use crossbeam_queue::{Pass, RuledArrayQueue};
use std::collections::LinkedList;
use tk_events::Event;

/// What a sender's pass knows. No value of it is made.
pub struct SenderPass {
    /// How many static descriptors there are.
    pub statics: u32,
    /// The number of the sender's worker.
    pub worker: u8,
    /// The events that it sent, in their order.
    pub sent: LinkedList<Event>,
    /// Whether it sent its end mark.
    pub ended: bool,
}

/// What the receiver's pass knows. No value of it is made.
pub struct ReceiverPass {
    /// How many static descriptors there are.
    pub statics: u32,
    /// How many senders there are.
    pub workers: u8,
    /// The items that were taken, in their order.
    pub taken: LinkedList<Item>,
    /// The passes of the senders whose tokens were taken in.
    pub tokens: LinkedList<SenderPass>,
}

/// What a pass knows. No value of it is made.
pub enum PassView {
    /// That of a sender.
    Sends(SenderPass),
    /// That of the receiver.
    Takes(ReceiverPass),
    /// Nothing any more: it was taken in.
    Spent,
}

/// The rule of a session.
pub struct SessionRule;

impl Protocol<Item, PassView> for SessionRule {
    ghost use Rattle.tk_queue_session.specs.SessionRule.{Session};
    ghost use Rattle.tk_queue_session.specs.PassViews.{new_receiver};

    ghost holds = { Session };

    ghost first = { new_receiver };
}

/// A sender's push, of an entry or of its mark.
pub struct SenderPush;

impl Outcome<Item, PassView> for SenderPush {
    ghost use Rattle.std.specs.Prelude.{◌≡◌};
    ghost use Rattle.tk_queue_session.specs.PassViews.{pushed};

    ghost then = { λ v x w. w ≡ pushed v x };
}

impl Lesson<Item, PassView> for SenderPush {
    ghost use Rattle.std.specs.Prelude.{⊤};

    ghost fact = { λ v items. ⊤ };
}

/// The receiver's pop.
pub struct ReceiverPop;

impl Outcome<Item, PassView> for ReceiverPop {
    ghost use Rattle.tk_queue_session.specs.PassViews.{Pops};

    ghost then = { Pops };
}

impl Lesson<Item, PassView> for ReceiverPop {
    ghost use Rattle.tk_queue_session.specs.SessionRule.{Concludes};

    ghost fact = { Concludes };
}

/// Before it makes a sender, the receiver doubles the number of static descriptors. The other half
/// is no one's.
pub struct WithZeroBit;

impl Split<PassView> for WithZeroBit {
    ghost use Rattle.tk_queue_session.specs.PassViews.{with_bit};
    ghost use Rattle.tk_queue_session.specs.declared.session_rules.PassView.TheVariants.{Spent};

    ghost left = { λ v. with_bit 0 v };

    ghost right = { λ v. Spent };
}

/// Before it makes a sender, the receiver doubles the number of static descriptors and adds one.
/// The other half is no one's.
pub struct WithOneBit;

impl Split<PassView> for WithOneBit {
    ghost use Rattle.tk_queue_session.specs.PassViews.{with_bit};
    ghost use Rattle.tk_queue_session.specs.declared.session_rules.PassView.TheVariants.{Spent};

    ghost left = { λ v. with_bit 1 v };

    ghost right = { λ v. Spent };
}

/// The receiver makes the next sender.
pub struct SplitSender;

impl Split<PassView> for SplitSender {
    ghost use Rattle.tk_queue_session.specs.PassViews.{with_worker, next_sender};

    ghost left = { with_worker };

    ghost right = { next_sender };
}

/// The receiver takes in the token of a sender that has ended.
pub struct JoinSender;

impl Join<PassView> for JoinSender {
    ghost use Rattle.tk_queue_session.specs.PassViews.{with_token};
    ghost use Rattle.tk_queue_session.specs.declared.session_rules.PassView.TheVariants.{Spent};

    ghost both = { with_token };

    ghost spent = { Spent };
}

/// What the receiver knows of the whole session.
pub struct AllSent;

impl Lesson<Item, PassView> for AllSent {
    ghost use Rattle.tk_queue_session.specs.SessionRule.{Concludes};

    ghost fact = { Concludes };
}

/// The queue of a session.
pub type EventQueue = RuledArrayQueue<Item, PassView, SessionRule>;

/// A pass to the queue of a session: a sender's, the receiver's, or one that is spent.
pub type QueuePass = Pass<Item, PassView>;
