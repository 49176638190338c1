//! A worker's end of a session.
ghost use Rattle.std.specs.Prelude.{◌≡◌, ◌⊎◌, ◌<◌, ◌≤◌, [], length, None, Some, option_map, IfOk, OnOk, IfErr, OnErr};
ghost use Rattle.std.specs.Arc.{arc_value};
ghost use Rattle.std.specs.Option.{option_copied};
ghost use Rattle.tk_record.specs.Entries.{desc};
ghost use Rattle.tk_queue_session.specs.Emission.{is_plain, registrations};
ghost use Rattle.tk_events.specs.Registration.{registered_key};
ghost use Rattle.tk_queue_session.specs.Senders.{record_of_sender, knows, sends, refusal_of, EmitsLawfully};
ghost use Rattle.tk_queue_session.specs.Registering.{HasRoom, IsNew, child, IsRegisteredAs};
ghost use Rattle.tk_queue_session.specs.steps.{IsChildMade};

use crate::items::Item;
use crate::pushes::{push, try_push};
use crate::sender_faults::{RegisterFault, SendFault};
use crate::session_rules::{EventQueue, QueuePass};
use std::alloc::Global;
use std::marker::Model;
use std::sync::{Arc, Wait};
use tk_base::{MAX_EVENTS, MAX_WORKERS};
use tk_events::{Entry, Event, Kind, Payload, registered_key};
use tk_ids::{DType, Descriptor, IdFault, Locks, MAX_DESCRIPTORS, Segment, Table, Text, UniqueId};

/// Emits the events of one worker of a session.
///
/// Contracts see the session, its table, the worker and the list of what it emitted.
#[derive(Drop)]
pub struct Sender {
    alloc: Global,
    queue: Arc<EventQueue, Global>,
    pass: QueuePass,
    table: Arc<Table>,
    worker: u8,
    emitted: u64,
    // The ids of the descriptors that it registered, in order.
    registered: Vec<UniqueId>,
}

impl Model for Sender {
    ghost use Rattle.std.specs.Prelude.{◌≡◌, length};
    ghost use Rattle.std.specs.Arc.{arc_value};
    ghost use Rattle.crossbeam_queue.specs.Passes.{view as seen, IsPassOf};
    ghost use Rattle.tk_queue_session.specs.Senders.{SenderView, IsSender, sent_of};

    ghost Value = { SenderView };

    ghost view = { λ s. record {
      session = s.pass.table_id;
      table = arc_value s.table;
      worker = s.worker;
      sent = sent_of (seen s.pass);
    } };

    ghost invariant = { λ s. IsPassOf (arc_value s.queue) s.pass
        × IsSender (seen s.pass) (record {
          table = arc_value s.table;
          worker = s.worker;
          ids = s.registered.items;
          emitted = s.emitted;
        }) };
}

/// The token of a sender that has ended, for [`Receiver::close`](crate::Receiver::close).
///
/// Contracts see of it what they saw of the sender.
#[derive(Drop)]
pub struct Ended {
    pass: QueuePass,
    table: Arc<Table>,
    worker: u8,
    emitted: u64,
}

impl Model for Ended {
    ghost use Rattle.std.specs.Prelude.{◌≡◌, [], length};
    ghost use Rattle.std.specs.Arc.{arc_value};
    ghost use Rattle.crossbeam_queue.specs.Passes.{view as seen};
    ghost use Rattle.tk_queue_session.specs.Senders.{SenderView, sent_of};
    ghost use Rattle.tk_queue_session.specs.Tokens.{IsEnded};

    ghost Value = { SenderView };

    ghost view = { λ t. record {
      session = t.pass.table_id;
      table = arc_value t.table;
      worker = t.worker;
      sent = sent_of (seen t.pass);
    } };

    ghost invariant = { λ t. (t.pass.me.1 ≡ [])
        × IsEnded (seen t.pass) (arc_value t.table) t.worker t.emitted };
}

impl Sender {
    ghost use Rattle.std.specs.Prelude.{false};
    ghost use Rattle.crossbeam_queue.specs.Passes.{view, IsPassOf};
    ghost use Rattle.tk_queue_session.specs.PassViews.{pass_of_sender};

    /// Makes the sender of a worker that has emitted nothing.
    pub(crate) fn with_pass(
        alloc: Global,
        queue: Arc<EventQueue, Global>,
        pass: QueuePass,
        table: Arc<Table>,
        worker: u8,
    ) -> Sender
        requires queue { IsPassOf (arc_value queue) pass }
        requires fresh { view pass ≡ pass_of_sender (length (arc_value table)) worker [] false }
        requires worker { (0 < worker) × (worker ≤ MAX_WORKERS) }
        ensures { result ≡ record
            { session = pass.table_id; table = arc_value table; worker = worker; sent = [] } }
    {
        Sender {
            alloc,
            queue,
            pass,
            table,
            worker,
            emitted: 0,
            registered: Vec::new(alloc),
        }
    }

    /// Returns the number of the worker.
    pub fn worker(&self) -> u8
        ensures { result ≡ self.now.worker }
    {
        self.worker
    }

    /// Returns how many events the sender has emitted, registrations among them.
    ///
    /// Each of them is lawful, and its key is static or one that the sender registered before it.
    pub fn emitted(&self) -> u64
        ensures count { result ≡ length self.now.sent }
        ensures lawful { EmitsLawfully self.now }
    {
        self.emitted
    }

    // The id of the descriptor with this key, which is static or was registered by this sender.
    fn id_of(&self, key: u32) -> Option<&UniqueId>
        ensures { option_copied result
            ≡ option_map (λ d. d.id) (desc (record_of_sender self.now) key) }
    {
        if let Some(descriptor) = self.table.get(key) {
            return Some(&descriptor.id);
        }
        let first = registered_key(self.worker, 0);
        if key < first {
            return None;
        }
        self.registered.get((key - first) as usize)
    }

    // Whether a static descriptor has this key, or one that this sender registered.
    fn knows(&self, key: u32) -> bool
        ensures { result ≡ knows self.now key }
    {
        self.id_of(key).is_some()
    }

    // Gives the event back where the sender may emit it now.
    fn admitted(&self, event: Event) -> Result<Event, SendFault>
        ensures ok { IfOk result (λ same. (same ≡ event) × (refusal_of self.now event ≡ None)) }
        ensures refused { IfErr result (λ fault. refusal_of self.now event ≡ Some fault) }
    {
        if !self.knows(event.key) {
            return Err(SendFault::UnknownNode(event));
        }
        if !is_plain(&event) {
            return Err(SendFault::Unlawful(event));
        }
        if self.emitted >= MAX_EVENTS {
            return Err(SendFault::Limit(event));
        }
        Ok(event)
    }

    /// Emits an event, where the queue has room for it.
    ///
    /// # Errors
    /// `UnknownNode`, `Unlawful`, `Limit` or `Full`, each with the event. Nothing was then emitted.
    pub fn try_send<R: Wait>(&mut self, rt: &R, event: Event) -> Result<(), SendFault>
        ensures sent { OnOk result ((refusal_of self.old event ≡ None)
            × (self.new ≡ sends self.old event)) }
        ensures refused { IfErr result (λ fault. (refusal_of self.old event ≡ Some fault)
            ⊎ ((refusal_of self.old event ≡ None) × (fault ≡ SendFault.Full event))) }
        ensures kept { OnErr result (self.new ≡ self.old) }
    {
        let event = self.admitted(event)?;
        let entry = Entry {
            worker: self.worker,
            event,
        };
        match try_push(rt, &self.queue, &mut self.pass, Item::Entry(entry)) {
            Ok(()) => {
                self.emitted += 1;
                Ok(())
            }
            Err(Item::Entry(entry)) => Err(SendFault::Full(entry.event)),
            Err(Item::End(_)) => unreachable!(),
        }
    }

    /// Emits an event, waiting until the queue has room for it.
    ///
    /// # Errors
    /// `UnknownNode`, `Unlawful` or `Limit`, each with the event. Nothing was then emitted.
    pub fn send<R: Wait>(&mut self, rt: &R, event: Event) -> Result<(), SendFault>
        ensures sent { OnOk result ((refusal_of self.old event ≡ None)
            × (self.new ≡ sends self.old event)) }
        ensures refused { IfErr result (λ fault. refusal_of self.old event ≡ Some fault) }
        ensures kept { OnErr result (self.new ≡ self.old) }
    {
        let event = self.admitted(event)?;
        let entry = Entry {
            worker: self.worker,
            event,
        };
        push(rt, &self.queue, &mut self.pass, Item::Entry(entry));
        self.emitted += 1;
        Ok(())
    }

    // A descriptor below the parent, and its id once more, where the sender may register one more.
    fn child(
        &self,
        parent: u32,
        segment: &Segment,
        name: &str,
        dtype: DType,
    ) -> Result<(UniqueId, Descriptor), RegisterFault>
        ensures { IsChildMade self.now parent
            (λ above. child above segment.now name.now dtype) result }
    {
        let Some(above) = self.id_of(parent) else {
            return Err(RegisterFault::UnknownNode);
        };
        if self.emitted >= MAX_EVENTS || self.registered.len() >= MAX_DESCRIPTORS {
            return Err(RegisterFault::Limit);
        }
        let id = match above.append(self.alloc, segment) {
            Ok(id) => id,
            Err(IdFault::Memory) => return Err(RegisterFault::Memory),
            Err(fault) => return Err(RegisterFault::Id(fault)),
        };
        let again = id.try_clone()?;
        let name = Text::copy(self.alloc, name)?;
        let descriptor = Descriptor {
            id,
            name,
            dtype,
            locks: Locks::new(),
        };
        Ok((again, descriptor))
    }

    // The key of the next descriptor that is registered.
    fn next_key(&self) -> u32
        requires { HasRoom self.now }
        ensures key { result ≡ registered_key self.now.worker (registrations self.now.sent) }
        ensures new { IsNew self.now result }
    {
        // Static keys are below those of workers.
        let _statics = self.table.len();
        registered_key(self.worker, self.registered.len() as u32)
    }

    /// Registers a dynamic descriptor below the parent with this key, and returns its key.
    ///
    /// The descriptor's id is the parent's with `segment` appended. Its registration, an event of
    /// the kind `Dynamic`, is emitted with this stamp; it waits until the queue has room. JUnit:
    /// `dynamicTestRegistered`.
    ///
    /// # Errors
    /// `UnknownNode`, `Limit`, `Id` or `Memory`. Nothing was then emitted.
    pub fn register<R: Wait>(
        &mut self,
        rt: &R,
        parent: u32,
        segment: &Segment,
        name: &str,
        dtype: DType,
        stamp: u64,
    ) -> Result<u32, RegisterFault>
        ensures { IsRegisteredAs self.old self.new (record {
          parent = parent;
          segment = segment.now;
          name = name.now;
          dtype = dtype;
          stamp = stamp;
        }) result }
    {
        let (id, descriptor) = self.child(parent, segment, name, dtype)?;
        let key = self.next_key();
        self.registered.push(id)?;
        let event = Event {
            kind: Kind::Dynamic,
            key,
            stamp,
            payload: Payload::Described(descriptor),
        };
        let registration = Entry {
            worker: self.worker,
            event,
        };
        push(rt, &self.queue, &mut self.pass, Item::Entry(registration));
        self.emitted += 1;
        Ok(key)
    }

    /// Ends the sender: pushes its end mark, waiting until the queue has room, and returns its
    /// token.
    pub fn end<R: Wait>(self, rt: &R) -> Ended
        ensures { result ≡ self }
    {
        let Sender {
            alloc: _,
            queue,
            mut pass,
            table,
            worker,
            emitted,
            registered: _,
        } = self;
        push(rt, &queue, &mut pass, Item::End(worker));
        Ended {
            pass,
            table,
            worker,
            emitted,
        }
    }
}

// Whether the event is lawful and no registration.
fn is_plain(event: &Event) -> bool
    ensures { result ≡ is_plain event.now }
{
    event.is_lawful() && !matches!(event.kind, Kind::Dynamic)
}

impl Ended {
    ghost use Rattle.std.specs.Prelude.{[], true};
    ghost use Rattle.crossbeam_queue.specs.Passes.{view};
    ghost use Rattle.tk_queue_session.specs.PassViews.{pass_of_sender};

    /// Returns the number of the worker. What it emitted is as lawful as it was for the sender.
    pub fn worker(&self) -> u8
        ensures worker { result ≡ self.now.worker }
        ensures lawful { EmitsLawfully self.now }
    {
        self.worker
    }

    /// Returns how many events the worker emitted.
    pub(crate) fn emitted(&self) -> u64
        ensures { result ≡ length self.now.sent }
    {
        self.emitted
    }

    /// Gives the pass, which the receiver takes in.
    pub(crate) fn into_pass(self) -> QueuePass
        ensures session { result.table_id ≡ self.session }
        ensures back { result.me.1 ≡ [] }
        ensures known { view result
            ≡ pass_of_sender (length self.table) self.worker self.sent true }
    {
        self.pass
    }
}
