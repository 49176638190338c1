//! Where a unit's events go.
ghost use Rattle.std.specs.Prelude.{◌≡◌, None, Some, Ok, IfOk, IfErr, OnOk, OnErr};
ghost use Rattle.tk_engine_execute.specs.Sinks.{IsSendCause, IsRegisterCause};
ghost use Rattle.tk_queue_session.specs.Senders.{SenderView, sends, refusal_of};
ghost use Rattle.tk_queue_session.specs.Registering.{IsRegisteredAs};

use std::sync::Wait;
use tk_events::Event;
use tk_ids::{DType, Segment};
use tk_queue_session::{RegisterFault, SendFault, Sender};

/// Why a sink took no event.
#[derive(Debug, Drop)]
pub enum SinkFault {
    /// The sink refused an event, which is in the fault.
    Send(SendFault),
    /// The sink refused a registration.
    Register(RegisterFault),
}

/// Takes the events of a unit, for one worker of a session. JUnit: an `EngineExecutionListener`.
///
/// Its meaning is what contracts see of a sender: the session, the table, the worker, and the list
/// that it emitted. What a sink takes is added as a sender adds it; a refusal changes nothing.
pub trait Sink {
    ghost view: { Self → SenderView };

    /// Emits an event of a static descriptor, or of one that this sink registered.
    ///
    /// # Errors
    /// `Send` where the event is unlawful or a registration, where its descriptor is unknown, or
    /// where the sink has emitted `MAX_EVENTS` events.
    fn emit<R: Wait>(&mut self, rt: &R, event: Event) -> Result<(), SinkFault>
        ensures ok { OnOk result ((refusal_of (view self.old) event ≡ None)
            × (view self.new ≡ sends (view self.old) event)) }
        ensures err { OnErr result (view self.new ≡ view self.old) }
        ensures cause { IfErr result (IsSendCause (view self.old) event) };

    /// Registers a dynamic descriptor below its parent, emits its registration with this stamp, and
    /// returns its key.
    ///
    /// `parent` is the key of a static descriptor or of one that this sink registered; the new
    /// descriptor's id is the parent's with `segment` appended. JUnit: `dynamicTestRegistered`.
    ///
    /// # Errors
    /// `Register` where the parent is unknown, where the id would be too long, where a limit is
    /// reached, or where a request for memory was refused.
    fn register<R: Wait>(
        &mut self,
        rt: &R,
        parent: u32,
        segment: &Segment,
        name: &str,
        dtype: DType,
        stamp: u64,
    ) -> Result<u32, SinkFault>
        ensures ok { IfOk result (λ key.
            IsRegisteredAs (view self.old) (view self.new)
            (record {
              parent = parent;
              segment = segment.now;
              name = name.now;
              dtype = dtype;
              stamp = stamp;
            }) (Ok key)) }
        ensures err { OnErr result (view self.new ≡ view self.old) }
        ensures cause { IfErr result
            (IsRegisterCause (view self.old) (view self.new)
            (record {
              parent = parent;
              segment = segment.now;
              name = name.now;
              dtype = dtype;
              stamp = stamp;
            })) };
}

impl Sink for Sender {
    ghost view = { λ s. s };

    fn emit<R: Wait>(&mut self, rt: &R, event: Event) -> Result<(), SinkFault> {
        self.send(rt, event).map_err(SinkFault::Send)
    }

    fn register<R: Wait>(
        &mut self,
        rt: &R,
        parent: u32,
        segment: &Segment,
        name: &str,
        dtype: DType,
        stamp: u64,
    ) -> Result<u32, SinkFault> {
        Sender::register(self, rt, parent, segment, name, dtype, stamp).map_err(SinkFault::Register)
    }
}
