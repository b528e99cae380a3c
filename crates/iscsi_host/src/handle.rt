//! The handle by which C and plain Rust keep a session.

ghost use Rattle.std.specs.Prelude.{◌≡◌, ◌≢◌, List, [], ◌∷◌, ◌++◌, Option, Some, None, IfOk, is_some, option_map, length, take};
ghost use Rattle.iscsi_rules.specs.rules.Settings.{Setting, is_valid};
ghost use Rattle.iscsi_session.specs.promises.Refusals.{refusal_of};
ghost use Rattle.iscsi_host.specs.Serving.{Serves, ServesIn, effects_in};
ghost use Rattle.iscsi_host.specs.Answers.{answer_of, arrival_answer, closed_arrival_answer, closing_answer, answer_in, effect_in, written_over, MayRefuseAs, OpensAs};
ghost use Rattle.iscsi_host.specs.Plain.{plain_setting};

mod owner;
mod parts;

use crate::answer::{Answer, answer_to};
use crate::host::Host;
use crate::options::{PlainConnection, PlainOptions, options_of};
use crate::plain::PlainEffect;
use iscsi_rules::Event;
use iscsi_session::SessionFault;
use owner::Owner;
use parts::Parts;
use std::alloc::Global;

/// A session on the side of C or plain Rust: closed, or the owner of a host. In a clause `inside` is the host, if it
/// is open.
///
/// It begins as zeros, and a foreign caller never writes nor copies its fields. A Rattle caller may let it go: its drop
/// closes it.
#[repr(C)]
pub struct Handle {
    is_open: bool,
    owner: Owner,
    pub ghost sound: { is_open ≡ is_some owner.host },
}

impl Drop for Handle {
    fn drop(self) {
        drop(self.into_host());
    }
}

impl Handle {
    ghost use Rattle.iscsi_host.specs.Inside.{inside};

    /// A closed handle.
    pub fn closed(alloc: Global) -> Handle
        ensures { inside result ≡ None }
    {
        Handle {
            is_open: false,
            owner: Owner::closed(alloc),
        }
    }

    /// Opens a session.
    ///
    /// `AlreadyOpen` where the handle is open, `BadOptions` where an option is outside its limits or a CID stands
    /// twice, `NoMemory` where memory is refused. Each leaves the handle as it was.
    pub fn open(
        &mut self,
        alloc: Global,
        options: &PlainOptions,
        connections: &[PlainConnection],
    ) -> Answer
        ensures serves { result ≡ Answer.Done →
            ServesIn (plain_setting options.now connections.now) (inside self.new) [] }
        ensures answer { OpensAs (inside self.old) (is_valid (plain_setting options.now connections.now)) result }
        ensures unchanged { result ≢ Answer.Done → inside self.new ≡ inside self.old }
    {
        if self.is_open {
            return Answer::AlreadyOpen;
        }
        match opened(alloc, options, connections) {
            Ok(host) => {
                self.put(host);
                Answer::Done
            }
            Err(fault) => answer_to(fault),
        }
    }

    /// Takes the arrival of a request on a connection: its header is the first 48 bytes.
    ///
    /// `ShortHeader` where there are fewer, then `NotOpen`, `UnknownConnection`, `Exhausted`. Each changes nothing.
    pub fn arrive(&mut self, alloc: Global, cid: u16, header: &[u8]) -> Answer
        ensures serves { (o : Setting) (h : List Event) → ServesIn o (inside self.old) h → result ≡ Answer.Done →
            ServesIn o (inside self.new) (h ++ Event.Arrive cid (take 48 header.now) ∷ []) }
        ensures answer { (o : Setting) (h : List Event) → ServesIn o (inside self.old) h →
            result ≡ arrival_answer o h cid header.now }
        ensures unchanged { (o : Setting) (h : List Event) → ServesIn o (inside self.old) h → result ≢ Answer.Done →
            inside self.new ≡ inside self.old }
        ensures not_open { inside self.old ≡ None →
            (inside self.new ≡ None) × (result ≡ closed_arrival_answer header.now) }
    {
        match header.first_chunk::<48>() {
            Some(header) => {
                let header = *header;
                self.step(alloc, &Event::Arrive { conn: cid, header })
            }
            None => Answer::ShortHeader,
        }
    }

    /// Takes the completion of a command by its unit, with this SCSI status.
    ///
    /// `NotOpen`, then `Exhausted`. Each changes nothing. A ticket that is none of an enabled command is no refusal:
    /// the session passes the completion over.
    pub fn complete(&mut self, alloc: Global, ticket: u64, status: u8) -> Answer
        ensures serves { (o : Setting) (h : List Event) → ServesIn o (inside self.old) h → result ≡ Answer.Done →
            ServesIn o (inside self.new) (h ++ Event.Done ticket status ∷ []) }
        ensures answer { (o : Setting) (h : List Event) → ServesIn o (inside self.old) h →
            result ≡ answer_of (refusal_of o h (Event.Done ticket status)) }
        ensures unchanged { (o : Setting) (h : List Event) → ServesIn o (inside self.old) h → result ≢ Answer.Done →
            inside self.new ≡ inside self.old }
        ensures not_open { inside self.old ≡ None → (inside self.new ≡ None) × (result ≡ Answer.NotOpen) }
    {
        self.step(alloc, &Event::Done { ticket, status })
    }

    /// How many effects the last event had: none before the first event, and none where the handle is closed.
    pub fn effect_count(&mut self, alloc: Global) -> usize
        ensures count { result ≡ length (effects_in (inside self.old)) }
        ensures same { inside self.new ≡ inside self.old }
    {
        let Some(host) = self.take(alloc) else {
            return 0;
        };
        let count = host.effect_count();
        self.put(host);
        count
    }

    /// Writes the effect of the last event with this index, from 0. `NotOpen`, `NoEffect`: nothing is written then.
    pub fn effect(&mut self, alloc: Global, index: usize, out: &mut PlainEffect) -> Answer
        ensures answer { result ≡ answer_in (effect_in (inside self.old) index) }
        ensures out { out.new ≡ written_over out.old (effect_in (inside self.old) index) }
        ensures same { inside self.new ≡ inside self.old }
    {
        let Some(host) = self.take(alloc) else {
            return Answer::NotOpen;
        };
        let is_there = host.effect(index, out);
        self.put(host);
        if is_there {
            Answer::Done
        } else {
            Answer::NoEffect
        }
    }

    /// Closes the session, and frees what it holds. `NotOpen` where it is closed.
    pub fn close(&mut self, alloc: Global) -> Answer
        ensures closed { inside self.new ≡ None }
        ensures answer { result ≡ closing_answer (inside self.old) }
    {
        match self.take(alloc) {
            Some(host) => {
                drop(host);
                Answer::Done
            }
            None => Answer::NotOpen,
        }
    }

    /// Takes an event.
    fn step(&mut self, alloc: Global, event: &Event) -> Answer
        ensures serves { (o : Setting) (h : List Event) → ServesIn o (inside self.old) h → result ≡ Answer.Done →
            ServesIn o (inside self.new) (h ++ event.now ∷ []) }
        ensures answer { (o : Setting) (h : List Event) → ServesIn o (inside self.old) h →
            result ≡ answer_of (refusal_of o h event.now) }
        ensures unchanged { (o : Setting) (h : List Event) → ServesIn o (inside self.old) h → result ≢ Answer.Done →
            inside self.new ≡ inside self.old }
        ensures not_open { inside self.old ≡ None → (inside self.new ≡ None) × (result ≡ Answer.NotOpen) }
    {
        let Some(mut host) = self.take(alloc) else {
            return Answer::NotOpen;
        };
        let answer = match host.step(event) {
            Ok(()) => Answer::Done,
            Err(fault) => answer_to(fault),
        };
        self.put(host);
        answer
    }

    /// Takes the host out, and leaves the handle closed.
    fn take(&mut self, alloc: Global) -> Option<Box<Host>>
        ensures closed { inside self.new ≡ None }
        ensures host { option_map (λ b. b.value) result ≡ inside self.old }
    {
        std::mem::replace(self, Handle::closed(alloc)).into_host()
    }

    /// The host, if the handle is open.
    fn into_host(self) -> Option<Box<Host>>
        ensures { option_map (λ b. b.value) result ≡ inside self }
    {
        let Handle { is_open, owner } = self;
        if is_open {
            Some(owner.into_parts().into_box())
        } else {
            owner.end();
            None
        }
    }

    /// Puts a host into a closed handle.
    fn put(&mut self, host: Box<Host>)
        requires closed { inside self.old ≡ None }
        ensures host { inside self.new ≡ Some host.value }
    {
        let whole = Handle {
            is_open: true,
            owner: Owner::of_parts(Parts::of(host)),
        };
        std::mem::replace(self, whole).end();
    }

    /// Ends a closed handle. Unlike its drop, this needn't ask whether there is a host to free.
    fn end(self)
        requires closed { inside self ≡ None }
    {
        let Handle { is_open: _, owner } = self;
        owner.end();
    }
}

/// A host by these options, in a box.
fn opened(
    alloc: Global,
    options: &PlainOptions,
    connections: &[PlainConnection],
) -> Result<Box<Host>, SessionFault>
    ensures serves { IfOk result (λ b. Serves (plain_setting options.now connections.now) b.value []) }
    ensures refused { MayRefuseAs (is_valid (plain_setting options.now connections.now)) result }
{
    let Some(options) = options_of(alloc, options, connections) else {
        return Err(SessionFault::NoMemory);
    };
    let host = Host::open(alloc, options)?;
    match Box::new(alloc, host) {
        Ok(host) => Ok(host),
        Err(_) => Err(SessionFault::NoMemory),
    }
}
