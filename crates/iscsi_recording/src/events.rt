//! Events that stand one after another in few bytes.

ghost use Rattle.std.specs.Prelude.{◌≡◌, ◌==◌, ◌<◌, ◌^◌, [], ◌∷◌, ◌++◌, length, drop, slice_index, true, false, OnOk, OnErr};
ghost use Rattle.byteorder.specs.Endian.{big_number};
ghost use Rattle.iscsi_wire.specs.Fields.{connection_of, header_of, request_of};
ghost use Rattle.iscsi_recording.specs.Dense.{bytes_of, Fits, first_size, event_in};
ghost use Rattle.iscsi_recording.specs.Firsts.{begins_with_arrival, begins_with_completion};

use crate::bytes::Bytes;
use crate::event_source::EventSource;
use byteorder::{BigEndian, ByteOrder};
use iscsi_rules::Event;
use iscsi_wire::Request;
use std::alloc::{AllocError, Global};
use std::marker::Model;

/// What stands first in the bytes of an arrival, and in those of a completion.
const ARRIVAL: u8 = 0;

const COMPLETION: u8 = 1;

/// How many bytes an arrival takes: its kind, the CID and the header.
const ARRIVAL_SIZE: usize = 51;

/// How many bytes a completion takes: its kind, the ticket and the status.
const COMPLETION_SIZE: usize = 10;

/// Events in their order, each in as many bytes as its kind needs.
#[derive(Debug)]
pub struct Events {
    bytes: Bytes,
    count: usize,
}

impl Drop for Events {
    fn drop(self) {
        let Events {
            bytes: _bytes,
            count: _count,
        } = self;
    }
}

impl Model for Events {
    ghost use Rattle.std.specs.Prelude.{List};
    ghost use Rattle.iscsi_rules.specs.declared.event.Event.{Event as SpecEvent};

    ghost Value = { List SpecEvent };

    ghost use Rattle.iscsi_recording.specs.Dense.{events_of, IsDense};

    ghost view = { λ e. events_of e.count e.bytes };

    ghost invariant = { λ e. IsDense e.count e.bytes };
}

/// The bytes of an arrival.
fn arrival(conn: u16, header: &[u8; 48]) -> [u8; ARRIVAL_SIZE]
    ensures { result ≡ bytes_of (Event.Arrive conn header.now) }
{
    let mut bytes = [ARRIVAL; ARRIVAL_SIZE];
    BigEndian::write_u16(&mut bytes[1..3], conn);
    bytes[3..].copy_from_slice(header);
    bytes
}

/// The bytes of a completion.
fn completion(ticket: u64, status: u8) -> [u8; COMPLETION_SIZE]
    ensures { result ≡ bytes_of (Event.Done ticket status) }
{
    let mut bytes = [COMPLETION; COMPLETION_SIZE];
    BigEndian::write_u64(&mut bytes[1..9], ticket);
    bytes[9] = status;
    bytes
}

/// Appends the bytes of an arrival.
#[inline(always)]
fn put_arrival(conn: u16, header: &[u8; 48], bytes: &mut Bytes) -> Result<(), AllocError>
    ensures ok { OnOk result (bytes.new ≡ bytes.old ++ bytes_of (Event.Arrive conn header.now)) }
    ensures err { OnErr result (bytes.new ≡ bytes.old) }
    ensures fits { Fits (Event.Arrive conn header.now) }
    ensures few { length bytes.old < 2 ^ 63 }
{
    bytes.extend(&arrival(conn, header))
}

/// Appends the bytes of an arrival where they fit without more memory being asked for, and tells whether they do.
#[inline(always)]
fn put_arrival_in_place(conn: u16, header: &[u8; 48], bytes: &mut Bytes) -> bool
    ensures put { result ≡ true → bytes.new ≡ bytes.old ++ bytes_of (Event.Arrive conn header.now) }
    ensures not { result ≡ false → bytes.new ≡ bytes.old }
    ensures fits { Fits (Event.Arrive conn header.now) }
    ensures few { length bytes.old < 2 ^ 63 }
{
    bytes.extend_in_place(&arrival(conn, header))
}

/// Appends the bytes of a completion where they fit without more memory being asked for, and tells whether they do.
#[inline(always)]
fn put_completion_in_place(ticket: u64, status: u8, bytes: &mut Bytes) -> bool
    ensures put { result ≡ true → bytes.new ≡ bytes.old ++ bytes_of (Event.Done ticket status) }
    ensures not { result ≡ false → bytes.new ≡ bytes.old }
    ensures fits { Fits (Event.Done ticket status) }
    ensures few { length bytes.old < 2 ^ 63 }
{
    bytes.extend_in_place(&completion(ticket, status))
}

/// Appends the bytes of a completion.
#[inline(always)]
fn put_completion(ticket: u64, status: u8, bytes: &mut Bytes) -> Result<(), AllocError>
    ensures ok { OnOk result (bytes.new ≡ bytes.old ++ bytes_of (Event.Done ticket status)) }
    ensures err { OnErr result (bytes.new ≡ bytes.old) }
    ensures fits { Fits (Event.Done ticket status) }
    ensures few { length bytes.old < 2 ^ 63 }
{
    bytes.extend(&completion(ticket, status))
}

/// Appends the bytes of an event.
fn put(event: &Event, bytes: &mut Bytes) -> Result<(), AllocError>
    ensures ok { OnOk result (bytes.new ≡ bytes.old ++ bytes_of event.now) }
    ensures err { OnErr result (bytes.new ≡ bytes.old) }
    ensures fits { Fits event.now }
    ensures few { length bytes.old < 2 ^ 63 }
{
    match event {
        Event::Arrive { conn, header } => put_arrival(*conn, header, bytes),
        Event::Done { ticket, status } => put_completion(*ticket, *status, bytes),
    }
}

/// How many bytes the first event takes.
fn first_size(bytes: &[u8]) -> usize
    requires { 0 < length bytes.now }
    ensures { result ≡ first_size bytes.now }
{
    if bytes[0] == ARRIVAL {
        ARRIVAL_SIZE
    } else {
        COMPLETION_SIZE
    }
}

/// Makes `event` the one that has these bytes.
#[inline(always)]
fn read_event(bytes: &[u8], event: &mut Event)
    requires { length bytes.now ≡ first_size bytes.now }
    ensures { event.new ≡ event_in bytes.now }
{
    if bytes[0] == ARRIVAL {
        let mut header = [0u8; 48];
        header.copy_from_slice(&bytes[3..]);
        *event = Event::Arrive {
            conn: BigEndian::read_u16(&bytes[1..]),
            header,
        };
    } else {
        *event = Event::Done {
            ticket: BigEndian::read_u64(&bytes[1..]),
            status: bytes[9],
        };
    }
}

/// The request whose arrival has these bytes.
#[inline(always)]
fn request_in(bytes: &[u8]) -> Request
    requires { length bytes.now ≡ 51 }
    ensures { result ≡ request_of (big_number 2 (drop 1 bytes.now)) (drop 3 bytes.now) }
{
    let mut header = [0u8; 48];
    header.copy_from_slice(&bytes[3..]);
    Request::read(BigEndian::read_u16(&bytes[1..]), &header)
}

/// The ticket and the status of the completion that has these bytes.
#[inline(always)]
fn completion_in(bytes: &[u8]) -> (u64, u8)
    requires { length bytes.now ≡ 10 }
    ensures { (result.0 ≡ big_number 8 (drop 1 bytes.now)) × (result.1 ≡ slice_index bytes.now 9) }
{
    (BigEndian::read_u64(&bytes[1..]), bytes[9])
}

impl Events {
    /// No events, without memory.
    pub fn new(alloc: Global) -> Events
        ensures { result ≡ [] }
    {
        Events {
            bytes: Bytes::new(alloc),
            count: 0,
        }
    }

    /// Tells whether there are none.
    pub fn is_empty(&self) -> bool
        ensures { result ≡ (length self.now == 0) }
    {
        self.count == 0
    }

    /// Puts an event behind the others. On `Err` they stay as they were.
    pub fn push(&mut self, event: &Event) -> Result<(), AllocError>
        ensures ok { OnOk result (self.new ≡ self.old ++ event.now ∷ []) }
        ensures err { OnErr result (self.new ≡ self.old) }
    {
        put(event, &mut self.bytes)?;
        self.count += 1;
        Ok(())
    }

    /// Puts an arrival behind the others. On `Err` they stay as they were.
    #[inline(always)]
    pub fn push_arrival(&mut self, conn: u16, header: &[u8; 48]) -> Result<(), AllocError>
        ensures ok { OnOk result (self.new ≡ self.old ++ Event.Arrive conn header.now ∷ []) }
        ensures err { OnErr result (self.new ≡ self.old) }
    {
        put_arrival(conn, header, &mut self.bytes)?;
        self.count += 1;
        Ok(())
    }

    /// Puts an arrival behind the others where it fits without more memory being asked for, and tells whether it does.
    /// Otherwise they stay as they were.
    #[inline(always)]
    pub(crate) fn push_arrival_in_place(&mut self, conn: u16, header: &[u8; 48]) -> bool
        ensures put { result ≡ true → self.new ≡ self.old ++ Event.Arrive conn header.now ∷ [] }
        ensures not { result ≡ false → self.new ≡ self.old }
    {
        if !put_arrival_in_place(conn, header, &mut self.bytes) {
            return false;
        }
        self.count += 1;
        true
    }

    /// Puts a completion behind the others where it fits without more memory being asked for, and tells whether it does.
    /// Otherwise they stay as they were.
    #[inline(always)]
    pub(crate) fn push_completion_in_place(&mut self, ticket: u64, status: u8) -> bool
        ensures put { result ≡ true → self.new ≡ self.old ++ Event.Done ticket status ∷ [] }
        ensures not { result ≡ false → self.new ≡ self.old }
    {
        if !put_completion_in_place(ticket, status, &mut self.bytes) {
            return false;
        }
        self.count += 1;
        true
    }

    /// A reader of them, from the first on.
    pub fn cursor(&self) -> Cursor<'_>
        ensures { result ≡ self.now }
    {
        Cursor {
            left: self.bytes.as_slice(),
            count: self.count,
        }
    }
}

/// A reader of events that stand in bytes.
#[derive(Drop)]
pub struct Cursor<'a> {
    left: &'a [u8],
    count: usize,
}

impl<'a> Model for Cursor<'a> {
    ghost use Rattle.std.specs.Prelude.{List};
    ghost use Rattle.iscsi_rules.specs.declared.event.Event.{Event as SpecEvent};

    ghost Value = { List SpecEvent };

    ghost use Rattle.iscsi_recording.specs.Dense.{events_of, IsDense};

    ghost view = { λ c. events_of c.count c.left.now };

    ghost invariant = { λ c. IsDense c.count c.left.now };
}

impl Cursor<'_> {
    /// Tells whether an event comes next.
    #[inline(always)]
    pub fn has_next(&self) -> bool
        ensures some { result ≡ true → 0 < length self.now }
        ensures none { result ≡ false → self.now ≡ [] }
    {
        self.count > 0
    }

    /// Tells whether the event that comes next is an arrival.
    #[inline(always)]
    pub fn is_at_arrival(&self) -> bool
        requires { 0 < length self.now }
        ensures arrival { result ≡ true → begins_with_arrival self.now ≡ true }
        ensures completion { result ≡ false → begins_with_completion self.now ≡ true }
    {
        self.left[0] == ARRIVAL
    }

    /// The request whose arrival comes next, which is passed.
    #[inline(always)]
    pub fn pass_arrival(&mut self) -> Request
        requires { begins_with_arrival self.old ≡ true }
        ensures { self.old ≡ Event.Arrive (connection_of result) (header_of result) ∷ self.new }
    {
        let (first, left) = self.left.split_at(ARRIVAL_SIZE);
        self.left = left;
        self.count -= 1;
        request_in(first)
    }

    /// The ticket and the status of the completion that comes next, which is passed.
    #[inline(always)]
    pub fn pass_completion(&mut self) -> (u64, u8)
        requires { begins_with_completion self.old ≡ true }
        ensures { self.old ≡ Event.Done result.0 result.1 ∷ self.new }
    {
        let (first, left) = self.left.split_at(COMPLETION_SIZE);
        self.left = left;
        self.count -= 1;
        completion_in(first)
    }
}

impl EventSource for Cursor<'_> {
    ghost rest = { λ cursor. cursor };

    fn next(&mut self, event: &mut Event) -> bool {
        if self.count == 0 {
            return false;
        }
        let (first, left) = self.left.split_at(first_size(self.left));
        self.left = left;
        self.count -= 1;
        read_event(first, event);
        true
    }
}
