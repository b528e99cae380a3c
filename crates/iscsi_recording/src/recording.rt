//! The connections and events of a recording.

ghost use Rattle.std.specs.Prelude.{◌≡◌, ◌<◌, true, false, Some, ok_or, option_map, option_and_then, [], OnErr};
ghost use Rattle.iscsi_recording.specs.Grammar.{arrival_of, completion_of, line_of};
ghost use Rattle.iscsi_recording.specs.Fronts.{TookFirst};
ghost use Rattle.iscsi_recording.specs.Recorded.{view, take, read_line, Steps};
ghost use Rattle.iscsi_recording.specs.declared.fault.ReplayFault.TheVariants.{BadLine};

use crate::conns::Conns;
use crate::events::Events;
use crate::fault::ReplayFault;
use crate::line::Line;
use crate::parse::{
    arrival, begins_arrival, completion, first_completion, longer_arrival, parse_line,
    short_arrival,
};
use iscsi_rules::Event;
use std::alloc::Global;

/// The most lines of a recording.
pub const MAX_LINES: u32 = 1_048_576;

/// The most bytes of a line, its end not counted.
pub const MAX_LINE: usize = 256;

const MAX_CONNS: usize = 64;

/// The least CID of two digits.
const TWO_DIGITS: u16 = 10;

/// What was recorded.
#[derive(Debug, Drop)]
pub struct Recording {
    pub conns: Conns,
    pub events: Events,
}

impl Recording {
    /// The recording of no line, without memory.
    pub fn new(alloc: Global) -> Recording
        ensures conns { result.conns ≡ [] }
        ensures events { result.events ≡ [] }
    {
        Recording {
            conns: Conns::new(alloc),
            events: Events::new(alloc),
        }
    }

    fn take_conn(&mut self, number: u32, cid: u16, stat_sn: u32) -> Result<(), ReplayFault>
        ensures step { Steps result (view self.new)
            (ok_or (take (view self.old) (Line.Conn cid stat_sn)) (BadLine number)) }
        ensures err { OnErr result (view self.new ≡ view self.old) }
    {
        if !self.events.is_empty() || self.conns.knows(cid) || self.conns.len() >= MAX_CONNS {
            return Err(ReplayFault::BadLine(number));
        }
        match self.conns.push(cid, stat_sn) {
            Ok(()) => Ok(()),
            Err(_) => Err(ReplayFault::NoMemory),
        }
    }

    #[inline(always)]
    fn take_event(&mut self, number: u32, event: Event) -> Result<(), ReplayFault>
        ensures step { Steps result (view self.new) (ok_or (take (view self.old) (Line.Event event)) (BadLine number)) }
        ensures err { OnErr result (view self.new ≡ view self.old) }
    {
        if let Event::Arrive { conn, .. } = event {
            if !self.conns.knows(conn) {
                return Err(ReplayFault::BadLine(number));
            }
        }
        match self.events.push(&event) {
            Ok(()) => Ok(()),
            Err(_) => Err(ReplayFault::NoMemory),
        }
    }

    /// Takes what line `number` says. On `Err` the recording stays as it was.
    pub fn take(&mut self, number: u32, line: Line) -> Result<(), ReplayFault>
        ensures step { Steps result (view self.new) (ok_or (take (view self.old) line) (BadLine number)) }
        ensures err { OnErr result (view self.new ≡ view self.old) }
    {
        match line {
            Line::Passed => Ok(()),
            Line::Conn { cid, stat_sn } => self.take_conn(number, cid, stat_sn),
            Line::Event(event) => self.take_event(number, event),
        }
    }

    /// Takes the event that line `number` says, if it says one.
    #[inline(always)]
    fn take_said(&mut self, number: u32, event: Option<Event>) -> Result<(), ReplayFault>
        ensures step { Steps result (view self.new)
            (ok_or (option_and_then (take (view self.old)) (option_map Line.Event event)) (BadLine number)) }
        ensures err { OnErr result (view self.new ≡ view self.old) }
    {
        match event {
            Some(event) => self.take_event(number, event),
            None => Err(ReplayFault::BadLine(number)),
        }
    }

    /// Takes an arrival, if its connection is known and memory isn't wanting, and tells whether it did. Otherwise the
    /// recording stays as it was. One whose CID has several digits asks for no memory here, so that a refusal is its
    /// fault at once.
    #[inline(always)]
    pub fn take_common(&mut self, conn: u16, header: &[u8; 48]) -> bool
        ensures taken { result ≡ true → take (view self.old) (Line.Event (Event.Arrive conn header.now))
            ≡ Some (view self.new) }
        ensures not { result ≡ false → self.new ≡ self.old }
    {
        if !self.conns.knows(conn) {
            return false;
        }
        if self.events.push_arrival_in_place(conn, header) {
            return true;
        }
        conn < TWO_DIGITS && self.events.push_arrival(conn, header).is_ok()
    }

    /// Takes the arrival that the first line of these bytes says: as `take_first`.
    #[inline(always)]
    fn take_first_arrival(&mut self, bytes: &[u8]) -> usize
        ensures taken { 0 < result → TookFirst (view self.old) (view self.new) bytes.now result }
        ensures not { result ≡ 0 → self.new ≡ self.old }
    {
        // The commonest is taken where it is found, so that no more is asked of it.
        if let Some(found) = short_arrival(bytes) {
            if !self.take_common(found.0, &found.1) {
                return 0;
            }
            return found.2 + 1;
        }
        let Some(found) = longer_arrival(bytes) else {
            return 0;
        };
        if !self.take_common(found.0, &found.1) {
            return 0;
        }
        found.2 + 1
    }

    /// Takes the completion that the first line of these bytes says: as `take_first`. It asks for no memory here, so that a
    /// refusal is its fault at once.
    #[inline(always)]
    fn take_first_completion(&mut self, bytes: &[u8]) -> usize
        ensures taken { 0 < result → TookFirst (view self.old) (view self.new) bytes.now result }
        ensures not { result ≡ 0 → self.new ≡ self.old }
    {
        let Some(found) = first_completion(bytes) else {
            return 0;
        };
        if !self.events.push_completion_in_place(found.0, found.1) {
            return 0;
        }
        found.2 + 1
    }

    /// Takes the event that the first line of these bytes says, where the line is there with its end and in a common
    /// form, its connection is known and memory isn't wanting, and tells how many bytes the line has with its end.
    /// Otherwise it answers 0, and the recording stays as it was.
    #[inline(always)]
    pub(crate) fn take_first(&mut self, bytes: &[u8]) -> usize
        ensures taken { 0 < result → TookFirst (view self.old) (view self.new) bytes.now result }
        ensures not { result ≡ 0 → self.new ≡ self.old }
    {
        // Where there are as many bytes as an arrival has, no other test of their count is needed.
        if begins_arrival(bytes) {
            return self.take_first_arrival(bytes);
        }
        self.take_first_completion(bytes)
    }

    /// Takes the arrival that these bytes of line `number` say.
    #[inline(never)]
    fn take_arrival(&mut self, number: u32, bytes: &[u8]) -> Result<(), ReplayFault>
        ensures step { Steps result (view self.new)
            (ok_or (option_and_then (take (view self.old)) (option_map Line.Event (arrival_of bytes.now)))
            (BadLine number)) }
        ensures err { OnErr result (view self.new ≡ view self.old) }
    {
        self.take_said(number, arrival(bytes))
    }

    /// Takes the completion that these bytes of line `number` say.
    #[inline(never)]
    fn take_completion(&mut self, number: u32, bytes: &[u8]) -> Result<(), ReplayFault>
        ensures step { Steps result (view self.new)
            (ok_or (option_and_then (take (view self.old)) (option_map Line.Event (completion_of bytes.now)))
            (BadLine number)) }
        ensures err { OnErr result (view self.new ≡ view self.old) }
    {
        self.take_said(number, completion(bytes))
    }

    /// Takes a line of any kind.
    #[inline(never)]
    fn take_any(&mut self, number: u32, bytes: &[u8]) -> Result<(), ReplayFault>
        ensures step { Steps result (view self.new)
            (ok_or (option_and_then (take (view self.old)) (line_of bytes.now)) (BadLine number)) }
        ensures err { OnErr result (view self.new ≡ view self.old) }
    {
        match parse_line(bytes) {
            Some(line) => self.take(number, line),
            None => Err(ReplayFault::BadLine(number)),
        }
    }

    /// Takes line `number`, which has these bytes. On `Err` the recording stays as it was.
    ///
    /// Most lines are events, which go from their digits into the recording at once.
    #[tactic(auto, unfolding(crate::specs::Recorded::read_line))]
    pub fn take_line(&mut self, number: u32, bytes: &[u8]) -> Result<(), ReplayFault>
        ensures step { Steps result (view self.new) (read_line number (view self.old) bytes.now) }
        ensures err { OnErr result (view self.new ≡ view self.old) }
    {
        if number > MAX_LINES {
            return Err(ReplayFault::TooManyLines);
        }
        if bytes.len() > MAX_LINE {
            return Err(ReplayFault::LineTooLong(number));
        }
        match bytes {
            [b'C', b' ', rest @ ..] => self.take_arrival(number, rest),
            [b'D', b' ', rest @ ..] => self.take_completion(number, rest),
            _ => self.take_any(number, bytes),
        }
    }
}
