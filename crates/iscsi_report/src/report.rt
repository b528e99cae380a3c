//! A report that is written as the effects of an event come.

ghost use Rattle.std.specs.Prelude.{◌≡◌, ℕ, ◌+◌, ◌-◌, ◌*◌, ◌^◌, ◌≤◌, [], ◌++◌, ◌∷◌, length, take, List, true, false, All, OnOk, OnErr, IfOk, IsOk, vec_len};
ghost use Rattle.std.specs.List.{flat_map};
ghost use Rattle.iscsi_rules.specs.declared.effect.Effect.{Effect as SpecEffect};
ghost use Rattle.iscsi_rules.specs.declared.effect.Numbers.{Numbers as SpecNumbers};
ghost use Rattle.iscsi_rules.specs.declared.event.Event.{Event as SpecEvent};
ghost use Rattle.iscsi_report.specs.Lines.{event_line, effect_line, entry_lines};
ghost use Rattle.iscsi_report.specs.Filled.{filled, HasLines, IsAtRest, at_rest, numbers_digits, numbers_from_end, overwritten};

use crate::effect_line::{
    write_closing, write_deliver, write_enable_near, write_enter, write_ignore, write_immediate,
    write_leave_near, write_place, write_request,
};
use crate::event_line::{write_arrival, write_completion};
use crate::line::put_text;
use crate::memory::{Memory, has_room, has_room_left, has_room_to_begin};
use crate::send_line::write_made_send;
use crate::tens::Tens;
use crate::vector::digits_of_four;
use iscsi_rules::{Event, Numbers, Why};
use iscsi_sinks::EffectSink;
use iscsi_tasks::Attr;
use iscsi_wire::{Reply, Request};
use std::alloc::{AllocError, Global};
use std::marker::Model;

/// How many digits the numbers of a reply have.
const NUMBERS: usize = 16;

/// How far before the end of its line the numbers of a reply begin that is a header alone.
const FROM_END: usize = 41;

/// How many bytes the sense of a SCSI Response takes with its length.
const SENSE: usize = 20;

/// What stands for the numbers of an event before its end.
const NOT_YET: Numbers = Numbers { exp: 0, max: 0 };

/// The lines of events and of their effects, one after another, as they come. The numbers of an event's replies are
/// filled in at its end.
pub struct Report {
    memory: Memory,
    len: usize,
    /// Where numbers are to be filled in.
    places: Vec<usize>,
    /// The digits of the tickets that entered last, and of those that were completed last.
    entered: Tens,
    completed: Tens,
}

impl Drop for Report {
    fn drop(self) {
        let Report {
            memory: _memory,
            len: _len,
            places: _places,
            entered: _entered,
            completed: _completed,
        } = self;
    }
}

impl Model for Report {
    ghost use Rattle.std.specs.Prelude.{◌+◌, ◌-◌, ◌≤◌, All, take, vec_len};
    ghost use Rattle.iscsi_report.specs.Filled.{Written};

    ghost Value = { Written };

    ghost view = { λ r. record {
      bytes = take r.len r.memory.text.items;
      places = r.places.items;
      is_whole = r.memory.is_whole;
    } };

    ghost invariant = { λ r. (r.len ≤ vec_len r.memory.text) × (All (λ p. p + 16 ≤ r.len) r.places.items
        × (r.memory.room ≤ vec_len r.memory.text - 255)) };
}

impl Report {
    /// No line, without memory.
    pub fn new(alloc: Global) -> Report
        ensures { result ≡ at_rest [] }
    {
        Report {
            memory: Memory {
                text: Vec::new(alloc),
                room: 0,
                is_whole: true,
            },
            len: 0,
            places: Vec::new(alloc),
            entered: Tens::new(),
            completed: Tens::new(),
        }
    }

    /// Puts the line of an event behind the others.
    #[inline(always)]
    pub fn begin(&mut self, event: &Event)
        requires { IsAtRest self.old }
        ensures { HasLines self.new (self.old.bytes ++ event_line event.now) [] }
    {
        match event {
            Event::Arrive { conn, header } => self.begin_arrival(*conn, header),
            Event::Done { ticket, status } => self.begin_completion(*ticket, *status),
        }
    }

    /// Puts the line of an arrival behind the others.
    #[inline(always)]
    pub fn begin_arrival(&mut self, conn: u16, header: &[u8; 48])
        requires { IsAtRest self.old }
        ensures { HasLines self.new (self.old.bytes ++ event_line (SpecEvent.Arrive conn header.now)) [] }
    {
        if has_room_to_begin(&mut self.places, &mut self.memory, self.len) {
            self.len = write_arrival(conn, header, &mut self.memory.text, self.len);
        }
    }

    /// Puts the line of a completion behind the others.
    #[inline(always)]
    pub fn begin_completion(&mut self, ticket: u64, status: u8)
        requires { IsAtRest self.old }
        ensures { HasLines self.new (self.old.bytes ++ event_line (SpecEvent.Done ticket status)) [] }
    {
        if !has_room_to_begin(&mut self.places, &mut self.memory, self.len) {
            return;
        }
        // The digits of its ticket are kept wherever it is, since it leaves next.
        self.completed.take_any();
        self.len = write_completion(
            ticket,
            status,
            &mut self.completed,
            &mut self.memory.text,
            self.len,
        )
        .1;
    }

    /// Fills in the numbers of the event. On `Err` memory was wanting, now or before.
    pub fn end(&mut self, numbers: Numbers) -> Result<(), AllocError>
        ensures text { (text : List ℕ) (es : List SpecEffect) → HasLines self.old text es →
            OnOk result (self.new ≡ at_rest (text ++ flat_map (λ effect. effect_line effect numbers) es)) }
        ensures ok { IsOk result → self.old.is_whole ≡ true }
        ensures whole { self.old.is_whole ≡ true → IsOk result }
    {
        if !self.memory.is_whole {
            return Err(AllocError);
        }
        // Most events that are passed over have no reply.
        if !self.places.is_empty() {
            fill(numbers, &self.places, &mut self.memory.text);
            self.places.clear();
        }
        Ok(())
    }

    /// How many bytes there are.
    pub fn len(&self) -> usize
        ensures { result ≡ length self.now.bytes }
    {
        self.as_slice().len()
    }

    /// The bytes.
    pub fn as_slice(&self) -> &[u8]
        ensures { result.now ≡ self.now.bytes }
    {
        &self.memory.text[..self.len]
    }

    /// Drops all lines. The memory stays.
    pub fn clear(&mut self)
        ensures { self.new ≡ record { bytes = []; places = []; is_whole = self.old.is_whole } }
    {
        self.len = 0;
        self.places.clear();
    }
}

impl Report {
    /// The event is passed over, where there isn't room for its line yet.
    #[inline(never)]
    fn put_ignore_grown(&mut self, why: Why)
        ensures { (text : List ℕ) (es : List SpecEffect) → HasLines self.old text es →
            HasLines self.new text (es ++ SpecEffect.Ignore why ∷ []) }
    {
        if has_room(&mut self.memory, self.len) {
            self.len = write_ignore(why, &mut self.memory.text, self.len);
        }
    }
}

impl EffectSink for Report {
    ghost has = { λ r text es. HasLines r text es };

    ghost len = { λ r. 0 };

    ghost capacity = { λ r. 2 ^ 63 };

    #[inline(always)]
    fn put_deliver(&mut self, request: &Request) {
        if has_room(&mut self.memory, self.len) {
            self.len = write_deliver(request, &mut self.memory.text, self.len);
        }
    }

    #[inline(always)]
    fn put_immediate(&mut self, request: &Request) {
        if has_room(&mut self.memory, self.len) {
            self.len = write_immediate(request, &mut self.memory.text, self.len);
        }
    }

    fn put_wait(&mut self, request: &Request) {
        if has_room(&mut self.memory, self.len) {
            self.len = write_request(b"  wait ", request, &mut self.memory.text, self.len);
        }
    }

    fn put_void(&mut self, sn: u32) {
        if has_room(&mut self.memory, self.len) {
            self.len = write_place(b"  void ", sn, &mut self.memory.text, self.len);
        }
    }

    fn put_empty(&mut self, sn: u32) {
        if has_room(&mut self.memory, self.len) {
            self.len = write_place(b"  empty ", sn, &mut self.memory.text, self.len);
        }
    }

    #[inline(always)]
    fn put_enter(&mut self, ticket: u64, unit: u16, attr: Attr) {
        if has_room(&mut self.memory, self.len) {
            self.len = write_enter(
                ticket,
                unit,
                attr,
                &mut self.entered,
                &mut self.memory.text,
                self.len,
            )
            .1;
        }
    }

    #[inline(always)]
    fn put_enable(&mut self, ticket: u64, _unit: u16) {
        if has_room(&mut self.memory, self.len) {
            self.len = write_enable_near(
                ticket,
                &mut self.entered,
                &mut self.memory.text,
                self.len,
            );
        }
    }

    #[inline(always)]
    fn put_leave(&mut self, ticket: u64, _unit: u16) {
        if has_room(&mut self.memory, self.len) {
            self.len = write_leave_near(
                ticket,
                &mut self.completed,
                &mut self.memory.text,
                self.len,
            );
        }
    }

    #[inline(always)]
    fn put_send(&mut self, conn: u16, stat_sn: u32, reply: &Reply) {
        if has_room(&mut self.memory, self.len) {
            let end = write_reply(
                conn,
                stat_sn,
                reply,
                &mut self.memory.text,
                self.len,
                &mut self.places,
            );
            match end {
                Ok(end) => self.len = end,
                Err(_) => self.memory.is_whole = false,
            }
        }
    }

    fn put_close_conn(&mut self, conn: u16) {
        if has_room(&mut self.memory, self.len) {
            self.len = write_closing(conn, &mut self.memory.text, self.len);
        }
    }

    fn put_close_session(&mut self) {
        if has_room(&mut self.memory, self.len) {
            self.len = put_text(b"  close-session\n", &mut self.memory.text, self.len);
        }
    }

    // Where memory has to grow is a call of its own, so that who passes an event over needs no frame.
    #[inline(always)]
    fn put_ignore(&mut self, why: Why) {
        if has_room_left(&self.memory, self.len) {
            self.len = write_ignore(why, &mut self.memory.text, self.len);
        } else {
            self.put_ignore_grown(why);
        }
    }
}

/// Writes the line of a reply, and notes where its numbers are to be filled in. On `Err` memory was wanting for that.
#[inline(always)]
fn write_reply(
    conn: u16,
    stat_sn: u32,
    reply: &Reply,
    line: &mut [u8],
    at: usize,
    places: &mut Vec<usize>,
) -> Result<usize, AllocError>
    requires room { at + 256 ≤ length line.old }
    requires places { All (λ p. p + 16 ≤ at) places.old.items }
    ensures end { IfOk result (λ end. (at ≤ end) × (end ≤ at + 256)) }
    ensures places { IfOk result (λ end. All (λ p. p + 16 ≤ end) places.new.items) }
    ensures lines { IfOk result (λ end. (n : SpecNumbers) (text : List ℕ) (es : List SpecEffect) →
        filled n places.old.items (take at line.old) ≡ text ++ flat_map (λ effect. effect_line effect n) es →
        filled n places.new.items (take end line.new)
        ≡ text ++ flat_map (λ effect. effect_line effect n) (es ++ SpecEffect.Send conn stat_sn reply.now ∷ [])) }
    ensures err { OnErr result (places.new.items ≡ places.old.items) }
{
    let end = write_made_send(conn, stat_sn, reply, NOT_YET, line, at);
    match places.push(end - from_end(reply)) {
        Ok(()) => Ok(end),
        Err(_) => Err(AllocError),
    }
}

/// How far before the end of a reply's line its numbers begin.
#[inline(always)]
fn from_end(reply: &Reply) -> usize
    ensures { result ≡ numbers_from_end reply.now }
{
    match reply {
        Reply::Scsi { sense: Some(_), .. } => FROM_END + 2 * SENSE,
        Reply::Reject { header, .. } => {
            let tail: &[u8] = header;
            FROM_END + 2 * tail.len()
        }
        _ => FROM_END,
    }
}

/// Writes numbers over those that stand at these places.
#[inline(always)]
fn fill(numbers: Numbers, places: &[usize], bytes: &mut [u8])
    requires { All (λ p. p + 16 ≤ length bytes.old) places.now }
    ensures long { length bytes.new ≡ length bytes.old }
    ensures filled { bytes.new ≡ filled numbers places.now bytes.old }
{
    match places {
        [] => {}
        // An event mostly has one reply, if any.
        [place] => fill_at(numbers, *place, bytes),
        _ => fill_all(numbers, places, bytes),
    }
}

/// Writes numbers over those that stand at this place.
#[inline(always)]
fn fill_at(numbers: Numbers, place: usize, bytes: &mut [u8])
    requires { place + 16 ≤ length bytes.old }
    ensures long { length bytes.new ≡ length bytes.old }
    ensures filled { bytes.new ≡ overwritten bytes.old place (numbers_digits numbers) }
{
    let (_, digits) = digits_of_four(0, 0, numbers.exp, numbers.max);
    bytes[place..place + NUMBERS].copy_from_slice(&digits.to_array());
}

/// Writes numbers over those that stand at many places.
#[inline(never)]
fn fill_all(numbers: Numbers, places: &[usize], bytes: &mut [u8])
    requires { All (λ p. p + 16 ≤ length bytes.old) places.now }
    ensures long { length bytes.new ≡ length bytes.old }
    ensures filled { bytes.new ≡ filled numbers places.now bytes.old }
{
    for place in places {
        fill_at(numbers, *place, bytes);
    }
}
