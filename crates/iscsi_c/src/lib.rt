//! The exports of the target's side of a session for C and plain Rust. Each calls the function of `iscsi_ffi_handle::Handle` with its name.
//!
//! `bindings/c/cundarrix.h` declares them, and says what their callers owe.
#![tactic(auto)]

ghost use Rattle.std.specs.Prelude.{◌≡◌, ◌≢◌, ◌<◌, ◌≤◌, None, length, take};
ghost use Rattle.iscsi_ffi_rules.specs.rules.Calls.{Arrives, Cleared, Clears, Completes, Hears, Joins, Loses, Puts, Stops, Writes};
ghost use Rattle.iscsi_ffi_rules.specs.rules.Run.{tag_heard, word_at};
ghost use Rattle.iscsi_ffi_handle.specs.Asking.{asked_in, joins_in, numbers_code, numbers_after, takes_in};
ghost use Rattle.iscsi_ffi_handle.specs.Calling.{GivesOut, shown};
ghost use Rattle.iscsi_ffi_handle.specs.Codes.{CalledBy, CallsBy, HandsMoreBy, OpensBy, closing_code};
ghost use Rattle.iscsi_ffi_handle.specs.Inside.{inside};
ghost use Rattle.iscsi_ffi_handle.specs.Outgoing.{own_of};

use iscsi_ffi::PlainOptions;
use iscsi_ffi_handle::{Handle, PlainAction, PlainNumbers, PlainPdu, PlainTold};
use std::alloc::Global;

/// Opens a side of a session.
#[unsafe(no_mangle)]
pub extern "C" fn iscsi_c_open(
    alloc: Global,
    options: &PlainOptions,
    cids: &[u16],
    session: &mut Handle,
) -> u32
    ensures { OpensBy options.now cids.now (inside session.old) (inside session.new) result }
{
    session.open(alloc, options, cids).code()
}

/// Takes the arrival of a request on a connection, with the caller's word for it.
#[unsafe(no_mangle)]
pub extern "C" fn iscsi_c_arrive(
    alloc: Global,
    session: &mut Handle,
    cid: u16,
    header: &[u8],
    cookie: u64,
    actions: &mut [PlainAction],
    told: &mut PlainTold,
) -> u32
    ensures short { length header.now < 48 → (result ≡ 5) × (shown (inside session.new) actions.new told.new ≡ shown (inside session.old) actions.old told.old) }
    ensures call { 48 ≤ length header.now → CallsBy (Arrives cid (take 48 header.now) cookie) (shown (inside session.old) actions.old told.old) (shown (inside session.new) actions.new told.new) result }
{
    session
        .arrive(alloc, cid, header, cookie, actions, told)
        .code()
}

/// Takes the completion of a command by its unit.
#[unsafe(no_mangle)]
pub extern "C" fn iscsi_c_complete(
    alloc: Global,
    session: &mut Handle,
    ticket: u64,
    status: u8,
    actions: &mut [PlainAction],
    told: &mut PlainTold,
) -> u32
    ensures { CallsBy (Completes ticket status) (shown (inside session.old) actions.old told.old) (shown (inside session.new) actions.new told.new) result }
{
    session
        .complete(alloc, ticket, status, actions, told)
        .code()
}

/// Takes the word that a unit stopped a command.
#[unsafe(no_mangle)]
pub extern "C" fn iscsi_c_stopped(
    alloc: Global,
    session: &mut Handle,
    ticket: u64,
    actions: &mut [PlainAction],
    told: &mut PlainTold,
) -> u32
    ensures { CallsBy (Stops ticket) (shown (inside session.old) actions.old told.old) (shown (inside session.new) actions.new told.new) result }
{
    session.stopped(alloc, ticket, actions, told).code()
}

/// Writes the next PDU of a connection.
#[unsafe(no_mangle)]
pub extern "C" fn iscsi_c_next(
    alloc: Global,
    session: &mut Handle,
    cid: u16,
    buffer: &mut [u8],
    pdu: &mut PlainPdu,
    actions: &mut [PlainAction],
    told: &mut PlainTold,
) -> u32
    ensures short { length buffer.old < 96 → (result ≡ 6) × (shown (inside session.new) actions.new told.new ≡ shown (inside session.old) actions.old told.old) }
    ensures call { 96 ≤ length buffer.old → CalledBy (GivesOut cid buffer.old buffer.new pdu.old pdu.new) (shown (inside session.old) actions.old told.old) (shown (inside session.new) actions.new told.new) result }
    ensures nothing { result ≢ 0 → (buffer.new ≡ buffer.old) × (pdu.new ≡ pdu.old) }
{
    session.next(alloc, cid, buffer, pdu, actions, told).code()
}

/// Puts a PDU of the target's own.
#[unsafe(no_mangle)]
pub extern "C" fn iscsi_c_put(
    alloc: Global,
    session: &mut Handle,
    cid: u16,
    ticket: u64,
    header: &[u8],
    cookie: u64,
    actions: &mut [PlainAction],
    told: &mut PlainTold,
) -> u32
    ensures short { length header.now < 48 → (result ≡ 5) × (shown (inside session.new) actions.new told.new ≡ shown (inside session.old) actions.old told.old) }
    ensures call { 48 ≤ length header.now → CallsBy (Puts (own_of cid ticket (take 48 header.now)) cookie) (shown (inside session.old) actions.old told.old) (shown (inside session.new) actions.new told.new) result }
{
    session
        .put(alloc, cid, ticket, header, cookie, actions, told)
        .code()
}

/// Takes the word that the oldest PDU that was handed out on a connection is written.
#[unsafe(no_mangle)]
pub extern "C" fn iscsi_c_written(
    alloc: Global,
    session: &mut Handle,
    cid: u16,
    actions: &mut [PlainAction],
    told: &mut PlainTold,
) -> u32
    ensures { CallsBy (Writes cid) (shown (inside session.old) actions.old told.old) (shown (inside session.new) actions.new told.new) result }
{
    session.written(alloc, cid, actions, told).code()
}

/// Hears a header that isn't given to `iscsi_c_arrive`.
#[unsafe(no_mangle)]
pub extern "C" fn iscsi_c_heard(
    alloc: Global,
    session: &mut Handle,
    cid: u16,
    header: &[u8],
    actions: &mut [PlainAction],
    told: &mut PlainTold,
) -> u32
    ensures short { length header.now < 48 → (result ≡ 5) × (shown (inside session.new) actions.new told.new ≡ shown (inside session.old) actions.old told.old) }
    ensures call { 48 ≤ length header.now → CallsBy (Hears cid (word_at 28 (take 48 header.now)) (tag_heard (take 48 header.now))) (shown (inside session.old) actions.old told.old) (shown (inside session.new) actions.new told.new) result }
{
    session.heard(alloc, cid, header, actions, told).code()
}

/// A connection joins.
#[unsafe(no_mangle)]
pub extern "C" fn iscsi_c_join(
    alloc: Global,
    session: &mut Handle,
    cid: u16,
    stat_sn: u32,
    actions: &mut [PlainAction],
    told: &mut PlainTold,
) -> u32
    ensures { CallsBy (Joins cid stat_sn) (shown (inside session.old) actions.old told.old) (shown (inside session.new) actions.new told.new) result }
{
    session.join(alloc, cid, stat_sn, actions, told).code()
}

/// A connection is lost.
#[unsafe(no_mangle)]
pub extern "C" fn iscsi_c_lose(
    alloc: Global,
    session: &mut Handle,
    cid: u16,
    actions: &mut [PlainAction],
    told: &mut PlainTold,
) -> u32
    ensures { CallsBy (Loses cid) (shown (inside session.old) actions.old told.old) (shown (inside session.new) actions.new told.new) result }
{
    session.lose(alloc, cid, actions, told).code()
}

/// Another session's reset takes out the commands of a unit.
#[unsafe(no_mangle)]
pub extern "C" fn iscsi_c_clear(
    alloc: Global,
    session: &mut Handle,
    unit: u16,
    actions: &mut [PlainAction],
    told: &mut PlainTold,
) -> u32
    ensures { CallsBy (Clears unit) (shown (inside session.old) actions.old told.old) (shown (inside session.new) actions.new told.new) result }
{
    session.clear(alloc, unit, actions, told).code()
}

/// All other sessions' commands of a unit have stopped.
#[unsafe(no_mangle)]
pub extern "C" fn iscsi_c_cleared(
    alloc: Global,
    session: &mut Handle,
    unit: u16,
    actions: &mut [PlainAction],
    told: &mut PlainTold,
) -> u32
    ensures { CallsBy (Cleared unit) (shown (inside session.old) actions.old told.old) (shown (inside session.new) actions.new told.new) result }
{
    session.cleared(alloc, unit, actions, told).code()
}

/// Hands over the next of the actions that wait.
#[unsafe(no_mangle)]
pub extern "C" fn iscsi_c_more(
    alloc: Global,
    session: &mut Handle,
    actions: &mut [PlainAction],
    told: &mut PlainTold,
) -> u32
    ensures { HandsMoreBy (shown (inside session.old) actions.old told.old) (shown (inside session.new) actions.new told.new) result }
{
    session.more(alloc, actions, told).code()
}

/// Writes ExpCmdSN, and the last MaxCmdSN that was shown; nothing where the session isn't open.
#[unsafe(no_mangle)]
pub extern "C" fn iscsi_c_numbers(
    alloc: Global,
    session: &mut Handle,
    numbers: &mut PlainNumbers,
) -> u32
    ensures answer { result ≡ numbers_code (inside session.old) }
    ensures numbers { numbers.new ≡ numbers_after (inside session.old) numbers.old }
    ensures same { inside session.new ≡ inside session.old }
{
    match session.numbers(alloc) {
        Ok(shown) => {
            *numbers = shown;
            0
        }
        Err(answer) => answer.code(),
    }
}

/// Whether one more request may be taken.
#[unsafe(no_mangle)]
pub extern "C" fn iscsi_c_may_take(alloc: Global, session: &mut Handle) -> bool
    ensures answer { result ≡ takes_in (inside session.old) }
    ensures same { inside session.new ≡ inside session.old }
{
    session.may_take(alloc)
}

/// Whether a ping is on its way on a connection.
#[unsafe(no_mangle)]
pub extern "C" fn iscsi_c_is_asked(alloc: Global, session: &mut Handle, cid: u16) -> bool
    ensures answer { result ≡ asked_in cid (inside session.old) }
    ensures same { inside session.new ≡ inside session.old }
{
    session.is_asked(alloc, cid)
}

/// Whether a connection may join.
#[unsafe(no_mangle)]
pub extern "C" fn iscsi_c_may_join(alloc: Global, session: &mut Handle, cid: u16) -> bool
    ensures answer { result ≡ joins_in cid (inside session.old) }
    ensures same { inside session.new ≡ inside session.old }
{
    session.may_join(alloc, cid)
}

/// Closes the side, and frees what it holds.
#[unsafe(no_mangle)]
pub extern "C" fn iscsi_c_close(alloc: Global, session: &mut Handle) -> u32
    ensures closed { inside session.new ≡ None }
    ensures answer { result ≡ closing_code (inside session.old) }
{
    session.close(alloc).code()
}
