//! A desk is opened.

ghost use Rattle.std.specs.Prelude.{◌≡◌, ◌≤◌, IfOk, true, false, replicate};
ghost use Rattle.iscsi_outbox_steps.specs.State.{opened as outbox_opened};
ghost use Rattle.iscsi_outbox.specs.promises.Options.{limits_of};
ghost use Rattle.iscsi_ffi_desk.specs.Options.{is_valid as valid_options, opened};
ghost use Rattle.iscsi_ffi_desk.specs.Rooms.{AreBuffers, AreFew, AreRooms, AreTables};

use crate::awake::Awake;
use crate::desk::Desk;
use iscsi_ffi_commands::Commands;
use iscsi_ffi_rules::Action;
use iscsi_outbox::{Outbox, OutboxOptions};
use iscsi_requests::{Cookies, HeldNumbers, Unwritten, WaitingFunctions, WaitingReplies};
use std::alloc::{AllocError, Global};

/// What a desk is opened with.
#[derive(Debug, Drop)]
pub struct DeskOptions {
    /// What its outbox is opened with.
    pub outbox: OutboxOptions,
    /// The most PDUs of a connection that are handed out and aren't written: 1 to 1024.
    pub unwritten: u32,
}

impl DeskOptions {
    /// Whether every option is within its limits, and no CID stands twice.
    pub fn is_valid(&self) -> bool
        ensures { result ≡ valid_options self.now }
    {
        self.outbox.is_valid() && 1 <= self.unwritten && self.unwritten <= 1024
    }
}

/// How much there is room for.
#[derive(Clone, Copy)]
struct Rooms {
    conns: usize,
    requests: usize,
    replies: usize,
    own: usize,
    unwritten: usize,
    actions: usize,
}

/// The rooms of a desk.
fn rooms_of(options: &DeskOptions) -> Rooms
    requires { valid_options options.now ≡ true }
    ensures rooms { AreRooms options.now result }
    ensures few { AreFew result }
{
    let cids = options.outbox.conns.as_slice();
    let conns = cids.len();
    let most = options.outbox.window as usize + 12 * conns;
    let own = options.outbox.own as usize * conns;
    let unwritten = options.unwritten as usize * conns;
    let requests = 7 * most + (options.outbox.own as usize + options.unwritten as usize) * conns;
    Rooms {
        conns,
        requests,
        replies: 3 * most,
        own,
        unwritten,
        actions: 3 * requests + 2 * conns,
    }
}

/// What a desk keeps of requests.
#[derive(Drop)]
struct Tables {
    cookies: Cookies,
    held: HeldNumbers,
    functions: WaitingFunctions,
    commands: Commands,
    replies: WaitingReplies,
    noted: Unwritten,
    unwritten: Unwritten,
}

/// Nothing is kept yet.
fn open_tables(alloc: Global, rooms: &Rooms, window: u32, units: u32) -> Result<Tables, AllocError>
    requires window { window ≤ 1024 }
    requires units { units ≤ 256 }
    requires few { AreFew rooms.now }
    ensures { IfOk result (AreTables window units rooms.now) }
{
    let rooms = *rooms;
    Ok(Tables {
        cookies: Cookies::with_room(alloc, rooms.requests)?,
        held: HeldNumbers::with_room(alloc, window)?,
        functions: WaitingFunctions::with_room(alloc, rooms.conns, 4 * rooms.conns)?,
        commands: Commands::with_room(alloc, rooms.requests, units as usize)?,
        replies: WaitingReplies::with_room(alloc, rooms.conns, rooms.replies)?,
        noted: Unwritten::with_room(alloc, rooms.conns, rooms.own)?,
        unwritten: Unwritten::with_room(alloc, rooms.conns, rooms.unwritten)?,
    })
}

/// What a desk keeps of a call, and of connections.
#[derive(Drop)]
struct Buffers {
    withheld: Vec<u64>,
    awake: Awake,
    over: Vec<bool>,
    actions: Vec<Action>,
    forgets: Vec<Action>,
}

/// Nothing was told yet.
fn open_buffers(alloc: Global, conns: usize, room: usize) -> Result<Buffers, AllocError>
    ensures { IfOk result (AreBuffers conns room) }
{
    Ok(Buffers {
        withheld: Vec::with_capacity(alloc, room)?,
        awake: Awake::none(alloc, conns)?,
        over: flags(alloc, conns)?,
        actions: Vec::with_capacity(alloc, room)?,
        forgets: Vec::with_capacity(alloc, room)?,
    })
}

/// A flag for each connection, none set.
fn flags(alloc: Global, conns: usize) -> Result<Vec<bool>, AllocError>
    ensures { IfOk result (λ flags. flags.items ≡ replicate conns false) }
{
    vec![in alloc; false; conns]
}

/// A desk with these options, over this outbox.
pub(super) fn make(alloc: Global, options: &DeskOptions, outbox: Outbox) -> Result<Desk, AllocError>
    requires valid { valid_options options.now ≡ true }
    requires outbox { outbox ≡ outbox_opened (limits_of options.now.outbox) options.now.outbox.first }
    ensures { IfOk result (λ d. d ≡ opened options.now) }
{
    let rooms = rooms_of(options);
    let tables = open_tables(alloc, &rooms, options.outbox.window, options.outbox.units)?;
    let buffers = open_buffers(alloc, rooms.conns, rooms.actions)?;
    Ok(assemble(options, rooms, outbox, tables, buffers))
}

/// A desk of its parts, as they are opened.
fn assemble(
    options: &DeskOptions,
    rooms: Rooms,
    outbox: Outbox,
    tables: Tables,
    buffers: Buffers,
) -> Desk
    requires options { valid_options options.now ≡ true }
    requires rooms { AreRooms options.now rooms }
    requires outbox { outbox ≡ outbox_opened (limits_of options.now.outbox) options.now.outbox.first }
    requires tables { AreTables options.now.outbox.window options.now.outbox.units rooms tables }
    requires buffers { AreBuffers rooms.conns rooms.actions buffers }
    ensures { result ≡ opened options.now }
{
    let Tables {
        cookies,
        held,
        functions,
        commands,
        replies,
        noted,
        unwritten,
    } = tables;
    let Buffers {
        withheld,
        awake,
        over,
        actions,
        forgets,
    } = buffers;
    Desk {
        outbox,
        cookies,
        held,
        functions,
        commands,
        replies,
        noted,
        unwritten,
        withheld,
        awake,
        over,
        room: rooms.actions,
        actions,
        forgets,
    }
}
