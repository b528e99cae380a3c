//! The live commands beside a plain list, in which each is found by a search: both answer the same after each of many
//! calls. And with each live command the slot is found that it entered with.

ghost use Rattle.std.specs.Prelude.{◌≡◌, ◌==◌, ◌≤◌, nat_lt, vec_capacity};
ghost use Rattle.std.specs.List.{list_all, list_any};

use iscsi_commands::{Live, LiveCommands, Placed};
use std::alloc::{AllocError, Global};
use std::test::Fail;

/// The same commands, kept in two ways.
#[derive(Drop)]
struct Both {
    live: LiveCommands,
    plain: Vec<Live>,
    room: usize,
    ghost same: { live.items ≡ plain.items },
    ghost live_room: { live.room ≡ room },
    ghost plain_room: { room ≤ vec_capacity plain },
}

impl Both {
    fn with_room(alloc: Global, room: usize) -> Result<Both, AllocError>
        requires { room ≤ 2016 }
    {
        Ok(Both {
            live: LiveCommands::with_room(alloc, room)?,
            plain: Vec::with_capacity(alloc, room)?,
            room,
        })
    }

    /// The command enters, and the result is true, if it may.
    fn push(&mut self, command: Live) -> bool {
        let may_enter = self.plain.len() < self.room
            && is_newest(&self.plain, command.ticket)
            && !is_used(&self.plain, command.itt);
        if may_enter {
            self.live.push(command, slot_of(&command));
            self.plain.push_reserved(command);
        }
        may_enter
    }

    fn remove(&mut self, ticket: u64) {
        self.live.remove(ticket);
        self.plain.retain(|command| command.ticket != ticket);
    }

    /// Both find the same by a ticket, and by a tag.
    fn agree_on(&self, ticket: u64, itt: u32) -> bool {
        let by_ticket = with_ticket(&self.plain, ticket);
        is_same(self.live.find(ticket), by_ticket)
            && is_placed_as(self.live.find_placed(ticket), by_ticket)
            && is_same(self.live.find_tagged(itt), with_tag(&self.plain, itt))
    }

    /// Both have as many commands, and each is found by its ticket and by its tag.
    fn agree_on_all(&self) -> bool {
        let mut agree = self.live.len() == self.plain.len();
        for command in &self.plain {
            agree &= is_same(self.live.find(command.ticket), Some(*command));
            agree &= is_placed_as(self.live.find_placed(command.ticket), Some(*command));
            agree &= is_same(self.live.find_tagged(command.itt), Some(*command));
        }
        agree
    }
}

/// The command with this ticket.
fn with_ticket(plain: &[Live], ticket: u64) -> Option<Live> {
    plain
        .iter()
        .find(|command| command.ticket == ticket)
        .copied()
}

/// The command with this tag.
fn with_tag(plain: &[Live], itt: u32) -> Option<Live> {
    plain.iter().find(|command| command.itt == itt).copied()
}

/// Whether a ticket is greater than all others.
fn is_newest(plain: &[Live], ticket: u64) -> bool
    ensures { result ≡ list_all (λ l. nat_lt l.ticket ticket) plain.now }
{
    plain.iter().all(|command| command.ticket < ticket)
}

/// Whether a command has this tag.
fn is_used(plain: &[Live], itt: u32) -> bool
    ensures { result ≡ list_any (λ l. l.itt == itt) plain.now }
{
    plain.iter().any(|command| command.itt == itt)
}

/// The slot with which a command enters: any, and mostly another one than those of the others.
fn slot_of(command: &Live) -> u16 {
    (command.ticket % 65536) as u16 ^ command.conn
}

/// Whether a command is found, or none, and with it the slot that it entered with.
fn is_placed_as(placed: Option<Placed>, command: Option<Live>) -> bool {
    match placed {
        Some(placed) => {
            placed.slot == slot_of(&placed.command) && is_same(Some(placed.command), command)
        }
        None => command.is_none(),
    }
}

fn is_same(one: Option<Live>, other: Option<Live>) -> bool {
    match (one, other) {
        (Some(one), Some(other)) => {
            one.ticket == other.ticket
                && one.itt == other.itt
                && (one.unit, one.conn) == (other.unit, other.conn)
                && one.immediate == other.immediate
        }
        (None, None) => true,
        _ => false,
    }
}

/// The tag that the number which scatters groups takes to 1: its multiples below 2^20 are in the group of the tag 0.
const OF_THE_GROUP: u32 = 0x144c_bc89;

/// How an initiator gives tags out.
#[derive(Clone, Copy, Debug)]
enum Tags {
    InOrder,
    Scattered,
    /// All in the group of the tag 0.
    OneGroup,
    /// All in the group of the tag 0 too, and each above the one before, 4,600 times.
    OneGroupUp,
    /// The same, and each below the one before.
    OneGroupDown,
}

impl Tags {
    /// The tag of the command that is the nth to enter.
    fn of(self, number: u32) -> u32 {
        match self {
            Tags::InOrder => number,
            Tags::Scattered => number.wrapping_mul(0x9e37_79b1),
            Tags::OneGroup => number.wrapping_mul(OF_THE_GROUP),
            Tags::OneGroupUp => (number % 4_600)
                .wrapping_mul(227)
                .wrapping_mul(OF_THE_GROUP),
            Tags::OneGroupDown => (4_600 - number % 4_600)
                .wrapping_mul(227)
                .wrapping_mul(OF_THE_GROUP),
        }
    }
}

/// Calls at random, by a seed.
#[derive(Drop)]
struct Calls {
    both: Both,
    tags: Tags,
    /// Whether tickets of commands that left come again.
    comes_again: bool,
    /// How many commands entered.
    entered: u32,
    /// The ticket of the last one that entered.
    ticket: u64,
    seed: u64,
}

impl Calls {
    fn new(alloc: Global, room: usize, tags: Tags, comes_again: bool) -> Result<Calls, AllocError>
        requires { room ≤ 2016 }
    {
        Ok(Calls {
            both: Both::with_room(alloc, room)?,
            tags,
            comes_again,
            entered: 0,
            ticket: 0,
            seed: room as u64,
        })
    }

    /// The next number, by the method SplitMix64.
    fn number(&mut self) -> u64 {
        self.seed = self.seed.wrapping_add(0x9e37_79b9_7f4a_7c15);
        let mixed = (self.seed ^ (self.seed >> 30)).wrapping_mul(0xbf58_476d_1ce4_e5b9);
        let mixed = (mixed ^ (mixed >> 27)).wrapping_mul(0x94d0_49bb_1331_11eb);
        mixed ^ (mixed >> 31)
    }

    /// The ticket of the newest command, or 0.
    fn newest(&self) -> u64 {
        match self.both.plain.last() {
            Some(newest) => newest.ticket,
            None => 0,
        }
    }

    /// A command enters, if there is room. The next ticket is near, or so far that the place for its group is the same.
    fn enter(&mut self, number: u64) -> bool {
        if self.both.plain.len() >= self.both.room {
            return true;
        }
        let before = if self.comes_again {
            self.newest()
        } else {
            self.ticket
        };
        let far = if number % 4 == 0 { 4096 } else { number % 4 };
        self.ticket = before.wrapping_add(far);
        self.entered = self.entered.wrapping_add(1);
        let command = Live {
            ticket: self.ticket,
            unit: (number % 256) as u16,
            conn: (number / 256 % 65536) as u16,
            itt: self.tags.of(self.entered),
            immediate: number / 4 % 2 == 0,
        };
        self.both.push(command) && self.both.agree_on(command.ticket, command.itt)
    }

    /// The ticket of the oldest command, of the newest one, of any, one below all, or one that mostly isn't there.
    fn any_ticket(&self, number: u64) -> u64 {
        let len = self.both.plain.len();
        if len == 0 || number % 4 == 3 {
            return self.ticket.wrapping_sub(number / 4 % 8192);
        }
        let k = match number % 4 {
            0 => 0,
            1 => len - 1,
            _ => (number / 4 % len as u64) as usize,
        };
        let ticket = self.both.plain[k].ticket;
        if number % 32 == 0 {
            ticket.wrapping_sub(1 + number / 32 % 4096)
        } else {
            ticket
        }
    }

    /// A command enters or leaves, and both are compared.
    fn step(&mut self, grows: bool) -> bool {
        let number = self.number();
        let share = if grows { 6 } else { 2 };
        let mut agree = true;
        if number % 8 < share {
            agree &= self.enter(number / 8);
        } else {
            let ticket = self.any_ticket(number / 8);
            self.both.remove(ticket);
            agree &= self.both.live.find(ticket).is_none();
        }
        let other = self.number();
        let before = self.entered.wrapping_sub((other % 512) as u32);
        let (ticket, tag) = (self.any_ticket(other), self.tags.of(before));
        agree &= self.both.agree_on(ticket, tag);
        agree && self.both.live.len() == self.both.plain.len()
    }
}

/// Half of the time more commands enter than leave. Now and then each of them is looked for.
fn agree_at_each_step(calls: &mut Calls, steps: u32) -> bool {
    let mut agree = true;
    for k in 0..steps {
        agree &= calls.step(k % 4096 < 2048);
        if k % 128 == 0 {
            agree &= calls.both.agree_on_all();
        }
    }
    agree
}

#[test]
fn live_commands_are_found_as_plain_ones_are(rt: HostRuntime) -> Result<(), Fail> {
    for tags in [
        Tags::InOrder,
        Tags::Scattered,
        Tags::OneGroup,
        Tags::OneGroupUp,
        Tags::OneGroupDown,
    ] {
        for room in [1, 2, 9, 70, 300] {
            for comes_again in [false, true] {
                let mut calls = Calls::new(rt.alloc(), room, tags, comes_again)?;
                let agree = agree_at_each_step(&mut calls, 20_000);
                assert!(rt; agree, "with room for {room}, {tags:?}, {comes_again}");
            }
        }
    }
    Ok(())
}

/// A command of this ticket, which is its tag too, for a ticket below 65,536.
fn command(ticket: u64) -> Live {
    Live {
        ticket,
        unit: 0,
        conn: 1,
        itt: (ticket % 65536) as u32,
        immediate: false,
    }
}

#[test]
fn a_ticket_below_one_that_left_enters(rt: HostRuntime) -> Result<(), Fail> {
    let mut both = Both::with_room(rt.alloc(), 4)?;
    let mut agree = both.push(command(1)) && both.push(command(9));
    both.remove(9);
    for ticket in [5, 7, 9] {
        agree &= both.push(command(ticket)) && both.agree_on_all();
        agree &= is_same(both.live.find(ticket), Some(command(ticket)));
    }
    agree &= !both.push(command(11)) && both.live.find(2).is_none();
    assert!(rt; agree);
    assert_eq!(rt; both.live.len(), 4);
    Ok(())
}

/// So many commands are live. One with a greater ticket enters and leaves, and so on with tickets that go down.
fn agree_going_down(both: &mut Both, live: u64) -> bool {
    let mut agree = true;
    for ticket in 1..=live {
        agree &= both.push(command(ticket));
    }
    for passed in 0..1_000 {
        let ticket = 2_000 - passed;
        agree &= both.push(command(ticket)) && both.agree_on(ticket, ticket as u32);
        both.remove(ticket);
        agree &= both.agree_on(ticket, ticket as u32) && both.agree_on(ticket + 1, 1);
        both.remove(0);
        both.remove(u64::MAX);
    }
    agree && both.agree_on(0, 0) && both.agree_on_all()
}

#[test]
fn tickets_go_down_with_a_removal_between(rt: HostRuntime) -> Result<(), Fail> {
    for live in [0, 1, 40, 100] {
        let mut both = Both::with_room(rt.alloc(), 101)?;
        assert!(rt; agree_going_down(&mut both, live), "{live} live");
        assert_eq!(rt; both.live.len() as u64, live);
    }
    Ok(())
}

#[test]
fn none_is_found_once_all_left(rt: HostRuntime) -> Result<(), Fail> {
    let mut both = Both::with_room(rt.alloc(), 100)?;
    let mut agree = true;
    for ticket in 1..=100 {
        agree &= both.push(command(ticket));
    }
    for ticket in 1..=100 {
        both.remove(ticket);
        agree &= both.live.find(ticket).is_none() && both.live.find_tagged(ticket as u32).is_none();
    }
    agree &= both.live.find(0).is_none() && both.live.find(101).is_none();
    both.remove(50);
    agree &= both.push(command(7)) && both.agree_on_all() && both.agree_on(50, 50);
    assert!(rt; agree);
    assert_eq!(rt; both.live.len(), 1);
    Ok(())
}
