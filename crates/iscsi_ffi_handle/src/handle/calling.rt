//! Calls of the side that a handle owns.

ghost use Rattle.std.specs.Prelude.{◌≡◌, ◌<◌, ◌≤◌, length, take};
ghost use Rattle.iscsi_ffi_rules.specs.rules.Calls.{Arrives, Call, Cleared, Clears, Completes, Hears, Joins, Loses, Stops, Writes};
ghost use Rattle.iscsi_ffi_rules.specs.rules.Run.{tag_heard, word_at};
ghost use Rattle.iscsi_ffi_handle.specs.Calling.{Calls, HandsMore, shown};
ghost use Rattle.iscsi_ffi_handle.specs.Inside.{inside};

use crate::handle::Handle;
use crate::plain::{PlainAction, PlainTold};
use crate::telling::hand_over;
use iscsi_ffi::Answer;
use std::alloc::Global;

impl Handle {
    /// A request PDU arrived on a connection, with the caller's word for it: its header is the first 48 bytes.
    ///
    /// `ShortHeader` where there are fewer, then `NotOpen`, `ActionsWait`, `UnknownConnection`, `NotJoined`, `Exhausted`, `Busy`.
    #[inline(always)]
    pub fn arrive(
        &mut self,
        alloc: Global,
        cid: u16,
        header: &[u8],
        cookie: u64,
        actions: &mut [PlainAction],
        told: &mut PlainTold,
    ) -> Answer
        ensures short { length header.now < 48 → (result ≡ Answer.ShortHeader) × (shown (inside self.new) actions.new told.new ≡ shown (inside self.old) actions.old told.old) }
        ensures call { 48 ≤ length header.now → Calls (Arrives cid (take 48 header.now) cookie) (shown (inside self.old) actions.old told.old) (shown (inside self.new) actions.new told.new) result }
    {
        let Some(header) = header.first_chunk::<48>() else {
            return Answer::ShortHeader;
        };
        let mut side = match self.ready(alloc) {
            Ok(side) => side,
            Err(answer) => return answer,
        };
        let answer = side.arrive(cid, header, cookie);
        hand_over(&mut side, actions, told);
        self.put_back(side);
        answer
    }

    /// A unit completed the command with this ticket, with this SCSI status.
    ///
    /// `NotOpen`, `ActionsWait`, then `Stale`: no command with this ticket was told to start, and is left.
    #[inline(always)]
    pub fn complete(
        &mut self,
        alloc: Global,
        ticket: u64,
        status: u8,
        actions: &mut [PlainAction],
        told: &mut PlainTold,
    ) -> Answer
        ensures { Calls (Completes ticket status) (shown (inside self.old) actions.old told.old) (shown (inside self.new) actions.new told.new) result }
    {
        let mut side = match self.ready(alloc) {
            Ok(side) => side,
            Err(answer) => return answer,
        };
        let answer = side.complete(ticket, status);
        hand_over(&mut side, actions, told);
        self.put_back(side);
        answer
    }

    /// The unit doesn't touch the medium any more for the command with this ticket, which was told to stop.
    ///
    /// `NotOpen`, `ActionsWait`, then `Stale`.
    pub fn stopped(
        &mut self,
        alloc: Global,
        ticket: u64,
        actions: &mut [PlainAction],
        told: &mut PlainTold,
    ) -> Answer
        ensures { Calls (Stops ticket) (shown (inside self.old) actions.old told.old) (shown (inside self.new) actions.new told.new) result }
    {
        let mut side = match self.ready(alloc) {
            Ok(side) => side,
            Err(answer) => return answer,
        };
        let answer = side.stopped(ticket);
        hand_over(&mut side, actions, told);
        self.put_back(side);
        answer
    }

    /// Another session's reset or clear takes out the commands of a unit.
    ///
    /// `NotOpen`, `ActionsWait`.
    pub fn clear(
        &mut self,
        alloc: Global,
        unit: u16,
        actions: &mut [PlainAction],
        told: &mut PlainTold,
    ) -> Answer
        ensures { Calls (Clears unit) (shown (inside self.old) actions.old told.old) (shown (inside self.new) actions.new told.new) result }
    {
        let mut side = match self.ready(alloc) {
            Ok(side) => side,
            Err(answer) => return answer,
        };
        let answer = side.clear(unit);
        hand_over(&mut side, actions, told);
        self.put_back(side);
        answer
    }

    /// All other sessions' commands of a unit have stopped, for the oldest reset of it that was told.
    ///
    /// `NotOpen`, `ActionsWait`.
    pub fn cleared(
        &mut self,
        alloc: Global,
        unit: u16,
        actions: &mut [PlainAction],
        told: &mut PlainTold,
    ) -> Answer
        ensures { Calls (Cleared unit) (shown (inside self.old) actions.old told.old) (shown (inside self.new) actions.new told.new) result }
    {
        let mut side = match self.ready(alloc) {
            Ok(side) => side,
            Err(answer) => return answer,
        };
        let answer = side.cleared(unit);
        hand_over(&mut side, actions, told);
        self.put_back(side);
        answer
    }

    /// A header arrived that isn't given to `arrive`: what it says to have arrived is heard.
    ///
    /// `ShortHeader`, `NotOpen`, `ActionsWait`.
    pub fn heard(
        &mut self,
        alloc: Global,
        cid: u16,
        header: &[u8],
        actions: &mut [PlainAction],
        told: &mut PlainTold,
    ) -> Answer
        ensures short { length header.now < 48 → (result ≡ Answer.ShortHeader) × (shown (inside self.new) actions.new told.new ≡ shown (inside self.old) actions.old told.old) }
        ensures call { 48 ≤ length header.now → Calls (Hears cid (word_at 28 (take 48 header.now)) (tag_heard (take 48 header.now))) (shown (inside self.old) actions.old told.old) (shown (inside self.new) actions.new told.new) result }
    {
        let Some(header) = header.first_chunk::<48>() else {
            return Answer::ShortHeader;
        };
        let mut side = match self.ready(alloc) {
            Ok(side) => side,
            Err(answer) => return answer,
        };
        let answer = side.heard(cid, header);
        hand_over(&mut side, actions, told);
        self.put_back(side);
        answer
    }

    /// A connection is in its Full Feature Phase: its next StatSN is this.
    ///
    /// `NotOpen`, `ActionsWait`, then `CannotJoin`.
    pub fn join(
        &mut self,
        alloc: Global,
        cid: u16,
        stat_sn: u32,
        actions: &mut [PlainAction],
        told: &mut PlainTold,
    ) -> Answer
        ensures { Calls (Joins cid stat_sn) (shown (inside self.old) actions.old told.old) (shown (inside self.new) actions.new told.new) result }
    {
        let mut side = match self.ready(alloc) {
            Ok(side) => side,
            Err(answer) => return answer,
        };
        let answer = side.join(cid, stat_sn);
        hand_over(&mut side, actions, told);
        self.put_back(side);
        answer
    }

    /// The transport of a connection is gone.
    ///
    /// `NotOpen`, `ActionsWait`, then `UnknownConnection`, `NotJoined`.
    pub fn lose(
        &mut self,
        alloc: Global,
        cid: u16,
        actions: &mut [PlainAction],
        told: &mut PlainTold,
    ) -> Answer
        ensures { Calls (Loses cid) (shown (inside self.old) actions.old told.old) (shown (inside self.new) actions.new told.new) result }
    {
        let mut side = match self.ready(alloc) {
            Ok(side) => side,
            Err(answer) => return answer,
        };
        let answer = side.lose(cid);
        hand_over(&mut side, actions, told);
        self.put_back(side);
        answer
    }

    /// The oldest PDU that was handed out on a connection, and isn't written, has gone into the transport.
    ///
    /// `NotOpen`, `ActionsWait`.
    #[inline(always)]
    pub fn written(
        &mut self,
        alloc: Global,
        cid: u16,
        actions: &mut [PlainAction],
        told: &mut PlainTold,
    ) -> Answer
        ensures { Calls (Writes cid) (shown (inside self.old) actions.old told.old) (shown (inside self.new) actions.new told.new) result }
    {
        let mut side = match self.ready(alloc) {
            Ok(side) => side,
            Err(answer) => return answer,
        };
        let answer = side.written(cid);
        hand_over(&mut side, actions, told);
        self.put_back(side);
        answer
    }

    /// The next of the actions that wait. `NotOpen`.
    pub fn more(
        &mut self,
        alloc: Global,
        actions: &mut [PlainAction],
        told: &mut PlainTold,
    ) -> Answer
        ensures { HandsMore (shown (inside self.old) actions.old told.old) (shown (inside self.new) actions.new told.new) result }
    {
        let Some(mut side) = self.take(alloc) else {
            return Answer::NotOpen;
        };
        hand_over(&mut side, actions, told);
        self.put_back(side);
        Answer::Done
    }
}
