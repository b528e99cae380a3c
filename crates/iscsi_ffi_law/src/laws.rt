//! What the steps have in common with the rules: laws of the definitions, which no code is needed for.

ghost use Rattle.std.specs.Prelude.{◌≡◌, ◌<◌, ◌≤◌, ◌&&◌, ◌+◌, ◌*◌, ◌^◌, ℕ, List, None, Some, cond, false, is_some, length, true};
ghost use Rattle.iscsi_ffi_law.specs.Alike.{GoesAlike};
ghost use Rattle.iscsi_ffi_law.specs.Arrived.{IsArrivalFit, IsPlaced, IsBehindFit};
ghost use Rattle.iscsi_ffi_law.specs.Done.{AllDone};
ghost use Rattle.iscsi_ffi_law.specs.Fit.{IsFit, IsOrderly};
ghost use Rattle.iscsi_rules.specs.rules.Settings.{is_known};
ghost use Rattle.iscsi_rules.specs.rules.Trace.{is_closed};
ghost use Rattle.iscsi_ffi_law.specs.Lists.{AreAlike, MeetFrom};
ghost use Rattle.iscsi_ffi_law.specs.Lost.{IsOpenLoss};
ghost use Rattle.iscsi_ffi_law.specs.Stands.{Stands};
ghost use Rattle.iscsi_ffi_rules.specs.rules.Calls.{Arrives, Call, Cleared, Clears, Completes, Hears, Interface, Joins, Loses, Nexts, Puts, Stops, Writes};
ghost use Rattle.iscsi_ffi_rules.specs.rules.Clearing.{TASK_ABORTED};
ghost use Rattle.iscsi_ffi_rules.specs.rules.Run.{cids, heard_in, is_going, is_lost, refusal_of};
ghost use Rattle.iscsi_ffi_rules.specs.rules.Sides.{Side, opened};
ghost use Rattle.iscsi_ffi_steps.specs.Steps.{Side as StepsSide, begun};
ghost use Rattle.iscsi_outbox_rules.specs.declared.own_pdu.OwnPdu.{OwnPdu};
ghost use Rattle.iscsi_outbox_rules.specs.rules.Calls.{Clears as ClearsBox, Hears as HearsBox, Joins as JoinsBox, Loses as LosesBox, Nexts as NextsBox, Puts as PutsBox, Stops as StopsBox, Writes as WritesBox};
ghost use Rattle.iscsi_outbox_rules.specs.rules.Run.{after_call};
ghost use Rattle.iscsi_outbox_rules.specs.rules.Words.{contains};
ghost use Rattle.iscsi_requests.specs.Cookies.{next_place, uses_at};

/// What the steps begin with stands for the side that the rules begin with.
pub fn opened_law()
    ensures opened { (i : Interface) → Stands i (begun i) (opened i) }
{}

/// A header arrived that isn't given.
pub fn hears_law()
    ensures alike { (i : Interface) (s : StepsSide) (r : Side) → Stands i s r → (cid exp_stat_sn tag : ℕ) → IsFit i r.both.box (after_call i.outbox r.both.box (HearsBox cid exp_stat_sn tag)) → GoesAlike i s r (Hears cid exp_stat_sn tag) }
{}

/// Whether a connection may join.
pub fn joins_law()
    ensures alike { (i : Interface) (s : StepsSide) (r : Side) → Stands i s r → (cid stat_sn : ℕ) → IsFit i r.both.box (after_call i.outbox r.both.box (JoinsBox cid stat_sn)) → GoesAlike i s r (Joins cid stat_sn) }
{}

/// Other sessions are through with a unit.
pub fn cleared_law()
    ensures alike { (i : Interface) (s : StepsSide) (r : Side) → Stands i s r → (unit : ℕ) → IsFit i r.both.box (after_call i.outbox r.both.box (ClearsBox unit)) → GoesAlike i s r (Cleared unit) }
{}

/// The oldest PDU of a connection that wasn't written is.
pub fn writes_law()
    ensures alike { (i : Interface) (s : StepsSide) (r : Side) → Stands i s r → (cid : ℕ) → IsFit i r.both.box (after_call i.outbox r.both.box (WritesBox cid)) → GoesAlike i s r (Writes cid) }
{}

/// A command has stopped that isn't one that was told to stop by another session's reset: one that was taken out, or none.
pub fn stops_law()
    ensures alike { (i : Interface) (s : StepsSide) (r : Side) → Stands i s r → (ticket : ℕ) → IsFit i r.both.box (after_call i.outbox r.both.box (StopsBox ticket)) → (is_going r ticket && contains r.marked ticket) ≡ false → GoesAlike i s r (Stops ticket) }
{}

/// A command is completed that goes on no more: one that was taken out, or none.
pub fn completes_law()
    ensures alike { (i : Interface) (s : StepsSide) (r : Side) → Stands i s r → (ticket : ℕ) → IsFit i r.both.box (after_call i.outbox r.both.box (StopsBox ticket)) → (status : ℕ) → is_going r ticket ≡ false → GoesAlike i s r (Completes ticket status) }
{}

/// The next PDU of a connection is asked for: which one it is, with the word for what it belongs to. Two premises more: no request has more
/// uses than a word of 32 bits counts, and the session has sent fewer replies than one of 64 bits counts.
pub fn nexts_law()
    ensures alike { (i : Interface) (s : StepsSide) (r : Side) → Stands i s r → (cid : ℕ) → IsFit i r.both.box (after_call i.outbox r.both.box (NextsBox cid)) → ((place : ℕ) → uses_at place s.state.cookies < 4294967295) → r.both.box.sent < 2 ^ 64 → GoesAlike i s r (Nexts cid) }
{}

/// Whether a PDU of the target's own is taken. Two premises more: that of the rules' side, and a place for a word.
pub fn puts_law()
    ensures alike { (i : Interface) (s : StepsSide) (r : Side) → Stands i s r → (p : OwnPdu) (cookie : ℕ) → IsFit i r.both.box (after_call i.outbox r.both.box (PutsBox p)) → IsOrderly r → is_some (next_place s.state.cookies) ≡ true → GoesAlike i s r (Puts p cookie) }
{}

/// A connection is lost. If the session has closed it, all that is kept for it is let go; one premise more: that of the rules' side. Else the session
/// hears of a Logout too, that closes the connection: what it takes out goes as by any Logout (`arrives_law`), and its answer goes nowhere. What is
/// premised of the rules' side then is said in `IsOpenLoss`.
pub fn loses_law()
    ensures alike { (i : Interface) (s : StepsSide) (r : Side) → Stands i s r → (cid : ℕ) → IsFit i r.both.box (after_call i.outbox r.both.box (LosesBox cid)) → IsOrderly r → is_closed cid r.both.trace ≡ true → is_known cid i.outbox.session.conns ≡ true → is_lost r cid ≡ false → GoesAlike i s r (Loses cid) }
    ensures unclosed { (i : Interface) (s : StepsSide) (r : Side) → Stands i s r → (cid : ℕ) → IsOpenLoss i r cid → GoesAlike i s r (Loses cid) }
{}

/// Another session's reset: the commands of the unit are marked, and those that were told to start are told to stop. One premise more: room to
/// tell of all commands.
pub fn clears_law()
    ensures alike { (i : Interface) (s : StepsSide) (r : Side) → Stands i s r → (unit : ℕ) → IsFit i r.both.box r.both.box → length s.state.commands.items + 2 * length (cids i) ≤ s.state.room → GoesAlike i s r (Clears unit) }
{}

/// A command that goes on ends: it completes, or stops where another session's reset takes it out. Its reply waits, and the commands that it
/// barred are told to start; those that are withheld complete behind it, one after the other. What is premised of the rules' side, at each of
/// these events, is said in `AllDone`.
pub fn done_law()
    ensures alike { (i : Interface) (s : StepsSide) (r : Side) → Stands i s r → (ticket status : ℕ) → is_going r ticket ≡ true → AllDone i r ticket (cond (contains r.marked ticket) TASK_ABORTED status) → GoesAlike i s r (Completes ticket status) }
    ensures stops { (i : Interface) (s : StepsSide) (r : Side) → Stands i s r → (ticket : ℕ) → (is_going r ticket && contains r.marked ticket) ≡ true → AllDone i r ticket TASK_ABORTED → GoesAlike i s r (Stops ticket) }
{}

/// A request is taken: it is passed over, rejected, held, waits as a function, or executes, and the held requests whose turn comes by it, and the
/// functions that waited for that, execute one after the other. Each of them is answered at once, or not at all, or enters as a command, or commands
/// leave by it: those that were told to start are told to stop. Or a request that is held is taken out by it, and is over. By a Logout that closes a
/// connection, or the session, all commands leave that came there, what is held and waits there is over, and so are the replies and own PDUs that
/// wait on another connection than its own. What is enabled then, and is live still, starts, or is withheld, and those that are complete behind it,
/// one after the other. What is premised of the rules' side is said in `IsArrivalFit` and `IsBehindFit`; two premises more: a place for a word, which
/// is one of those that there are.
pub fn arrives_law()
    ensures alike { (i : Interface) (s : StepsSide) (r : Side) → Stands i s r → (cid : ℕ) (header : List ℕ) (cookie : ℕ) → IsArrivalFit i r cid header → refusal_of i r cid ≡ None → is_some (next_place s.state.cookies) ≡ true → ((place : ℕ) → next_place s.state.cookies ≡ Some place → IsPlaced s.state place) → IsBehindFit i (heard_in i r cid header) cid header → GoesAlike i s r (Arrives cid header cookie) }
{}

/// A list of calls: each is answered by the steps as by the rules, and tells the same in the same order, but for what is forgotten, which is
/// the same in any order. What is asked of each call is said in `Meets`.
pub fn lists_law()
    ensures alike { (i : Interface) (calls : List Call) → MeetFrom i (begun i) (opened i) calls → AreAlike i (begun i) (opened i) calls }
{}
