//! What the steps have in common with the rules, for every list of calls: laws of the definitions, which no code is needed for.

ghost use Rattle.std.specs.Prelude.{◌≡◌, ◌<◌, ◌-◌, ◌^◌, ℕ, List, true};
ghost use Rattle.iscsi_rules.specs.rules.Settings.{are_distinct};
ghost use Rattle.iscsi_outbox_law.specs.promises.Called.{KeepsAllPromises, KeepsToRules, MayTakeByRules};
ghost use Rattle.iscsi_outbox_law.specs.rules.Room.{AreFew, IsShort};
ghost use Rattle.iscsi_outbox_law.specs.rules.Said.{AnswersAlike, said};
ghost use Rattle.iscsi_outbox_law.specs.private.Sound.{IsSound};
ghost use Rattle.iscsi_outbox_law.specs.private.Stands.{Stands};
ghost use Rattle.iscsi_outbox_rules.specs.promises.Room.{Fits, HasRoom};
ghost use Rattle.iscsi_outbox_rules.specs.declared.own_pdu.OwnPdu.{OwnPdu};
ghost use Rattle.iscsi_outbox_rules.specs.promises.Deeds.{FollowsKnown};
ghost use Rattle.iscsi_outbox_rules.specs.rules.Boxes.{Box};
ghost use Rattle.iscsi_outbox_rules.specs.rules.Calls.{Call, Clears, Hears, Joins, Loses, Nexts, Opening, Puts, Stops, Writes};
ghost use Rattle.iscsi_outbox_rules.specs.rules.Run.{after_call as after_call_by_rules, answered as answered_by_rules, opened};
ghost use Rattle.iscsi_outbox_rules.specs.rules.Words.{max_shown as max_shown_by_rules, may_take as may_take_by_rules};
ghost use Rattle.iscsi_outbox_steps.specs.Run.{after_call, answered, begun};
ghost use Rattle.iscsi_outbox_steps.specs.State.{State, max_shown, may_take};

/// What the steps begin with stands for the box that the rules begin with.
pub fn opened_law()
    ensures opened { (o : Opening) → Stands o (begun o) (opened o) }
{}

/// Whether a connection may join, and the state after it joined.
pub fn joins_law()
    ensures answer { (o : Opening) (s : State) (b : Box) → Stands o s b → are_distinct o.session.conns ≡ true → (cid n : ℕ) → answered s (Joins cid n) ≡ said (answered_by_rules o b (Joins cid n)) }
    ensures stands { (o : Opening) (s : State) (b : Box) → Stands o s b → are_distinct o.session.conns ≡ true → (cid n : ℕ) → Stands o (after_call s (Joins cid n)) (after_call_by_rules o b (Joins cid n)) }
{}

/// Whether a request more may be taken, and the MaxCmdSN that is shown.
pub fn room_law()
    ensures may { (o : Opening) (s : State) (b : Box) → Stands o s b → may_take s ≡ may_take_by_rules o b }
    ensures shown { (o : Opening) (s : State) (b : Box) → Stands o s b → max_shown s ≡ max_shown_by_rules o b }
{}

/// The next PDU of a connection, and the state after it was handed out.
pub fn nexts_law()
    ensures answer { (o : Opening) (s : State) (b : Box) → Stands o s b → IsSound o b → are_distinct o.session.conns ≡ true → AreFew b → (cid : ℕ) → answered s (Nexts cid) ≡ said (answered_by_rules o b (Nexts cid)) }
    ensures stands { (o : Opening) (s : State) (b : Box) → Stands o s b → IsSound o b → are_distinct o.session.conns ≡ true → AreFew b → (cid : ℕ) → Stands o (after_call s (Nexts cid)) (after_call_by_rules o b (Nexts cid)) }
{}

/// Whether a PDU of the target's own is taken, and the state after it.
pub fn puts_law()
    ensures answer { (o : Opening) (s : State) (b : Box) → Stands o s b → IsSound o b → are_distinct o.session.conns ≡ true → (p : OwnPdu) → answered s (Puts p) ≡ said (answered_by_rules o b (Puts p)) }
    ensures stands { (o : Opening) (s : State) (b : Box) → Stands o s b → IsSound o b → are_distinct o.session.conns ≡ true → (p : OwnPdu) → Fits o b → b.time < 2 ^ 64 - 1 → Stands o (after_call s (Puts p)) (after_call_by_rules o b (Puts p)) }
{}

/// Other sessions are through with a unit: what is due by it enters in both. The rules take it in one pass, the steps take the first
/// one again and again.
pub fn clears_law()
    ensures stands { (o : Opening) (s : State) (b : Box) → Stands o s b → IsSound o b → are_distinct o.session.conns ≡ true → Fits o b → (unit : ℕ) → (after_call_by_rules o b (Clears unit)).time < 2 ^ 64 - 1 → Stands o (after_call s (Clears unit)) (after_call_by_rules o b (Clears unit)) }
{}

/// Whether a command was running as its unit stopped, and the state after it.
pub fn stops_law()
    ensures answer { (o : Opening) (s : State) (b : Box) → Stands o s b → IsSound o b → are_distinct o.session.conns ≡ true → (ticket : ℕ) → answered s (Stops ticket) ≡ said (answered_by_rules o b (Stops ticket)) }
    ensures stands { (o : Opening) (s : State) (b : Box) → Stands o s b → IsSound o b → are_distinct o.session.conns ≡ true → (ticket : ℕ) → Fits o b → (after_call_by_rules o b (Stops ticket)).time < 2 ^ 64 - 1 → Stands o (after_call s (Stops ticket)) (after_call_by_rules o b (Stops ticket)) }
{}

/// The oldest PDU of a connection that wasn't written is: the state after it. The steps walk the trail of that connection alone, and
/// stop at the first command of which something is under way still.
pub fn writes_law()
    ensures stands { (o : Opening) (s : State) (b : Box) → Stands o s b → IsSound o b → are_distinct o.session.conns ≡ true → Fits o b → (cid : ℕ) → (after_call_by_rules o b (Writes cid)).time < 2 ^ 64 - 1 → Stands o (after_call s (Writes cid)) (after_call_by_rules o b (Writes cid)) }
{}

/// A header arrived, and with it what is known to have arrived: the state after it.
pub fn hears_law()
    ensures stands { (o : Opening) (s : State) (b : Box) → Stands o s b → IsSound o b → are_distinct o.session.conns ≡ true → Fits o b → (cid exp_stat_sn tag : ℕ) → (after_call_by_rules o b (Hears cid exp_stat_sn tag)).time < 2 ^ 64 - 1 → Stands o (after_call s (Hears cid exp_stat_sn tag)) (after_call_by_rules o b (Hears cid exp_stat_sn tag)) }
{}

/// The transport of a connection is gone, and what waited there is dropped: the state after it.
pub fn loses_law()
    ensures stands { (o : Opening) (s : State) (b : Box) → Stands o s b → IsSound o b → are_distinct o.session.conns ≡ true → Fits o b → (cid : ℕ) → (after_call_by_rules o b (Loses cid)).time < 2 ^ 64 - 1 → Stands o (after_call s (Loses cid)) (after_call_by_rules o b (Loses cid)) }
{}

/// The steps answer what the rules answer, for every list of calls of which what is taken is what a session gives, whose requests come on
/// its own connections, where no CID stands twice, there is room at each call and in each item, and fewer PDUs go out than a word of 63
/// bits counts. So what is promised of the rules holds of all that the steps hand out. A reply is handed out with its place in the
/// session's log, as the rules know it, modulo 2^64.
pub fn steps_law()
    ensures alike { (o : Opening) (calls : List Call) → FollowsKnown o calls → are_distinct o.session.conns ≡ true → HasRoom o calls → IsShort o calls → AnswersAlike o calls }
{}

/// Each call keeps to the rules and to all promises, in any state that the calls before it led to. So does what says whether a
/// request more may be taken.
pub fn calls_law()
    ensures rules { (s : State) (c : Call) → KeepsToRules s c }
    ensures promises { (s : State) (c : Call) → KeepsAllPromises s c }
    ensures may { (s : State) → MayTakeByRules s (may_take s) }
{}
