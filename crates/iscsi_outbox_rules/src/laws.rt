//! What the rules of an outbox come to, for every list of calls: laws of the definitions, which no code is needed for.

ghost use Rattle.std.specs.Prelude.{List};
ghost use Rattle.iscsi_outbox_rules.specs.promises.Closed.{NoneBehind, NoneLost, NoneUnjoined};
ghost use Rattle.iscsi_outbox_rules.specs.promises.Deadlock.{NoDeadlock};
ghost use Rattle.iscsi_outbox_rules.specs.promises.Deeds.{FollowsFlow, FollowsKnown, FollowsSession, deeds_of};
ghost use Rattle.iscsi_outbox_rules.specs.promises.Fence.{FenceBefore, FenceBehind, FenceFirst, FenceInOrder};
ghost use Rattle.iscsi_outbox_rules.specs.promises.Numbers.{CountStatSns, GoesOnward, ShowsExp};
ghost use Rattle.iscsi_outbox_rules.specs.promises.Once.{EntersInOrder, GoesInOrder, GoesOnce, SendsWhatWasSent};
ghost use Rattle.iscsi_outbox_rules.specs.promises.Order.{KeepsCommandOrder, KeepsConnectionOrder, RespondsLast};
ghost use Rattle.iscsi_outbox_rules.specs.promises.Promises.{KeepsPromises};
ghost use Rattle.iscsi_outbox_rules.specs.promises.Room.{RepliesFit, RoomOnTheWay, ShownFits, Step, TasksFit};
ghost use Rattle.iscsi_outbox_rules.specs.promises.Silent.{SilentAfter};
ghost use Rattle.iscsi_outbox_rules.specs.promises.Still.{ArrivesBefore, CompletesBefore, StopsBefore};
ghost use Rattle.iscsi_outbox_rules.specs.rules.Calls.{Call, Opening};

/// The numbers that a PDU shows (RFC 7143 section 4.2.2): its StatSN, in sequence on its connection; ExpCmdSN of the moment; and
/// a MaxCmdSN that never goes back, if what is taken is what a session gives.
pub fn numbers_law()
    ensures stat_sns { (o : Opening) (calls : List Call) → CountStatSns (deeds_of o calls) }
    ensures exp { (o : Opening) (calls : List Call) → ShowsExp o (deeds_of o calls) }
    ensures onward { (o : Opening) (calls : List Call) → FollowsFlow o calls → GoesOnward (deeds_of o calls) }
{}

/// Nothing goes out on a connection behind the reply that closes it, be that here or on another one, if what is taken is what a
/// session gives whose requests come on its connections. Nor does anything before it joined, or after it was lost.
pub fn closed_law()
    ensures behind { (o : Opening) (calls : List Call) → FollowsKnown o calls → NoneBehind o (deeds_of o calls) }
    ensures joined { (o : Opening) (calls : List Call) → NoneUnjoined (deeds_of o calls) }
    ensures lost { (o : Opening) (calls : List Call) → NoneLost (deeds_of o calls) }
{}

/// No reply goes out twice. If what is taken is what a session gives, each is one that the session sent on this connection, and
/// those that didn't have to wait enter their queues in the log's order, and go out in it on each connection.
pub fn once_law()
    ensures sent { (o : Opening) (calls : List Call) → FollowsSession o calls → SendsWhatWasSent (deeds_of o calls) }
    ensures once { (o : Opening) (calls : List Call) → GoesOnce (deeds_of o calls) }
    ensures order { (o : Opening) (calls : List Call) → FollowsSession o calls → GoesInOrder o (deeds_of o calls) }
    ensures moments { (o : Opening) (calls : List Call) → FollowsSession o calls → EntersInOrder o (deeds_of o calls) }
{}

/// The target's own PDUs of a connection go out as they were put: those that went out are a beginning of those that were taken. If
/// what is taken is what a session gives, so do those of each command, its Data-Ins and R2Ts; and as its SCSI Response goes out,
/// all that were taken went out.
pub fn order_law()
    ensures of_command { (o : Opening) (calls : List Call) → FollowsSession o calls → KeepsCommandOrder (deeds_of o calls) }
    ensures of_connection { (o : Opening) (calls : List Call) → KeepsConnectionOrder (deeds_of o calls) }
    ensures response { (o : Opening) (calls : List Call) → FollowsSession o calls → RespondsLast (deeds_of o calls) }
{}

/// If what is taken is what a session gives, nothing of a command goes out after the answer to an abort or a Logout by which it is
/// over (SAM-5 section 7): no Data-In or R2T, and no SCSI Response. It is over as it was taken out; and by the answer to a function of
/// several tasks, or to an ABORT TASK that found none, also where it had completed.
pub fn silent_law()
    ensures silent { (o : Opening) (calls : List Call) → FollowsSession o calls → SilentAfter o (deeds_of o calls) }
{}

/// If what is taken is what a session gives, whose requests came on its own connections: as the answer to an abort or a Logout goes
/// out, no command that is over by it touches the medium any more (SAM-5 section 7). One that was told to its unit before it left was
/// reported stopped since. And as the answer to an abort goes out, nothing of one is under way on another connection (RFC 7143 section
/// 4.2.3.3): it is known to have arrived, or was written where that is enough, or its connection was lost. So it is of one that had
/// completed, where that is over by the answer, but for a connection that another one's Logout closed: what lies there isn't read.
pub fn still_law()
    ensures stopped { (o : Opening) (calls : List Call) → FollowsKnown o calls → StopsBefore o (deeds_of o calls) }
    ensures through { (o : Opening) (calls : List Call) → FollowsKnown o calls → ArrivesBefore o (deeds_of o calls) }
    ensures completed { (o : Opening) (calls : List Call) → FollowsSession o calls → CompletesBefore o (deeds_of o calls) }
{}

/// If what is taken is what a session gives: as the answer to a function of several tasks goes out, or to an ABORT TASK that found none, what took a StatSN before it on
/// another connection isn't under way any more; and what takes one goes out behind it elsewhere only when it is known to have
/// arrived, where that is looked for, or its own connection was lost (RFC 7143 section 4.2.2.3.4). Of the two the one that entered its
/// queue first goes first. And a reply that was sent before it, and didn't have to wait, goes out before it, unless its connection
/// hadn't joined as it was sent, was lost, or closed by another one's Logout.
pub fn fence_law()
    ensures before { (o : Opening) (calls : List Call) → FollowsSession o calls → FenceBefore o (deeds_of o calls) }
    ensures behind { (o : Opening) (calls : List Call) → FollowsSession o calls → FenceBehind o (deeds_of o calls) }
    ensures order { (o : Opening) (calls : List Call) → FollowsSession o calls → FenceInOrder o (deeds_of o calls) }
    ensures first { (o : Opening) (calls : List Call) → FollowsSession o calls → FenceFirst o (deeds_of o calls) }
{}

/// No deadlock, if what is taken is what a session gives, whose requests came on its own connections: where no command runs that left,
/// no reset waits for other sessions, all is written, each ping is answered and no connection is to be lost, something goes out as
/// long as anything waits, though nothing else was acknowledged.
pub fn deadlock_law()
    ensures gives { (o : Opening) → NoDeadlock o }
{}

/// All of these in one, but for `deadlock_law`: if what is taken is what a session gives, whose requests came on
/// its own connections, and whose MaxCmdSN flows.
pub fn promises_law()
    ensures promises { (o : Opening) (calls : List Call) → FollowsFlow o calls → FollowsKnown o calls → KeepsPromises o calls }
{}

/// Room, where requests are read only while `may_take` has it, but for the Logouts that tell of lost connections, and come on the
/// session's connections: no more replies wait than there are places for, where no CID stands twice; and no more commands are live
/// or owe. So it is at each call, and in each item of an event. And where the initiator keeps to the MaxCmdSN that was shown, and no
/// CID stands twice: whatever was shown has room. The numbered replies that wait, the numbered commands that are live, and the numbers
/// shown that are still to come are no more than there are places for them.
pub fn room_law()
    ensures replies { (o : Opening) (steps : List Step) → RepliesFit o steps }
    ensures tasks { (o : Opening) (steps : List Step) → TasksFit o steps }
    ensures way { (o : Opening) (steps : List Step) → RoomOnTheWay o steps }
    ensures shown { (o : Opening) (steps : List Step) → ShownFits o steps }
{}
