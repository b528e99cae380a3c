//! The log of a session's events keeps every promise.

ghost use Rattle.std.specs.Prelude.{◌≡◌, true, List};
ghost use Rattle.std.specs.List.{list_all};
ghost use Rattle.iscsi_rules.specs.declared.event.Event.{Event};
ghost use Rattle.iscsi_rules.specs.rules.Settings.{Setting};
ghost use Rattle.iscsi_rules.specs.rules.Agenda.{belongs};
ghost use Rattle.iscsi_rules.specs.rules.Run.{run_of};
ghost use Rattle.iscsi_rules.specs.promises.Flow.{FlowsThrough};
ghost use Rattle.iscsi_rules.specs.promises.Promises.{KeepsPromises};

/// With any options, and for any list of events: received numbers, ExpCmdSN and MaxCmdSN go on as RFC 7143 section 4.2.2.1
/// says, and the log keeps every promise where each arrival comes on a connection of the session.
pub fn session_law()
    ensures flow { (o : Setting) (h : List Event) → FlowsThrough o h }
    ensures promises { (o : Setting) (h : List Event) → list_all (belongs o) h ≡ true → KeepsPromises o h (run_of o h) }
{}
