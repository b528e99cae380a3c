//! The machine's run is the log of the rules.

ghost use Rattle.std.specs.Prelude.{◌≡◌, List};
ghost use Rattle.iscsi_rules.specs.declared.event.Event.{Event};
ghost use Rattle.iscsi_rules.specs.rules.Settings.{Setting};
ghost use Rattle.iscsi_rules.specs.rules.Run.{run_of};
ghost use Rattle.iscsi_machine.specs.Machine.{machine_run};

/// With any options, and for any list of events, the log by the rules over the whole history is the run of the state machine.
pub fn machine_law()
    ensures runs { (o : Setting) (h : List Event) → run_of o h ≡ machine_run o h }
{}
