//! What the rules of a target's side come to, for every list of calls: laws of the definitions, which no code is needed for.

ghost use Rattle.std.specs.Prelude.{List};
ghost use Rattle.iscsi_ffi_rules.specs.promises.Needed.{KeepsNeeded, NeededNoMore};
ghost use Rattle.iscsi_ffi_rules.specs.promises.Ready.{ReadyHolds};
ghost use Rattle.iscsi_ffi_rules.specs.promises.Starts.{StartsOnce, StopsStarted};
ghost use Rattle.iscsi_ffi_rules.specs.promises.Words.{ComesBackOnce, ForgottenLast};
ghost use Rattle.iscsi_ffi_rules.specs.rules.Calls.{Call, Interface};

/// Each word comes back once, or is kept still: as often as it was given, with a request that was taken or with a PDU of the target's
/// own that is of no command, it was to be forgotten or is among those that are kept. And a word that was given once, and isn't 0, comes
/// back last: behind that no command of it is told to start or to stop, and no PDU of it is handed out.
pub fn words_law()
    ensures once { (i : Interface) (calls : List Call) → ComesBackOnce i calls }
    ensures last { (i : Interface) (calls : List Call) → ForgottenLast i calls }
{}

/// No command is told twice to start, nor twice to stop; and what is told to stop was told to start before.
pub fn starts_law()
    ensures once { (i : Interface) (calls : List Call) → StartsOnce i calls }
    ensures stops { (i : Interface) (calls : List Call) → StopsStarted i calls }
{}

/// A request that was taken, and is kept no more, isn't needed again, whatever calls come: nothing of it is held, waits, is live, runs,
/// waits to go out, or is handed out and not written. And each that is kept is needed.
pub fn needed_law()
    ensures over { (i : Interface) (calls later : List Call) → NeededNoMore i calls later }
    ensures kept { (i : Interface) (calls : List Call) → KeepsNeeded i calls }
{}

/// No lost word to who hands out: a connection that could give something was told to be ready since it last gave nothing, and is told
/// so once until then.
pub fn ready_law()
    ensures ready { (i : Interface) (calls : List Call) → ReadyHolds i calls }
{}
