//! What holds of the rules' side, and of that of the steps, whatever calls come: laws of the definitions, which no code is needed for.

ghost use Rattle.std.specs.Prelude.{List};
ghost use Rattle.iscsi_ffi_law.specs.Lists.{AreAlike};
ghost use Rattle.iscsi_ffi_law.specs.Sides.{AreFitFrom, IsOfBytes, IsOpening, IsShort};
ghost use Rattle.iscsi_ffi_rules.specs.rules.Calls.{Call, Interface};
ghost use Rattle.iscsi_ffi_rules.specs.rules.Sides.{opened};
ghost use Rattle.iscsi_ffi_steps.specs.Steps.{begun};
ghost use Rattle.iscsi_outbox_law.specs.private.Pairs.{EachOf};

/// What the laws of the calls premise of the rules' side alone holds of each call, whatever calls came before, where the options are within their
/// limits and the list isn't too long (`IsShort`): before each call its box holds together and has room, also behind each call of the outbox that
/// takes no event, and the session and the outbox go together (`IsSideFit`); and so it is at each event of the call (`IsCallFit`).
pub fn fits_law()
    ensures fits { (i : Interface) (calls : List Call) → IsOpening i → IsShort i calls → EachOf IsOfBytes calls → AreFitFrom i (opened i) calls }
{}

/// A list of calls: each is answered by the steps as by the rules, and tells the same in the same order (`lists_law`), where the options are within
/// their limits and the list isn't too long. All else that the laws of the calls premise follows, of the rules' side (`fits_law`) and of that
/// of the steps: a place for each request, no more uses than are counted, room to tell.
pub fn alike_law()
    ensures alike { (i : Interface) (calls : List Call) → IsOpening i → IsShort i calls → EachOf IsOfBytes calls → AreAlike i (begun i) (opened i) calls }
{}
