//! The log of a list of events.

ghost use Rattle.std.specs.Prelude.{◌≡◌, IfOk};
ghost use Rattle.iscsi_session.specs.promises.Settings.{setting_of};
ghost use Rattle.iscsi_rules.specs.rules.Run.{run_of};
ghost use Rattle.iscsi_rules.specs.promises.Promises.{KeepsPromises};
ghost use Rattle.iscsi_session.specs.promises.Refusals.{RunRefusesAs, refusal_of_options, first_refusal};

use crate::fault::SessionFault;
use crate::options::Options;
use crate::session::Session;
use iscsi_rules::{Effects, Entry, Event, Log};
use std::alloc::Global;

/// Opens a session and takes the events, one after the other.
///
/// The refusal of the options, or else of the first event that is refused, is the answer.
#[tactic(auto, using(crate::proofs::RunLemmas::options_refused, crate::proofs::RunLemmas::event_refused, crate::proofs::RunLemmas::taken_none, std::proofs::lemmas::Result::err_from_is_err_and, std::proofs::lemmas::Bool::Decides::nat_tests))]
pub fn run(alloc: Global, options: Options, events: &[Event]) -> Result<Log, SessionFault>
    ensures log { IfOk result (λ log. log.items ≡ run_of (setting_of options) events.now) }

    // The log keeps all promises: delivery in CmdSN order, task sets by their rules, aborts and closes that hold, the
    // flow of numbers, and each command started and answered once.
    ensures promises { IfOk result (λ log. KeepsPromises (setting_of options) events.now log.items) }

    ensures refused { RunRefusesAs (refusal_of_options (setting_of options))
        (first_refusal (setting_of options) 0 events.now) result }
{
    let mut session = Session::open(alloc, options)?;
    let mut log = Vec::new(alloc);
    for event in events {
        let mut effects = Vec::new(alloc);
        let numbers = session.step(event, &mut effects)?;
        if log.reserve(1).is_err() {
            return Err(SessionFault::NoMemory);
        }
        log.push_reserved(Entry {
            numbers,
            effects: Effects::from_vec(effects),
        });
    }
    Ok(log)
}
