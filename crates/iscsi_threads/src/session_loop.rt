//! The loop that runs the session.

ghost use Rattle.std.specs.Prelude.{◌≡◌, ◌≤◌, ◌<◌, ℕ, true, map, length, vec_len};
ghost use Rattle.iscsi_session.specs.promises.Settings.{setting_of};
ghost use Rattle.iscsi_session.specs.private.Standing.{StandsFor};
ghost use Rattle.iscsi_rules.specs.rules.Run.{run_of};
ghost use Rattle.iscsi_rules.specs.promises.Enabling.{effects_in};
ghost use Rattle.iscsi_threads.specs.rules.Outlets.{given, heard, got};
ghost use Rattle.iscsi_threads.specs.rules.Desks.{seen, nothing, known_after};
ghost use Rattle.iscsi_threads.specs.private.Ends.{put_jobs};
ghost use Rattle.iscsi_threads.specs.rules.Journal.{cids_of, parts, dones, all_jobs, are_sources, AllDiffer};

use crate::bell::Bells;
use crate::desk::Desk;
use crate::ends::Watch;
use crate::finish::{Ended, Rooms, drain_fresh, drain_inlets, drain_outlets};
use crate::inlet::Inlet;
use crate::job::Job;
use crate::outlet::Outlet;
use crate::port::{Port, UnitPort};
use iscsi_session::{Event, Options, Session};
use std::alloc::Global;
use std::collections::VecDeque;
use std::sync::Arc;

/// The loop round one session. It has the other ends of all rings, and the journal of the events that it took.
pub struct Loop {
    pub(crate) alloc: Global,
    pub(crate) options: Options,
    pub(crate) session: Session,
    pub(crate) inlets: Vec<Inlet>,
    pub(crate) outlets: Vec<Outlet>,
    pub(crate) desk: Desk,
    pub(crate) fresh: VecDeque<Job>,
    pub(crate) journal: Vec<Event>,
    pub(crate) from: Vec<u16>,
    pub(crate) bells: Arc<Bells, Global>,
    pub(crate) watch: Watch,
    pub(crate) next: usize,
    ghost sizes: { (vec_len inlets ≤ 64) × (vec_len outlets ≤ 256) × (vec_len inlets ≡ vec_len options.conns)
        × (vec_len outlets ≡ (setting_of options).units) × (vec_len from ≡ vec_len journal)
        × (vec_len journal ≤ (setting_of options).events) },
    ghost differ: { AllDiffer (cids_of (setting_of options)) },
    ghost stands: { StandsFor (setting_of options) session journal.items },
    ghost sourced: { are_sources (cids_of (setting_of options)) (vec_len outlets) journal.items from.items ≡ true },
    ghost headers: { map got inlets.items ≡ parts (cids_of (setting_of options)) journal.items },
    ghost answers: { map heard outlets.items ≡ dones (vec_len outlets) journal.items from.items },
    ghost known: { seen desk ≡ known_after nothing (effects_in (run_of (setting_of options) journal.items)) },
    ghost jobs: { put_jobs fresh.items (map given outlets.items)
        ≡ all_jobs (vec_len outlets) (run_of (setting_of options) journal.items) },
}

impl Drop for Loop {
    fn drop(self) {
        let Loop {
            alloc: _alloc,
            options: _options,
            session: _session,
            inlets: _inlets,
            outlets: _outlets,
            desk: _desk,
            fresh: _fresh,
            journal: _journal,
            from: _from,
            bells: _bells,
            watch: _watch,
            next: _next,
        } = self;
    }
}

impl Loop {
    ghost use Rattle.iscsi_threads.specs.rules.Loops.{Belong};
    ghost use Rattle.iscsi_threads.specs.promises.Outcomes.{EndedAs};
    ghost use Rattle.iscsi_threads.specs.private.Finishing.{FitsAll};

    // Empties all rings into the rooms, and hands out what went through them.
    pub(crate) fn drain(self, mut ports: Vec<Port>, mut units: Vec<UnitPort>, rooms: Rooms) -> Ended
        requires belong { Belong self ports.items units.items }
        requires rooms { FitsAll self rooms }
        ensures { EndedAs self ports.items units.items result }
    {
        let Loop {
            alloc: _alloc,
            options: _options,
            session: _session,
            mut inlets,
            mut outlets,
            desk: _desk,
            mut fresh,
            journal,
            from,
            bells: _bells,
            watch: _watch,
            next: _next,
        } = self;
        let Rooms {
            mut left,
            mut untaken,
            mut unread,
        } = rooms;
        drain_inlets(&mut inlets, &mut ports, &mut left);
        drain_outlets(&mut outlets, &mut units, &mut untaken, &mut unread);
        drain_fresh(&mut fresh, &mut untaken);
        Ended {
            journal,
            from,
            left,
            untaken,
            unread,
        }
    }
}
