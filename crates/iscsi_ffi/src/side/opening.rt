//! A side is opened.

ghost use Rattle.std.specs.Prelude.{◌≡◌, ◌+◌, ◌*◌, ◌≤◌, [], true, false, length, IfErr, IfOk};
ghost use Rattle.iscsi_rules.specs.rules.Settings.{is_valid as is_valid_setting};
ghost use Rattle.iscsi_session.specs.promises.Settings.{setting_of};
ghost use Rattle.iscsi_host.specs.Serving.{Serves};
ghost use Rattle.iscsi_ffi_desk.specs.Options.{is_valid as is_valid_desk, opened};
ghost use Rattle.iscsi_ffi.specs.Options.{interface_of, is_valid};
ghost use Rattle.iscsi_ffi.specs.Opened.{RefusesAs};
ghost use Rattle.iscsi_ffi.specs.Standing.{Follows, is_waiting};

use crate::answer::Answer;
use crate::options::PlainOptions;
use crate::side::Side;
use iscsi_ffi_desk::{Desk, DeskOptions};
use iscsi_host::Host;
use iscsi_session::Options;
use std::alloc::Global;

impl Side {
    /// A side of a session in its Full Feature Phase, of which no connection has joined, with connections of these CIDs: 1 to 64 of
    /// them, none twice. It takes all its memory here: no other call asks for any.
    ///
    /// `BadOptions` where an option is outside its limits or a CID stands twice, then `NoMemory`.
    pub fn open(alloc: Global, options: &PlainOptions, cids: &[u16]) -> Result<Side, Answer>
        ensures follows { IfOk result (λ side. Follows (interface_of options.now cids.now) side []) }
        ensures nothing { IfOk result (λ side. is_waiting side ≡ false) }
        ensures refused { RefusesAs (is_valid options.now cids.now) result }
    {
        if !options.are_valid(cids) {
            return Err(Answer::BadOptions);
        }
        let Some(session_options) = options.of_session(alloc, cids) else {
            return Err(Answer::NoMemory);
        };
        let Some(desk_options) = options.of_desk(alloc, cids) else {
            return Err(Answer::NoMemory);
        };
        let host = match open_host(alloc, session_options) {
            Ok(host) => host,
            Err(answer) => return Err(answer),
        };
        let desk = match open_desk(alloc, &desk_options) {
            Ok(desk) => desk,
            Err(answer) => return Err(answer),
        };
        Ok(Side {
            host,
            desk,
            taken: 0,
            events: options.events,
            kept_back: kept_back(options, cids),
            unwritten: options.unwritten,
            given: 0,
            forgotten: 0,
        })
    }
}

/// So many events are kept back: one for each connection that is lost, and one for each command that completes.
fn kept_back(options: &PlainOptions, cids: &[u16]) -> u64
    requires { length cids.now ≤ 64 }
    ensures { result ≡ 64 + options.now.window + 8 * length cids.now }
{
    64 + u64::from(options.window) + 8 * cids.len() as u64
}

/// The session. Its options are within their limits, so only memory may be wanting.
fn open_host(alloc: Global, options: Options) -> Result<Host, Answer>
    requires { is_valid_setting (setting_of options) ≡ true }
    ensures serves { IfOk result (λ host. Serves (setting_of options) host []) }
    ensures wanting { IfErr result (λ answer. answer ≡ Answer.NoMemory) }
{
    match Host::open(alloc, options) {
        Ok(host) => Ok(host),
        Err(_) => Err(Answer::NoMemory),
    }
}

/// What is kept beside it. Its options are within their limits, too.
fn open_desk(alloc: Global, options: &DeskOptions) -> Result<Desk, Answer>
    requires { is_valid_desk options.now ≡ true }
    ensures state { IfOk result (λ desk. desk ≡ opened options.now) }
    ensures wanting { IfErr result (λ answer. answer ≡ Answer.NoMemory) }
{
    match Desk::open(alloc, options) {
        Ok(desk) => Ok(desk),
        Err(_) => Err(Answer::NoMemory),
    }
}
