//! What the effects of an item show.

ghost use Rattle.std.specs.Prelude.{◌≡◌, filter_map};
ghost use Rattle.std.specs.List.{list_any};
ghost use Rattle.iscsi_rules.specs.promises.Closes.{is_session_close};
ghost use Rattle.iscsi_rules.specs.promises.Order.{is_request};
ghost use Rattle.iscsi_rules.specs.rules.Trace.{first_of};
ghost use Rattle.iscsi_outbox_rules.specs.rules.Items.{executing, reply_sent};
ghost use Rattle.iscsi_outbox.specs.private.Walks.{is_close};

use iscsi_rules::Effect;
use iscsi_wire::{Reply, Request};

/// Whether a request executes, or is set to wait: an item begins.
pub(crate) fn is_request(effect: &Effect) -> bool
    ensures { result ≡ is_request effect.now }
{
    matches!(
        effect,
        Effect::Deliver { .. } | Effect::Immediate { .. } | Effect::Wait { .. }
    )
}

/// The request that executes in an item.
pub(crate) fn executing(item: &[Effect]) -> Option<Request>
    ensures { result ≡ executing item.now }
{
    match item.first() {
        Some(Effect::Deliver { request } | Effect::Immediate { request }) => Some(*request),
        _ => None,
    }
}

/// The first reply of an item, with the CID of the connection that it goes out on.
pub(crate) fn first_reply(item: &[Effect]) -> Option<(u16, Reply)>
    ensures { result ≡ first_of (filter_map reply_sent item.now) }
{
    for effect in item {
        if let Effect::Send { conn, reply, .. } = effect {
            return Some((*conn, *reply));
        }
    }
    None
}

/// Whether an item closes the session.
pub(crate) fn closes_session(item: &[Effect]) -> bool
    ensures { result ≡ list_any is_session_close item.now }
{
    item.iter().any(is_session_close)
}

/// Whether an item closes anything.
pub(crate) fn closes_any(item: &[Effect]) -> bool
    ensures { result ≡ list_any is_close item.now }
{
    item.iter().any(is_close)
}

fn is_session_close(effect: &Effect) -> bool
    ensures { result ≡ is_session_close effect.now }
{
    matches!(effect, Effect::CloseSession)
}

fn is_close(effect: &Effect) -> bool
    ensures { result ≡ is_close effect.now }
{
    matches!(effect, Effect::CloseConn { .. } | Effect::CloseSession)
}
