//! What the effects of an item show.

ghost use Rattle.std.specs.Prelude.{◌≡◌, ◌&&◌};
ghost use Rattle.std.specs.List.{list_any};
ghost use Rattle.iscsi_rules.specs.promises.Order.{is_request};
ghost use Rattle.iscsi_outbox_rules.specs.rules.Items.{executing};
ghost use Rattle.iscsi_ffi_rules.specs.rules.Happening.{is_reset};
ghost use Rattle.iscsi_ffi_desk.specs.Calls.{is_completing};

use iscsi_rules::Effect;
use iscsi_wire::function::{CLEAR_TASK_SET, LOGICAL_UNIT_RESET};
use iscsi_wire::opcode::TASK_MANAGEMENT;
use iscsi_wire::{Reply, Request};

/// Whether a request executes, or is set to wait: an item begins.
pub(crate) fn is_request(effect: &Effect) -> bool
    ensures { result ≡ is_request effect.now }
{
    matches!(
        effect,
        Effect::Deliver { .. } | Effect::Immediate { .. } | Effect::Wait { .. }
    )
}

/// The request that executes in an item.
pub(crate) fn executing(item: &[Effect]) -> Option<Request>
    ensures { result ≡ executing item.now }
{
    match item.first() {
        Some(Effect::Deliver { request } | Effect::Immediate { request }) => Some(*request),
        _ => None,
    }
}

/// Whether a request is a reset that completes in its item: other sessions' commands are taken out by it.
pub(crate) fn is_reset_done(request: &Request, item: &[Effect]) -> bool
    ensures { result ≡ (is_reset request.now && list_any is_completing item.now) }
{
    is_reset(request) && completes(item)
}

/// Whether a request is a CLEAR TASK SET or a LOGICAL UNIT RESET.
fn is_reset(request: &Request) -> bool
    ensures { result ≡ is_reset request.now }
{
    request.opcode() == TASK_MANAGEMENT
        && (request.function() == CLEAR_TASK_SET || request.function() == LOGICAL_UNIT_RESET)
}

/// Whether an item has the answer that a function is complete.
fn completes(item: &[Effect]) -> bool
    ensures { result ≡ list_any is_completing item.now }
{
    item.iter().any(is_completing)
}

/// Whether an effect is the answer that a function is complete.
fn is_completing(effect: &Effect) -> bool
    ensures { result ≡ is_completing effect.now }
{
    matches!(
        effect,
        Effect::Send {
            reply: Reply::Task { response: 0, .. },
            ..
        }
    )
}
