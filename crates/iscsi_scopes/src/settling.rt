//! How commands come ahead in a line.

ghost use Rattle.std.specs.Prelude.{◌≡◌, ◌≢◌, ◌<◌, ◌≤◌, None, Some, length, IfSome};
ghost use Rattle.iscsi_lines.specs.Settling.{AllAre, ComesNext, IsLine, Moves, is_ahead, items_at, may_stand, settles};

use iscsi_lines::{Item, Owing};
use iscsi_lists::Lists;

/// The first command behind, and its slot, if it comes ahead: it doesn't run, and all that is ahead has something under
/// way on the same connection.
fn next_ahead(lists: &Lists<Item>, conn: u16, ahead: usize, behind: usize) -> Option<(u32, Owing)>
    requires ahead { ahead < length lists.now.lists }
    requires behind { behind < length lists.now.lists }
    ensures next { IfSome result (λ r. ComesNext lists.now conn ahead behind r.0 r.1) }
    ensures none { result ≡ None → settles conn (items_at lists.now ahead) (items_at lists.now behind) }
{
    let slot = lists.first(behind)?;
    match *lists.at(slot) {
        Item::Command(command)
            if !command.running && (command.conn == conn || lists.is_empty(ahead)) => {
            Some((slot, command))
        }
        _ => None,
    }
}

/// Moves the commands ahead that come there. It answers the connection of those that are ahead.
pub(crate) fn settle(lists: &mut Lists<Item>, conn: u16, ahead: usize, behind: usize) -> u16
    requires ahead { ahead < length lists.old.lists }
    requires behind { behind < length lists.old.lists }
    requires apart { ahead ≢ behind }
    requires passed { AllAre (is_ahead conn) (items_at lists.old ahead) }
    requires stand { AllAre may_stand (items_at lists.old behind) }
    ensures moves { Moves lists.old lists.new ahead behind }
    ensures line { IsLine result (items_at lists.new ahead) (items_at lists.new behind) }
{
    let mut on = conn;
    while let Some((slot, command)) = next_ahead(lists, on, ahead, behind) {
        lists.known();
        on = command.conn;
        lists.move_to_back(slot, ahead);
    }
    on
}
