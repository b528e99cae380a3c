//! What the fence comes to: laws of the definitions, which no code is needed for.

ghost use Rattle.std.specs.Prelude.{◌≡◌, ◌||◌, not, nat_lt, Bool, true, false, count_by, if◌then◌else◌};
ghost use Rattle.std.specs.List.{list_any};
ghost use Rattle.iscsi_outbox_rules.specs.rules.Boxes.{Box, Link, Outgoing};
ghost use Rattle.iscsi_outbox_rules.specs.rules.Calls.{Opening};
ghost use Rattle.iscsi_outbox_rules.specs.rules.Handing.{others, passes_fence};
ghost use Rattle.iscsi_outbox_rules.specs.rules.Words.{is_open};
ghost use Rattle.iscsi_fences.specs.Passing.{Among, any_waits, count_waits, is_busy_on, open_links, passes_by};

/// The fence looks at no connection alone. What waits before a PDU on the other open connections waits on any of them, where
/// nothing before it waits on its own. Others are busy just where more are than its own, and something like this waits on
/// others just where more wait than on its own.
pub fn fence_law()
    ensures parts { (o : Opening) (b : Box) (l : Link) (out : Outgoing) →
        passes_fence o b l out ≡ (not out.takes || passes_by o (others b l) out) }
    ensures waits { (test : Outgoing → Bool) (b : Box) (l : Link) → Among l b.links → is_open l ≡ true →
        list_any test l.queue ≡ false → any_waits test (others b l) ≡ any_waits test (open_links b) }
    ensures elsewhere { (test : Outgoing → Bool) (b : Box) (l : Link) → Among l b.links → is_open l ≡ true →
        any_waits test (others b l) ≡ nat_lt (count_by test l.queue) (count_waits test (open_links b)) }
    ensures busy { (o : Opening) (b : Box) (l : Link) → Among l b.links →
        list_any (is_busy_on o) (others b l) ≡ nat_lt (if is_busy_on o l then 1 else 0) (count_by (is_busy_on o) b.links) }
{}
