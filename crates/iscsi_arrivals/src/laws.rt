//! What stamps come to: laws of the definitions, which no code is needed for.

ghost use Rattle.std.specs.Prelude.{◌≡◌, ℕ, ◌+◌, ◌≤◌, ◌∷◌, ◌++◌, ◌&&◌, not, nat_lt, Bool, List, [], true, false, length, if◌then◌else◌};
ghost use Rattle.std.specs.List.{list_any};
ghost use Rattle.iscsi_outbox_rules.specs.rules.Boxes.{Handed, Link};
ghost use Rattle.iscsi_outbox_rules.specs.rules.Calls.{Opening};
ghost use Rattle.iscsi_outbox_rules.specs.rules.Words.{is_open, looks_for_arrival, unarrived, under_way};
ghost use Rattle.iscsi_arrivals.specs.Stamps.{IsUpToLast, handed_out, stamp_at};

/// The stamp of a PDU stays, whatever is handed out behind it.
pub fn stamp_law()
    ensures { (l : Link) (h : Handed) (place : ℕ) → place ≤ length l.handed → stamp_at (handed_out h l) place ≡ stamp_at l place }
{}

/// Whether one of some PDUs is still under way is known by the last one of them alone: of none none is, and each of them
/// that is handed out is the last one from then on. What isn't known to have arrived, or is under way, has one of them just
/// where it has the last one.
pub fn last_law()
    ensures none { (test : Handed → Bool) → IsUpToLast test [] 0 }
    ensures passes { (test : Handed → Bool) (handed : List Handed) (h : Handed) → test h ≡ true →
        IsUpToLast test (handed ++ h ∷ []) (length handed + 1) }
    ensures fails { (test : Handed → Bool) (handed : List Handed) (h : Handed) (n : ℕ) → test h ≡ false →
        IsUpToLast test handed n → IsUpToLast test (handed ++ h ∷ []) n }
    ensures unarrived { (test : Handed → Bool) (l : Link) (place : ℕ) → IsUpToLast test l.handed (place + 1) →
        list_any test (unarrived l) ≡ not (nat_lt place l.arrived) }
    ensures under_way { (o : Opening) (test : Handed → Bool) (l : Link) (place : ℕ) → IsUpToLast test l.handed (place + 1) →
        list_any test (under_way o l) ≡ (is_open l && not (nat_lt place (if looks_for_arrival o then l.arrived else l.written))) }
    ensures quiet { (o : Opening) (test : Handed → Bool) (l : Link) → IsUpToLast test l.handed 0 →
        list_any test (under_way o l) ≡ false }
{}
