//! Where the effects of an event go.

ghost use Rattle.std.specs.Prelude.{◌≡◌, ℕ, List, [], ◌∷◌, ◌++◌, ◌+◌, ◌≤◌, vec_len, vec_capacity};
ghost use Rattle.iscsi_rules.specs.declared.effect.Effect.{Effect as SpecEffect};

use iscsi_rules::{Effect, Why};
use iscsi_tasks::Attr;
use iscsi_wire::{Reply, Request};

/// Takes the effects of an event, one after another: each method takes one, of its kind (see `Effect`). There is room for
/// it already, so none is refused.
pub trait EffectSink {
    // Behind this text it has taken these effects. A sink that keeps effects as they are goes by no text.
    ghost has: { Self → List ℕ → List SpecEffect → Type 0 };

    // How many effects it counts, and how many it may count.
    ghost len: { Self → ℕ };

    ghost capacity: { Self → ℕ };

    /// A numbered request executes: its turn has come in CmdSN order.
    fn put_deliver(&mut self, request: &Request)
        requires room { len self.old + 1 ≤ capacity self.old }
        ensures has { (text : List ℕ) (es : List SpecEffect) → has self.old text es →
            has self.new text (es ++ Effect.Deliver request.now ∷ []) }
        ensures len { len self.new ≤ len self.old + 1 }
        ensures capacity { capacity self.new ≡ capacity self.old };

    /// An immediate request executes.
    fn put_immediate(&mut self, request: &Request)
        requires room { len self.old + 1 ≤ capacity self.old }
        ensures has { (text : List ℕ) (es : List SpecEffect) → has self.old text es →
            has self.new text (es ++ Effect.Immediate request.now ∷ []) }
        ensures len { len self.new ≤ len self.old + 1 }
        ensures capacity { capacity self.new ≡ capacity self.old };

    /// An immediate task management function waits for lower numbers.
    fn put_wait(&mut self, request: &Request)
        requires room { len self.old + 1 ≤ capacity self.old }
        ensures has { (text : List ℕ) (es : List SpecEffect) → has self.old text es →
            has self.new text (es ++ Effect.Wait request.now ∷ []) }
        ensures len { len self.new ≤ len self.old + 1 }
        ensures capacity { capacity self.new ≡ capacity self.old };

    /// A number is received without a request.
    fn put_void(&mut self, sn: u32)
        requires room { len self.old + 1 ≤ capacity self.old }
        ensures has { (text : List ℕ) (es : List SpecEffect) → has self.old text es →
            has self.new text (es ++ Effect.Void sn ∷ []) }
        ensures len { len self.new ≤ len self.old + 1 }
        ensures capacity { capacity self.new ≡ capacity self.old };

    /// The request that was held at this number is taken out.
    fn put_empty(&mut self, sn: u32)
        requires room { len self.old + 1 ≤ capacity self.old }
        ensures has { (text : List ℕ) (es : List SpecEffect) → has self.old text es →
            has self.new text (es ++ Effect.Empty sn ∷ []) }
        ensures len { len self.new ≤ len self.old + 1 }
        ensures capacity { capacity self.new ≡ capacity self.old };

    /// A command enters the task set of a unit.
    fn put_enter(&mut self, ticket: u64, unit: u16, attr: Attr)
        requires room { len self.old + 1 ≤ capacity self.old }
        ensures has { (text : List ℕ) (es : List SpecEffect) → has self.old text es →
            has self.new text (es ++ Effect.Enter ticket unit attr ∷ []) }
        ensures len { len self.new ≤ len self.old + 1 }
        ensures capacity { capacity self.new ≡ capacity self.old };

    /// A command may be started by its unit.
    fn put_enable(&mut self, ticket: u64, unit: u16)
        requires room { len self.old + 1 ≤ capacity self.old }
        ensures has { (text : List ℕ) (es : List SpecEffect) → has self.old text es →
            has self.new text (es ++ Effect.Enable ticket unit ∷ []) }
        ensures len { len self.new ≤ len self.old + 1 }
        ensures capacity { capacity self.new ≡ capacity self.old };

    /// A command leaves the task set of its unit.
    fn put_leave(&mut self, ticket: u64, unit: u16)
        requires room { len self.old + 1 ≤ capacity self.old }
        ensures has { (text : List ℕ) (es : List SpecEffect) → has self.old text es →
            has self.new text (es ++ Effect.Leave ticket unit ∷ []) }
        ensures len { len self.new ≤ len self.old + 1 }
        ensures capacity { capacity self.new ≡ capacity self.old };

    /// A reply goes out on a connection.
    fn put_send(&mut self, conn: u16, stat_sn: u32, reply: &Reply)
        requires room { len self.old + 1 ≤ capacity self.old }
        ensures has { (text : List ℕ) (es : List SpecEffect) → has self.old text es →
            has self.new text (es ++ Effect.Send conn stat_sn reply.now ∷ []) }
        ensures len { len self.new ≤ len self.old + 1 }
        ensures capacity { capacity self.new ≡ capacity self.old };

    /// A connection is closed.
    fn put_close_conn(&mut self, conn: u16)
        requires room { len self.old + 1 ≤ capacity self.old }
        ensures has { (text : List ℕ) (es : List SpecEffect) → has self.old text es →
            has self.new text (es ++ Effect.CloseConn conn ∷ []) }
        ensures len { len self.new ≤ len self.old + 1 }
        ensures capacity { capacity self.new ≡ capacity self.old };

    /// The session is closed.
    fn put_close_session(&mut self)
        requires room { len self.old + 1 ≤ capacity self.old }
        ensures has { (text : List ℕ) (es : List SpecEffect) → has self.old text es →
            has self.new text (es ++ Effect.CloseSession ∷ []) }
        ensures len { len self.new ≤ len self.old + 1 }
        ensures capacity { capacity self.new ≡ capacity self.old };

    /// The event is passed over.
    fn put_ignore(&mut self, why: Why)
        requires room { len self.old + 1 ≤ capacity self.old }
        ensures has { (text : List ℕ) (es : List SpecEffect) → has self.old text es →
            has self.new text (es ++ Effect.Ignore why ∷ []) }
        ensures len { len self.new ≤ len self.old + 1 }
        ensures capacity { capacity self.new ≡ capacity self.old };
}

impl EffectSink for Vec<Effect> {
    ghost has = { λ v text es. v.items ≡ es };

    ghost len = { λ v. vec_len v };

    ghost capacity = { λ v. vec_capacity v };

    #[inline(always)]
    fn put_deliver(&mut self, request: &Request) {
        self.push_reserved(Effect::Deliver {
            request: copy_of(request),
        });
    }

    #[inline(always)]
    fn put_immediate(&mut self, request: &Request) {
        self.push_reserved(Effect::Immediate {
            request: copy_of(request),
        });
    }

    #[inline(always)]
    fn put_wait(&mut self, request: &Request) {
        self.push_reserved(Effect::Wait {
            request: copy_of(request),
        });
    }

    #[inline(always)]
    fn put_void(&mut self, sn: u32) {
        self.push_reserved(Effect::Void { sn });
    }

    #[inline(always)]
    fn put_empty(&mut self, sn: u32) {
        self.push_reserved(Effect::Empty { sn });
    }

    #[inline(always)]
    fn put_enter(&mut self, ticket: u64, unit: u16, attr: Attr) {
        self.push_reserved(Effect::Enter { ticket, unit, attr });
    }

    #[inline(always)]
    fn put_enable(&mut self, ticket: u64, unit: u16) {
        self.push_reserved(Effect::Enable { ticket, unit });
    }

    #[inline(always)]
    fn put_leave(&mut self, ticket: u64, unit: u16) {
        self.push_reserved(Effect::Leave { ticket, unit });
    }

    #[inline(always)]
    fn put_send(&mut self, conn: u16, stat_sn: u32, reply: &Reply) {
        self.push_reserved(Effect::Send {
            conn,
            stat_sn,
            reply: *reply,
        });
    }

    #[inline(always)]
    fn put_close_conn(&mut self, conn: u16) {
        self.push_reserved(Effect::CloseConn { conn });
    }

    #[inline(always)]
    fn put_close_session(&mut self) {
        self.push_reserved(Effect::CloseSession);
    }

    #[inline(always)]
    fn put_ignore(&mut self, why: Why) {
        self.push_reserved(Effect::Ignore { why });
    }
}

/// A copy of a request. It is read as it was stored: a load that spans two stores waits for both.
#[inline(always)]
fn copy_of(request: &Request) -> Request
    ensures { result ≡ request.now }
{
    Request::read(request.conn(), &request.bytes())
}
