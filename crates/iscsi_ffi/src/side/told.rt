//! What is told, and handed over.

ghost use Rattle.std.specs.Prelude.{◌≡◌, [], ◌∷◌, None, length, min, is_some, true, IfSome};
ghost use Rattle.iscsi_ffi_rules.specs.rules.Calls.{Interface};
ghost use Rattle.iscsi_ffi_steps.specs.Steps.{Going, after, ended, going};
ghost use Rattle.iscsi_ffi.specs.Standing.{Begun, Stands, is_waiting, taken_one, waiting};
ghost use Rattle.iscsi_requests.specs.Conns.{oldest};

use crate::side::Side;
use iscsi_ffi_rules::Action;

impl Side {
    /// Whether actions of the last call wait.
    #[inline(always)]
    pub fn waits(&self) -> bool
        ensures { result ≡ is_waiting self.now }
    {
        self.given < self.desk.actions().len() || self.forgotten < self.desk.forgets().len()
    }

    /// How many do, if that fits.
    #[inline(always)]
    pub fn waiting(&self) -> u32
        ensures { result ≡ min (length (waiting self.now)) 4294967295 }
    {
        let actions = self.desk.actions().len().saturating_sub(self.given);
        let forgets = self.desk.forgets().len().saturating_sub(self.forgotten);
        actions.saturating_add(forgets).min(4294967295) as u32
    }

    /// Hands over the next of them.
    #[inline(always)]
    pub fn take_action(&mut self) -> Option<Action>
        ensures action { result ≡ oldest (waiting self.old) }
        ensures state { self.new ≡ taken_one self.old }
    {
        if let Some(action) = self.desk.actions().get(self.given).copied() {
            self.given += 1;
            return Some(action);
        }
        let forget = self.desk.forgets().get(self.forgotten).copied()?;
        self.forgotten += 1;
        Some(forget)
    }

    /// Hands over the only one that waits, as `take_action` does. Where none or several wait, it gives none, and nothing changes.
    #[inline(always)]
    pub fn take_only(&mut self) -> Option<Action>
        ensures only { IfSome result (λ action. waiting self.old ≡ action ∷ []) }
        ensures one { length (waiting self.old) ≡ 1 → is_some result ≡ true }
        ensures taken { IfSome result (λ action. self.new ≡ taken_one self.old) }
        ensures none { result ≡ None → self.new ≡ self.old }
    {
        let (told, gone) = (self.desk.actions().len(), self.desk.forgets().len());
        if self.forgotten < gone {
            if self.given < told || gone - self.forgotten > 1 {
                return None;
            }
            let forget = self.desk.forgets()[self.forgotten];
            self.forgotten += 1;
            return Some(forget);
        }
        let at = self.given;
        if at >= told || told - at > 1 {
            return None;
        }
        let action = self.desk.actions()[at];
        self.given = at + 1;
        Some(action)
    }

    /// A call begins: nothing was told in it yet.
    #[inline(always)]
    pub(super) fn begin(&mut self)
        ensures stands { (i : Interface) (g : Going) → Stands i self.old g → Begun i self.new (going (after g)) }
        ensures state { self.new ≡ record self.old { desk = record { state = self.old.desk.state; actions = []; forgets = [] }; given = 0; forgotten = 0 } }
    {
        self.desk.begin();
        self.given = 0;
        self.forgotten = 0;
    }

    /// A call ends: it tells who has something to hand out, and what is to be closed.
    #[inline(always)]
    pub(super) fn end(&mut self)
        ensures { (i : Interface) (g : Going) → Begun i self.old g → Begun i self.new (ended g) }
    {
        self.desk.end();
    }
}
