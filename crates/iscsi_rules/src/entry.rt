//! The log of a list of events: an entry for each.

ghost use Rattle.std.specs.Prelude.{◌≡◌};

use crate::effect::{Effect, Numbers};
use std::marker::Model;

/// The effects of an event, in order.
pub struct Effects {
    list: Vec<Effect>,
}

impl Drop for Effects {
    fn drop(self) {
        let Effects { list: _list } = self;
    }
}

impl Model for Effects {
    ghost use Rattle.std.specs.Prelude.{List};
    ghost use Rattle.iscsi_rules.specs.declared.effect.Effect.{Effect};

    ghost Value = { List Effect };

    ghost view = { λ e. e.list.items };
}

impl Effects {
    /// The effects of a list, without memory.
    pub fn from_vec(list: Vec<Effect>) -> Effects
        ensures { result ≡ list.items }
    {
        Effects { list }
    }

    /// The list of the effects, without memory.
    pub fn into_vec(self) -> Vec<Effect>
        ensures { result.items ≡ self }
    {
        let Self { list } = self;
        list
    }

    /// The effects, in order.
    pub fn as_slice(&self) -> &[Effect]
        ensures { result.now ≡ self.now }
    {
        self.list.as_slice()
    }
}

/// What one event came to.
#[derive(Drop)]
pub struct Entry {
    /// ExpCmdSN and MaxCmdSN at its end.
    pub numbers: Numbers,
    pub effects: Effects,
}

/// One entry for each event.
pub type Log = Vec<Entry>;
