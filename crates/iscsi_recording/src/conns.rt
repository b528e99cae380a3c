//! The connections of a recording.

ghost use Rattle.std.specs.Prelude.{◌≡◌, ◌==◌, [], ◌∷◌, ◌++◌, length, OnOk, OnErr};
ghost use Rattle.iscsi_rules.specs.rules.Settings.{is_known};

use std::alloc::{AllocError, Global};
use std::marker::Model;

/// The CID and the first StatSN of each connection. Whether a CID is among them is told at once.
#[derive(Debug)]
pub struct Conns {
    list: Vec<(u16, u32)>,
    /// For each CID up to the greatest of the list, whether it is there.
    known: Vec<bool>,
}

impl Drop for Conns {
    fn drop(self) {
        let Conns {
            list: _list,
            known: _known,
        } = self;
    }
}

impl Model for Conns {
    ghost use Rattle.std.specs.Prelude.{ℕ, List};

    ghost Value = { List (ℕ × ℕ) };

    ghost use Rattle.iscsi_recording.specs.Known.{TellsKnown};

    ghost view = { λ c. c.list.items };

    ghost invariant = { λ c. TellsKnown c.known.items c.list.items };
}

impl Conns {
    /// No connection, without memory.
    pub fn new(alloc: Global) -> Conns
        ensures { result ≡ [] }
    {
        Conns {
            list: Vec::new(alloc),
            known: Vec::new(alloc),
        }
    }

    /// How many there are.
    pub fn len(&self) -> usize
        ensures { result ≡ length self.now }
    {
        self.list.len()
    }

    /// Tells whether there is none.
    pub fn is_empty(&self) -> bool
        ensures { result ≡ (length self.now == 0) }
    {
        self.list.is_empty()
    }

    /// Tells whether one has this CID.
    pub fn knows(&self, cid: u16) -> bool
        ensures { result ≡ is_known cid self.now }
    {
        let place = usize::from(cid);
        place < self.known.len() && self.known[place]
    }

    /// Puts a connection behind the others. On `Err` they stay as they were.
    pub fn push(&mut self, cid: u16, stat_sn: u32) -> Result<(), AllocError>
        ensures ok { OnOk result (self.new ≡ self.old ++ (cid, stat_sn) ∷ []) }
        ensures err { OnErr result (self.new ≡ self.old) }
    {
        let place = usize::from(cid);
        if self.known.len() <= place {
            self.known.resize(place + 1, false)?;
        }
        match self.list.push((cid, stat_sn)) {
            Ok(()) => {
                self.known[place] = true;
                Ok(())
            }
            Err(_) => Err(AllocError),
        }
    }

    /// Them all, in their order.
    pub fn into_list(self) -> Vec<(u16, u32)>
        ensures { result.items ≡ self }
    {
        let Conns { list, known } = self;
        list
    }
}
