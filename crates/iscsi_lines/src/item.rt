//! What stands in a line.

ghost use Rattle.std.specs.Prelude.{◌≡◌};
ghost use Rattle.iscsi_lines.specs.Lines.{owes};

/// What a command owes that left its task set by an abort or a Logout.
#[derive(Clone, Copy, Debug, PartialEq, Eq)]
pub struct Owing {
    /// Its connection.
    pub conn: u16,
    /// Whether its unit may still touch the medium for it.
    pub running: bool,
    /// Whether something of it is under way on its connection.
    pub under_way: bool,
}

/// What stands in a line: a command, or an answer that waits and the connection that it goes out on.
#[derive(Clone, Copy, Debug, PartialEq, Eq)]
pub enum Item {
    Command(Owing),
    Answer(u16),
}

impl Owing {
    /// Whether it owes anything.
    pub fn owes(self) -> bool
        ensures { result ≡ owes self }
    {
        self.running || self.under_way
    }
}
