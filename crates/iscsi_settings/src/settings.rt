//! The settings of a replay.

ghost use Rattle.std.specs.Prelude.{◌≡◌};

/// The settings of a replay, with their limits.
#[derive(Clone, Copy, Debug, PartialEq, Eq)]
pub struct Settings {
    /// The first CmdSN.
    pub first: u32,
    /// The size of the command window: 1 to 1024.
    pub window: u32,
    /// How many logical units there are: 1 to 256.
    pub units: u32,
    /// The most commands of a unit's task set: 1 to 1024.
    pub depth: u32,
    /// The protocol level: 1, or 2 for the queries of RFC 7144.
    pub level: u32,
}

impl Settings {
    ghost use Rattle.iscsi_settings.specs.Limits.{are_valid};

    /// Every setting is within its limits.
    pub fn are_valid(&self) -> bool
        ensures { result ≡ are_valid self.now }
    {
        (1..=1024).contains(&self.window)
            && (1..=256).contains(&self.units)
            && (1..=1024).contains(&self.depth)
            && (1..=2).contains(&self.level)
    }
}
