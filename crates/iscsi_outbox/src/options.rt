//! What an outbox is opened with.

ghost use Rattle.std.specs.Prelude.{◌≡◌};
ghost use Rattle.iscsi_outbox.specs.promises.Options.{are_distinct as distinct_in, is_known as known_in, is_valid as valid_options, is_within as within};

/// What an outbox is opened with. The first CmdSN, the window, the units and the connections are those of its session.
#[derive(Debug, Drop)]
pub struct OutboxOptions {
    /// The first CmdSN.
    pub first: u32,
    /// The size of the command window: 1 to 1024.
    pub window: u32,
    /// How many logical units there are, numbered from 0: 1 to 256.
    pub units: u32,
    /// The most PDUs of the target's own that wait on a connection: 1 to 1024.
    pub own: u32,
    /// Whether what was written is under way until it is known to have arrived (RFC 7143 section 4.2.2.3.4). With one
    /// connection written is enough in any case.
    pub acknowledged: bool,
    /// Whether other sessions have the units, too: the answer to a CLEAR TASK SET or a LOGICAL UNIT RESET waits until it is
    /// told that it is cleared.
    pub shared: bool,
    /// The CID of each connection: 1 to 64 of them, none twice.
    pub conns: Vec<u16>,
}

const MAX_WINDOW: u64 = 1024;

const MAX_UNITS: u64 = 256;

const MAX_OWN: u64 = 1024;

const MAX_CONNS: u64 = 64;

impl OutboxOptions {
    /// Whether every option is within its limits, and no CID stands twice.
    pub fn is_valid(&self) -> bool
        ensures { result ≡ valid_options self.now }
    {
        is_within(u64::from(self.window), MAX_WINDOW)
            && is_within(u64::from(self.units), MAX_UNITS)
            && is_within(u64::from(self.own), MAX_OWN)
            && is_within(self.conns.len() as u64, MAX_CONNS)
            && are_distinct(&self.conns)
    }
}

/// Whether the number is from 1 to `most`.
fn is_within(number: u64, most: u64) -> bool
    ensures { result ≡ within number most }
{
    1 <= number && number <= most
}

/// Whether one of the connections has this CID.
fn is_known(cid: u16, conns: &[u16]) -> bool
    ensures { result ≡ known_in cid conns.now }
{
    conns.iter().any(|conn| *conn == cid)
}

fn are_distinct(conns: &[u16]) -> bool
    ensures { result ≡ distinct_in conns.now }
{
    for (place, conn) in conns.iter().enumerate() {
        if is_known(*conn, &conns[place + 1..]) {
            return false;
        }
    }
    true
}
