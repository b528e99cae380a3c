//! The bytes of an encoded reply.

ghost use Rattle.std.specs.Prelude.{◌≡◌, ◌≤◌, length};
ghost use Rattle.iscsi_wire.specs.Pdus.{pdu_header, pdu_tail, bytes_of_tail};

/// What follows a reply's header.
#[derive(Clone, Copy, Debug, PartialEq, Eq)]
pub(crate) enum Tail {
    Nothing,
    /// A sense length and sense data.
    Sense([u8; 20]),
    /// A rejected header.
    Header([u8; 48]),
}

impl Tail {
    /// The length in bytes: 0, 20 or 48.
    pub(crate) fn len(self) -> u32
        ensures { result ≡ length (bytes_of_tail self) }
    {
        match self {
            Tail::Nothing => 0,
            Tail::Sense(_) => 20,
            Tail::Header(_) => 48,
        }
    }
}

/// An encoded PDU: a header of 48 bytes, and a tail of 0, 20 or 48 bytes.
#[derive(Clone, Copy, Debug, PartialEq, Eq)]
pub struct Pdu {
    header: [u8; 48],
    tail: Tail,
}

impl Pdu {
    pub(crate) fn new(header: [u8; 48], tail: Tail) -> Pdu
        ensures header { pdu_header result ≡ header }
        ensures tail { pdu_tail result ≡ bytes_of_tail tail }
    {
        Pdu { header, tail }
    }

    /// The basic header segment.
    pub fn header(&self) -> &[u8; 48]
        ensures { result.now ≡ pdu_header self.now }
    {
        &self.header
    }

    /// The data segment: sense of 20 bytes, a rejected header of 48, or nothing.
    pub fn tail(&self) -> &[u8]
        ensures bytes { result.now ≡ pdu_tail self.now }
        ensures few { length result.now ≤ 48 }
    {
        match &self.tail {
            Tail::Nothing => &[],
            Tail::Sense(bytes) => bytes,
            Tail::Header(bytes) => bytes,
        }
    }
}
