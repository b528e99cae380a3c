//! What becomes of a request by its opcode.

/// What becomes of a request by its opcode (RFC 7143 section 11.2.1.2).
#[derive(Clone, Copy)]
pub enum Kind {
    /// It is passed over.
    PassedOver,
    /// It is rejected, and no number is looked at.
    Unknown,
    /// It executes: an immediate one at once, a numbered one when its turn comes.
    Executes,
}
