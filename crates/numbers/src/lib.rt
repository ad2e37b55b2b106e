// RFC 9000 sections 12.3 and 17.1: packet numbers, full in the session and short on the wire.
#![tactic(auto)]

// How many full numbers there are: they run from 0 to 2^62 - 1.
pub const NUMBERS: u64 = 1 << 62;

// A number as it stands on the wire, in one to four bytes.
#[derive(Clone, Copy, Debug, PartialEq, Eq)]
pub struct TruncatedPn(pub u64);

// A number as the sender counts it and the receiver recovers it.
#[derive(Clone, Copy, Debug, PartialEq, Eq, PartialOrd, Ord)]
pub struct FullPn(pub u64);
