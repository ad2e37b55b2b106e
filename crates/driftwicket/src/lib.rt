// The product: every entry point, and every type that one takes or answers with.
#![tactic(auto)]

pub use header_fields::{Part, Place};
pub use header_parts::{header_destination, header_part, header_source, header_token};
pub use header_reading::{Header, read_header};
pub use header_writing::Plain;
pub use integers::{Integer, read_integer};
pub use keys::{Side, initial_keys, install_keys};
pub use numbers::{FullPn, TruncatedPn};
pub use numbers_recovery::recover;
pub use numbers_shortening::{shorten, smallest_length};
pub use octets::refusal::Refusal;
pub use open::open;
pub use open_writing::Opened;
pub use protection::Keys;
pub use retry_checking::{RetryFields, check_retry};
pub use retry_parts::{retry_destination, retry_part, retry_source, retry_token};
pub use retry_writing::{Retry, write_retry};
pub use seal::seal;
pub use versions::level;
