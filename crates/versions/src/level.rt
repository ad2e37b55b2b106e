// RFC 9001 section 4: the encryption levels, by the numbers that key records have for them.
// Kept: numbers and no enum, for any byte may stand for a level in a key record of C, and sealing and opening answer for each
// (`header_long::only_level`, `header_writing::is_written_by`); dw_install_keys takes any number too.
pub const INITIAL: u8 = 0;

pub const ZERO_RTT: u8 = 1;

pub const HANDSHAKE: u8 = 2;
