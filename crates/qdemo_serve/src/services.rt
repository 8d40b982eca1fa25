//! The services of the server. The first byte of a message names its service.

/// The service that replies with the message itself.
pub const ECHO: u8 = 1;

/// The service that replies with the sum of the bytes after the first, as 8 bytes in big endian order.
pub const SUM: u8 = 2;

/// The error code of a message that names no service.
pub const NO_SERVICE: i32 = 1;

/// The reply of a service.
#[derive(Clone, Copy)]
pub enum ServiceOutcome {
    /// The message itself.
    Same,
    /// These bytes.
    Bytes([u8; 8]),
    /// An error, and no bytes.
    Error(i32),
}

/// Returns the reply of the service that a message names. It is the error `NO_SERVICE` if the message names
/// no service or is empty.
pub fn serve_one(message: &[u8]) -> ServiceOutcome {
    match message.split_first() {
        Some((&ECHO, _)) => ServiceOutcome::Same,
        Some((&SUM, rest)) => ServiceOutcome::Bytes(sum_of(rest).to_be_bytes()),
        _ => ServiceOutcome::Error(NO_SERVICE),
    }
}

/// Returns the sum of the bytes, or 2^64 - 1 if it is greater.
pub fn sum_of(bytes: &[u8]) -> u64 {
    let mut sum: u64 = 0;
    for byte in bytes {
        sum = sum.saturating_add(u64::from(*byte));
    }
    sum
}
