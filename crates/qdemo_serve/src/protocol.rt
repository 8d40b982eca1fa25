//! The numbers that clients and servers agree on.

ghost use Rattle.std.specs.Prelude.{◌≤◌};

use qbase::priority::Priority;

/// The priority of servers.
pub const SERVER_LEVEL: u8 = 10;

/// The priority of clients, and of the pulses that they send.
pub const CLIENT_LEVEL: u8 = 20;

/// The priority of the thread that starts the others, and of its pulses.
pub const MAIN_LEVEL: u8 = 1;

/// The thread of the first server.
pub const FIRST_SERVER: u8 = 1;

/// The thread of the first client.
pub const FIRST_CLIENT: u8 = 17;

/// The code of the pulse that a server counts.
pub const COUNT: i8 = 1;

/// The code of the pulse that stops a server.
pub const STOP: i8 = 127;

/// The length of a client's message, in bytes.
pub const MESSAGE_LENGTH: usize = 4;

/// The length of a client's reply buffer, in bytes: a sum fits into it.
pub const REPLY_LENGTH: usize = 8;

/// The length of a server's buffer, in bytes.
pub const REQUEST_LENGTH: usize = 16;

/// Returns the priority with this number.
pub fn priority(level: u8) -> Priority
    requires { 1 ≤ level }
{
    let Some(priority) = Priority::new(level) else {
        unreachable!()
    };
    priority
}
