//! The settings of a demonstration.

/// The greatest number of clients.
pub const MOST_CLIENTS: u8 = 32;

/// The greatest number of servers.
pub const MOST_SERVERS: u8 = 16;

/// The greatest number of rounds of a client.
pub const MOST_ROUNDS: u16 = 1000;

/// The stack size of a worker in bytes, more than it needs.
const AMPLE_STACK: usize = 1 << 20;

/// The settings of a demonstration.
#[derive(Clone, Copy, PartialEq, Eq)]
pub struct Settings {
    /// The number of clients, 1 to 32.
    pub clients: u8,
    /// The number of servers, which receive on one channel: 1 to 16.
    pub servers: u8,
    /// The number of rounds of each client, 1 to 1,000. A round is a pulse and then a message.
    pub rounds: u16,
    /// Whether the server holds the first message until it has a second. This needs at least two clients and
    /// exactly one server.
    pub hold: bool,
    /// Whether the run and its round trips are timed.
    pub time: bool,
    /// Whether standard error shows the progress of a long run.
    pub progress: bool,
    /// Whether the kernel's calls are recorded, as a script and its trace.
    pub record: bool,
}

impl Settings {
    ghost use Rattle.std.specs.Prelude.{IsTrue, ◌↔◌};
    ghost use Rattle.qdemo_serve.specs.Fit.{Fit};

    /// Returns the number of rounds of all clients together.
    pub fn all_rounds(&self) -> u64 {
        u64::from(self.clients) * u64::from(self.rounds)
    }

    /// Returns whether the numbers are in their ranges.
    pub fn fit(&self) -> bool
        ensures { IsTrue result ↔ Fit self.now }
    {
        self.clients >= 1
            && self.clients <= MOST_CLIENTS
            && self.servers >= 1
            && self.servers <= MOST_SERVERS
            && self.rounds >= 1
            && self.rounds <= MOST_ROUNDS
    }
}

/// The sizes of the threads' stacks, in bytes, each rounded up to a multiple of 128 KiB.
#[derive(Clone, Copy, PartialEq, Eq)]
pub struct Stacks {
    /// The stack size of a server's thread.
    pub server: usize,
    /// The stack size of a client's thread.
    pub client: usize,
}

impl Stacks {
    /// Returns stack sizes that are more than a worker needs.
    pub fn ample() -> Stacks {
        Stacks {
            server: AMPLE_STACK,
            client: AMPLE_STACK,
        }
    }
}
