//! The flags of a channel.

ghost use Rattle.std.specs.Prelude.{⊤, ◌≡◌, [], ◌∷◌, codes, nat_lt, bit_and, ◌==◌};

use bitflags::{Flag, Flags, bitflag_items};

/// The flags that a server passes to ChannelCreate. The bits are the kernel's own, not QNX's.
#[derive(Clone, Copy, Debug, PartialEq, Eq)]
pub struct ChannelFlags(u8);

bitflag_items! {
    impl ChannelFlags: u8 {
        const FIXED_PRIORITY = 1;
        const UNBLOCK = 2;
        const DISCONNECT = 4;
    }
}

impl Flags for ChannelFlags {
    type Bits = u8;

    ghost exact = { ⊤ };

    ghost table = { (codes "FIXED_PRIORITY", 1) ∷ (codes "UNBLOCK", 2) ∷ (codes "DISCONNECT", 4) ∷ [] };

    ghost set_of = { λ p. p.0 };

    fn flags<'a>() -> &'a [Flag<ChannelFlags>] {
        ChannelFlags::FLAGS
    }

    fn bits(&self) -> u8 {
        self.0
    }

    fn from_bits_retain(bits: u8) -> ChannelFlags {
        ChannelFlags(bits)
    }
}

impl ChannelFlags {
    /// Makes flags from these bits; any bits are allowed.
    /// `ChannelFlags::of(0)` has no flag.
    pub fn of(bits: u8) -> ChannelFlags
        ensures { result.0 ≡ bits }
    {
        Self(bits)
    }

    /// Returns whether each set bit is the bit of one of the three flags.
    pub fn is_known(self) -> bool
        ensures { result ≡ nat_lt self.0 8 }
    {
        self.0 < 8
    }

    /// Returns whether `FIXED_PRIORITY` is set: then the priority of a thread doesn't change when it receives
    /// from the channel.
    pub fn fixes_priority(self) -> bool
        ensures { result ≡ (bit_and self.0 1 == 1) }
    {
        self.contains(ChannelFlags::FIXED_PRIORITY)
    }

    /// Returns whether `UNBLOCK` is set: then the server gets a pulse if a client is to be unblocked while
    /// the server holds its message.
    pub fn tells_unblock(self) -> bool
        ensures { result ≡ (bit_and self.0 2 == 2) }
    {
        self.contains(ChannelFlags::UNBLOCK)
    }

    /// Returns whether `DISCONNECT` is set: then the server gets a pulse when a process detaches its last
    /// connection to the channel.
    pub fn tells_disconnect(self) -> bool
        ensures { result ≡ (bit_and self.0 4 == 4) }
    {
        self.contains(ChannelFlags::DISCONNECT)
    }
}
