//! How long a thread spins for its completion before it sleeps.

ghost use Rattle.std.specs.Prelude.{◌≡◌, ◌+◌, ◌-◌, ◌/◌, ◌%◌, ◌^◌, ◌==◌, if◌then◌else◌, true, false};

/// The most polls of a wait. A thread pauses between two polls, each time twice as long as before, up to 64
/// pause instructions. These are some 4,800 pauses in all. A pause takes 4 to 60 ns, so these polls take 20
/// to 300 microseconds.
///
/// A thread never yields its core: on a busy machine a process that computes would keep the core for
/// milliseconds.
const MOST_LOOKS: u32 = 80;

/// Once in this many unsuccessful waits, the next wait has the most polls. So a thread finds out when
/// spinning is worthwhile again.
const TRIAL: u32 = 256;

/// How many times a thread polls for its completion before it sleeps. It has the most polls while it finds
/// completions by spinning. After each wait without success it has a sixteenth fewer, down to 15.
#[derive(Clone, Copy)]
pub(crate) struct SpinPolicy {
    looks: u32,
    in_vain: u32,
}

impl SpinPolicy {
    pub(crate) fn new() -> SpinPolicy
        ensures { (result.looks ≡ 80) × (result.in_vain ≡ 0) }
    {
        SpinPolicy {
            looks: MOST_LOOKS,
            in_vain: 0,
        }
    }

    /// Returns the number of polls of the next wait.
    pub(crate) fn looks(&self) -> u32
        ensures { result ≡ (if self.now.in_vain % 256 == 0 then 80 else self.now.looks) }
    {
        if self.in_vain % TRIAL == 0 {
            MOST_LOOKS
        } else {
            self.looks
        }
    }

    /// Notes whether the last wait found the completion by spinning.
    pub(crate) fn note(&mut self, found: bool)
        ensures found { found ≡ true → (self.new.looks ≡ 80) × (self.new.in_vain ≡ self.old.in_vain) }
        ensures in_vain { found ≡ false → (self.new.looks ≡ self.old.looks - self.old.looks / 16)
            × (self.new.in_vain ≡ (self.old.in_vain + 1) % 2 ^ 32) }
    {
        if found {
            self.looks = MOST_LOOKS;
        } else {
            self.in_vain = self.in_vain.wrapping_add(1);
            self.looks -= self.looks / 16;
        }
    }
}
