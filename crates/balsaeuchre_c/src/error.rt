//! The numbers of errors, as the header for C has them.

ghost use Rattle.std.specs.Prelude.{◌≡◌, ◌≤◌, Some};
ghost use Rattle.qbase.specs.declared.errno.TheConstants.{ERRNOS};
ghost use Rattle.balsaeuchre_c.specs.Numbers.{numbered};

use qbase::errno::Errno;

/// Returns the number of an error, 1 to 11.
pub fn errno_number(errno: Errno) -> u8
    ensures value { numbered ERRNOS result ≡ Some errno }
    ensures low { 1 ≤ result }
{
    match errno {
        Errno::Srch => 1,
        Errno::Badf => 2,
        Errno::Inval => 3,
        Errno::Again => 4,
        Errno::Intr => 5,
        Errno::Busy => 6,
        Errno::NoMemory => 7,
        Errno::Down => 8,
        Errno::Exhausted => 9,
        Errno::TraceFull => 10,
        Errno::NoThread => 11,
    }
}
