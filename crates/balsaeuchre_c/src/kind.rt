//! The numbers of the kinds of calls, as the header for C has them.

ghost use Rattle.std.specs.Prelude.{◌≡◌};
ghost use Rattle.balsaeuchre_c.specs.Numbers.{numbered};

use qmodel::kind::{CallKind, KINDS};

/// Returns the kind with this number, 1 to 17, or `None` for any other number.
pub fn kind_of(number: u8) -> Option<CallKind>
    ensures { result ≡ numbered KINDS number }
{
    numbered(&KINDS, number)
}

fn numbered(kinds: &[CallKind], number: u8) -> Option<CallKind>
    ensures { result ≡ numbered kinds.now number }
{
    if number == 0 {
        return None;
    }
    kinds.get(usize::from(number) - 1).copied()
}
