//! Copies between slices of different lengths.

ghost use Rattle.std.specs.Prelude.{◌≡◌, drop};
ghost use Rattle.qbase.specs.Copying.{lay_over, laid_count};

/// Copies `bytes` over the target from index `at` on, until either ends. Returns how many bytes it copied;
/// that is 0 if `at` is at or past the target's end.
pub fn lay(target: &mut [u8], at: usize, bytes: &[u8]) -> usize
    ensures after { target.new ≡ lay_over target.old at bytes.now }
    ensures count { result ≡ laid_count target.old at bytes.now }
{
    if at >= target.len() {
        return 0;
    }
    let count = bytes.len().min(target.len() - at);
    target[at..at + count].copy_from_slice(&bytes[..count]);
    count
}

/// Copies `source`, from index `at` on, over the front of the target, until either ends. Returns how many
/// bytes it copied; that is 0 if `at` is at or past the end of `source`.
pub fn take(source: &[u8], at: usize, target: &mut [u8]) -> usize
    ensures after { target.new ≡ lay_over target.old 0 (drop at source.now) }
    ensures count { result ≡ laid_count target.old 0 (drop at source.now) }
{
    if at < source.len() {
        lay(target, 0, &source[at..])
    } else {
        0
    }
}
