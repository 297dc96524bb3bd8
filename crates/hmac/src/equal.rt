//! Comparing signatures.

ghost use Rattle.std.specs.Prelude.{◌≡◌};
ghost use Rattle.std.specs.Str.{bytes_eq};
ghost use Rattle.hmac.specs.Differing.{differing};

/// Whether `signature` is `mac`. It looks at every byte, whatever the bytes before it are, so that the time tells nothing of
/// where they differ.
pub(crate) fn equal(signature: &[u8], mac: &[u8; 32]) -> bool
    ensures { result ≡ bytes_eq signature.now mac.now }
{
    signature.len() == mac.len() && differing(signature, mac) == 0
}

// The bits in which the bytes of `a` and `b` differ, those of all places together.
fn differing(a: &[u8], b: &[u8]) -> u8
    ensures { result ≡ differing a.now b.now }
{
    a.iter().zip(b).fold(0, |bits, (x, y)| bits | (*x ^ *y))
}
