//! Signing into the middle of a buffer, for any kind of scheme.

ghost use Rattle.signature.specs.Calls.{SignsAt};

use super::refusal::Refusal;
use super::scheme::Scheme;

/// Signs `text` for `site`, puts the signature into `out` from `start` on and answers where it ends.
pub fn sign_at<S: Scheme>(
    scheme: &mut S,
    site: u8,
    text: &[u8],
    out: &mut [u8],
    start: usize,
) -> Result<usize, Refusal>
    ensures { SignsAt S.Scheme.G (S.Scheme.means scheme.old) (S.Scheme.means scheme.new) site text.now start out.old out.new result }
{
    let end = out.len();
    let begin = start.min(end);
    scheme.sign(site, text, &mut out[begin..end])?;
    Ok(begin + S::G)
}
