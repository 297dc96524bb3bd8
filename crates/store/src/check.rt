//! The checks that come before a read or a write.

ghost use Rattle.std.specs.Prelude.{length};
ghost use Rattle.store.specs.Checks.{ChecksSite, ChecksWrite};

use crate::fault::Fault;
use crate::slot::{MAX_SITES, MAX_SLOT};

// Whether there are slots for this site.
pub(crate) fn check_site(site: u8) -> Result<(), Fault>
    ensures { ChecksSite site result }
{
    if !(1..=MAX_SITES).contains(&site) {
        return Err(Fault::OutOfRange);
    }
    Ok(())
}

// Whether these bytes can be written for this site, with so many rewrites left.
pub(crate) fn check_write(site: u8, bytes: &[u8], left: u32) -> Result<(), Fault>
    ensures { ChecksWrite site (length bytes.now) left result }
{
    check_site(site)?;
    if bytes.len() > MAX_SLOT {
        return Err(Fault::TooLong);
    }
    if left == 0 {
        return Err(Fault::NoRewriteLeft);
    }
    Ok(())
}
