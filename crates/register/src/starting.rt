ghost use Rattle.std.specs.Prelude.{◌≡◌, map, IfOk};
ghost use Rattle.version.specs.Shape.{Size};
ghost use Rattle.rules.specs.Law.{Law};
ghost use Rattle.register.specs.Start.{Starts, new_sites};
ghost use Rattle.site.specs.State.{state};
ghost use Rattle.register.specs.Worked.{Worked};

use super::group::{Group, Reason, Unstarted};
use digest::Digest;
use host::Host;
use signature::Scheme;
use site::Site;
use std::alloc::{AllocError, Global};
use store::Store;

/// Starts a group of `size` sites over a scheme, a digest and a store, in whatever state these are.
///
/// Refused if `size` is not 1 to 8, or for want of memory; all that was handed in then comes back.
///
/// What holds of every run of such groups, with any host and with ours, is the law on this call's contract.
pub fn start<S: Scheme, D: Digest, T: Store>(
    heap: Global,
    size: u8,
    scheme: S,
    digest: D,
    store: T,
) -> Result<Group<S, D, T>, Unstarted<S, D, T>>
    ensures starts { Starts S.Scheme.G S.Scheme.means D.Digest.means T.Store.means size scheme digest store result }
    ensures law { Law }
    ensures worked { Worked }
{
    make(heap, size, scheme, digest, store)
}

// Makes the host and the sites.
fn make<S: Scheme, D: Digest, T: Store>(
    heap: Global,
    size: u8,
    scheme: S,
    digest: D,
    store: T,
) -> Result<Group<S, D, T>, Unstarted<S, D, T>>
    ensures { Starts S.Scheme.G S.Scheme.means D.Digest.means T.Store.means size scheme digest store result }
{
    let host = match Host::new(size, S::G, store) {
        Ok(host) => host,
        Err(unstarted) => {
            let host::Unstarted { store, refusal: _ } = unstarted;
            return Err(Unstarted {
                scheme,
                digest,
                store,
                reason: Reason::OutOfRange,
            });
        }
    };
    match all_sites(heap, size) {
        Ok(sites) => Ok(Group {
            scheme,
            digest,
            host,
            sites,
        }),
        Err(_) => Err(Unstarted {
            scheme,
            digest,
            store: host.into_store(),
            reason: Reason::NoMemory,
        }),
    }
}

// The sites of a group of this size, site 1 first, which have seen and written nothing yet.
fn all_sites(heap: Global, size: u8) -> Result<Vec<Site>, AllocError>
    requires { Size size }
    ensures { IfOk result (λ v. map state v.items ≡ new_sites size size) }
{
    let mut sites = Vec::with_capacity(heap, size as usize)?;
    for number in 1..=size {
        sites.push_reserved(Site::new(size, number).unwrap());
    }
    Ok(sites)
}
