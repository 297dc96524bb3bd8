//! A store in memory.

ghost use Rattle.std.specs.Prelude.{◌≡◌, vec_len};
ghost use Rattle.store.specs.Limits.{max_sites};

use pair::Pair;

mod calls;
mod held;
mod pair;

/// A store that keeps its slots in memory and never wears out.
///
/// It takes all its memory when it is made, so that no later call wants any.
#[derive(Drop)]
pub struct Table {
    // the slots of the sites, those of site 1 first
    sites: Vec<Pair>,
    ghost whole: { vec_len sites ≡ max_sites },
}
