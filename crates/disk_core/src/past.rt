//! The moments that a disk in memory has been through. They exist only in proofs, and take no memory.
ghost use Rattle.std.specs.Prelude.{◌≡◌, List, [], ◌∷◌, ◌++◌};
ghost use Rattle.std.specs.Borrow.{ftrue};
ghost use Rattle.disk_core.specs.DiskModel.{Moment};
ghost use Rattle.disk_core.specs.MomentCode.{moments_code};

use crate::recent::Recent;
use std::marker::Model;

/// The moments that the clock has counted, the oldest first.
#[derive(Drop)]
pub struct Past {
    pub ghost moments: { List Moment } by { moments_code },
}

impl Model for Past {
    ghost also_owns = { λ _. ftrue };
}

// A struct with `also_owns` has neither by itself. This one owns nothing.
unsafe impl Send for Past {}

unsafe impl Sync for Past {}

impl Past {
    ghost use Rattle.disk_core.specs.Recents.{moment_of};

    pub fn new() -> Past
        ensures { result.moments ≡ [] }
    {
        Past {}
    }

    /// The moments so far, and the present one.
    pub fn and(&self, _recent: &Recent) -> Past
        ensures { result.moments ≡ self.now.moments ++ moment_of _recent.now ∷ [] }
    {
        Past {}
    }
}
