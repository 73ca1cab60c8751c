ghost use Rattle.std.specs.Prelude.{◌≡◌, ◌<◌, ◌^◌, Option};
ghost use Rattle.om3_coeff.specs.declared.key.Key.{Key};
ghost use Rattle.om3_coeff.specs.declared.coef.Coef.{Coef};
ghost use Rattle.om3_coeff.specs.Keys.{end_slot};

use om3_coeff::{Coef, Key};

/// What tells some coefficients of the tree over a series' slots.
pub trait Teller {
    /// They may be asked.
    ghost fit: { Self → Type 0 };

    /// The coefficients that are told.
    ghost told: { Self → Key → Option Coef };

    /// The coefficient of a key, if it is told.
    fn coef(&self, key: Key) -> Option<Coef>
        requires fit { fit self.now }
        requires key { end_slot key < 2 ^ 63 }
        ensures { result ≡ told self.now key };
}
