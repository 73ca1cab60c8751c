ghost use Rattle.std.specs.Prelude.{◌≡◌};

use crate::coef::Coef;
use crate::key::Key;
use std::marker::Model;

/// A list of keys with their coefficients.
#[derive(Drop)]
pub struct Coefs {
    items: Vec<(Key, Coef)>,
}

impl Model for Coefs {
    ghost use Rattle.std.specs.Prelude.{List};
    ghost use Rattle.om3_coeff.specs.declared.key.Key.{Key};
    ghost use Rattle.om3_coeff.specs.declared.coef.Coef.{Coef};

    ghost Value = { List (Key × Coef) };

    ghost view = { λ coefs. coefs.items.items };
}

impl Coefs {
    /// The pairs of a vector. It takes no memory.
    pub fn from_vec(items: Vec<(Key, Coef)>) -> Coefs
        ensures { result ≡ items.items }
    {
        Coefs { items }
    }

    /// The pairs, from the first on.
    pub fn as_slice(&self) -> &[(Key, Coef)]
        ensures { result.now ≡ self.now }
    {
        &self.items
    }

    /// The vector of the pairs. It takes no memory.
    pub fn into_vec(self) -> Vec<(Key, Coef)>
        ensures { result.items ≡ self }
    {
        self.items
    }
}
