ghost use Rattle.std.specs.Prelude.{◌≡◌};
ghost use Rattle.zoom_session.specs.Planned.{IsInBounds};

use needed_nodes::Needed;
use om3_coeff::{Coef, Coefs, Key};
use std::marker::Model;

/// What a view takes: the keys that it needs with their present coefficients, and those of them that
/// are to be sent. Both lists go by falling level and then by rising index.
#[derive(Drop)]
pub struct ViewPlan {
    pub(crate) needed: Needed,
    pub(crate) send: Coefs,
}

impl Model for ViewPlan {
    ghost use Rattle.zoom_session.specs.Planned.{Plan, IsInBounds};

    ghost Value = { Plan };

    ghost view = { λ plan. record { needed = plan.needed; send = plan.send } };

    ghost invariant = { λ plan. IsInBounds (record { needed = plan.needed; send = plan.send }) };
}

impl ViewPlan {
    /// The keys that the view needs, with their present coefficients.
    pub fn needed(&self) -> &[(Key, Coef)]
        ensures needed { result.now ≡ self.now.needed }
        ensures bounds { IsInBounds self.now }
    {
        self.needed.as_slice()
    }

    /// Those of them that the session's client lacks or holds with another coefficient.
    pub fn send(&self) -> &[(Key, Coef)]
        ensures send { result.now ≡ self.now.send }
        ensures bounds { IsInBounds self.now }
    {
        self.send.as_slice()
    }

    /// The list of those that are sent. It takes no memory.
    pub fn into_send(self) -> Coefs
        ensures send { result ≡ self.send }
        ensures bounds { IsInBounds self }
    {
        self.send
    }
}
