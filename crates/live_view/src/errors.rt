use std::alloc::AllocError;

/// Why a line wasn't answered, or a push wasn't made.
#[derive(Drop)]
pub enum LiveFault<F> {
    /// What the stepper answered.
    Stepper(F),
    /// There was no memory. Nothing has changed.
    NoMemory,
}

impl<F> From<AllocError> for LiveFault<F> {
    ghost use Rattle.std.specs.Prelude.{◌≡◌};
    ghost use Rattle.live_view.specs.declared.errors.LiveFault.TheVariants as fault;

    ghost from_gives = { λ _ error. error ≡ fault.NoMemory };

    fn from(_error: AllocError) -> LiveFault<F> {
        LiveFault::NoMemory
    }
}
