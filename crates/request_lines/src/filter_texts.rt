ghost use Rattle.std.specs.Prelude.{◌≡◌, IfOk};

use std::alloc::{AllocError, Global};
use std::marker::Model;

/// The text of a filter, whatever its bytes are. It is seen as the list of its bytes.
#[derive(Drop)]
pub struct FilterText {
    bytes: Vec<u8>,
}

impl Model for FilterText {
    ghost use Rattle.std.specs.Prelude.{ℕ, List};

    ghost Value = { List ℕ };

    ghost view = { λ text. text.bytes.items };
}

impl FilterText {
    /// The text of these bytes.
    pub fn from_vec(bytes: Vec<u8>) -> FilterText
        ensures { result ≡ bytes.items }
    {
        FilterText { bytes }
    }

    // The text of a copy of these bytes.
    pub(crate) fn new(alloc: Global, bytes: &[u8]) -> Result<FilterText, AllocError>
        ensures { IfOk result (λ text. text ≡ bytes.now) }
    {
        Ok(FilterText {
            bytes: Vec::from_slice(alloc, bytes)?,
        })
    }

    /// The bytes of the text.
    pub fn as_slice(&self) -> &[u8]
        ensures { result.now ≡ self.now }
    {
        &self.bytes
    }
}
