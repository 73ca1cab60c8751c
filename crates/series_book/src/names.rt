ghost use Rattle.std.specs.Prelude.{◌≡◌, IfOk, IfErr, IsTrue};
ghost use Rattle.std.specs.List.{list_all};
ghost use Rattle.series_book.specs.Names.{is_name, is_name_byte, RefusesName};

use crate::errors::NameError;
use crate::limits::MOST_NAME_BYTES;
use std::alloc::{AllocError, Global};
use std::marker::Model;

/// The name of a series: 1 to 31 bytes of `A-Z a-z 0-9 _ . -`. It is seen as the list of its bytes.
#[derive(Drop)]
pub struct Name {
    bytes: Vec<u8>,
}

impl Model for Name {
    ghost use Rattle.std.specs.Prelude.{ℕ, List, IsTrue};
    ghost use Rattle.series_book.specs.Names.{is_name};

    ghost Value = { List ℕ };

    ghost view = { λ name. name.bytes.items };

    ghost invariant = { λ name. IsTrue (is_name name.bytes.items) };
}

impl Name {
    /// A name of these bytes. `NotAName` comes exactly where they break the rule.
    pub fn new(alloc: Global, bytes: &[u8]) -> Result<Name, NameError>
        ensures ok { IfOk result (λ name. name ≡ bytes.now) }
        ensures named { IfOk result (λ name. IsTrue (is_name name)) }
        ensures err { IfErr result (λ error. RefusesName bytes.now error) }
    {
        if !is_name(bytes) {
            return Err(NameError::NotAName);
        }
        let bytes = Vec::from_slice(alloc, bytes)?;
        Ok(Name { bytes })
    }

    /// An equal name.
    pub fn copy(&self) -> Result<Name, AllocError>
        ensures equal { IfOk result (λ name. name ≡ self.now) }
        ensures named { IsTrue (is_name self.now) }
    {
        let alloc = *self.bytes.allocator();
        let bytes = Vec::from_slice(alloc, &self.bytes)?;
        Ok(Name { bytes })
    }

    /// The bytes of the name.
    pub fn as_slice(&self) -> &[u8]
        ensures bytes { result.now ≡ self.now }
        ensures named { IsTrue (is_name self.now) }
    {
        &self.bytes
    }
}

/// Whether the bytes are a name.
#[tactic(auto, unfolding(crate::specs::Names::is_name))]
pub fn is_name(bytes: &[u8]) -> bool
    ensures { result ≡ is_name bytes.now }
{
    !bytes.is_empty() && bytes.len() <= MOST_NAME_BYTES && are_name_bytes(bytes)
}

/// Whether a name may hold these bytes.
fn are_name_bytes(bytes: &[u8]) -> bool
    ensures { result ≡ list_all is_name_byte bytes.now }
{
    bytes.iter().all(|byte| is_name_byte(*byte))
}

/// Whether a name may hold this byte.
#[tactic(auto, unfolding(crate::specs::Names::is_name_byte))]
pub fn is_name_byte(byte: u8) -> bool
    ensures { result ≡ is_name_byte byte }
{
    byte.is_ascii_alphanumeric() || byte == b'_' || byte == b'.' || byte == b'-'
}
