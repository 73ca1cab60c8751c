ghost use Rattle.std.specs.Prelude.{◌≡◌};
ghost use Rattle.std.specs.Hash as fed;
ghost use Rattle.coefficient_cache.specs.Pairs.{series_key};
ghost use Rattle.coefficient_cache.specs.Mixed.{mixed};

use om3_coeff::Key;
use std::hash::{Hash, Hasher};

/// A key of one of the series, for which a list holds a coefficient. It has the fields of the key in
/// the tree of that series, since a pair then takes 16 bytes less.
#[derive(Clone, Copy, PartialEq, Eq)]
pub struct SeriesKey {
    /// The number of the series.
    pub series: u16,
    /// The level of the key.
    pub level: u8,
    /// The index of the key on its level.
    pub index: u64,
}

impl SeriesKey {
    /// The key in the tree of the series.
    pub fn new(series: u16, key: Key) -> SeriesKey
        ensures { result ≡ series_key series key }
    {
        SeriesKey {
            series,
            level: key.level,
            index: key.index,
        }
    }
}

impl SeriesKey {
    // All fields in one number, which is another one for another key where the index is below 2^40.
    fn mixed(self) -> u64
        ensures { result ≡ mixed self }
    {
        let high = u64::from(self.level) * (1 << 56) + u64::from(self.series) * (1 << 40);
        high.wrapping_add(self.index)
    }
}

// One number is hashed faster than three.
impl Hash for SeriesKey {
    ghost use Rattle.coefficient_cache.specs.Mixed.{mixed, fed_alike};

    ghost hash_input = { λ k. fed.u64 (mixed k) };

    ghost respects_eq = { λ x y same. fed_alike x y same };

    fn hash<H: Hasher>(&self, state: &mut H) {
        self.mixed().hash(state);
    }
}
