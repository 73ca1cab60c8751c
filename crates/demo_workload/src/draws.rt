ghost use Rattle.std.specs.Prelude.{◌≡◌, ◌+◌, ◌≤◌, ◌<◌, IfOk, OnOk, unsigned_abs};
ghost use Rattle.demo_workload.specs.Draws.{next_state, number_in, moved, after_draw, walked, values};

use std::alloc::{AllocError, Global};

/// The values of an append.
const VALUES: u32 = 256;

/// Where the draws of a workload stand: the generator's state, and the last value.
#[derive(Clone, Copy)]
pub(crate) struct Walk {
    pub(crate) state: u64,
    pub(crate) value: i64,
}

impl Walk {
    /// Draws a number.
    pub(crate) fn draw(&mut self) -> u64
        ensures walk { self.new ≡ record self.old { state = next_state self.old.state } }
        ensures number { result ≡ number_in (next_state self.old.state) }
    {
        self.state = next_state(self.state);
        self.state >> 33
    }

    /// Draws the next value.
    fn step(&mut self)
        requires { unsigned_abs self.old.value ≤ 104857600 }
        ensures walk { self.new ≡ after_draw self.old }
        ensures near { unsigned_abs self.new.value ≤ unsigned_abs self.old.value + 100 }
    {
        let draw = self.draw();
        self.value = moved(self.value, draw);
    }

    /// Draws the values of an append.
    #[tactic(auto, using(crate::proofs::Walking::walked_more, crate::proofs::Walking::values_more))]
    pub(crate) fn values(&mut self, alloc: Global) -> Result<Vec<Option<i128>>, AllocError>
        requires { unsigned_abs self.old.value + 25600 ≤ 104857600 }
        ensures values { IfOk result (λ list. list.items ≡ values 256 self.old) }
        ensures walk { OnOk result (self.new ≡ walked 256 self.old) }
        ensures near { OnOk result (unsigned_abs self.new.value ≤ unsigned_abs self.old.value + 25600) }
    {
        let mut values = Vec::with_capacity(alloc, VALUES as usize)?;
        for drawn in 0..VALUES {
            self.step();
            values.push(Some(i128::from(self.value)))?;
        }
        Ok(values)
    }
}

/// The state behind a draw.
#[tactic(auto, unfolding(crate::specs::Draws::next_state))]
fn next_state(state: u64) -> u64
    ensures { result ≡ next_state state }
{
    state
        .wrapping_mul(6_364_136_223_846_793_005)
        .wrapping_add(1_442_695_040_888_963_407)
}

/// The value behind this one, by a draw.
fn moved(value: i64, draw: u64) -> i64
    requires { unsigned_abs value ≤ 104857600 }
    ensures value { result ≡ moved value draw }
    ensures near { unsigned_abs result ≤ unsigned_abs value + 100 }
{
    value + (draw % 201) as i64 - 100
}
