ghost use Rattle.std.specs.Prelude.{◌≡◌, ◌*◌, ◌/◌, ◌<◌, ◌≤◌};
ghost use Rattle.std.specs.Int.{div_ceil};
ghost use Rattle.chart_grid.specs.Numbers.{distance};

/// How far two numbers are apart.
pub(crate) fn gap(a: i64, b: i64) -> u64
    ensures { result ≡ distance a b }
{
    b.abs_diff(a)
}

/// `n * m / by`, rounded down, whatever the size of the product.
pub(crate) fn share(n: u64, m: u16, by: u64) -> u128
    requires { 0 < by }
    ensures { result ≡ n * m / by }
{
    match n.checked_mul(u64::from(m)) {
        Some(product) => u128::from(product / by),
        None => u128::from(n) * u128::from(m) / u128::from(by),
    }
}

/// `n * m / by`, rounded up.
pub(crate) fn share_up(n: u64, m: u16, by: u64) -> u128
    requires { 0 < by }
    ensures { result ≡ div_ceil (n * m) by }
{
    match n.checked_mul(u64::from(m)) {
        Some(product) => u128::from(product.div_ceil(by)),
        None => (u128::from(n) * u128::from(m)).div_ceil(u128::from(by)),
    }
}

/// The column of the n-th of `span` moments, where there are w columns.
#[tactic(auto, using(crate::proofs::Columns::part_rules))]
pub(crate) fn part_of(n: u64, w: u16, span: u64) -> u16
    requires below { n < span }
    requires some { 0 < w }
    ensures value { result ≡ n * w / span }
    ensures below { result < w }
{
    share(n, w, span) as u16
}

/// How many of `span` moments stand before the border of column c, where there are w columns.
#[tactic(auto, using(crate::proofs::Columns::part_rules))]
pub(crate) fn steps_to(c: u16, w: u16, span: u64) -> u64
    requires within { c ≤ w }
    requires some { 0 < w }
    ensures value { result ≡ div_ceil (c * span) w }
    ensures within { result ≤ span }
{
    share_up(span, c, u64::from(w)) as u64
}
