//! Laws over fronts of what a service sends, cut anywhere: what `draw` makes of them, and which book stands behind them.
#![tactic(auto)]

pub mod laws;
