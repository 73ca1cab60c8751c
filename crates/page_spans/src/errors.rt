use thiserror::Error;

/// The first node whose coefficient doesn't split the span that the nodes above give it.
#[derive(Clone, Copy, Debug, Error)]
#[error("the coefficient of node {node} doesn't fit its span")]
pub struct BadNode {
    pub node: u8,
}
