//! The layout of a tree page: 127 coefficients and 128 children in 4,096 bytes.
//!
//! Byte 0 is 2, byte 1 the page level. 254 flags stand from 8 on, flag b in byte 8 + b / 8 with the value
//! 2^(b mod 8): the left and the right one of each node. Two differences of eight bytes a node follow
//! from 40 on, and from 2,072 on the numbers of the children's pages, four bytes each. All other bits are
//! 0. Numbers are big-endian, signed ones in two's complement.
//!
//! Node 0 is the top, the nodes 2n + 1 and 2n + 2 lie below node n, and the children below the nodes 63
//! to 126. `specs/Layout.antt` has each field's rule. A `PageView` is a page that keeps all of them.
//! Whether the coefficients are those of a series is left to the layers above. No call takes memory.
#![tactic(auto)]

pub mod byte_fields;
mod errors;
mod fields;
pub mod laws;
mod layout;
mod page_view;
mod places;
mod rules;
mod setting;

pub use errors::BadPage;
pub use fields::child_of;
pub use page_view::PageView;
pub use places::{node_number, page_index, page_level};
pub use setting::{set_child, set_coef, set_level};
