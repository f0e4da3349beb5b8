//! Netlink attributes: read in place, written, and walked one after another.
#![tactic(auto)]

mod align;
mod block;
mod buffer;
mod canonical;
mod constants;
mod default;
mod fault;
mod find;
mod fitting;
mod iterator;
pub mod laws;
mod nla;
mod nlas;
mod place;

pub use crate::align::nla_align;
pub use crate::block::{append_nla, append_padding, normalize_nlas};
pub use crate::buffer::NlaBuffer;
pub use crate::canonical::{is_canonical_nlas, is_zero_padded};
pub use crate::constants::{
    NLA_ALIGNTO, NLA_F_NESTED, NLA_F_NET_BYTEORDER, NLA_HEADER_SIZE, NLA_TYPE_MASK, NLA_VALUE_MAX,
};
pub use crate::default::DefaultNla;
pub use crate::fault::nlas_fault;
pub use crate::find::{nla_find, nla_find_raw};
pub use crate::fitting::{NLA_BLOCK_MAX, NlaBlock};
pub use crate::iterator::NlasIterator;
pub use crate::nla::{Nla, emit_nla, nla_buffer_len, nla_fits};
pub use crate::nlas::{Nlas, write_nlas};
pub use crate::place::{nla_place, nlas_value_mut, write_nla_value};
