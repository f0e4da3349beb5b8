//! The basis of the netlink crates: integers, addresses and strings as bytes, the error type,
//! storage for views, and the traits for encoding and decoding.
#![tactic(auto)]

mod addresses;
mod context;
mod copies;
mod error;
mod fields;
mod hexadecimal;
pub mod laws;
mod nonzero;
mod numbers;
mod storage;
mod text;
mod traits;

pub use crate::addresses::{IpAddr, parse_i8, parse_ip, parse_ipv6, parse_mac, parse_u8};
pub use crate::context::ErrorContext;
pub use crate::copies::copy_of;
pub use crate::error::DecodeError;
pub use crate::fields::{i32_at, put_i32, put_u16, put_u32, u16_at, u32_at};
pub use crate::hexadecimal::{hex_pair, push_hex};
pub use crate::nonzero::NonZeroI32;
pub use crate::numbers::signed::{
    emit_i16, emit_i16_be, emit_i16_le, emit_i32, emit_i32_be, emit_i32_le, emit_i64, emit_i64_be,
    emit_i64_le, emit_i128, emit_i128_be, emit_i128_le, parse_i16, parse_i16_be, parse_i16_le,
    parse_i32, parse_i32_be, parse_i32_le, parse_i64, parse_i64_be, parse_i64_le, parse_i128,
    parse_i128_be, parse_i128_le,
};
pub use crate::numbers::unsigned::{
    emit_u16, emit_u16_be, emit_u16_le, emit_u32, emit_u32_be, emit_u32_le, emit_u64, emit_u64_be,
    emit_u64_le, emit_u128, emit_u128_be, emit_u128_le, parse_u16, parse_u16_be, parse_u16_le,
    parse_u32, parse_u32_be, parse_u32_le, parse_u64, parse_u64_be, parse_u64_le, parse_u128,
    parse_u128_be, parse_u128_le,
};
pub use crate::storage::{Storage, StorageMut};
pub use crate::text::parse_string;
pub use crate::traits::{Emitable, Parseable, ParseableParametrized};
