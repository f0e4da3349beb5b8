//! Single bytes and addresses.
#![tactic(auto, using(crate::specs::NumberBytes::single_byte))]

ghost use Rattle.std.specs.Prelude.{◌≡◌, ◌≢◌, length, Ok, Err};
ghost use Rattle.netlink_bytes.specs.Numbers.{Reads, number_le, signed};
ghost use Rattle.netlink_bytes.specs.declared.error.DecodeError.TheVariants.{InvalidIpAddress, InvalidMacAddress};

use crate::error::DecodeError;
use crate::numbers::array_of;

/// An IP address as its bytes, in network byte order.
#[derive(Clone, Copy, Debug, PartialEq, Eq)]
pub enum IpAddr {
    /// An IPv4 address.
    V4([u8; 4]),
    /// An IPv6 address.
    V6([u8; 16]),
}

/// Reads a `u8`. Returns `InvalidNumber` unless `payload` has exactly 1 byte. Does not allocate.
pub fn parse_u8(payload: &[u8]) -> Result<u8, DecodeError>
    ensures reads { Reads number_le 1 payload.now result }
{
    let [byte] = array_of::<1>(payload)?;
    Ok(byte)
}

/// Reads an `i8` in two's complement. Returns `InvalidNumber` unless `payload` has exactly 1 byte.
/// Does not allocate.
pub fn parse_i8(payload: &[u8]) -> Result<i8, DecodeError>
    ensures reads { Reads (λ bytes. signed 1 (number_le bytes)) 1 payload.now result }
{
    Ok(parse_u8(payload)?.cast_signed())
}

/// Returns the 6 bytes of a MAC address. Returns `InvalidMacAddress` unless `payload` has exactly 6
/// bytes. Does not allocate.
pub fn parse_mac(payload: &[u8]) -> Result<[u8; 6], DecodeError>
    ensures ok { length payload.now ≡ 6 → result ≡ Ok payload.now }
    ensures err { length payload.now ≢ 6 → result ≡ Err (InvalidMacAddress (length payload.now)) }
{
    match array_of(payload) {
        Ok(address) => Ok(address),
        Err(_) => Err(DecodeError::InvalidMacAddress {
            received: payload.len(),
        }),
    }
}

/// Returns the 16 bytes of an IPv6 address. Returns `InvalidIpAddress` unless `payload` has exactly
/// 16 bytes. Does not allocate.
pub fn parse_ipv6(payload: &[u8]) -> Result<[u8; 16], DecodeError>
    ensures ok { length payload.now ≡ 16 → result ≡ Ok payload.now }
    ensures err { length payload.now ≢ 16 → result ≡ Err (InvalidIpAddress (length payload.now)) }
{
    match array_of(payload) {
        Ok(address) => Ok(address),
        Err(_) => Err(DecodeError::InvalidIpAddress {
            received: payload.len(),
        }),
    }
}

/// Returns an IPv4 address if `payload` has 4 bytes, and an IPv6 address if it has 16. Returns
/// `InvalidIpAddress` for any other size. Does not allocate.
pub fn parse_ip(payload: &[u8]) -> Result<IpAddr, DecodeError>
    ensures v4 { length payload.now ≡ 4 → result ≡ Ok (IpAddr.V4 payload.now) }
    ensures v6 { length payload.now ≡ 16 → result ≡ Ok (IpAddr.V6 payload.now) }
    ensures err { length payload.now ≢ 4 → length payload.now ≢ 16
        → result ≡ Err (InvalidIpAddress (length payload.now)) }
{
    if payload.len() == 4 {
        Ok(IpAddr::V4(array_of(payload)?))
    } else {
        Ok(IpAddr::V6(parse_ipv6(payload)?))
    }
}
