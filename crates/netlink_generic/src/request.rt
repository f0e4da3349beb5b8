//! The request for a family by its name.

ghost use Rattle.std.specs.Prelude.{◌≡◌, ◌++◌, ◌∷◌, [], IfErr, IfOk, true};
ghost use Rattle.netlink_packet_core.specs.Attribute.{padded};
ghost use Rattle.netlink_packet_core.specs.Nla.{attribute_with};
ghost use Rattle.netlink_generic.specs.Names.{is_family_name};

use crate::controller::{
    CTRL_ATTR_FAMILY_NAME, CTRL_CMD_GETFAMILY, ControllerFamily, ControllerMessage, GENL_CMD,
    GENL_ID_CTRL, GENL_NAMSIZ, GENL_VERSION,
};
use netlink_family::{FamilyError, OwnedMessage, Value, bytes_until_nul};
use std::alloc::Global;

/// The version of the controller's commands, as the kernel's tools send it.
const VERSION: u8 = 1;

/// Returns whether a family can have this name: it has fewer than `GENL_NAMSIZ` bytes, and no NUL.
pub fn is_family_name(name: &str) -> bool
    ensures { result ≡ is_family_name name.now }
{
    let bytes = name.as_bytes();
    bytes.len() < GENL_NAMSIZ && bytes_until_nul(bytes).len() == bytes.len()
}

/// Returns the request for the family with this name (`CTRL_CMD_GETFAMILY`). Requires that a family
/// can have the name (`is_family_name`). Returns `OutOfMemory` if an allocation fails.
#[tactic(auto, using(crate::proofs::Names::nul_is_last))]
pub fn request_by_name(alloc: Global, name: &str) -> Result<ControllerMessage, FamilyError>
    requires name { is_family_name name.now ≡ true }
    ensures message_type { IfOk result (λ m. m.message_type ≡ GENL_ID_CTRL) }
    ensures payload { IfOk result (λ m. m.bytes.items ≡ (CTRL_CMD_GETFAMILY ∷ VERSION ∷ 0 ∷ 0 ∷ [])
        ++ padded (attribute_with CTRL_ATTR_FAMILY_NAME (name.now ++ (0 ∷ [])))) }
    ensures whole { IfOk result (λ m. m.short ≡ 0) }
    ensures memory { IfErr result (λ e. e ≡ FamilyError.OutOfMemory) }
{
    let mut text = Vec::from_slice(alloc, name.as_bytes())?;
    text.push(0)?;
    let mut request = OwnedMessage::<ControllerFamily>::new(alloc, GENL_ID_CTRL)?;
    request.set_u8(GENL_CMD, CTRL_CMD_GETFAMILY);
    request.set_u8(GENL_VERSION, VERSION);
    request.push(alloc, CTRL_ATTR_FAMILY_NAME, Value::Str(&text))?;
    Ok(request)
}
