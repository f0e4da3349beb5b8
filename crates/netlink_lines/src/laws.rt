//! Laws about the definitions alone.

ghost use Rattle.std.specs.Prelude.{◌≡◌, ℕ, Bool, List, Option, true};
ghost use Rattle.netlink_json.specs.Grammar.{AreLines};
ghost use Rattle.netlink_lines.specs.Format.{told_from};
ghost use Rattle.netlink_lines.specs.Blocks.{ShowsBlocks};
ghost use Rattle.netlink_lines.specs.Messages.{Check, Memory, Seen};
ghost use Rattle.netlink_lines.specs.Packet.{HasTorn, ShowsPackets, Stamped, content_shown, stop_shown};
ghost use Rattle.netlink_lines.specs.Stream.{ShowsMessages, messages_of};
ghost use Rattle.netlink_lines.specs.declared.packet.Content.{Content};
ghost use Rattle.netlink_input.specs.declared.pcap.Order.{Order};
ghost use Rattle.netlink_input.specs.declared.stream.Stop.{Stop};

/// Bytes are one list of messages, of packets, and of blocks, and end in one way, and what is left
/// of a packet there is shown in one way. So an input has one output, which `told_from` gives.
pub fn shows_once()
    ensures messages { (end : ℕ) (bytes : List ℕ) (all more : List Seen) (s t : Option Stop)
        → ShowsMessages end bytes all s → ShowsMessages end bytes more t → (all ≡ more) × (s ≡ t) }
    ensures packets { (order : Order) (nano : Bool) (end : ℕ) (bytes : List ℕ) (all more : List Stamped)
        (s t : Option Stop) → ShowsPackets order nano end bytes all s → ShowsPackets order nano end bytes more t
        → (all ≡ more) × (s ≡ t) }
    ensures blocks { (input : List ℕ) (end : ℕ) (bytes : List ℕ) (all more : List Stamped) (s t : Option Stop)
        → ShowsBlocks input end bytes all s → ShowsBlocks input end bytes more t → (all ≡ more) × (s ≡ t) }
    ensures parts { (order : Order) (nano : Bool) (end : ℕ) (bytes : List ℕ) (stop : Stop) (last more : List Stamped)
        → HasTorn order nano end bytes stop last → HasTorn order nano end bytes stop more → last ≡ more }
{}

/// The output of a run that shows objects is lines of values of the grammar of RFC 8259: that of
/// messages, and what is shown of a packet that is no datagram, and of what ends a datagram early.
pub fn objects_are_json()
    ensures messages { (check : Check) (memory : Memory) (all : List Seen) → memory.options.json ≡ true
        → AreLines (told_from (messages_of check) memory all).text }
    ensures contents { (at size : ℕ) (what : Content) → AreLines (content_shown at size what true).0 }
    ensures stops { (cut : Bool) (at : ℕ) (bytes : List ℕ) (stop : Option Stop)
        → AreLines (stop_shown cut at bytes stop true).0 }
{}
