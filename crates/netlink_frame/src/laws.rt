//! Laws of the definitions in the program's contracts.

ghost use Rattle.std.specs.Prelude.{◌≡◌, ◌↔◌, ℕ, List, Option, IsTrue};
ghost use Rattle.netlink_packet_core.specs.DecodeError.{DecodeError};
ghost use Rattle.netlink_frame.specs.Run.{IsSameFault, Makes, SameFault};
ghost use Rattle.netlink_frame.specs.declared.command.Command.{Command};
ghost use Rattle.netlink_frame.specs.declared.run.Fault.{Fault};

use crate::ping_pong::PingPongMessage;
use crate::run::Fault;
use netlink_packet_core::laws::{causes_equal, frame_unique, refusal_unique, walk_unique};
use netlink_tree::laws::frames_unique;

/// For an input, a command has at most one output and one error, apart from the protocol's own
/// words in the error.
pub fn makes_once()
    ensures once { (command : Command) (input first second : List ℕ) (e f : Option DecodeError)
        → Makes command input first e → Makes command input second f
        → (first ≡ second) × SameFault e f }
{
    frame_unique::<PingPongMessage>();
    refusal_unique::<PingPongMessage>();
    walk_unique();
    frames_unique();
}

/// Two errors of runs are equal if and only if they are the same variant and hold equal errors.
pub fn faults_equal()
    ensures equal { (a b : Fault) → IsTrue (⟦<Fault as PartialEq>⟧.eq a b) ↔ IsSameFault a b }
{
    causes_equal()
}
