//! The commands of the program.

ghost use Rattle.std.specs.Prelude.{◌≡◌};
ghost use Rattle.netlink_frame.specs.Ending.{command_of};

/// A command: what the program writes for an input.
#[derive(Clone, Copy, Debug, PartialEq, Eq)]
pub enum Command {
    /// The canonical frame of the message whose frame is at the start of the input.
    Normalize,
    /// The six lines of that message.
    Show,
    /// The lines of the attributes of the input, up to the error that ends the walk, if there is
    /// one.
    Nlas,
    /// The canonical block of those attributes.
    Canon,
    /// The lines of the frames of the input as a datagram, up to the error that ends the walk, if
    /// there is one.
    Frames,
}

impl Command {
    /// Returns the command that `word` names, or `None` for any other string.
    pub fn from_text(word: &str) -> Option<Command>
        ensures names { result ≡ command_of word.now }
    {
        match word {
            "normalize" => Some(Command::Normalize),
            "show" => Some(Command::Show),
            "nlas" => Some(Command::Nlas),
            "canon" => Some(Command::Canon),
            "frames" => Some(Command::Frames),
            _ => None,
        }
    }
}
