//! Sets of flags, by their names.

ghost use Rattle.std.specs.Prelude.{◌≡◌, Some};
ghost use Rattle.netlink_values.specs.Flags.{flag_text, flags_text, left, names_in, rest_text};

use std::fmt;

/// The bits of a flag, and its name.
pub type Flag = (u64, &'static str);

/// A set of flags, and the table of their names. It prints the names of the flags that are set, in the
/// order of the table, with commas between them, and then the other bits in hexadecimal: `UP,0x4000`.
/// An empty set prints nothing. A flag is set if all its bits are, and no flag before it has taken one.
#[derive(Clone, Copy, Debug, PartialEq, Eq)]
pub struct Flags<'a> {
    /// The bits.
    pub bits: u64,
    /// The table of names.
    pub names: &'a [Flag],
}

impl fmt::Display for Flags<'_> {
    ghost output = { λ it. Some (flags_text (names_in it.names.now) it.bits) };

    fn fmt<W: fmt::Write>(&self, f: &mut fmt::Formatter<W>) -> fmt::Result {
        let mut rest = self.bits;
        for row in self.names {
            let named = Named { flag: *row, rest };
            write!(f, "{named}")?;
            rest = left(row.0, rest);
        }
        let rest = Rest(rest);
        write!(f, "{rest}")
    }
}

/// A flag, and the bits that may have it. It prints the name, if the flag is set, and a comma, if bits
/// are left after it.
#[derive(Clone, Copy)]
struct Named {
    flag: Flag,
    rest: u64,
}

impl fmt::Display for Named {
    ghost output = { λ it. Some (flag_text (it.flag.0, it.flag.1.now) it.rest) };

    fn fmt<W: fmt::Write>(&self, f: &mut fmt::Formatter<W>) -> fmt::Result {
        let name = self.flag.1;
        if self.rest & self.flag.0 != self.flag.0 {
            Ok(())
        } else if left(self.flag.0, self.rest) == 0 {
            write!(f, "{name}")
        } else {
            write!(f, "{name},")
        }
    }
}

/// Bits without a name. It prints them in hexadecimal, and nothing if there are none.
#[derive(Clone, Copy)]
struct Rest(u64);

impl fmt::Display for Rest {
    ghost output = { λ it. Some (rest_text it.0) };

    fn fmt<W: fmt::Write>(&self, f: &mut fmt::Formatter<W>) -> fmt::Result {
        let rest = self.0;
        if rest == 0 {
            return Ok(());
        }
        write!(f, "0x{rest:x}")
    }
}

/// Returns the bits that are left after a flag.
fn left(bits: u64, rest: u64) -> u64
    ensures { result ≡ left bits rest }
{
    if rest & bits == bits {
        rest ^ bits
    } else {
        rest
    }
}
