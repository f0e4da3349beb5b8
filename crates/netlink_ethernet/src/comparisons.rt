//! The numbers that have names, in ascending order, and the only function that reads them.

ghost use Rattle.std.specs.Prelude.{◌≡◌, ◌<◌, ◌+◌, ℕ, slice_index};
ghost use Rattle.std.specs.List.Sorted.{IsStrictlyIncreasing};
ghost use Rattle.std.specs.Ordering.{nat_cmp};
ghost use Rattle.netlink_ethernet.specs.Table.{numbers};

use std::cmp::Ordering;
use std::marker::Model;

/// The number of rows in the table.
pub(crate) const ROWS: usize = 102;

const NUMBERS: [u16; ROWS] = [
    0x0001, 0x0002, 0x0003, 0x0004, 0x0005, 0x0006, 0x0007, 0x0008, 0x0009, 0x000c, 0x000d, 0x000e,
    0x0010, 0x0011, 0x0015, 0x0016, 0x0017, 0x0018, 0x0019, 0x001a, 0x001b, 0x001c, 0x0060, 0x00f5,
    0x00f6, 0x00f7, 0x00f8, 0x00f9, 0x00fa, 0x0200, 0x0201, 0x0800, 0x0805, 0x0806, 0x08ff, 0x0a00,
    0x0a01, 0x22eb, 0x22f0, 0x4305, 0x6000, 0x6001, 0x6002, 0x6003, 0x6004, 0x6005, 0x6006, 0x6007,
    0x6558, 0x8035, 0x809b, 0x80f3, 0x8100, 0x8137, 0x86dd, 0x8808, 0x8809, 0x883e, 0x8847, 0x8848,
    0x884c, 0x8863, 0x8864, 0x886c, 0x8884, 0x888e, 0x8892, 0x8899, 0x88a2, 0x88a4, 0x88a8, 0x88b5,
    0x88be, 0x88c3, 0x88c7, 0x88ca, 0x88cc, 0x88e3, 0x88e5, 0x88e7, 0x88f5, 0x88f7, 0x88f8, 0x88fb,
    0x8902, 0x8906, 0x890d, 0x8914, 0x8915, 0x8917, 0x892f, 0x894f, 0x9000, 0x9100, 0x9200, 0x9300,
    0x9988, 0xdada, 0xdadb, 0xe001, 0xed3e, 0xfbfb,
];

/// States that the numbers are strictly ascending, so that one comparison also rules out every row
/// on one side of the row compared.
fn numbers_rise()
    ensures rise { IsStrictlyIncreasing NUMBERS }
{}

/// A count of comparisons between a number and those of the table.
///
/// No other function reads the table's numbers, so a lookup can learn about them only by
/// comparisons that are counted. In contracts, a value of this type is its count.
#[derive(Debug, Drop)]
pub struct Comparisons {
    count: u32,
}

impl Model for Comparisons {
    ghost Value = { ℕ };

    ghost view = { λ comparisons. comparisons.count };
}

impl Comparisons {
    /// Returns a count of zero.
    pub fn new() -> Comparisons
        ensures none { result ≡ 0 }
    {
        Comparisons { count: 0 }
    }

    /// Returns the number of comparisons made.
    pub fn count(&self) -> u32
        ensures count { result ≡ self.now }
    {
        self.count
    }

    /// Compares `sought`, in host byte order, with the number in row `index`, and adds one to the
    /// count.
    ///
    /// The rows are the 102 numbers that have names, in ascending order. Requires `index < 102`,
    /// and that the count is less than `u32::MAX`.
    pub fn compare(&mut self, sought: u16, index: usize) -> Ordering
        requires row { index < 102 }
        requires room { self.old < u32.MAX }
        ensures order { result ≡ nat_cmp sought (slice_index numbers index) }
        ensures counted { self.new ≡ self.old + 1 }
    {
        self.count += 1;
        sought.cmp(&NUMBERS[index])
    }
}
