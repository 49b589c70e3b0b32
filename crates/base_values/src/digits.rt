//! Numbers appended to a text by their decimal digits.
ghost use Rattle.std.specs.Prelude.{◌≡◌, ◌++◌, OnOk, OnErr};
ghost use Rattle.std.specs.Fmt.{decimal, signed_decimal};

use crate::items::Items;
use crate::memory::OutOfMemory;
use std::alloc::Global;

impl Items<u8> {
    /// Appends the digits of a number. Where there is no memory the text stays as it was.
    pub fn append_number(&mut self, alloc: Global, number: u64) -> Result<(), OutOfMemory>
        ensures ok { OnOk result (self.new ≡ self.old ++ decimal number) }
        ensures err { OnErr result (self.new ≡ self.old) }
    {
        let digits = format!(in alloc; "{number}")?;
        self.append(digits.as_bytes())
    }

    /// Appends the digits of a number, after a `-` where it is negative. Where there is no memory the text
    /// stays as it was.
    pub fn append_signed(&mut self, alloc: Global, number: i64) -> Result<(), OutOfMemory>
        ensures ok { OnOk result (self.new ≡ self.old ++ signed_decimal number) }
        ensures err { OnErr result (self.new ≡ self.old) }
    {
        let digits = format!(in alloc; "{number}")?;
        self.append(digits.as_bytes())
    }
}
