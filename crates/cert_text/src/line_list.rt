//! The lines of a trace's text.
//!
//! [`LineList`] keeps them in one text, each with its line feed, and contracts see it as the list of the lines.
ghost use Rattle.std.specs.Prelude.{◌≡◌, ◌<◌, ◌^◌, [], ◌∷◌, ◌++◌, length, IfOk, OnOk, OnErr};
ghost use Rattle.cut_text_laws.specs.Lines.{fed, IsLine};

use base_values::OutOfMemory;
use std::alloc::Global;
use std::marker::Model;

/// The lines of one trace's text, without their line feeds. Each takes one byte more than it has.
#[derive(Drop)]
pub struct LineList {
    text: Vec<u8>,
    count: usize,
}

impl Model for LineList {
    ghost use Rattle.std.specs.Prelude.{List, ℕ};

    ghost Value = { List (List ℕ) };

    ghost use Rattle.cert_text.specs.LinesIn.{lines_in, IsWhole};

    ghost view = { λ l. lines_in l.text.items };

    ghost invariant = { IsWhole };
}

impl LineList {
    /// No line. Takes no memory, and keeps the allocator.
    pub fn new(alloc: Global) -> LineList
        ensures { result ≡ [] }
    {
        LineList {
            text: Vec::new(alloc),
            count: 0,
        }
    }

    /// The number of lines, which memory keeps below 2^63.
    pub fn len(&self) -> usize
        ensures value { result ≡ length self.now }
        ensures small { result < 2 ^ 63 }
    {
        // Memory keeps the bytes below 2^63, and each line has one.
        let _bytes = self.text.as_slice().len();
        self.count
    }

    /// The lines with a line feed after each.
    pub fn text(&self) -> &[u8]
        ensures { result.now ≡ fed self.now }
    {
        self.text.as_slice()
    }

    /// Appends a line, which has no line feed in it. Where there is no memory the list stays as it was.
    pub fn push(&mut self, line: &[u8]) -> Result<(), OutOfMemory>
        requires { IsLine line.now }
        ensures ok { OnOk result (self.new ≡ self.old ++ line.now ∷ []) }
        ensures err { OnErr result (self.new ≡ self.old) }
    {
        self.text.reserve(line.len() + 1)?;
        self.text.extend_from_slice(line).unwrap();
        self.text.push(b'\n').unwrap();
        self.count += 1;
        Ok(())
    }

    /// A list of its own with the same lines.
    pub fn copy(&self) -> Result<LineList, OutOfMemory>
        ensures { IfOk result (λ made. made ≡ self.now) }
    {
        let text = Vec::from_slice(*self.text.allocator(), self.text.as_slice())?;
        Ok(LineList {
            text,
            count: self.count,
        })
    }
}
