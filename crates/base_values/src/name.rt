//! Texts and dotted names.
//! A [`Name`] is seen as its bytes, of any length and with no rule on them, and a [`Dotted`] as its parts, at least one.
//!
//! The copies of a name share its bytes. So the paths of a thousand variables below long names take a pointer for each of
//! their parts, however long the names are.
ghost use Rattle.std.specs.Prelude.{◌≡◌, ◌↔◌, [], ◌∷◌, ◌++◌, ◌<◌, length, slice_get, Some, IsTrue, IfOk, OnOk, OnErr};

use crate::items::Items;
use crate::memory::OutOfMemory;
use std::alloc::Global;
use std::marker::Model;
use std::rc::Rc;

/// A text, which contracts see as the list of its bytes.
#[derive(Drop)]
pub struct Name {
    bytes: Rc<Vec<u8>>,
}

/// A list of names.
pub type NameList = Items<Name>;

impl Model for Name {
    ghost use Rattle.std.specs.Prelude.{List, ℕ};

    ghost Value = { List ℕ };

    ghost view = { λ name. name.bytes.value.items };
}

impl Name {
    /// A name of its own with this text.
    pub fn new(alloc: Global, text: &[u8]) -> Result<Name, OutOfMemory>
        ensures { IfOk result (λ name. name ≡ text.now) }
    {
        Ok(Name {
            bytes: Rc::new(alloc, Vec::from_slice(alloc, text)?)?,
        })
    }

    /// The allocator that the name keeps.
    pub fn allocator(&self) -> Global {
        *self.bytes.allocator()
    }

    /// The name's bytes.
    pub fn text(&self) -> &[u8]
        ensures { result.now ≡ self.now }
    {
        self.bytes.as_slice()
    }

    /// Whether both names have the same bytes.
    pub fn is_same(&self, other: &Name) -> bool
        ensures { IsTrue result ↔ (self.now ≡ other.now) }
    {
        self.text() == other.text()
    }

    /// A name with the same text, which it shares: takes no memory.
    pub fn copy(&self) -> Result<Name, OutOfMemory>
        ensures { IfOk result (λ name. name ≡ self.now) }
    {
        Ok(Name {
            bytes: self.bytes.clone()?,
        })
    }
}

/// One or more names, which a text joins by dots.
#[derive(Drop)]
pub struct Dotted {
    parts: Items<Name>,
}

impl Model for Dotted {
    ghost use Rattle.std.specs.Prelude.{List, ℕ, ◌<◌, length};

    ghost Value = { List (List ℕ) };

    ghost view = { λ name. name.parts };

    ghost invariant = { λ name. 0 < length name.parts };
}

impl Dotted {
    /// The name of this one part.
    pub fn new(alloc: Global, first: Name) -> Result<Dotted, OutOfMemory>
        ensures { IfOk result (λ name. name ≡ first ∷ []) }
    {
        let mut parts = Items::new(alloc);
        parts.push(first)?;
        Ok(Dotted { parts })
    }

    /// Appends a part. Where there is no memory the name stays as it was.
    pub fn push(&mut self, part: Name) -> Result<(), OutOfMemory>
        ensures ok { OnOk result (self.new ≡ self.old ++ part ∷ []) }
        ensures err { OnErr result (self.new ≡ self.old) }
    {
        self.parts.push(part)
    }

    /// The allocator that the name keeps.
    pub fn allocator(&self) -> Global {
        self.parts.allocator()
    }

    /// The number of parts, at least 1.
    pub fn len(&self) -> usize
        ensures length { result ≡ length self.now }
        ensures some { 0 < length self.now }
    {
        self.parts.len()
    }

    /// The part at a place, counted from 0.
    pub fn at(&self, i: usize) -> &Name
        requires { i < length self.now }
        ensures { slice_get self.now i ≡ Some result.now }
    {
        self.parts.at(i)
    }

    /// The parts in written order.
    pub fn parts(&self) -> &[Name]
        ensures parts { result.now ≡ self.now }
        ensures some { 0 < length self.now }
    {
        self.parts.as_slice()
    }

    /// A name of its own with the same parts.
    pub fn copy(&self) -> Result<Dotted, OutOfMemory>
        ensures { IfOk result (λ name. name ≡ self.now) }
    {
        let parts = self.parts.copy()?;
        Ok(Dotted { parts })
    }
}

impl Items<Name> {
    /// A list of its own with the same names.
    pub fn copy(&self) -> Result<NameList, OutOfMemory>
        ensures { IfOk result (λ names. names ≡ self.now) }
    {
        let mut names = Items::new(self.allocator());
        for name in self.as_slice() {
            names.push(name.copy()?)?;
        }
        Ok(names)
    }
}
