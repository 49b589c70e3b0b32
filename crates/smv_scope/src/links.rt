//! The graph of definitions: each is a number, and is linked to those that it names, in written order.
ghost use Rattle.std.specs.Prelude.{◌≡◌, [], ◌∷◌, ◌++◌, replicate, IfOk, OnOk};
ghost use Rattle.smv_scope.specs.Links.{graph_of, rows, linked_to, all_linked_to, AreTurned};

use base_values::OutOfMemory;
use std::alloc::Global;

/// For each definition the others that it is linked to, by their places in the scene's list.
#[derive(Drop)]
pub(crate) struct Links {
    pub(crate) of: Vec<Vec<usize>>,
}

impl Links {
    /// So many definitions with no links yet.
    pub(crate) fn unlinked(alloc: Global, count: usize) -> Result<Links, OutOfMemory>
        ensures rows { IfOk result (λ links. rows links ≡ replicate count []) }
    {
        let mut of = Vec::new(alloc);
        for _each in 0..count {
            of.push(Vec::new(alloc))?;
        }
        Ok(Links { of })
    }

    /// Adds a definition with its links.
    pub(crate) fn push(&mut self, row: Vec<usize>) -> Result<(), OutOfMemory>
        ensures { OnOk result (rows self.new ≡ rows self.old ++ row.items ∷ []) }
    {
        self.of.push(row)?;
        Ok(())
    }

    /// Adds a link.
    fn add(&mut self, from: usize, to: usize) -> Result<(), OutOfMemory>
        ensures { OnOk result (rows self.new ≡ linked_to (rows self.old) from to) }
    {
        let Some(links) = self.of.get_mut(from) else {
            return Ok(());
        };
        links.push(to)?;
        Ok(())
    }

    /// What a definition is linked to; nothing for one that isn't there.
    pub(crate) fn from(&self, definition: usize) -> &[usize]
        ensures { result.now ≡ graph_of self.now definition }
    {
        match self.of.as_slice().get(definition) {
            Some(links) => links.as_slice(),
            None => &[],
        }
    }

    /// Adds a link from each of these.
    fn add_all_to(&mut self, starts: &[usize], to: usize) -> Result<(), OutOfMemory>
        ensures { OnOk result (rows self.new ≡ all_linked_to (rows self.old) starts.now to) }
    {
        for start in starts {
            self.add(*start, to)?;
        }
        Ok(())
    }

    /// The same links from their other ends.
    pub(crate) fn turned(&self, alloc: Global) -> Result<Links, OutOfMemory>
        ensures turned { IfOk result (AreTurned self.now) }
    {
        let mut back = Links::unlinked(alloc, self.of.len())?;
        for (from, links) in self.of.iter().enumerate() {
            back.add_all_to(links.as_slice(), from)?;
        }
        Ok(back)
    }
}
