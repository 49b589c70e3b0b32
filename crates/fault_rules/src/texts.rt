//! Sets of texts, for the names that are taken ([`TextSet`]).
//!
//! A set is a tree of the beginnings of its texts. A place stands for a beginning, 0 for the empty one, and a step leads from a place
//! by a byte to the place of one byte more. So a beginning that many texts share is kept once, and [`After`] asks for texts that
//! begin alike without going through their beginning again.
ghost use Rattle.std.specs.Prelude.{◌≡◌, ◌++◌, [], ◌∷◌, ◌≤◌, ◌+◌, ◌<◌, ◌^◌, IfOk, IsOk, OnOk, false, is_some, map, length, codes};
ghost use Rattle.std.specs.List.{list_any};
ghost use Rattle.smv_language.specs.Texts.{is_among};
ghost use Rattle.fault_instructions.specs.Instructions.{mode_tree};
ghost use Rattle.fault_rules.specs.KeyedLists.{with_text, with_texts};
ghost use Rattle.fault_rules.specs.Faults.{mode_symbols};
ghost use Rattle.fault_rules.specs.Steps.{is_step, step_to, step_from, walk_on, text_at, texts_in, texts_after, with_end, is_end_of};
ghost use Rattle.fault_rules.specs.Steps.{AreSteps, IsTree, Reaches, IsBeginning};

use base_values::{Name, OutOfMemory};
use fault_instructions::ModeRule;
use indexmap::IndexSet;
use std::alloc::Global;
use std::marker::Model;

/// A set of texts, which contracts see as the list of its texts in the order in which each was first added. The step at
/// an index leads to the place after that index, and `ends` has the places of the set's texts.
#[derive(Drop)]
pub struct TextSet {
    steps: IndexSet<(u32, u8)>,
    ends: IndexSet<u32>,
}

impl Model for TextSet {
    ghost use Rattle.std.specs.Prelude.{List, ℕ, map};
    ghost use Rattle.fault_rules.specs.Steps.{text_at, IsTree};

    ghost Value = { List (List ℕ) };

    ghost view = { λ texts. map (text_at texts.steps.keys) texts.ends.keys };

    ghost invariant = { λ texts. IsTree texts.steps.keys texts.ends.keys };
}

/// The texts of a set that begin with a text and a `#`. Contracts see the texts of the set and that beginning.
#[derive(Drop)]
pub(crate) struct After<'a, 't> {
    steps: &'a IndexSet<(u32, u8)>,
    ends: &'a IndexSet<u32>,
    text: &'t [u8],
    place: Option<u32>,
}

impl<'a, 't> Model for After<'a, 't> {
    ghost use Rattle.std.specs.Prelude.{List, ℕ, ◌≡◌, ◌++◌, map, codes};
    ghost use Rattle.fault_rules.specs.Steps.{text_at, walk, IsTree};

    ghost Value = { List (List ℕ) × List ℕ };

    ghost view = { λ after. (map (text_at after.steps.now.keys) after.ends.now.keys, after.text.now ++ codes "#") };

    ghost invariant = { λ after. IsTree after.steps.now.keys after.ends.now.keys
        × (after.place ≡ walk after.steps.now.keys 0 (after.text.now ++ codes "#")) };
}

impl TextSet {
    /// No text.
    pub fn new(alloc: Global) -> TextSet
        ensures { result ≡ [] }
    {
        TextSet {
            steps: IndexSet::new(alloc),
            ends: IndexSet::new(alloc),
        }
    }

    /// Whether the text is one of the set.
    pub fn has(&self, text: &[u8]) -> bool
        ensures { result ≡ is_among self.now text.now }
    {
        is_end(&self.ends, found(&self.steps, Some(0), text))
    }

    /// Adds a text.
    pub fn add(&mut self, text: &[u8]) -> Result<(), OutOfMemory>
        ensures { OnOk result (self.new ≡ with_text self.old text.now) }
    {
        ended(&mut self.steps, &mut self.ends, 0, text)
    }

    /// Adds the symbols of modes of a slice, whose name is gone through once.
    pub(crate) fn add_symbols(
        &mut self,
        slice: &Name,
        modes: &[ModeRule],
    ) -> Result<(), OutOfMemory>
        ensures { OnOk result (self.new ≡ with_texts self.old (mode_symbols slice.now (map mode_tree modes.now))) }
    {
        let place = begun(&mut self.steps, slice)?;
        ended_each(&mut self.steps, &mut self.ends, place, modes)
    }

    /// The texts that begin with this one and a `#`.
    pub(crate) fn after<'a, 't>(&'a self, text: &'t [u8]) -> After<'a, 't>
        ensures { result ≡ (self.now, text.now ++ codes "#") }
    {
        let name = found(&self.steps, Some(0), text);
        let place = found(&self.steps, name, b"#");
        After {
            steps: &self.steps,
            ends: &self.ends,
            text,
            place,
        }
    }
}

impl After<'_, '_> {
    /// Whether the beginning and then this is a text of the set.
    pub(crate) fn has(&self, more: &[u8]) -> bool
        ensures { result ≡ is_among self.now.0 (self.now.1 ++ more.now) }
    {
        is_end(self.ends, found(self.steps, self.place, more))
    }
}

/// Whether a place, where there is one, is among the ends.
fn is_end(ends: &IndexSet<u32>, place: Option<u32>) -> bool
    ensures { result ≡ is_end_of ends.now.keys place }
{
    match place {
        Some(place) => ends.contains(&place),
        None => false,
    }
}

/// The place to which the bytes of a text lead, where there is one.
fn found(steps: &IndexSet<(u32, u8)>, from: Option<u32>, text: &[u8]) -> Option<u32>
    requires { length steps.now.keys < 2 ^ 32 }
    ensures { result ≡ walk_on steps.now.keys from text.now }
{
    let mut at = from;
    for byte in text {
        at = after_byte(steps, at, *byte);
    }
    at
}

/// The place to which a byte leads from a place, where there are both.
fn after_byte(steps: &IndexSet<(u32, u8)>, from: Option<u32>, byte: u8) -> Option<u32>
    requires { length steps.now.keys < 2 ^ 32 }
    ensures { result ≡ step_from steps.now.keys from byte }
{
    match from {
        Some(place) => next(steps, place, byte),
        None => None,
    }
}

/// The place to which a byte leads, where there is one.
fn next(steps: &IndexSet<(u32, u8)>, place: u32, byte: u8) -> Option<u32>
    requires { length steps.now.keys < 2 ^ 32 }
    ensures place { result ≡ step_to steps.now.keys place byte }
    ensures found { is_some result ≡ list_any (is_step (place, byte)) steps.now.keys }
{
    match steps.get_index_of(&(place, byte)) {
        Some(index) => Some(index as u32 + 1),
        None => None,
    }
}

/// Adds the texts that the names of modes make after the text of a place.
fn ended_each(
    steps: &mut IndexSet<(u32, u8)>,
    ends: &mut IndexSet<u32>,
    from: u32,
    modes: &[ModeRule],
) -> Result<(), OutOfMemory>
    requires tree { IsTree steps.old.keys ends.old.keys }
    requires there { from ≤ length steps.old.keys }
    ensures tree { IsTree steps.new.keys ends.new.keys }
    ensures texts { OnOk result (texts_in steps.new.keys ends.new.keys
        ≡ with_texts (texts_in steps.old.keys ends.old.keys) (texts_after (text_at steps.old.keys from) (map mode_tree modes.now))) }
{
    for mode in modes {
        ended(steps, ends, from, mode.name.text())?;
    }
    Ok(())
}

/// Adds the text that bytes make after the text of a place.
fn ended(
    steps: &mut IndexSet<(u32, u8)>,
    ends: &mut IndexSet<u32>,
    from: u32,
    text: &[u8],
) -> Result<(), OutOfMemory>
    requires tree { IsTree steps.old.keys ends.old.keys }
    requires there { from ≤ length steps.old.keys }
    ensures tree { IsTree steps.new.keys ends.new.keys }
    ensures texts { OnOk result (texts_in steps.new.keys ends.new.keys
        ≡ with_text (texts_in steps.old.keys ends.old.keys) (text_at steps.old.keys from ++ text.now)) }
    ensures kept { IsBeginning steps.old.keys steps.new.keys }
{
    let end = reached(steps, from, text)?;
    put_end(steps, ends, end)?;
    Ok(())
}

/// Adds a place to the ends.
fn put_end(
    steps: &IndexSet<(u32, u8)>,
    ends: &mut IndexSet<u32>,
    end: u32,
) -> Result<(), OutOfMemory>
    requires tree { IsTree steps.now.keys ends.old.keys }
    requires there { end ≤ length steps.now.keys }
    ensures tree { IsTree steps.now.keys ends.new.keys }
    ensures ends { OnOk result (ends.new.keys ≡ with_end ends.old.keys end) }
{
    ends.insert(end)?;
    Ok(())
}

/// The place of a name with a `#` after it, by steps that are made where they lack.
fn begun(steps: &mut IndexSet<(u32, u8)>, name: &Name) -> Result<u32, OutOfMemory>
    requires { AreSteps steps.old.keys }
    ensures steps { AreSteps steps.new.keys }
    ensures kept { IsBeginning steps.old.keys steps.new.keys }
    ensures there { IfOk result (λ place. place ≤ length steps.new.keys) }
    ensures text { IfOk result (λ place. text_at steps.new.keys place ≡ name.now ++ codes "#") }
{
    let end = reached(steps, 0, name.text())?;
    let place = reached(steps, end, b"#")?;
    Ok(place)
}

/// The place to which the bytes of a text lead, by steps that are made where they lack.
fn reached(steps: &mut IndexSet<(u32, u8)>, from: u32, text: &[u8]) -> Result<u32, OutOfMemory>
    requires steps { AreSteps steps.old.keys }
    requires there { from ≤ length steps.old.keys }
    ensures steps { AreSteps steps.new.keys }
    ensures reaches { IfOk result (Reaches steps.old.keys steps.new.keys from text.now) }
    ensures kept { IsBeginning steps.old.keys steps.new.keys }
{
    let mut at = from;
    for byte in text {
        at = stepped(steps, at, *byte)?;
    }
    Ok(at)
}

/// The place to which a byte leads, by a step that is made where it lacks.
fn stepped(steps: &mut IndexSet<(u32, u8)>, place: u32, byte: u8) -> Result<u32, OutOfMemory>
    requires steps { AreSteps steps.old.keys }
    requires there { place ≤ length steps.old.keys }
    ensures steps { AreSteps steps.new.keys }
    ensures reaches { IfOk result (Reaches steps.old.keys steps.new.keys place (byte ∷ [])) }
    ensures kept { IsBeginning steps.old.keys steps.new.keys }
{
    match next(steps, place, byte) {
        Some(there) => Ok(there),
        None => made(steps, place, byte),
    }
}

/// The place of a new step.
fn made(steps: &mut IndexSet<(u32, u8)>, place: u32, byte: u8) -> Result<u32, OutOfMemory>
    requires steps { AreSteps steps.old.keys }
    requires there { place ≤ length steps.old.keys }
    requires lacks { list_any (is_step (place, byte)) steps.old.keys ≡ false }
    ensures steps { AreSteps steps.new.keys }
    ensures reaches { IfOk result (Reaches steps.old.keys steps.new.keys place (byte ∷ [])) }
    ensures kept { IsBeginning steps.old.keys steps.new.keys }
{
    check_places(steps.len())?;
    steps.insert((place, byte))?;
    Ok(steps.len() as u32)
}

/// The place after so many steps has a number of 32 bits. Sets that pass such numbers count as want of memory.
fn check_places(steps: usize) -> Result<(), OutOfMemory>
    ensures few { OnOk result (steps + 1 < 2 ^ 32) }
    ensures fits { steps + 1 < 2 ^ 32 → IsOk result }
{
    if steps >= 4_294_967_295 {
        return Err(OutOfMemory);
    }
    Ok(())
}
