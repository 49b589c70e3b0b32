//! Texts by their numbers, as a model numbers its symbols: each by its first place in a list, found in a map
//! ([`TextNumbers`]).
ghost use Rattle.std.specs.Prelude.{◌≡◌, ◌≤◌, length, IfOk, IsOk, OnOk};
ghost use Rattle.smv_type_laws.specs.Costs.{symbol_number, member_number};
ghost use Rattle.smv_types.specs.SymbolNumbering.{number_from, AreNumbered};

use base_values::{Name, OutOfMemory};
use indexmap::IndexMap;
use smv_language::Member;
use std::alloc::Global;

/// Texts, each with its first place, from 0.
#[derive(Drop)]
pub struct TextNumbers<'a> {
    texts: &'a [Name],
    places: IndexMap<&'a [u8], u32>,
    ghost numbered: { AreNumbered 0 texts.now places },
    ghost few: { length texts.now ≤ 4294967295 },
}

impl<'a> TextNumbers<'a> {
    /// The numbers of these texts.
    pub fn of(alloc: Global, texts: &'a [Name]) -> Result<TextNumbers<'a>, OutOfMemory>
        ensures { IfOk result (λ numbers. numbers.texts.now ≡ texts.now) }
    {
        check_count(texts)?;
        let places = first_places(alloc, texts)?;
        Ok(TextNumbers { texts, places })
    }

    /// The first place of a text, where it is one of them. Takes no memory.
    pub fn number_of(&self, text: &[u8]) -> Option<u32>
        ensures { result ≡ number_from 0 self.now.texts.now text.now }
    {
        match self.places.get(text) {
            Some(place) => Some(*place),
            None => None,
        }
    }

    /// The number of a symbol, where the texts are a model's symbols. A text that is none of them has the
    /// number after the last.
    pub(crate) fn symbol(&self, text: &Name) -> u32
        ensures { result ≡ symbol_number self.now.texts.now text.now }
    {
        match self.places.get(text.text()) {
            Some(place) => *place,
            None => self.texts.len() as u32,
        }
    }

    /// The number that a member is or has.
    pub(crate) fn member(&self, member: &Member) -> i64
        ensures { result ≡ member_number self.now.texts.now member.now }
    {
        match member {
            Member::Number(n) => *n,
            Member::Symbol(text) => self.symbol(text) as i64,
        }
    }
}

/// Each place is a number of 32 bits. More texts than that count as want of memory.
fn check_count(texts: &[Name]) -> Result<(), OutOfMemory>
    ensures few { OnOk result (length texts.now ≤ 4294967295) }
    ensures fits { length texts.now ≤ 4294967295 → IsOk result }
{
    if texts.len() > u32::MAX as usize {
        return Err(OutOfMemory);
    }
    Ok(())
}

/// The first place of each text.
fn first_places<'a>(
    alloc: Global,
    texts: &'a [Name],
) -> Result<IndexMap<&'a [u8], u32>, OutOfMemory>
    requires { length texts.now ≤ 4294967295 }
    ensures { IfOk result (λ places. AreNumbered 0 texts.now places) }
{
    let mut places = IndexMap::new(alloc);
    let mut place = texts.len();
    while place > 0 {
        place -= 1;
        places.insert(texts[place].text(), place as u32)?;
    }
    Ok(places)
}
