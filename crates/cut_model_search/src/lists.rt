//! The exact clause lists of a model with faults, and the moments that are read over them.
//!
//! [`FaultyModel`] has the one impl of `Encoded`, the trait by which the search of `cut_search` asks for clause lists and reads moments.
//! What they are stands in the trait; the lists are made in `sat_encoding`.
ghost use Rattle.std.specs.Prelude.{◌≡◌, IfOk, length};
ghost use Rattle.smv_language.specs.ModelTree.{model_tree};
ghost use Rattle.sat_encoding_laws.specs.Encodable.{IsEncodable};
ghost use Rattle.sat_encoding_laws.specs.Lists.{system_of};
ghost use Rattle.cut_model_search.specs.FaultyModels.{whole_in, bad_in};
ghost use Rattle.cut_model_search.specs.MomentReading.{IsRead};

use crate::faulty::FaultyModel;
use base_values::{OutOfMemory, SetList, Valuation, Value};
use cut_search::encoded::Encoded;
use sat_clauses::System;
use sat_clauses::assign::Assign;
use sat_clauses::clause::{Clause, ClauseList};
use sat_clauses::lit::Lit;
use sat_encoding::{bad_clauses, encode, state_of, unlisted_clause, valuation_of};
use smv_types::Typed;
use std::alloc::Global;

impl<'a> FaultyModel<'a> {
    /// The lists of the model with history.
    pub(crate) fn system(&self, alloc: Global) -> Result<System, OutOfMemory>
        ensures { IfOk result (λ s. s ≡ system_of (whole_in self.now)) }
    {
        self.can_be_searched();
        let system = encode(alloc, self.full())?;
        Ok(system)
    }

    /// The list bad of these sets and this size.
    pub(crate) fn bad(
        &self,
        alloc: Global,
        listed: &SetList,
        size: u32,
    ) -> Result<ClauseList, OutOfMemory>
        ensures { IfOk result (λ bad. bad ≡ bad_in self.now listed.now size) }
    {
        self.can_be_searched();
        let clauses = bad_clauses(alloc, self.full(), self.top(), listed, self.count(), size)?;
        Ok(clauses)
    }
}

/// A valuation with a value for each variable of a model, which no one has asked for.
fn blank(alloc: Global, t: &Typed) -> Result<Valuation, OutOfMemory>
    ensures { IfOk result (λ v. length v ≡ length t.now.model.variables) }
{
    let mut blank = Valuation::new(alloc);
    for _variable in t.model().variables.as_slice() {
        blank.push(Value::Bool(false))?;
    }
    Ok(blank)
}

/// Reads a moment that gives its state, and its inputs unless it is the last one: these get the least values.
fn fill(t: &Typed, moment: &Assign, last: bool, values: &mut Valuation)
    requires encodable { IsEncodable (model_tree t.now.model) }
    requires long { length values.old ≡ length t.now.model.variables }
    ensures { IsRead (model_tree t.now.model) last moment.now values.new }
{
    if last {
        state_of(t, moment, values);
    } else {
        valuation_of(t, moment, values);
    }
}

/// The valuation of a moment.
fn read(alloc: Global, t: &Typed, moment: &Assign, last: bool) -> Result<Valuation, OutOfMemory>
    requires { IsEncodable (model_tree t.now.model) }
    ensures { IfOk result (λ v. IsRead (model_tree t.now.model) last moment.now v) }
{
    let mut values = blank(alloc, t)?;
    fill(t, moment, last, &mut values);
    Ok(values)
}

impl<'a> Encoded for FaultyModel<'a> {
    ghost use Rattle.cut_model_search.specs.FaultyModels.{problem_in};

    ghost problem = { problem_in };

    fn encode(&self, alloc: Global) -> Result<System, OutOfMemory> {
        self.can_be_searched();
        let system = self.system(alloc)?;
        Ok(system)
    }

    fn is_searched(&self) {
        self.can_be_searched();
    }

    fn bad_clauses(
        &self,
        alloc: Global,
        listed: &SetList,
        size: u32,
    ) -> Result<ClauseList, OutOfMemory> {
        self.can_be_searched();
        let clauses = self.bad(alloc, listed, size.min(self.count()))?;
        Ok(clauses)
    }

    fn history(&self) -> &[Lit] {
        self.can_be_searched();
        self.literals()
    }

    fn set_clause(&self, alloc: Global, set: &[u32]) -> Result<Clause, OutOfMemory> {
        self.can_be_searched();
        let clause = unlisted_clause(alloc, self.literals(), set)?;
        Ok(clause)
    }

    fn valuation_of(
        &self,
        alloc: Global,
        moment: &Assign,
        last: bool,
    ) -> Result<Valuation, OutOfMemory> {
        self.can_be_searched();
        read(alloc, self.full(), moment, last)
    }

    fn variables(&self) -> usize {
        self.plain().model().variables.len()
    }

    fn faults(&self) -> usize {
        self.count() as usize
    }
}
