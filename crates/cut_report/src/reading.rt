//! A text of a trace read line by line: [`TraceReading::take`] takes a line, and [`TraceReading::end_moment`] keeps the moment that
//! ends. A variable's slot has the number of the moment in which it was given last, so no moment begins by clearing them.
ghost use Rattle.std.specs.Prelude.{◌≡◌, ◌<◌, ◌-◌, ◌^◌, [], ◌∷◌, ◌++◌, List, length, replicate, false, nat_eq, IfOk, IfErr, OnOk};
ghost use Rattle.std.specs.List.{list_all};
ghost use Rattle.cut_text_laws.specs.Lines.{Line, IsLine};
ghost use Rattle.smv_language.specs.ModelTree.{model_tree};
ghost use Rattle.cut_text_laws.specs.TraceOfText.{IsPrintable};
ghost use Rattle.cut_report.specs.Faults.{IsCauseOf};
ghost use Rattle.cut_report.specs.TraceReading.{IsAfter, is_complete, values_of, ended, IsTaken, IsGivenTo, Gives, IsRefusal, Begins};
ghost use Rattle.cut_report.specs.TraceReading.{GivesLine, IsRefusedLine};
ghost use Rattle.cut_text_laws.specs.TraceOfText.{HasItsSymbols};
ghost use Rattle.cut_report.specs.declared.fault.LineCause.TheVariants as cause;
ghost use Rattle.base_values.specs.declared.value.Value.TheVariants.{Bool as ABool};

use crate::fault::LineCause;
use crate::lines::{equation_words, is_moment_line};
use crate::lookup::Lookup;
use base_values::{MomentList, OutOfMemory, Valuation, Value};
use std::alloc::Global;

/// What a variable was given last: the value, and the number, from 1, of the moment in which it was. A
/// variable that was given none has moment 0.
#[derive(Clone, Copy, Debug, PartialEq, Eq)]
pub(crate) struct Slot {
    pub(crate) moment: u64,
    pub(crate) value: Value,
}

/// What the lines so far gave: how many moments have begun, what each variable was given last, and the
/// valuations of the moments before the first that lacks a value. The moment that was begun last is not among
/// them.
#[derive(Drop)]
pub(crate) struct TraceReading {
    pub(crate) begun: u64,
    pub(crate) slots: Vec<Slot>,
    pub(crate) moments: MomentList,
}

impl TraceReading {
    /// Before the first line, for so many variables.
    pub(crate) fn new(alloc: Global, variables: usize) -> Result<TraceReading, OutOfMemory>
        ensures { IfOk result (λ reading. (reading.begun ≡ 0) × (reading.moments ≡ [])
            × (reading.slots.items ≡ replicate variables (record { moment = 0; value = ABool false }))) }
    {
        let empty = Slot {
            moment: 0,
            value: Value::Bool(false),
        };
        let slots = vec![in alloc; empty; variables]?;
        Ok(TraceReading {
            begun: 0,
            slots,
            moments: MomentList::new(alloc),
        })
    }

    /// Reads one more line.
    pub(crate) fn take(
        &mut self,
        alloc: Global,
        lookup: &Lookup<'_>,
        line: &[u8],
    ) -> Result<(), LineCause>
        requires line { IsLine line.now }
        requires printable { IsPrintable (model_tree lookup.now.typed.now.model) }
        requires symbols { HasItsSymbols (model_tree lookup.now.typed.now.model) }
        requires many { length self.old.slots.items ≡ length lookup.now.typed.now.model.variables }
        requires room { self.old.begun < 2 ^ 64 - 1 }
        ensures after { (lines : List Line) → IsAfter (model_tree lookup.now.typed.now.model) lines self.old →
            OnOk result (IsAfter (model_tree lookup.now.typed.now.model) (lines ++ line.now ∷ []) self.new) }
        ensures cause { (lines : List Line) → IsAfter (model_tree lookup.now.typed.now.model) lines self.old →
            IfErr result (IsCauseOf (model_tree lookup.now.typed.now.model) lines line.now) }
    {
        if line.is_empty() {
            return Ok(());
        }
        if is_moment_line(alloc, line, self.begun)? {
            return self.begin(alloc);
        }
        self.take_value(alloc, lookup, line)
    }

    /// Begins the next moment.
    fn begin(&mut self, alloc: Global) -> Result<(), LineCause>
        requires { self.old.begun < 2 ^ 64 - 1 }
        ensures ok { OnOk result (Begins self.old self.new) }
        ensures err { IfErr result (λ made. made ≡ cause.OutOfMemory) }
    {
        self.end_moment(alloc)?;
        self.begun += 1;
        Ok(())
    }

    /// Reads a line that is not empty and begins no moment.
    fn take_value(
        &mut self,
        alloc: Global,
        lookup: &Lookup<'_>,
        line: &[u8],
    ) -> Result<(), LineCause>
        requires line { IsLine line.now }
        requires printable { IsPrintable (model_tree lookup.now.typed.now.model) }
        requires symbols { HasItsSymbols (model_tree lookup.now.typed.now.model) }
        requires many { length self.old.slots.items ≡ length lookup.now.typed.now.model.variables }
        ensures ok { OnOk result (GivesLine (model_tree lookup.now.typed.now.model) self.old self.new line.now) }
        ensures err { IfErr result (IsRefusedLine (model_tree lookup.now.typed.now.model) self.old line.now) }
    {
        let Some((name, value)) = equation_words(line) else {
            return Err(LineCause::BadLine);
        };
        if self.begun == 0 {
            return Err(LineCause::BadLine);
        }
        self.say(alloc, lookup, name, value)
    }

    /// Gives a variable a value in the moment that was begun last.
    fn say(
        &mut self,
        alloc: Global,
        lookup: &Lookup<'_>,
        name: &[u8],
        text: &[u8],
    ) -> Result<(), LineCause>
        requires printable { IsPrintable (model_tree lookup.now.typed.now.model) }
        requires symbols { HasItsSymbols (model_tree lookup.now.typed.now.model) }
        requires many { length self.old.slots.items ≡ length lookup.now.typed.now.model.variables }
        ensures ok { OnOk result (Gives (model_tree lookup.now.typed.now.model) self.old self.new name.now text.now) }
        ensures err { IfErr result (IsRefusal (model_tree lookup.now.typed.now.model) self.old name.now text.now) }
    {
        let Some(place) = lookup.place(name) else {
            return Err(LineCause::UnknownName);
        };
        let Some(value) = lookup.value(alloc, place, text)? else {
            return Err(LineCause::Outside);
        };
        self.give(place, value)
    }

    /// Gives the variable of this number a value, unless it has one.
    fn give(&mut self, place: usize, value: Value) -> Result<(), LineCause>
        requires { place < length self.old.slots.items }
        ensures ok { OnOk result (IsGivenTo self.old self.new place value) }
        ensures err { IfErr result (λ made. (made ≡ cause.Twice) × IsTaken self.old place) }
    {
        if self.slots[place].moment == self.begun {
            return Err(LineCause::Twice);
        }
        self.slots[place] = Slot {
            moment: self.begun,
            value,
        };
        Ok(())
    }

    /// Keeps the valuation of the moment that was begun last, where it lacks no value and no moment before it
    /// does.
    pub(crate) fn end_moment(&mut self, alloc: Global) -> Result<(), OutOfMemory>
        ensures { OnOk result (self.new ≡ ended self.old) }
    {
        if self.is_complete() {
            self.moments.push(valuation_of(alloc, &self.slots)?)?;
        }
        Ok(())
    }

    /// Whether the moment that was begun last lacks no value, and no moment before it does.
    fn is_complete(&self) -> bool
        ensures { result ≡ is_complete self.now.begun self.now.slots.items self.now.moments }
    {
        0 < self.begun
            && self.moments.len() as u64 == self.begun - 1
            && is_full(&self.slots, self.begun)
    }
}

/// Whether each variable was given a value in the moment of this number.
fn is_full(slots: &[Slot], moment: u64) -> bool
    ensures { result ≡ list_all (λ s. nat_eq s.moment moment) slots.now }
{
    slots.iter().all(|slot| slot.moment == moment)
}

/// The values of all variables.
fn valuation_of(alloc: Global, slots: &[Slot]) -> Result<Valuation, OutOfMemory>
    ensures { IfOk result (λ valuation. valuation ≡ values_of slots.now) }
{
    let mut valuation = Valuation::new(alloc);
    for slot in slots {
        valuation.push(slot.value)?;
    }
    Ok(valuation)
}
