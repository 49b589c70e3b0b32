//! Logic gates as clauses (Tseitin's encoding), and the clause list that they are added to.
//!
//! [`Gates`] is the list under construction with the next variable that is free. Each gate takes that variable and
//! appends the clauses by which it is true exactly where its operands say so; [`Gates::and`], [`Gates::xor`] and
//! [`Gates::mux`] are the gates with clauses of their own, and [`Gates::or`] is made of the first. Variable 1 is
//! true, and is the constant of [`Gates::constant`].
ghost use Rattle.std.specs.Prelude.{◌≡◌, ◌+◌, ◌-◌, ◌^◌, ◌<◌, ◌≤◌, [], ◌∷◌, ◌++◌, IfOk, OnOk, OnErr, map, ◌&&◌, ◌||◌, true, if◌then◌else◌};
ghost use Rattle.sat_clauses.specs.Models.{literal_value, IsBelow};
ghost use Rattle.sat_circuits.specs.Circuit.{Circuit, with_gate};
ghost use Rattle.sat_circuits.specs.Gates.{and_gate, or_gate, xor_gate, mux_gate, constant_lit, differ};
ghost use Rattle.sat_circuits.specs.Meaning.{GivesBool, StopsWithin, HasTruth};

use base_values::OutOfMemory;
use sat_clauses::clause::{Clause, ClauseList};
use sat_clauses::lit::Lit;
use std::alloc::Global;
use std::marker::Model;

/// Clauses under construction, and the next variable to be defined, which is below 2^31. The first
/// clause makes the variable 1 true.
#[derive(Drop)]
pub struct Gates {
    alloc: Global,
    clauses: ClauseList,
    free: u64,
}

impl Model for Gates {
    ghost use Rattle.std.specs.Prelude.{◌≡◌, ◌^◌, ◌<◌, ◌≤◌, [], ◌∷◌, take, true};
    ghost use Rattle.sat_circuits.specs.Circuit.{Circuit};
    ghost use Rattle.sat_circuits.specs.Gates.{constant_lit};

    ghost Value = { Circuit };

    ghost view = { λ g. record { clauses = g.clauses; free = g.free } };

    ghost invariant = { λ g. (2 ≤ g.free) × (g.free < 2 ^ 31) × (take 1 g.clauses ≡ (constant_lit true ∷ []) ∷ []) };
}

impl Gates {
    /// The clause list that makes the variable 1 true. The variables below `first_free` are the
    /// caller's.
    pub fn new(alloc: Global, first_free: u64) -> Result<Gates, OutOfMemory>
        requires least { 2 ≤ first_free }
        requires greatest { first_free < 2 ^ 31 }
        ensures { IfOk result (λ g. g ≡ record { clauses = (constant_lit true ∷ []) ∷ []; free = first_free }) }
    {
        let mut clauses = ClauseList::new(alloc);
        let truth = Clause::from_lits(alloc, &[Lit::new(1, false)])?;
        clauses.push(truth)?;
        Ok(Gates {
            alloc,
            clauses,
            free: first_free,
        })
    }

    /// The clauses so far.
    pub fn clauses(&self) -> &ClauseList
        ensures { result.now ≡ self.now.clauses }
    {
        &self.clauses
    }

    /// The clauses, once no more are added.
    pub fn into_clauses(self) -> ClauseList
        ensures { result ≡ self.clauses }
    {
        self.clauses
    }

    /// The next variable to be defined.
    pub fn free(&self) -> u64
        ensures value { result ≡ self.now.free }
        ensures least { 2 ≤ result }
        ensures greatest { result < 2 ^ 31 }
    {
        self.free
    }

    /// Appends a clause. Where there is no memory the clauses stay as they were.
    fn append(&mut self, lits: &[Lit]) -> Result<(), OutOfMemory>
        ensures ok { OnOk result (self.new ≡ record self.old { clauses = self.old.clauses ++ lits.now ∷ [] }) }
        ensures err { OnErr result (self.new ≡ self.old) }
    {
        let clause = Clause::from_lits(self.alloc, lits)?;
        self.clauses.push(clause)?;
        Ok(())
    }

    /// Appends the clauses that define the next variable, and gives its literal `gate`.
    fn define(&mut self, gate: Lit, clauses: &[&[Lit]]) -> Result<Lit, OutOfMemory>
        requires room { self.old.free < 2 ^ 31 - 1 }
        ensures state { OnOk result (self.new ≡ with_gate self.old (map (λ c. c.now) clauses.now)) }
        ensures literal { IfOk result (λ l. l ≡ gate) }
        ensures err { OnErr result (StopsWithin self.old self.new (with_gate self.old (map (λ c. c.now) clauses.now))) }
    {
        for clause in clauses {
            self.append(clause)?;
        }
        // The variable is taken only once all of its clauses stand.
        self.free += 1;
        Ok(gate)
    }

    /// A literal that is true where both are. The clauses for a next variable g are `[-g a]`, `[-g b]`
    /// and `[g -a -b]`.
    pub fn and(&mut self, a: Lit, b: Lit) -> Result<Lit, OutOfMemory>
        requires left { IsBelow self.old.free a }
        requires right { IsBelow self.old.free b }
        requires room { self.old.free < 2 ^ 31 - 1 }
        ensures exact { IfOk result (λ l. and_gate a b self.old ≡ (self.new, l)) }
        ensures value { IfOk result (λ l. GivesBool self.old self.new l (λ v. literal_value v a && literal_value v b)) }
        ensures next { OnOk result (self.new.free ≡ self.old.free + 1) }
        ensures err { OnErr result (StopsWithin self.old self.new (and_gate a b self.old).0) }
    {
        let g = Lit::new(self.free, false);
        self.define(g, &[&[g.neg(), a], &[g.neg(), b], &[g, a.neg(), b.neg()]])
    }

    /// A literal that is true where one of the two is: not (not a and not b).
    pub fn or(&mut self, a: Lit, b: Lit) -> Result<Lit, OutOfMemory>
        requires left { IsBelow self.old.free a }
        requires right { IsBelow self.old.free b }
        requires room { self.old.free < 2 ^ 31 - 1 }
        ensures exact { IfOk result (λ l. or_gate a b self.old ≡ (self.new, l)) }
        ensures value { IfOk result (λ l. GivesBool self.old self.new l (λ v. literal_value v a || literal_value v b)) }
        ensures next { OnOk result (self.new.free ≡ self.old.free + 1) }
        ensures err { OnErr result (StopsWithin self.old self.new (or_gate a b self.old).0) }
    {
        let neither = self.and(a.neg(), b.neg())?;
        Ok(neither.neg())
    }

    /// A literal that is true where the two differ. The clauses for a next variable g are `[-g a b]`,
    /// `[-g -a -b]`, `[g -a b]` and `[g a -b]`.
    pub fn xor(&mut self, a: Lit, b: Lit) -> Result<Lit, OutOfMemory>
        requires left { IsBelow self.old.free a }
        requires right { IsBelow self.old.free b }
        requires room { self.old.free < 2 ^ 31 - 1 }
        ensures exact { IfOk result (λ l. xor_gate a b self.old ≡ (self.new, l)) }
        ensures value { IfOk result (λ l. GivesBool self.old self.new l (λ v. differ (literal_value v a) (literal_value v b))) }
        ensures next { OnOk result (self.new.free ≡ self.old.free + 1) }
        ensures err { OnErr result (StopsWithin self.old self.new (xor_gate a b self.old).0) }
    {
        let g = Lit::new(self.free, false);
        self.define(
            g,
            &[
                &[g.neg(), a, b],
                &[g.neg(), a.neg(), b.neg()],
                &[g, a.neg(), b],
                &[g, a, b.neg()],
            ],
        )
    }

    /// A literal with the value of `a` where `c` is true, and else that of `b`. The clauses for a next
    /// variable g are `[-g -c a]`, `[-g c b]`, `[g -c -a]` and `[g c -b]`.
    pub fn mux(&mut self, c: Lit, a: Lit, b: Lit) -> Result<Lit, OutOfMemory>
        requires choice { IsBelow self.old.free c }
        requires left { IsBelow self.old.free a }
        requires right { IsBelow self.old.free b }
        requires room { self.old.free < 2 ^ 31 - 1 }
        ensures exact { IfOk result (λ l. mux_gate c a b self.old ≡ (self.new, l)) }
        ensures value { IfOk result
            (λ l. GivesBool self.old self.new l (λ v. if literal_value v c then literal_value v a else literal_value v b)) }
        ensures next { OnOk result (self.new.free ≡ self.old.free + 1) }
        ensures err { OnErr result (StopsWithin self.old self.new (mux_gate c a b self.old).0) }
    {
        let g = Lit::new(self.free, false);
        self.define(
            g,
            &[
                &[g.neg(), c.neg(), a],
                &[g.neg(), c, b],
                &[g, c.neg(), a.neg()],
                &[g, c, b.neg()],
            ],
        )
    }

    /// The literal of the variable 1, or its negation.
    pub fn constant(&self, v: bool) -> Lit
        ensures literal { result ≡ constant_lit v }
        ensures below { IsBelow self.now.free result }
        ensures truth { HasTruth self.now }
    {
        // The invariant is known where a field is used.
        let _ = &self.free;
        Lit::new(1, !v)
    }

    /// Appends the clause of the literal alone, so that it is true in every assignment that makes the
    /// clauses true.
    pub fn assert_true(&mut self, l: Lit) -> Result<(), OutOfMemory>
        ensures ok { OnOk result (self.new ≡ record self.old { clauses = self.old.clauses ++ (l ∷ []) ∷ [] }) }
        ensures err { OnErr result (self.new ≡ self.old) }
    {
        self.append(&[l])
    }
}
