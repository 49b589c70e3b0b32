//! What names mean. The formals are answered first, once and for all; then a look-up goes through the
//! parts of a name, one after another.
ghost use Rattle.std.specs.Prelude.{◌≡◌, ◌^◌, ◌<◌, [], ◌∷◌, ◌++◌, length, map, replicate, Some, IfOk, IsOk, OnOk, option_map};
ghost use Rattle.std.specs.Prelude.{option_copied, slice_get};
ghost use Rattle.smv_language.specs.ProgramTree.{program_tree, decl_tree};
ghost use Rattle.smv_language.specs.ExpressionTree.{tree_of};
ghost use Rattle.smv_language.specs.Scope.{plain_name};
ghost use Rattle.smv_language.specs.Flat.{FlatInstance};
ghost use Rattle.smv_flat_laws.specs.Items.{instances_of};
ghost use Rattle.smv_flat_laws.specs.Rules.{IsWalkable};
ghost use Rattle.smv_scope.specs.ItemTree.{item_tree};
ghost use Rattle.smv_scope.specs.SceneTree.{AreModules, IsSpotWalked, IsScene, IsFound, program_of, items_at, number_and_item};
ghost use Rattle.smv_scope.specs.TableLookUps.{names_of_spot, local_at, own_at, formal_at, symbol_or, symbol_at, part_at, found_at, told};
ghost use Rattle.smv_scope.specs.Steps.{step_at, numbered_at, count_in};
ghost use Rattle.smv_scope.specs.KnownFormals.{rows, rows_with, formals_at, IsSameButFormals, AreTold};
ghost use Rattle.smv_scope.specs.NumberedScenes.{IsLaid, IsNamedTo, IsSameProgram, NamesItems, NamesItem, NamesDeclared, NamesActuals};
ghost use Rattle.smv_scope.specs.NumberedScenes.{NamesActual, with_own};
ghost use Rattle.smv_language.specs.Trace.{EachBoth};

use crate::items::{Item, Numbered};
use crate::modules::{Local, ModuleNames, Modules};
use crate::symbols::symbols_of;
use crate::walk::{Meaning, Spot};
use base_values::{Dotted, Name, OutOfMemory};
use indexmap::IndexSet;
use smv_language::{Decl, Declared, Expr};
use std::alloc::Global;

/// What is known of a formal: nothing yet, that its look-up has begun, what it means, or that its look-up
/// comes back to itself.
#[derive(Clone, Copy, PartialEq, Eq)]
pub enum Formal {
    Unknown,
    Begun,
    Means(Meaning),
    Circle,
}

/// A define, or an actual that is not a plain name: the instance that its names are looked up in, its
/// item, and its value.
#[derive(Clone, Copy)]
pub struct Defined<'a> {
    pub spot: usize,
    pub item: u32,
    pub value: &'a Expr<Dotted>,
}

/// All that a name can mean at some instance. `definitions` stand by instances, then items.
#[derive(Drop)]
pub struct Scene<'a> {
    pub modules: Modules<'a>,
    pub spots: Vec<Spot<'a>>,
    pub symbols: IndexSet<&'a [u8]>,
    pub definitions: Vec<Defined<'a>>,
    pub formals: Vec<Vec<Formal>>,
}

/// One step of a look-up: what a part means, or the formal that it is.
pub enum LookUpStep {
    Means(Meaning),
    Formal(usize),
}

impl<'a> Scene<'a> {
    /// The scene of these modules and instances.
    pub fn of_instances(
        alloc: Global,
        modules: Modules<'a>,
        spots: Vec<Spot<'a>>,
    ) -> Result<Scene<'a>, OutOfMemory>
        requires modules { AreModules modules }
        requires walkable { IsWalkable (program_tree modules.program.now) }
        requires spots { EachBoth (IsSpotWalked (program_tree modules.program.now)) (instances_of (program_tree modules.program.now))
            spots.items }
        ensures scene { IfOk result IsScene }
        ensures program { IfOk result (λ scene. scene.modules.program.now ≡ modules.entry.program.now) }
    {
        let symbols = symbols_of(alloc, &modules)?;
        check_count(symbols.len())?;
        let mut scene = Scene {
            modules,
            spots,
            symbols,
            definitions: Vec::new(alloc),
            formals: Vec::new(alloc),
        };
        scene.add_formals(alloc)?;
        scene.add_definitions(alloc)?;
        scene.answer_formals(alloc)?;
        Ok(scene)
    }

    /// Makes room for the formals of each instance.
    fn add_formals(&mut self, alloc: Global) -> Result<(), OutOfMemory>
        requires laid { IsLaid self.old }
        requires none { rows self.old ≡ [] }
        ensures same { IsSameButFormals self.old self.new }
        ensures told { OnOk result (AreTold (program_of self.old) (rows self.new)) }
    {
        for spot in 0..self.spots.len() {
            let count = self.formals_of(spot);
            let formals = unknown(alloc, count)?;
            self.push_formals(formals)?;
        }
        Ok(())
    }

    /// Appends what is known of the formals of the next instance.
    fn push_formals(&mut self, formals: Vec<Formal>) -> Result<(), OutOfMemory>
        ensures same { IsSameButFormals self.old self.new }
        ensures pushed { OnOk result (self.new.formals.items ≡ self.old.formals.items ++ formals ∷ []) }
    {
        self.formals.push(formals)?;
        Ok(())
    }

    /// The number of formals of an instance's module.
    pub(crate) fn formals_of(&self, spot: usize) -> usize
        ensures { result ≡ formals_at self.now spot }
    {
        match self.names_at(spot) {
            Some(names) => names.module.formals.len(),
            None => 0,
        }
    }

    /// Numbers the defines and the actuals of all instances.
    fn add_definitions(&mut self, alloc: Global) -> Result<(), OutOfMemory>
        requires { IsNamedTo self.old 0 }
        ensures modules { OnOk result (self.new.modules ≡ self.old.modules) }
        ensures symbols { OnOk result (self.new.symbols ≡ self.old.symbols) }
        ensures named { OnOk result (IsNamedTo self.new (length (instances_of (program_of self.new)))) }
    {
        for spot in 0..self.spots.len() {
            let own = self.define_items(alloc, spot)?;
            self.set_own(spot, own);
        }
        Ok(())
    }

    /// Numbers the definitions of an instance; the answer is what its items mean.
    fn define_items(&mut self, alloc: Global, spot: usize) -> Result<Vec<Meaning>, OutOfMemory>
        ensures same { IsSameProgram self.old self.new }
        ensures named { IfOk result (λ own. NamesItems self.old self.new spot own.items) }
    {
        let mut own = Vec::new(alloc);
        for place in 0..self.own_count(spot) {
            let walked = self.own(spot, place);
            let meaning = self.define_item(spot, place, walked)?;
            own.push(meaning)?;
        }
        Ok(own)
    }

    /// Numbers the define of an item, or the actuals that are not plain names; the answer is what the item
    /// means.
    fn define_item(
        &mut self,
        spot: usize,
        place: usize,
        walked: Meaning,
    ) -> Result<Meaning, OutOfMemory>
        ensures same { IsSameProgram self.old self.new }
        ensures named { IfOk result (NamesItem self.old self.new spot place walked) }
    {
        let Some(numbered) = self.numbered_at(spot, place) else {
            return Ok(walked);
        };
        match numbered.item {
            Item::Defined(define) => {
                let made = self.push_definition(spot, numbered.number, &define.value)?;
                Ok(Meaning::Definition(made))
            }
            Item::Declared(_, decl) => {
                self.add_declared(spot, numbered.number, decl, walked)?;
                Ok(walked)
            }
            _ => Ok(walked),
        }
    }

    /// Numbers the actuals of a declared instance.
    fn add_declared(
        &mut self,
        spot: usize,
        item: u32,
        decl: &'a Decl,
        walked: Meaning,
    ) -> Result<(), OutOfMemory>
        ensures same { IsSameProgram self.old self.new }
        ensures named { OnOk result (NamesDeclared self.old self.new spot item (decl_tree decl.now) walked) }
    {
        match &decl.what {
            Declared::Instance(_, actuals) => match walked {
                Meaning::Instance(inner) => {
                    self.add_actuals(spot, item, inner, actuals.as_slice())?;
                    Ok(())
                }
                _ => Ok(()),
            },
            _ => Ok(()),
        }
    }

    /// Numbers the actuals of an instance that are not plain names.
    fn add_actuals(
        &mut self,
        spot: usize,
        item: u32,
        inner: usize,
        actuals: &'a [Expr<Dotted>],
    ) -> Result<(), OutOfMemory>
        ensures same { IsSameProgram self.old self.new }
        ensures named { OnOk result (NamesActuals self.old self.new spot item inner (map tree_of actuals.now)) }
    {
        for (formal, value) in actuals.iter().enumerate() {
            self.add_actual(spot, item, inner, formal, value)?;
        }
        Ok(())
    }

    /// Numbers an actual, unless it is a plain name: the formal then means the new definition.
    fn add_actual(
        &mut self,
        spot: usize,
        item: u32,
        inner: usize,
        formal: usize,
        value: &'a Expr<Dotted>,
    ) -> Result<(), OutOfMemory>
        ensures same { IsSameProgram self.old self.new }
        ensures named { OnOk result (NamesActual self.old self.new spot item inner formal (tree_of value.now)) }
    {
        if let Some(_name) = plain_name_of(value) {
            return Ok(());
        }
        let made = self.push_definition(spot, item, value)?;
        self.set_formal(inner, formal, Formal::Means(Meaning::Definition(made)));
        Ok(())
    }

    /// Adds a definition; the answer is its number.
    fn push_definition(
        &mut self,
        spot: usize,
        item: u32,
        value: &'a Expr<Dotted>,
    ) -> Result<usize, OutOfMemory>
        ensures same { IsSameProgram self.old self.new }
        ensures rows { rows self.new ≡ rows self.old }
        ensures number { IfOk result (λ made. made ≡ length self.old.definitions.items) }
        ensures pushed { OnOk result (self.new.definitions.items
            ≡ self.old.definitions.items ++ (record { spot = spot; item = item; value = value.entry }) ∷ []) }
    {
        let made = self.definitions.len();
        self.definitions.push(Defined { spot, item, value })?;
        Ok(made)
    }

    /// Gives an instance what its items mean.
    fn set_own(&mut self, spot: usize, own: Vec<Meaning>)
        ensures modules { self.new.modules ≡ self.old.modules }
        ensures symbols { self.new.symbols ≡ self.old.symbols }
        ensures definitions { self.new.definitions ≡ self.old.definitions }
        ensures formals { self.new.formals ≡ self.old.formals }
        ensures own { self.new.spots.items ≡ with_own self.old.spots.items spot own }
    {
        if let Some(spot) = self.spots.get_mut(spot) {
            spot.own = own;
        }
    }

    /// The number of items of an instance's module.
    pub fn item_count(&self, spot: usize) -> usize
        ensures own { result ≡ count_in (slice_get self.now.spots.items spot) }
        ensures count { IsScene self.now → result ≡ length (items_at (program_of self.now) spot) }
    {
        self.own_count(spot)
    }

    /// The number of meanings of an instance's items.
    fn own_count(&self, spot: usize) -> usize
        ensures { result ≡ count_in (slice_get self.now.spots.items spot) }
    {
        match self.spots.as_slice().get(spot) {
            Some(spot) => spot.own.len(),
            None => 0,
        }
    }

    /// The item at a place of an instance's module, with its number.
    pub fn item_at(&self, spot: usize, place: usize) -> Option<(Item<'a>, u32)>
        ensures item { IsScene self.now → option_map (λ r. (r.1, item_tree r.0)) result
            ≡ option_map number_and_item (slice_get (items_at (program_of self.now) spot) place) }
    {
        match self.numbered_at(spot, place) {
            Some(numbered) => Some((numbered.item, numbered.number)),
            None => None,
        }
    }

    /// The item at a place of an instance's module, as the module's list has it.
    fn numbered_at(&self, spot: usize, place: usize) -> Option<Numbered<'a>>
        ensures { result ≡ numbered_at self.now spot place }
    {
        match self.names_at(spot) {
            Some(names) => names.items.as_slice().get(place).copied(),
            None => None,
        }
    }

    /// What the item at a place means at an instance.
    pub fn own(&self, spot: usize, place: usize) -> Meaning
        ensures own { result ≡ own_at self.now spot place }
    {
        match self.spots.as_slice().get(spot) {
            Some(spot) => match spot.own.as_slice().get(place) {
                Some(meaning) => *meaning,
                None => Meaning::Nothing,
            },
            None => Meaning::Nothing,
        }
    }

    /// What is known of an instance's formal.
    pub fn formal(&self, spot: usize, formal: usize) -> Formal
        ensures formal { result ≡ formal_at self.now spot formal }
    {
        match self.formals.as_slice().get(spot) {
            Some(formals) => match formals.as_slice().get(formal) {
                Some(known) => *known,
                None => Formal::Means(Meaning::Nothing),
            },
            None => Formal::Means(Meaning::Nothing),
        }
    }

    /// Notes what is known of an instance's formal. Where the instance has no such formal nothing changes.
    pub fn set_formal(&mut self, spot: usize, formal: usize, known: Formal)
        ensures same { IsSameButFormals self.old self.new }
        ensures formals { rows self.new ≡ rows_with (rows self.old) spot formal known }
    {
        if let Some(formals) = self.formals.get_mut(spot) {
            if let Some(place) = formals.get_mut(formal) {
                *place = known;
            }
        }
    }

    /// What a part of a name means at an instance; `last` says that no part comes after it.
    pub fn step(&self, spot: usize, part: &Name, last: bool) -> LookUpStep
        ensures step { result ≡ step_at self.now spot last part.now }
    {
        match self.local(spot, part) {
            Some(Local::Formal(formal)) => LookUpStep::Formal(formal),
            Some(Local::Item(place)) => LookUpStep::Means(self.own(spot, place)),
            None if last => LookUpStep::Means(self.symbol(part)),
            None => LookUpStep::Means(Meaning::Nothing),
        }
    }

    /// What a name is in an instance's module.
    pub fn local(&self, spot: usize, part: &Name) -> Option<Local>
        ensures local { result ≡ local_at self.now spot part.now }
    {
        match self.names_at(spot) {
            Some(names) => names.locals.get(part.text()).copied(),
            None => None,
        }
    }

    /// The names of an instance's module.
    pub fn names_at(&self, spot: usize) -> Option<&ModuleNames<'a>>
        ensures names { option_copied result ≡ names_of_spot self.now (slice_get self.now.spots.items spot) }
    {
        match self.spots.as_slice().get(spot) {
            Some(spot) => self.modules.list.as_slice().get(spot.module),
            None => None,
        }
    }

    /// The symbol of this text, or nothing where the program has none.
    fn symbol(&self, part: &Name) -> Meaning
        ensures symbol { result ≡ symbol_at self.now part.now }
    {
        match self.symbols.get_index_of(part.text()) {
            Some(place) => symbol_of(place),
            None => Meaning::Nothing,
        }
    }

    /// What a name means at an instance, once all formals are answered.
    pub fn meaning(&self, spot: usize, name: &Dotted) -> Meaning
        ensures value { result ≡ found_at self.now spot name.now }
        ensures found { IsScene self.now → (at : FlatInstance) →
            slice_get (instances_of (program_of self.now)) spot ≡ Some at → IsFound (program_of self.now) at.place name.now result }
    {
        self.look_up(spot, name.parts())
    }

    /// What the parts of a name mean, one inside another.
    fn look_up(&self, spot: usize, parts: &[Name]) -> Meaning
        ensures { result ≡ found_at self.now spot parts.now }
    {
        let mut here = spot;
        let mut rest = parts;
        while let [part, more @ ..] = rest {
            let found = self.part(here, part, more.is_empty());
            if more.is_empty() {
                return found;
            }
            match found {
                Meaning::Instance(inner) => here = inner,
                Meaning::Loop => return Meaning::Loop,
                _ => return Meaning::Nothing,
            }
            rest = more;
        }
        Meaning::Nothing
    }

    /// What a part of a name means at an instance; `last` says that no part comes after it.
    #[tactic(auto, using(crate::proofs::Steps::found_step))]
    pub fn part(&self, spot: usize, part: &Name, last: bool) -> Meaning
        ensures { result ≡ part_at self.now spot last part.now }
    {
        match self.step(spot, part, last) {
            LookUpStep::Means(meaning) => meaning,
            LookUpStep::Formal(formal) => told(self.formal(spot, formal)),
        }
    }
}

/// The name that an expression is, if it is a name alone.
pub fn plain_name_of(value: &Expr<Dotted>) -> Option<&Dotted>
    ensures { option_copied result ≡ plain_name (tree_of value.now) }
{
    match value {
        Expr::Leaf(name) => Some(name),
        Expr::Truth(_) => None,
        Expr::Number(_) => None,
        Expr::Not(_) => None,
        Expr::Negate(_) => None,
        Expr::Next(_) => None,
        Expr::Binary(..) => None,
        Expr::Choice(..) => None,
        Expr::Case(_) => None,
        Expr::SetOf(_) => None,
        Expr::Span(..) => None,
    }
}

/// Each symbol has a number of 32 bits. More symbols than such numbers count as want of memory.
fn check_count(symbols: usize) -> Result<(), OutOfMemory>
    ensures few { OnOk result (symbols < 2 ^ 32) }
    ensures fits { symbols < 2 ^ 32 → IsOk result }
{
    if symbols >= 4_294_967_296 {
        return Err(OutOfMemory);
    }
    Ok(())
}

/// So many formals of which nothing is known.
fn unknown(alloc: Global, count: usize) -> Result<Vec<Formal>, OutOfMemory>
    ensures { IfOk result (λ v. v.items ≡ replicate count Formal.Unknown) }
{
    Ok(Vec::from_elem(alloc, Formal::Unknown, count)?)
}

/// The symbol of a number. There are none whose numbers pass 32 bits.
fn symbol_of(place: usize) -> Meaning
    ensures { result ≡ symbol_or (Some place) }
{
    if place < 4_294_967_296 {
        Meaning::Symbol(place as u32)
    } else {
        Meaning::Nothing
    }
}

/// What a formal means. One on a circle, or not answered, is part of a loop.
pub fn told(known: Formal) -> Meaning
    ensures { result ≡ told known }
{
    match known {
        Formal::Means(meaning) => meaning,
        Formal::Circle | Formal::Begun | Formal::Unknown => Meaning::Loop,
    }
}
