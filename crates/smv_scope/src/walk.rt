//! The walk over the instances of a program, depth first by items. [`Walk::whole`] is the main function: from `main` on
//! it enters the module of each declared instance, makes its variables, and tries the rules of modules that are
//! missing, of the number of actuals, of modules that lie in themselves, and of the two limits.
//!
//! The walk keeps the names of the modules that it stands in, so that an instance of one of them is found at once.
ghost use Rattle.std.specs.Prelude.{◌≡◌, ◌<◌, ◌-◌, suc, false, None, [], ◌∷◌, length, map, reverse, take, IfOk, IfErr, OnOk};
ghost use Rattle.smv_language.specs.ProgramTree.{program_tree};
ghost use Rattle.smv_language.specs.Texts.{is_among};
ghost use Rattle.smv_language.specs.declared.program.Declared.TheVariants.{Instance};
ghost use Rattle.smv_scope.specs.ClosedModels.{AreVariables, is_instance};
ghost use Rattle.smv_scope.specs.Faults.{IsFaultOf};
ghost use Rattle.smv_scope.specs.ItemTree.{numbered_tree};
ghost use Rattle.smv_scope.specs.ModuleFaults.{IsTold};
ghost use Rattle.smv_scope.specs.SceneTree.{AreModules};
ghost use Rattle.smv_scope.specs.WalkFindings.{IsWhole};
ghost use Rattle.smv_scope.specs.InstanceWalk.{HasEntered, HasGone, HasMet, IsEntry, IsModuleOf, IsStanding, instance_told, on_path_of};
ghost use Rattle.smv_scope.specs.InstanceWalk.{place_at, program_in, told_from, visits_at, visits_here, visits_told, visits_within};
ghost use Rattle.smv_scope.specs.InstanceWalk.{with_own, declared_item, IsVariableOf};

use crate::fault::{FlatFault, FlatRule};
use crate::items::{Item, Numbered, number_of};
use crate::modules::Modules;
use base_values::limits::{MOST_INSTANCES, MOST_VARIABLES};
use base_values::{Dotted, Items, Name, OutOfMemory};
use smv_language::model::{Role, Variable, VariableList};
use smv_language::{Decl, Declared, Expr, ExprList};
use std::alloc::Global;

/// What a name means. A variable, an instance, a definition and a symbol have their numbers; `Loop` is a
/// name whose look-up meets a formal that leads back to itself.
#[derive(Clone, Copy, PartialEq, Eq)]
pub enum Meaning {
    Variable { number: u32, role: Role },
    Instance(usize),
    Definition(usize),
    Symbol(u32),
    Nothing,
    Loop,
}

/// An instance: its module, the instance that declares it, and its actual parameters there. `own` has
/// what each item of the module means here.
#[derive(Drop)]
pub struct Spot<'a> {
    pub module: usize,
    pub caller: usize,
    pub path: Option<Dotted>,
    pub actuals: &'a [Expr<Dotted>],
    pub own: Vec<Meaning>,
}

/// The instances and variables that the walk has met so far, and the names of the modules that it stands
/// in, the outermost first.
#[derive(Drop)]
pub struct Walk<'a> {
    pub spots: Vec<Spot<'a>>,
    pub variables: VariableList,
    inside: Vec<&'a Name>,
}

/// A declaration where the walk meets it: the instance that it stands in, its item and its role.
#[derive(Clone, Copy)]
struct Declaring<'a> {
    spot: usize,
    item: u32,
    role: Role,
    decl: &'a Decl,
}

impl<'a> Spot<'a> {
    /// The instance of the module `main`, which stands at a place.
    fn of_main(alloc: Global, place: usize) -> Spot<'a>
        ensures place { result.module ≡ place }
        ensures path { result.path ≡ None }
        ensures actuals { result.actuals.now ≡ [] }
        ensures own { result.own.items ≡ [] }
    {
        Spot {
            module: place,
            caller: 0,
            path: None,
            actuals: &[],
            own: Vec::new(alloc),
        }
    }
}

impl<'a> Walk<'a> {
    /// All instances and variables of a program that breaks no rule from 5 to 7 and passes no limit.
    pub fn whole(alloc: Global, modules: &Modules<'a>) -> Result<Walk<'a>, FlatFault>
        requires { AreModules modules.now }
        ensures variables { IfOk result (λ walk. AreVariables walk.variables) }
        ensures whole { IfOk result (IsWhole (program_tree modules.now.program.now)) }
        ensures fault { IfErr result (IsFaultOf (program_tree modules.now.program.now)) }
    {
        let mut walk = Walk {
            spots: Vec::new(alloc),
            variables: Items::new(alloc),
            inside: Vec::new(alloc),
        };
        let main = Spot::of_main(alloc, modules.main);
        walk.enter(alloc, modules, main)?;
        Ok(walk)
    }

    /// The instances and the variables.
    pub fn into_parts(self) -> (Vec<Spot<'a>>, VariableList)
        ensures spots { result.0 ≡ self.entry.spots }
        ensures variables { result.1 ≡ self.entry.variables }
    {
        let Walk {
            spots,
            variables,
            ..
        } = self;
        (spots, variables)
    }

    /// Goes through an instance and all inside it; the answer is its number.
    #[cycle(walk)]
    fn enter(
        &mut self,
        alloc: Global,
        modules: &Modules<'a>,
        spot: Spot<'a>,
    ) -> Result<usize, FlatFault>
        requires modules { AreModules modules.now }
        requires entry { IsEntry modules.now self.old spot }
        requires variables { AreVariables self.old.variables }
        ensures variables { OnOk result (AreVariables self.new.variables) }
        ensures entered { IfOk result (HasEntered modules.now self.old spot.entry self.new) }
        ensures kept { OnOk result (visits_told (program_in modules.now) (suc (length self.old.spots.items))
            (length self.old.variables) (visits_within modules.now self.old spot.entry) ≡ None) }
        ensures fault { IfErr result (IsTold (visits_told (program_in modules.now)
            (suc (length self.old.spots.items)) (length self.old.variables) (visits_within modules.now self.old spot.entry))) }
    {
        let number = self.spots.len();
        let names = &modules.list[spot.module];
        self.spots.push(spot)?;
        self.inside.push(&names.module.name)?;
        let own = self.go_through(alloc, modules, number, names.items.as_slice())?;
        self.leave(number, own);
        Ok(number)
    }

    /// Tells what the items of an instance mean, and leaves its module.
    fn leave(&mut self, spot: usize, own: Vec<Meaning>)
        requires { spot < length self.old.spots.items }
        ensures spots { self.new.spots.items ≡ with_own self.old.spots.items spot own }
        ensures variables { self.new.variables ≡ self.old.variables }
        ensures inside { self.new.inside.items ≡ take (length self.old.inside.items - 1) self.old.inside.items }
    {
        self.spots[spot].own = own;
        self.inside.pop();
    }

    /// What the items of an instance mean, one by one.
    #[cycle(walk)]
    fn go_through(
        &mut self,
        alloc: Global,
        modules: &Modules<'a>,
        spot: usize,
        items: &[Numbered<'a>],
    ) -> Result<Vec<Meaning>, FlatFault>
        requires modules { AreModules modules.now }
        requires standing { IsStanding modules.now self.old spot }
        requires variables { AreVariables self.old.variables }
        ensures variables { OnOk result (AreVariables self.new.variables) }
        ensures gone { IfOk result (λ own. HasGone modules.now self.old spot (map numbered_tree items.now) self.new own.items) }
        ensures kept { OnOk result (told_from modules.now self.old (visits_here modules.now self.old spot (map numbered_tree items.now))
            ≡ None) }
        ensures fault { IfErr result
            (IsTold (told_from modules.now self.old (visits_here modules.now self.old spot (map numbered_tree items.now)))) }
    {
        let mut own = Vec::new(alloc);
        for numbered in items {
            own.push(self.meet(alloc, modules, spot, *numbered)?)?;
        }
        Ok(own)
    }

    /// What an item means at an instance. A variable gets its number, an instance is gone through.
    #[cycle(walk)]
    fn meet(
        &mut self,
        alloc: Global,
        modules: &Modules<'a>,
        spot: usize,
        numbered: Numbered<'a>,
    ) -> Result<Meaning, FlatFault>
        requires modules { AreModules modules.now }
        requires standing { IsStanding modules.now self.old spot }
        requires variables { AreVariables self.old.variables }
        ensures variables { OnOk result (AreVariables self.new.variables) }
        ensures met { IfOk result (HasMet modules.now self.old spot (numbered_tree numbered.entry) self.new) }
        ensures kept { OnOk result (told_from modules.now self.old (visits_at modules.now self.old spot (numbered_tree numbered.entry))
            ≡ None) }
        ensures fault { IfErr result
            (IsTold (told_from modules.now self.old (visits_at modules.now self.old spot (numbered_tree numbered.entry)))) }
    {
        let item = numbered.number;
        match numbered.item {
            Item::Declared(role, decl) => {
                let declaring = Declaring {
                    spot,
                    item,
                    role,
                    decl,
                };
                self.declare(alloc, modules, declaring)
            }
            _ => Ok(Meaning::Nothing),
        }
    }

    /// What a declaration means: a variable or an instance by its number.
    #[cycle(walk)]
    fn declare(
        &mut self,
        alloc: Global,
        modules: &Modules<'a>,
        declaring: Declaring<'a>,
    ) -> Result<Meaning, FlatFault>
        requires modules { AreModules modules.now }
        requires standing { IsStanding modules.now self.old declaring.spot }
        requires variables { AreVariables self.old.variables }
        ensures variables { OnOk result (AreVariables self.new.variables) }
        ensures met { IfOk result (HasMet modules.now self.old declaring.entry.spot (declared_item declaring.entry) self.new) }
        ensures kept { OnOk result
            (told_from modules.now self.old (visits_at modules.now self.old declaring.entry.spot (declared_item declaring.entry))
            ≡ None) }
        ensures fault { IfErr result (IsTold (told_from modules.now self.old
            (visits_at modules.now self.old declaring.entry.spot (declared_item declaring.entry)))) }
    {
        match &declaring.decl.what {
            Declared::Instance(name, actuals) => {
                self.add_instance(alloc, modules, declaring, name, actuals)
            }
            Declared::Boolean | Declared::Range(_, _) | Declared::Members(_) => {
                self.add_variable(alloc, modules, declaring)
            }
        }
    }

    /// Goes through the instance that an item declares.
    #[cycle(walk)]
    fn add_instance(
        &mut self,
        alloc: Global,
        modules: &Modules<'a>,
        declaring: Declaring<'a>,
        name: &'a Name,
        actuals: &'a ExprList<Dotted>,
    ) -> Result<Meaning, FlatFault>
        requires modules { AreModules modules.now }
        requires standing { IsStanding modules.now self.old declaring.spot }
        requires variables { AreVariables self.old.variables }
        requires declared { declaring.decl.now.what ≡ Instance name.now actuals.now }
        ensures variables { OnOk result (AreVariables self.new.variables) }
        ensures met { IfOk result (HasMet modules.now self.old declaring.entry.spot (declared_item declaring.entry) self.new) }
        ensures kept { OnOk result
            (told_from modules.now self.old (visits_at modules.now self.old declaring.entry.spot (declared_item declaring.entry))
            ≡ None) }
        ensures fault { IfErr result (IsTold (told_from modules.now self.old
            (visits_at modules.now self.old declaring.entry.spot (declared_item declaring.entry)))) }
    {
        let module = self.module_of(modules, declaring.item, name, actuals.len())?;
        let path = self.path_below(alloc, declaring.spot, &declaring.decl.name)?;
        let inner = Spot {
            module,
            caller: declaring.spot,
            path: Some(path),
            actuals: actuals.as_slice(),
            own: Vec::new(alloc),
        };
        Ok(Meaning::Instance(self.enter(alloc, modules, inner)?))
    }

    /// The module of an instance that an item declares with so many actuals.
    fn module_of(
        &self,
        modules: &Modules<'a>,
        item: u32,
        name: &Name,
        actuals: usize,
    ) -> Result<usize, FlatFault>
        requires { AreModules modules.now }
        ensures found { IfOk result (IsModuleOf modules.now self.now name.now) }
        ensures kept { OnOk result
            (instance_told (program_in modules.now) (on_path_of self.now) (length self.now.spots.items) item name.now actuals
            ≡ None) }
        ensures fault { IfErr result
            (IsTold (instance_told (program_in modules.now) (on_path_of self.now) (length self.now.spots.items) item name.now actuals)) }
    {
        let rule = match modules.find(name) {
            None => FlatRule::NoSuchModule,
            Some((module, names)) => {
                if names.module.formals.len() != actuals {
                    FlatRule::WrongCount
                } else if self.is_inside(name) {
                    FlatRule::ModuleLoop
                } else if self.spots.len() >= MOST_INSTANCES {
                    FlatRule::TooMany
                } else {
                    return Ok(module);
                }
            }
        };
        Err(FlatFault { rule, item })
    }

    /// Whether the walk stands in an instance of the module.
    fn is_inside(&self, name: &Name) -> bool
        ensures { result ≡ is_among (on_path_of self.now) name.now }
    {
        for outer in self.inside.as_slice() {
            if outer.is_same(name) {
                return true;
            }
        }
        false
    }

    /// Numbers the variable that an item declares.
    #[tactic(auto, using(crate::proofs::ClosedLaws::variables_push))]
    fn add_variable(
        &mut self,
        alloc: Global,
        modules: &Modules<'a>,
        declaring: Declaring<'a>,
    ) -> Result<Meaning, FlatFault>
        requires standing { IsStanding modules.now self.old declaring.spot }
        requires variables { AreVariables self.old.variables }
        requires values { is_instance declaring.decl.now.what ≡ false }
        ensures variables { OnOk result (AreVariables self.new.variables) }
        ensures met { IfOk result (HasMet modules.now self.old declaring.entry.spot (declared_item declaring.entry) self.new) }
        ensures kept { OnOk result
            (told_from modules.now self.old (visits_at modules.now self.old declaring.entry.spot (declared_item declaring.entry))
            ≡ None) }
        ensures fault { IfErr result (IsTold (told_from modules.now self.old
            (visits_at modules.now self.old declaring.entry.spot (declared_item declaring.entry)))) }
    {
        let place = self.variables.len();
        if place >= MOST_VARIABLES {
            return Err(FlatFault {
                rule: FlatRule::TooMany,
                item: declaring.item,
            });
        }
        let number = number_of(place)?;
        let variable = self.variable_of(alloc, declaring)?;
        self.variables.push(variable)?;
        Ok(Meaning::Variable {
            number,
            role: declaring.role,
        })
    }

    /// The variable that an item declares.
    fn variable_of(&self, alloc: Global, declaring: Declaring<'a>) -> Result<Variable, OutOfMemory>
        requires { declaring.spot < length self.now.spots.items }
        ensures { IfOk result (λ variable. IsVariableOf self.now declaring.entry variable) }
    {
        Ok(Variable {
            path: self.path_below(alloc, declaring.spot, &declaring.decl.name)?,
            role: declaring.role,
            declared: declaring.decl.what.copy()?,
            item: declaring.item,
            instance: number_of(declaring.spot)?,
        })
    }

    /// The path of a name that an instance declares.
    fn path_below(&self, alloc: Global, spot: usize, name: &Name) -> Result<Dotted, OutOfMemory>
        requires { spot < length self.now.spots.items }
        ensures { IfOk result (λ path. reverse path ≡ name.now ∷ place_at self.now spot) }
    {
        let name = name.copy()?;
        match &self.spots[spot].path {
            Some(path) => {
                let mut below = path.copy()?;
                below.push(name)?;
                Ok(below)
            }
            None => Ok(Dotted::new(alloc, name)?),
        }
    }
}
