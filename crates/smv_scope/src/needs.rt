//! What definitions need: their order, which of them are on a circle, and which read an input.
//!
//! The definitions are a graph of numbers: each is linked to those that it names, in written order. One walk
//! over the graph, depth first, orders the definitions and tells whether there is a circle at all. Only if
//! there is one, and so the program will be refused, a second pass finds which definitions are on one
//! (`circles`). What reads an input is all that is reached from what names one, over the links from their
//! other ends.
ghost use Rattle.std.specs.Prelude.{◌≡◌, true, ◌||◌, [], ◌∷◌, ◌++◌, length, reverse, set, slice_get, replicate, false, unwrap_or, IfOk};
ghost use Rattle.std.specs.Prelude.{OnOk};
ghost use Rattle.smv_scope.specs.SceneTree.{IsScene, program_of};
ghost use Rattle.smv_scope.specs.TableLookUps.{found_at};
ghost use Rattle.smv_scope.specs.NeedsTree.{AreNeeds};
ghost use Rattle.smv_scope.specs.Links.{graph_of, rows, AreReached, is_marked, spread_by};
ghost use Rattle.smv_scope.specs.DefinitionOrder.{IsInto, mark_at, visits, upto, lay_of, lay_by, IsLaid, placed_from};
ghost use Rattle.smv_scope.specs.Spreads.{spread_of};
ghost use Rattle.smv_scope.specs.Components.{IsFinished};
ghost use Rattle.smv_scope.specs.DefinitionNeeds.{needed, is_input, needs_of, reads_of, number_if, IsFoundAt, AreFoundIn, IsNamed};
ghost use Rattle.smv_scope.specs.declared.needs.WalkMark.TheVariants as Mark;
ghost use Rattle.smv_scope.specs.declared.needs.Task.TheVariants as Task;

use crate::circles::circles_of;
use crate::links::Links;
use crate::names::{Defined, Scene};
use crate::uses::Uses;
use crate::walk::Meaning;
use base_values::{Dotted, OutOfMemory};
use smv_language::model::Role;
use std::alloc::Global;

/// What the definitions of a scene need of one another.
#[derive(Drop)]
pub struct Needs {
    /// The definitions in the model's order, each after those that it names.
    pub order: Vec<usize>,
    /// Of each definition its place in this order.
    pub places: Vec<usize>,
    /// Whether a definition is needed by itself.
    pub on_circle: Vec<bool>,
    /// Whether a definition reads an input, also through others.
    pub reads_input: Vec<bool>,
}

impl Needs {
    /// The needs of a scene's definitions.
    pub fn of_scene(alloc: Global, scene: &Scene<'_>) -> Result<Needs, OutOfMemory>
        requires { IsScene scene.now }
        ensures needs { IfOk result (AreNeeds (program_of scene.now)) }
    {
        let count = scene.definitions.len();
        let named = Named::of_scene(alloc, scene)?;
        let back = named.links.turned(alloc)?;
        let laid = order_of(alloc, &named.links)?;
        let places = places_of(alloc, count, laid.order.as_slice())?;
        let on_circle = circles_of(
            alloc,
            &named.links,
            &back,
            laid.order.as_slice(),
            laid.circle,
        )?;
        let reads_input = reached_from(alloc, &back, named.inputs.as_slice())?;
        Ok(Needs {
            order: laid.order,
            places,
            on_circle,
            reads_input,
        })
    }

    /// The place of a definition in the model's order; for one that isn't there, the number of all.
    pub fn place_of(&self, definition: usize) -> usize
        ensures { result ≡ unwrap_or (slice_get self.now.places.items definition) (length self.now.places.items) }
    {
        match self.places.as_slice().get(definition) {
            Some(place) => *place,
            None => self.places.len(),
        }
    }

    /// Whether a definition is needed by itself.
    pub fn is_on_circle(&self, definition: usize) -> bool
        ensures { result ≡ is_marked self.now.on_circle.items definition }
    {
        is_true(self.on_circle.as_slice(), definition)
    }
}

/// Which definitions are reached so far, and which are still to be looked at.
#[derive(Drop)]
struct Spread {
    reached: Vec<bool>,
    waiting: Vec<usize>,
}

/// Which definitions are reached from these, with these.
fn reached_from(alloc: Global, links: &Links, starts: &[usize]) -> Result<Vec<bool>, OutOfMemory>
    ensures reached { IfOk result (λ marks. AreReached (graph_of links.now) starts.now (length links.now.of.items) marks.items) }
{
    let mut spread = Spread::of_starts(alloc, links.of.len(), starts)?;
    while let Some(definition) = spread.waiting.pop() {
        spread.by(links, definition)?;
    }
    Ok(spread.reached)
}

impl Spread {
    /// Nothing is reached yet, and these wait.
    fn of_starts(alloc: Global, count: usize, starts: &[usize]) -> Result<Spread, OutOfMemory>
        ensures { IfOk result (λ s. spread_of s ≡ record { reached = replicate count false; waiting = starts.now }) }
    {
        let reached = Vec::from_elem(alloc, false, count)?;
        let mut waiting = Vec::new(alloc);
        waiting.extend_from_slice(starts)?;
        Ok(Spread { reached, waiting })
    }

    /// Looks at a definition: if it is not marked yet, it is, and what it is linked to waits.
    fn by(&mut self, links: &Links, definition: usize) -> Result<(), OutOfMemory>
        ensures { OnOk result (spread_of self.new ≡ spread_by (graph_of links.now) (spread_of self.old) definition) }
    {
        if !is_true(self.reached.as_slice(), definition) {
            set_true(&mut self.reached, definition);
            self.waiting.extend_from_slice(links.from(definition))?;
        }
        Ok(())
    }
}

/// Whether a place is marked; one beyond the list is not.
fn is_true(marks: &[bool], place: usize) -> bool
    ensures { result ≡ is_marked marks.now place }
{
    match marks.get(place) {
        Some(mark) => *mark,
        None => false,
    }
}

/// Marks a place, where the list has it.
fn set_true(marks: &mut Vec<bool>, place: usize)
    ensures { marks.new.items ≡ set marks.old.items place true }
{
    if let Some(mark) = marks.get_mut(place) {
        *mark = true;
    }
}

/// What is left to do for a definition: to visit it, or to end the visit after what it names.
#[derive(Clone, Copy)]
enum Task {
    Visit(usize),
    End(usize),
}

/// How far the walk is with a definition.
#[derive(Clone, Copy)]
enum WalkMark {
    Unmet,
    Begun,
    Ended,
}

/// The walk that orders definitions. The tasks are a stack, since definitions can hang on one another in a
/// chain as long as their list. A visit of what is begun and not ended shows a circle.
#[derive(Drop)]
struct Laying {
    marks: Vec<WalkMark>,
    order: Vec<usize>,
    tasks: Vec<Task>,
    circle: bool,
}

impl Laying {
    /// All definitions are to be visited, the first one first.
    fn of_all(alloc: Global, count: usize) -> Result<Laying, OutOfMemory>
        ensures { IfOk result (λ l. lay_of l
            ≡ record { marks = replicate count WalkMark.Unmet; order = []; tasks = visits (upto count); circle = false }) }
    {
        let marks = Vec::from_elem(alloc, WalkMark::Unmet, count)?;
        let all = all_of(alloc, count)?;
        let mut tasks = Vec::new(alloc);
        push_visits(&mut tasks, all.as_slice())?;
        Ok(Laying {
            marks,
            order: Vec::new(alloc),
            tasks,
            circle: false,
        })
    }

    /// Does a task.
    fn by(&mut self, links: &Links, task: Task) -> Result<(), OutOfMemory>
        ensures { OnOk result (lay_of self.new ≡ lay_by (graph_of links.now) (lay_of self.old) task) }
    {
        match task {
            Task::End(definition) => {
                set_mark(&mut self.marks, definition, WalkMark::Ended);
                Ok(self.order.push(definition)?)
            }
            Task::Visit(definition) => match mark_of(self.marks.as_slice(), definition) {
                WalkMark::Ended => Ok(()),
                WalkMark::Unmet => self.begin(links, definition),
                WalkMark::Begun => {
                    self.circle = true;
                    Ok(())
                }
            },
        }
    }

    /// Begins a visit: what the definition names is visited first, and then the visit ends.
    fn begin(&mut self, links: &Links, definition: usize) -> Result<(), OutOfMemory>
        requires { mark_at self.old.marks.items definition ≡ WalkMark.Unmet }
        ensures { OnOk result (lay_of self.new ≡ lay_by (graph_of links.now) (lay_of self.old) (Task.Visit definition)) }
    {
        set_mark(&mut self.marks, definition, WalkMark::Begun);
        self.tasks.push(Task::End(definition))?;
        push_visits(&mut self.tasks, links.from(definition))
    }
}

/// How far the walk is with a definition; one that isn't there is never met.
fn mark_of(marks: &[WalkMark], place: usize) -> WalkMark
    ensures { result ≡ mark_at marks.now place }
{
    match marks.get(place) {
        Some(mark) => *mark,
        None => WalkMark::Unmet,
    }
}

/// Notes how far the walk is with a definition.
fn set_mark(marks: &mut Vec<WalkMark>, place: usize, mark: WalkMark)
    ensures { marks.new.items ≡ set marks.old.items place mark }
{
    if let Some(known) = marks.get_mut(place) {
        *known = mark;
    }
}

/// Puts visits on the stack, so that the first one is done first.
fn push_visits(tasks: &mut Vec<Task>, definitions: &[usize]) -> Result<(), OutOfMemory>
    ensures { OnOk result (reverse tasks.new.items ≡ visits definitions.now ++ reverse tasks.old.items) }
{
    for definition in definitions.iter().rev() {
        tasks.push(Task::Visit(*definition))?;
    }
    Ok(())
}

/// The numbers of so many definitions.
fn all_of(alloc: Global, count: usize) -> Result<Vec<usize>, OutOfMemory>
    ensures { IfOk result (λ all. all.items ≡ upto count) }
{
    let mut all = Vec::new(alloc);
    for definition in 0..count {
        all.push(definition)?;
    }
    Ok(all)
}

/// The definitions by their places, each after those that it is linked to, these in their own order, and
/// so on down; or that there is a circle.
fn order_of(alloc: Global, links: &Links) -> Result<Laying, OutOfMemory>
    requires { IsInto (graph_of links.now) (length links.now.of.items) }
    ensures laid { IfOk result (λ l. IsLaid (graph_of links.now) (length links.now.of.items) l.circle l.order.items) }
    ensures finished { IfOk result (λ l. IsFinished (graph_of links.now) (length links.now.of.items) l.order.items) }
{
    let mut laying = Laying::of_all(alloc, links.of.len())?;
    while let Some(task) = laying.tasks.pop() {
        laying.by(links, task)?;
    }
    Ok(laying)
}

/// Of each of so many definitions its place in an order.
fn places_of(alloc: Global, count: usize, order: &[usize]) -> Result<Vec<usize>, OutOfMemory>
    ensures { IfOk result (λ places. places.items ≡ placed_from (replicate count 0) 0 order.now) }
{
    let mut places = Vec::from_elem(alloc, 0, count)?;
    for (place, definition) in order.iter().enumerate() {
        if let Some(known) = places.get_mut(*definition) {
            *known = place;
        }
    }
    Ok(places)
}

/// What the definitions of a scene name: one another, in written order, and which of them name an input.
#[derive(Drop)]
struct Named {
    links: Links,
    inputs: Vec<usize>,
}

/// What one definition names.
#[derive(Drop)]
struct NamedBy {
    needs: Vec<usize>,
    input: bool,
}

impl Named {
    /// What all definitions of a scene name.
    fn of_scene(alloc: Global, scene: &Scene<'_>) -> Result<Named, OutOfMemory>
        requires { IsScene scene.now }
        ensures named { IfOk result (IsNamed scene.now) }
    {
        let mut links = Links::unlinked(alloc, 0)?;
        let mut inputs = Vec::new(alloc);
        for (definition, defined) in scene.definitions.iter().enumerate() {
            let named = NamedBy::of_defined(alloc, scene, *defined)?;
            links.push(named.needs)?;
            push_if(&mut inputs, named.input, definition)?;
        }
        Ok(Named { links, inputs })
    }
}

/// Adds a number to a list, or not.
fn push_if(list: &mut Vec<usize>, wanted: bool, number: usize) -> Result<(), OutOfMemory>
    ensures { OnOk result (list.new.items ≡ list.old.items ++ number_if wanted number) }
{
    if wanted {
        list.push(number)?;
    }
    Ok(())
}

/// What a name means at an instance.
fn meaning_at(scene: &Scene<'_>, spot: usize, name: &Dotted) -> Meaning
    requires { IsScene scene.now }
    ensures value { result ≡ found_at scene.now spot name.now }
    ensures found { IsFoundAt scene.now spot name.now }
{
    scene.meaning(spot, name)
}

impl NamedBy {
    /// What a definition's names mean, in written order.
    fn of_defined(
        alloc: Global,
        scene: &Scene<'_>,
        defined: Defined<'_>,
    ) -> Result<NamedBy, OutOfMemory>
        requires { IsScene scene.now }
        ensures needs { IfOk result (λ n. n.needs.items ≡ needs_of scene.now defined.entry) }
        ensures input { IfOk result (λ n. n.input ≡ reads_of scene.now defined.entry) }
        ensures found { IfOk result (λ n. AreFoundIn scene.now defined.entry) }
    {
        let mut named = NamedBy {
            needs: Vec::new(alloc),
            input: false,
        };
        let uses = Uses::of_value(alloc, defined.value)?;
        for each in uses.names.as_slice() {
            named.add(meaning_at(scene, defined.spot, each.name()))?;
        }
        Ok(named)
    }

    /// Adds what a name means.
    fn add(&mut self, meaning: Meaning) -> Result<(), OutOfMemory>
        ensures needs { OnOk result (self.new.needs.items ≡ self.old.needs.items ++ needed meaning) }
        ensures input { OnOk result (self.new.input ≡ (self.old.input || is_input meaning)) }
    {
        match meaning {
            Meaning::Definition(needed) => Ok(self.needs.push(needed)?),
            Meaning::Variable {
                role: Role::Input,
                ..
            } => {
                self.input = true;
                Ok(())
            }
            _ => Ok(()),
        }
    }
}
