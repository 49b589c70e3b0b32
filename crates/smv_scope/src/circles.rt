//! Which definitions are on a circle: they are put into components, of those that lead to one another, by
//! Kosaraju's way, in time linear in the links.
//!
//! The walk of `needs` gives the order by the ends of the visits. From the last one on, each definition that is
//! in no component yet begins one, and all that lead to it, and are in none, belong there: the search goes over
//! the links from their other ends, and looks at each link once. A definition is on a circle where it is linked
//! to one of its own component.
ghost use Rattle.std.specs.Prelude.{◌≡◌, ◌<◌, true, [], ◌++◌, length, reverse, set, replicate, None, Some, IfOk, OnOk};
ghost use Rattle.smv_scope.specs.Links.{graph_of, AreTurned, IsCircle, AreCircles};
ghost use Rattle.smv_scope.specs.Components.{IsFinished, component_at, members, with_own, joined_of, join_by, AreComponents};
ghost use Rattle.smv_scope.specs.Components.{is_same as is_same_component, is_back};

use crate::links::Links;
use base_values::OutOfMemory;
use std::alloc::Global;

/// A definition that may be in a component.
#[derive(Clone, Copy)]
struct CircleMember {
    definition: usize,
    component: usize,
}

/// The search for components. What is in no component yet and leads to the one that begins a component is led
/// to from there as well, since else its visit would have ended later.
#[derive(Drop)]
struct Components {
    of: Vec<Option<usize>>,
    waiting: Vec<CircleMember>,
}

impl Components {
    /// No definition is in a component yet, and each waits for one of its own, the last one first.
    fn of_order(alloc: Global, count: usize, order: &[usize]) -> Result<Components, OutOfMemory>
        ensures { IfOk result (λ c. joined_of c ≡ record { of = replicate count None; waiting = with_own [] 0 order.now }) }
    {
        let of = Vec::from_elem(alloc, None, count)?;
        let mut waiting = Vec::new(alloc);
        for (component, definition) in order.iter().enumerate() {
            waiting.push(CircleMember {
                definition: *definition,
                component,
            })?;
        }
        Ok(Components { of, waiting })
    }

    /// Looks at a definition: if it is in no component yet, it is in this one, and what is linked to it waits.
    fn by(&mut self, back: &Links, member: CircleMember) -> Result<(), OutOfMemory>
        ensures { OnOk result (joined_of self.new ≡ join_by (graph_of back.now) (joined_of self.old) member) }
    {
        if component_of(self.of.as_slice(), member.definition).is_some() {
            return Ok(());
        }
        set_component(&mut self.of, member.definition, member.component);
        push_members(
            &mut self.waiting,
            back.from(member.definition),
            member.component,
        )
    }
}

/// The component of a definition, if it is in one.
fn component_of(components: &[Option<usize>], definition: usize) -> Option<usize>
    ensures { result ≡ component_at components.now definition }
{
    match components.get(definition) {
        Some(component) => *component,
        None => None,
    }
}

/// Puts a definition into a component.
fn set_component(components: &mut Vec<Option<usize>>, definition: usize, component: usize)
    ensures { components.new.items ≡ set components.old.items definition (Some component) }
{
    if let Some(known) = components.get_mut(definition) {
        *known = Some(component);
    }
}

/// Puts definitions for a component on the stack.
fn push_members(
    waiting: &mut Vec<CircleMember>,
    definitions: &[usize],
    component: usize,
) -> Result<(), OutOfMemory>
    ensures { OnOk result (reverse waiting.new.items ≡ members component definitions.now ++ reverse waiting.old.items) }
{
    for definition in definitions.iter().rev() {
        waiting.push(CircleMember {
            definition: *definition,
            component,
        })?;
    }
    Ok(())
}

/// The component of each definition, from the order by the ends of their visits.
fn components_of(
    alloc: Global,
    links: &Links,
    back: &Links,
    order: &[usize],
) -> Result<Vec<Option<usize>>, OutOfMemory>
    requires turned { AreTurned links.now back.now }
    requires finished { IsFinished (graph_of links.now) (length links.now.of.items) order.now }
    ensures { IfOk result (λ of. AreComponents (graph_of links.now) (length links.now.of.items) of.items) }
{
    let mut components = Components::of_order(alloc, links.of.len(), order)?;
    while let Some(member) = components.waiting.pop() {
        components.by(back, member)?;
    }
    Ok(components.of)
}

/// Which definitions lead back to themselves; none does where there is no circle.
pub(crate) fn circles_of(
    alloc: Global,
    links: &Links,
    back: &Links,
    order: &[usize],
    some: bool,
) -> Result<Vec<bool>, OutOfMemory>
    requires turned { AreTurned links.now back.now }
    requires finished { IsFinished (graph_of links.now) (length links.now.of.items) order.now }
    ensures circles { IfOk result (λ marks. AreCircles (graph_of links.now) (length links.now.of.items) some marks.items) }
{
    if !some {
        return Ok(Vec::from_elem(alloc, false, links.of.len())?);
    }
    let components = components_of(alloc, links, back, order)?;
    circles_in(alloc, links, components.as_slice())
}

/// Which definitions lead back to themselves.
fn circles_in(
    alloc: Global,
    links: &Links,
    components: &[Option<usize>],
) -> Result<Vec<bool>, OutOfMemory>
    requires { AreComponents (graph_of links.now) (length links.now.of.items) components.now }
    ensures { IfOk result (λ marks. AreCircles (graph_of links.now) (length links.now.of.items) true marks.items) }
{
    let mut circles = Vec::new(alloc);
    for definition in 0..links.of.len() {
        circles.push(leads_back(links, components, definition))?;
    }
    Ok(circles)
}

/// Whether a definition leads back to itself.
fn leads_back(links: &Links, components: &[Option<usize>], definition: usize) -> bool
    requires components { AreComponents (graph_of links.now) (length links.now.of.items) components.now }
    requires within { definition < length links.now.of.items }
    ensures { IsCircle (graph_of links.now) true definition result }
{
    is_linked_inside(links, components, definition)
}

/// Whether a definition is linked to one of its own component.
fn is_linked_inside(links: &Links, components: &[Option<usize>], definition: usize) -> bool
    ensures { result ≡ is_back (graph_of links.now) components.now definition }
{
    let component = component_of(components, definition);
    links.from(definition).iter().any(|other| is_same(component, component_of(components, *other)))
}

/// Whether two components are the same.
fn is_same(one: Option<usize>, other: Option<usize>) -> bool
    ensures { result ≡ is_same_component one other }
{
    match (one, other) {
        (Some(one), Some(other)) => one == other,
        _ => false,
    }
}
