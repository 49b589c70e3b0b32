//! Which instances repeat an earlier one, so that what was judged there need not be judged again. [`Likes::of_scene`] is
//! the main function.
//!
//! All instances of a module without formals mean the same, each in its own place; so does what lies inside them. So an
//! instance repeats the first one of its module, where that has no formals, and else what has its name in the instance
//! that its caller repeats. Each instance takes one or two look-ups.
ghost use Rattle.std.specs.Prelude.{◌≡◌, [], ◌∷◌, ◌++◌, set, slice_get, option_copied, Some, IfOk, OnOk};
ghost use Rattle.smv_flat_laws.specs.Alike.{AreLikes};
ghost use Rattle.smv_scope.specs.Likes.{AreFound, like_at, like_of, named_inside, earlier_of, last_of, with_first};
ghost use Rattle.smv_scope.specs.Likes.{with_first_in};
ghost use Rattle.smv_scope.specs.SceneTree.{IsScene, program_of};

use crate::names::Scene;
use crate::walk::{Meaning, Spot};
use base_values::{Name, OutOfMemory};
use std::alloc::Global;

/// Of each instance an earlier one that it repeats, where one is known.
#[derive(Drop)]
pub struct Likes {
    of: Vec<Option<usize>>,
}

impl Likes {
    /// What the instances of a scene repeat.
    pub fn of_scene(alloc: Global, scene: &Scene<'_>) -> Result<Likes, OutOfMemory>
        requires { IsScene scene.now }
        ensures likes { IfOk result (λ likes. AreLikes (program_of scene.now) likes.of.items) }
        ensures found { IfOk result (λ likes. AreFound scene.now likes.of.items) }
    {
        let mut likes = Likes {
            of: Vec::new(alloc),
        };
        let mut firsts = Vec::from_elem(alloc, None, scene.modules.list.len())?;
        for spot in 0..scene.spots.len() {
            likes.add(scene, &mut firsts, spot)?;
        }
        Ok(likes)
    }

    /// The instance that one repeats; none for one that isn't there.
    pub fn at(&self, spot: usize) -> Option<usize>
        ensures { result ≡ like_at self.now.of.items spot }
    {
        known_at(self.of.as_slice(), spot)
    }

    /// Adds the next instance; `firsts` has of each module the first instance so far.
    fn add(
        &mut self,
        scene: &Scene<'_>,
        firsts: &mut Vec<Option<usize>>,
        spot: usize,
    ) -> Result<(), OutOfMemory>
        ensures likes { OnOk result (self.new.of.items ≡ self.old.of.items
            ++ like_of scene.now self.old.of.items firsts.old.items spot (slice_get scene.now.spots.items spot) ∷ []) }
        ensures firsts { OnOk result (firsts.new.items
            ≡ with_first firsts.old.items spot (slice_get scene.now.spots.items spot)) }
    {
        let Some(here) = scene.spots.as_slice().get(spot) else {
            self.of.push(None)?;
            return Ok(());
        };
        let like = self.like_of(scene, firsts.as_slice(), spot, here);
        self.of.push(like)?;
        note_first(firsts, here.module, spot);
        Ok(())
    }

    /// The instance that the next one repeats.
    fn like_of(
        &self,
        scene: &Scene<'_>,
        firsts: &[Option<usize>],
        spot: usize,
        here: &Spot<'_>,
    ) -> Option<usize>
        ensures { result ≡ like_of scene.now self.now.of.items firsts.now spot (Some here.now) }
    {
        if scene.formals_of(spot) == 0 {
            known_at(firsts, here.module)
        } else {
            named_inside(scene, spot, self.at(here.caller), own_name(here))
        }
    }
}

/// What has a name in an instance, if that is an instance before this one.
fn named_inside(
    scene: &Scene<'_>,
    spot: usize,
    caller: Option<usize>,
    own: Option<&Name>,
) -> Option<usize>
    ensures { result ≡ named_inside scene.now spot caller (option_copied own.entry) }
{
    match (caller, own) {
        (Some(caller), Some(own)) => earlier(spot, scene.part(caller, own, true)),
        _ => None,
    }
}

/// The name that an instance is declared by; `main` has none.
fn own_name<'a>(here: &'a Spot<'_>) -> Option<&'a Name>
    ensures { option_copied result ≡ last_of here.now.path }
{
    match &here.path {
        Some(path) => path.parts().last(),
        None => None,
    }
}

/// The instance that is meant, if it comes before this one.
fn earlier(spot: usize, meaning: Meaning) -> Option<usize>
    ensures { result ≡ earlier_of spot meaning }
{
    match meaning {
        Meaning::Instance(inner) => { if inner < spot { Some(inner) } else { None } }
        _ => None,
    }
}

/// What is known at a place of a table; nothing for one that isn't there.
fn known_at(table: &[Option<usize>], place: usize) -> Option<usize>
    ensures { result ≡ like_at table.now place }
{
    match table.get(place) {
        Some(known) => *known,
        None => None,
    }
}

/// Notes an instance as the first of its module, unless there is one.
fn note_first(firsts: &mut Vec<Option<usize>>, place: usize, spot: usize)
    ensures { firsts.new.items ≡ with_first_in firsts.old.items place spot (like_at firsts.old.items place) }
{
    if known_at(firsts.as_slice(), place).is_some() {
        return;
    }
    set_first(firsts, place, spot);
}

/// Gives a module its first instance.
fn set_first(firsts: &mut Vec<Option<usize>>, place: usize, spot: usize)
    ensures { firsts.new.items ≡ set firsts.old.items place (Some spot) }
{
    if let Some(first) = firsts.get_mut(place) {
        *first = Some(spot);
    }
}
