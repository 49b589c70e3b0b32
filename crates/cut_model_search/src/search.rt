//! The search of a model with faults for the minimal cut sets of its top event.
//!
//! [`FaultyModel::analyse`] is the main call. Frames know nothing of the top event: for many events of one model
//! [`FaultyModel::frames`] makes them once, and [`FaultyModel::analyse_in`] searches in them for one event after another.
ghost use Rattle.std.specs.Prelude.{◌≡◌, ◌<◌, ◌^◌, IfOk};
ghost use Rattle.sat_encoding_laws.specs.Lists.{system_of};
ghost use Rattle.cut_model_search.specs.CaseAnalysis.{size_for};
ghost use Rattle.cut_model_search.specs.FaultyModels.{whole_in, AnswersSearch};

use crate::faulty::FaultyModel;
use base_values::OutOfMemory;
use cut_frames::Frames;
use cut_search::answer::Analysis;
use cut_search::search::{analyse, frames_of};
use sat_adviser::Panel;
use std::alloc::Global;

/// The size with which so many faults are searched.
pub fn size_of(size: Option<u32>, faults: usize) -> u32
    requires { faults < 2 ^ 32 }
    ensures { result ≡ size_for size faults }
{
    match size {
        Some(n) => n.min(faults as u32),
        None => faults as u32,
    }
}

impl<'a> FaultyModel<'a> {
    /// The minimal sets of at most so many faults with which the top event can be reached, each with a trace of the model
    /// that shows it: for all traces, or for those of at most as many steps as the depth.
    pub fn analyse(
        &self,
        alloc: Global,
        depth: u32,
        size: u32,
        panel: &mut Panel,
    ) -> Result<Analysis, OutOfMemory>
        ensures { IfOk result (AnswersSearch self.now depth size) }
    {
        let mut frames = self.frames(alloc)?;
        self.analyse_in(alloc, depth, size, &mut frames, panel)
    }

    /// The frames of the model with its faults. They know nothing of the top event, and serve for every other of the model.
    pub fn frames(&self, alloc: Global) -> Result<Frames, OutOfMemory>
        ensures { IfOk result (λ f. f.system ≡ system_of (whole_in self.now)) }
    {
        let frames = frames_of(alloc, self)?;
        Ok(frames)
    }

    /// What `analyse` answers, found in frames of the model that may have served for other top events. Their one search stays, with
    /// all that it has learned; the clauses of the frames, which were blocked for the earlier events, are found anew.
    pub fn analyse_in(
        &self,
        alloc: Global,
        depth: u32,
        size: u32,
        frames: &mut Frames,
        panel: &mut Panel,
    ) -> Result<Analysis, OutOfMemory>
        requires { frames.old.system ≡ system_of (whole_in self.now) }
        ensures system { frames.new.system ≡ frames.old.system }
        ensures answer { IfOk result (AnswersSearch self.now depth size) }
    {
        analyse(alloc, self, depth, size, frames, panel)
    }
}
