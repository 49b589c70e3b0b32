//! What formals mean. The look-up of a formal goes through its actual, where it may meet other formals,
//! and these again others. Look-ups that wait for another one stand on a stack of their own, since there
//! can be as many as there are formals; each formal is looked up once. Where the topmost look-up comes to
//! a formal whose own look-up waits below it, those from that one on are a circle. Their formals are
//! answered at once, and they are taken from the stack as their turns come.
ghost use Rattle.std.specs.Prelude.{◌≡◌, true, false, ◌&&◌, [], ◌∷◌, ◌++◌, OnOk};
ghost use Rattle.smv_scope.specs.SceneTree.{IsScene, program_of};
ghost use Rattle.smv_scope.specs.TableLookUps.{formal_at};
ghost use Rattle.smv_scope.specs.Steps.{known_at, is_open as is_open_of, is_begun as is_begun_of, row_count, gone_inside};
ghost use Rattle.smv_scope.specs.KnownFormals.{rows, formal_of, IsOpen, IsSameButFormals};
ghost use Rattle.smv_scope.specs.WaitingLookUps.{IsUnanswered, IsFrame, LastWaits, IsReady, has_frame as frame_of_it, IsWaiting, IsProgress};
ghost use Rattle.smv_scope.specs.WaitingLookUps.{IsStop, IsCircled, AreSettled, IsRowAnswered, IsTurn};

use crate::names::{Formal, LookUpStep, Scene, plain_name_of, told};
use crate::walk::Meaning;
use base_values::{Name, OutOfMemory};
use std::alloc::Global;

/// A look-up that has begun: the formal of an instance, and the parts of its actual that are still to be
/// looked up, at the instance `here`.
#[derive(Clone, Copy)]
pub struct LookUpFrame<'a> {
    pub spot: usize,
    pub formal: usize,
    pub here: usize,
    pub rest: &'a [Name],
}

/// How a look-up goes on at its next part: further, to an answer, or not before the formal that the part
/// is has an answer itself.
pub enum Progress<'a> {
    Further(LookUpFrame<'a>),
    Ended(Meaning),
    Waits(usize),
}

/// How a look-up stops: at an answer, or before a formal that has none itself.
pub enum LookUpStop<'a> {
    Ended(Meaning),
    Waits(LookUpFrame<'a>, usize),
}

/// What a part of a name means, or the formal that it is, if that has no answer yet.
pub enum PartMeaning {
    Known(Meaning),
    Waits(usize),
}

impl<'a> Scene<'a> {
    /// Looks up all formals.
    pub fn answer_formals(&mut self, alloc: Global) -> Result<(), OutOfMemory>
        requires { IsReady self.old }
        ensures same { IsSameButFormals self.old self.new }
        ensures scene { OnOk result (IsScene self.new) }
    {
        for spot in 0..self.formals.len() {
            self.answer_row(alloc, spot)?;
        }
        Ok(())
    }

    /// Looks up the formals of an instance.
    fn answer_row(&mut self, alloc: Global, spot: usize) -> Result<(), OutOfMemory>
        requires { IsReady self.old }
        ensures same { IsSameButFormals self.old self.new }
        ensures ready { OnOk result (IsReady self.new) }
        ensures settled { OnOk result (AreSettled (rows self.old) (rows self.new)) }
        ensures answered { OnOk result (IsRowAnswered (rows self.new) spot) }
    {
        for formal in 0..self.formal_count(spot) {
            if is_open(self.formal(spot, formal)) {
                self.answer_formal(alloc, spot, formal)?;
            }
        }
        Ok(())
    }

    /// How many formals the module of an instance has room for.
    fn formal_count(&self, spot: usize) -> usize
        ensures { result ≡ row_count self.now spot }
    {
        match self.formals.as_slice().get(spot) {
            Some(formals) => formals.len(),
            None => 0,
        }
    }

    /// Looks up a formal and all that it needs.
    fn answer_formal(
        &mut self,
        alloc: Global,
        spot: usize,
        formal: usize,
    ) -> Result<(), OutOfMemory>
        requires ready { IsReady self.old }
        requires unanswered { IsUnanswered self.old spot formal }
        ensures same { IsSameButFormals self.old self.new }
        ensures ready { OnOk result (IsReady self.new) }
        ensures settled { OnOk result (AreSettled (rows self.old) (rows self.new)) }
        ensures answered { OnOk result (IsOpen (formal_of (rows self.new) spot formal) → ⊥) }
    {
        let mut waiting = Vec::new(alloc);
        self.begin(&mut waiting, spot, formal)?;
        while let Some(frame) = waiting.pop() {
            self.take_turn(&mut waiting, frame)?;
        }
        Ok(())
    }

    /// Puts the look-up of a formal that has no answer on the stack, where it isn't yet. Its actual is a plain
    /// name, since other actuals are answered already.
    fn begin(
        &mut self,
        waiting: &mut Vec<LookUpFrame<'a>>,
        spot: usize,
        formal: usize,
    ) -> Result<(), OutOfMemory>
        requires waiting { IsWaiting self.old waiting.old.items }
        requires last { LastWaits (program_of self.old) waiting.old.items spot formal }
        requires unanswered { IsUnanswered self.old spot formal }
        requires fresh { frame_of_it waiting.old.items spot formal ≡ false }
        ensures same { IsSameButFormals self.old self.new }
        ensures waiting { OnOk result (IsWaiting self.new waiting.new.items) }
        ensures begun { OnOk result (frame_of_it waiting.new.items spot formal ≡ true) }
        ensures turn { OnOk result (IsTurn (rows self.old) (rows self.new) waiting.old.items waiting.new.items) }
    {
        let frame = self.frame_of(spot, formal);
        self.set_formal(spot, formal, Formal::Begun);
        waiting.push(frame)?;
        Ok(())
    }

    /// The look-up of a formal that has no answer, at its actual's first part.
    fn frame_of(&self, spot: usize, formal: usize) -> LookUpFrame<'a>
        requires ready { IsReady self.now }
        requires unanswered { IsUnanswered self.now spot formal }
        ensures frame { IsFrame (program_of self.now) (rows self.now) result }
        ensures spot { result.spot ≡ spot }
        ensures formal { result.formal ≡ formal }
    {
        let own = &self.spots[spot];
        let Some(value) = own.actuals.get(formal) else {
            unreachable!()
        };
        let Some(name) = plain_name_of(value) else {
            unreachable!()
        };
        LookUpFrame {
            spot,
            formal,
            here: own.caller,
            rest: name.parts(),
        }
    }

    /// Goes on with the topmost look-up. One whose formal has got its answer is done.
    fn take_turn(
        &mut self,
        waiting: &mut Vec<LookUpFrame<'a>>,
        frame: LookUpFrame<'a>,
    ) -> Result<(), OutOfMemory>
        requires { IsWaiting self.old (waiting.old.items ++ frame ∷ []) }
        ensures same { IsSameButFormals self.old self.new }
        ensures waiting { OnOk result (IsWaiting self.new waiting.new.items) }
        ensures turn { OnOk result (IsTurn (rows self.old) (rows self.new) (waiting.old.items ++ frame.entry ∷ []) waiting.new.items) }
    {
        if !is_open(self.formal(frame.spot, frame.formal)) {
            return Ok(());
        }
        match self.go_on(frame) {
            LookUpStop::Ended(meaning) => {
                self.set_formal(frame.spot, frame.formal, Formal::Means(meaning));
                Ok(())
            }
            LookUpStop::Waits(next, formal) => {
                waiting.push(next)?;
                self.wait_for(waiting, next.here, formal)
            }
        }
    }

    /// Begins the look-up that the topmost one waits for, or closes the circle that it comes back to.
    fn wait_for(
        &mut self,
        waiting: &mut Vec<LookUpFrame<'a>>,
        spot: usize,
        formal: usize,
    ) -> Result<(), OutOfMemory>
        requires waiting { IsWaiting self.old waiting.old.items }
        requires last { LastWaits (program_of self.old) waiting.old.items spot formal }
        requires unanswered { IsUnanswered self.old spot formal }
        ensures same { IsSameButFormals self.old self.new }
        ensures waiting { OnOk result (IsWaiting self.new waiting.new.items) }
        ensures turn { OnOk result (IsTurn (rows self.old) (rows self.new) waiting.old.items waiting.new.items) }
    {
        if self.comes_back(waiting, spot, formal) {
            self.close_circle(waiting, spot, formal);
            Ok(())
        } else {
            self.begin(waiting, spot, formal)
        }
    }

    /// Whether the look-up of a formal stands on the stack. Only one that has begun is looked for there.
    fn comes_back(&self, waiting: &[LookUpFrame<'a>], spot: usize, formal: usize) -> bool
        ensures { result ≡ (is_begun_of (formal_at self.now spot formal) && frame_of_it waiting.now spot formal) }
    {
        is_begun(self.formal(spot, formal)) && has_frame(waiting, spot, formal)
    }

    /// Goes on with a look-up until it has an answer, or has to wait for one.
    fn go_on(&self, frame: LookUpFrame<'a>) -> LookUpStop<'a>
        requires ready { IsReady self.now }
        requires frame { IsFrame (program_of self.now) (rows self.now) frame }
        ensures { IsStop (program_of self.now) (rows self.now) frame.entry result }
    {
        let mut at = frame;
        'parts: loop {
            match self.advance(at) {
                Progress::Further(next) => at = next,
                Progress::Ended(meaning) => return LookUpStop::Ended(meaning),
                Progress::Waits(formal) => return LookUpStop::Waits(at, formal),
            }
        }
    }

    /// One part of a look-up.
    fn advance(&self, frame: LookUpFrame<'a>) -> Progress<'a>
        requires ready { IsReady self.now }
        requires frame { IsFrame (program_of self.now) (rows self.now) frame }
        ensures { IsProgress (program_of self.now) (rows self.now) frame.entry result }
    {
        let [part, more @ ..] = frame.rest else {
            return Progress::Ended(Meaning::Nothing);
        };
        match self.known_part(frame.here, part) {
            PartMeaning::Waits(formal) => Progress::Waits(formal),
            PartMeaning::Known(found) => {
                if more.is_empty() {
                    Progress::Ended(found)
                } else {
                    go_inside(frame, more, found)
                }
            }
        }
    }

    /// What a part means at an instance, or the formal that it is, if that has no answer yet.
    fn known_part(&self, spot: usize, part: &Name) -> PartMeaning
        ensures { result ≡ known_at self.now spot part.now }
    {
        match self.step(spot, part, true) {
            LookUpStep::Means(meaning) => PartMeaning::Known(meaning),
            LookUpStep::Formal(formal) => {
                let known = self.formal(spot, formal);
                if is_open(known) {
                    PartMeaning::Waits(formal)
                } else {
                    PartMeaning::Known(told(known))
                }
            }
        }
    }

    /// Answers the look-ups from that of a formal to the topmost one, each of which leads to the next and
    /// the last one back to the first.
    fn close_circle(&mut self, waiting: &[LookUpFrame<'a>], spot: usize, formal: usize)
        requires { frame_of_it waiting.now spot formal ≡ true }
        ensures same { IsSameButFormals self.old self.new }
        ensures circle { IsCircled (rows self.old) (rows self.new) waiting.now spot formal }
    {
        let mut left = waiting;
        while let [below @ .., frame] = left {
            self.set_formal(frame.spot, frame.formal, Formal::Circle);
            if frame.spot == spot && frame.formal == formal {
                return;
            }
            left = below;
        }
    }
}

/// The parts after one that means this are looked up inside it, if it is an instance.
fn go_inside<'a>(frame: LookUpFrame<'a>, more: &'a [Name], found: Meaning) -> Progress<'a>
    ensures { result ≡ gone_inside frame.entry more.entry found }
{
    match found {
        Meaning::Instance(inner) => Progress::Further(LookUpFrame {
            spot: frame.spot,
            formal: frame.formal,
            here: inner,
            rest: more,
        }),
        Meaning::Loop => Progress::Ended(Meaning::Loop),
        _ => Progress::Ended(Meaning::Nothing),
    }
}

/// Whether a formal has no answer.
fn is_open(known: Formal) -> bool
    ensures { result ≡ is_open_of known }
{
    match known {
        Formal::Unknown | Formal::Begun => true,
        Formal::Circle | Formal::Means(_) => false,
    }
}

/// Whether the look-up of a formal has begun and has no answer.
fn is_begun(known: Formal) -> bool
    ensures { result ≡ is_begun_of known }
{
    match known {
        Formal::Begun => true,
        Formal::Unknown | Formal::Circle | Formal::Means(_) => false,
    }
}

/// Whether a look-up of the formal stands on the stack.
fn has_frame(waiting: &[LookUpFrame], spot: usize, formal: usize) -> bool
    ensures { result ≡ frame_of_it waiting.now spot formal }
{
    waiting
        .iter()
        .any(|frame| frame.spot == spot && frame.formal == formal)
}
