//! The certificate of a complete answer.
//!
//! [`FaultyModel::certificate`] is the main call. It takes those clauses of the invariant that its proof needs, derives the three parts of
//! the proof by searches over the exact lists of the model with history, and puts together the certificate with the sets and the size of
//! the analysis, the texts of its traces, these clauses, and their derivations.
ghost use Rattle.std.specs.Prelude.{◌≡◌, ◌<◌, ◌^◌, map, length, All, IfOk};
ghost use Rattle.sat_clauses.specs.Hints.{HasNoOpposites};
ghost use Rattle.sat_clauses.specs.States.{IsOverBits};
ghost use Rattle.smv_language.specs.NumberedValues.{told_trace};
ghost use Rattle.sat_encoding_laws.specs.Lists.{system_of};
ghost use Rattle.cut_text_laws.specs.TraceOfText.{GivesTrace};
ghost use Rattle.cert_laws.specs.CertificateText.{IsWritable};
ghost use Rattle.cert_laws.specs.Certification.{IsCertified};
ghost use Rattle.cert_laws.specs.Subject.{subject_of};
ghost use Rattle.cert_making.specs.PartDerivations.{AreDerived};
ghost use Rattle.cert_text.specs.CertificateView.{seen};
ghost use Rattle.cut_search.specs.declared.answer.End.TheVariants as ends;
ghost use Rattle.cut_model_search.specs.CaseAnalysis.{IsCertificateFor};
ghost use Rattle.cut_model_search.specs.Certifiable.{IsCertifiable, IsProof, certificate_of};
ghost use Rattle.cut_model_search.specs.FaultyModels.{flat_in, modes_in, event_in, whole_in, bad_in};
ghost use Rattle.cut_model_search.specs.Reports.{IsCertificateOf};
ghost use Rattle.cut_model_search.specs.Texts.{text_lines};

use crate::faulty::FaultyModel;
use crate::texts::texts_of;
use base_values::{ByteList, FaultSet, OutOfMemory, SetList};
use cert_making::needed::needed;
use cert_making::parts::{PartDerivations, derive_parts};
use cert_text::{Certificate, PackedSteps, TextList, write};
use cut_search::answer::{Analysis, End};
use sat_adviser::Panel;
use sat_clauses::clause::ClauseList;
use std::alloc::Global;

// Sets of their own with the same faults.
fn copied(alloc: Global, sets: &[FaultSet]) -> Result<SetList, OutOfMemory>
    ensures same { IfOk result (λ copy. copy ≡ sets.now) }
    ensures few { length sets.now < 2 ^ 63 }
{
    // Memory keeps the number of sets below 2^63.
    let _count = sets.len();
    let mut copy = SetList::new(alloc);
    for set in sets {
        copy.push(FaultSet::from_slice(alloc, set.as_slice())?)?;
    }
    Ok(copy)
}

/// Clauses with the derivations that they are an invariant which excludes the bad states.
#[derive(Drop)]
struct ProvedInvariant {
    clauses: ClauseList,
    parts: PartDerivations,
}

// Sees that memory keeps the number of clauses below 2^63.
fn see_few(clauses: &ClauseList)
    ensures { length clauses.now < 2 ^ 63 }
{
    // (what `len` says)
    let _count = clauses.as_slice().len();
}

impl<'a> FaultyModel<'a> {
    /// The text of a certificate of a complete answer; of one that is bounded there is none. The certificate has the sets and the size of
    /// the analysis, the lines of its traces' texts, and clauses of its invariant with the derivations of these. It is accepted for the
    /// model, its faults and the top event.
    pub fn certificate(
        &self,
        alloc: Global,
        a: &Analysis,
        panel: &mut Panel,
    ) -> Result<Option<ByteList>, OutOfMemory>
        requires { IsCertifiable self.now a.now }
        ensures { IfOk result (IsCertificateOf self.now a.now) }
    {
        match &a.end {
            End::Complete(invariant) => {
                let text = self.certificate_text(alloc, a, invariant, panel)?;
                Ok(Some(text))
            }
            End::Bounded(_steps) => Ok(None),
        }
    }

    // The text of a certificate of an answer with this invariant.
    fn certificate_text(
        &self,
        alloc: Global,
        a: &Analysis,
        invariant: &ClauseList,
        panel: &mut Panel,
    ) -> Result<ByteList, OutOfMemory>
        requires answer { IsCertifiable self.now a.now }
        requires complete { a.now.end ≡ ends.Complete invariant.now }
        ensures { IfOk result (IsCertificateFor (flat_in self.now) (modes_in self.now) (event_in self.now)
            a.now.size a.now.sets (map (told_trace self.now.model.symbols) a.now.traces)) }
    {
        let certificate = self.certify(alloc, a, invariant, panel)?;
        write(alloc, &certificate)
    }

    // The certificate of an answer with this invariant. It is accepted, and some text spells it.
    fn certify(
        &self,
        alloc: Global,
        a: &Analysis,
        invariant: &ClauseList,
        panel: &mut Panel,
    ) -> Result<Certificate, OutOfMemory>
        requires answer { IsCertifiable self.now a.now }
        requires complete { a.now.end ≡ ends.Complete invariant.now }
        ensures certified { IfOk result (λ c. IsCertified (flat_in self.now) (modes_in self.now) (event_in self.now)
            (GivesTrace (flat_in self.now))
            (subject_of (whole_in self.now) (flat_in self.now) (modes_in self.now) (event_in self.now)) (seen c)) }
        ensures writable { IfOk result (λ c. IsWritable (seen c)) }
        ensures sets { IfOk result (λ c. c.sets ≡ a.now.sets) }
        ensures size { IfOk result (λ c. c.size ≡ a.now.size) }
        ensures traces { IfOk result (λ c. c.traces ≡ map (text_lines self.now.model) a.now.traces) }
    {
        self.can_be_searched();
        let texts = texts_of(alloc, self.plain(), a.traces.as_slice())?;
        let proved = self.proved(alloc, a, invariant, panel)?;
        let certificate = self.assembled(alloc, a, texts, proved)?;
        Ok(certificate)
    }

    // Clauses of the invariant of an analysis, with the derivations that they hold first, are kept by every step, and exclude the bad
    // states of the listed sets. Those that were found to be needed are enough, or else all are taken.
    fn proved(
        &self,
        alloc: Global,
        a: &Analysis,
        invariant: &ClauseList,
        panel: &mut Panel,
    ) -> Result<ProvedInvariant, OutOfMemory>
        requires { IsProof self.now a.now invariant.now }
        ensures over_bits { IfOk result (λ p. All (IsOverBits (system_of (whole_in self.now))) p.clauses) }
        ensures apart { IfOk result (λ p. All HasNoOpposites p.clauses) }
        ensures derived { IfOk result (λ p.
            AreDerived (system_of (whole_in self.now)) p.clauses (bad_in self.now a.now.sets a.now.size) p.parts) }
    {
        let system = self.system(alloc)?;
        let bad = self.bad(alloc, &a.sets, a.size)?;
        let clauses = needed(alloc, &system, invariant, &bad, panel)?;
        if let Some(parts) = derive_parts(alloc, &system, &clauses, &bad, panel)? {
            return Ok(ProvedInvariant { clauses, parts });
        }
        let clauses = invariant.copy()?;
        match derive_parts(alloc, &system, &clauses, &bad, panel)? {
            Some(parts) => Ok(ProvedInvariant { clauses, parts }),
            None => unreachable!(),
        }
    }

    // The certificate with the sets and the size of an analysis, and these clauses with their derivations.
    fn assembled(
        &self,
        alloc: Global,
        a: &Analysis,
        traces: TextList,
        proved: ProvedInvariant,
    ) -> Result<Certificate, OutOfMemory>
        ensures made { IfOk result (λ c. seen c ≡ certificate_of self.now a.now traces proved.clauses proved.parts) }
        ensures few_sets { IfOk result (λ c. length a.now.sets < 2 ^ 63) }
        ensures few_clauses { IfOk result (λ c. length proved.clauses < 2 ^ 63) }
    {
        let sets = copied(alloc, a.sets.as_slice())?;
        let ProvedInvariant { clauses, parts } = proved;
        see_few(&clauses);
        let first = PackedSteps::of_list(alloc, &parts.first)?;
        let next = PackedSteps::of_list(alloc, &parts.next)?;
        let bad = PackedSteps::of_list(alloc, &parts.bad)?;
        Ok(Certificate {
            bits: self.bits(),
            faults: self.count(),
            size: a.size,
            sets,
            traces,
            invariant: clauses,
            first,
            next,
            bad,
        })
    }
}
