//! Certificates: their text, when one is accepted, and what an accepted one shows, whoever wrote it.
//!
//! A certificate lists fault sets with a trace text each, an invariant, and three derivations: that the invariant holds
//! first, that every step keeps it, and that it excludes each bad state (`specs/Certificate.antt`, which also has the line
//! of each part). `CertificateText` says which bytes spell one, and what is wrong first with bytes that spell none;
//! `LineReading` and `Expecting` compute it line by line, for a reader to mirror. `Accepted` has the eleven rules, what each
//! asks at which line, and the objection: the smallest line where a rule is broken, and the smallest rule there. `Sites` has
//! what is judged in the order of lines, for a checker to mirror. `Derived` says which derivations make a certificate
//! accepted, and what a search is asked for them. `CertificateLaws`, `TextLaws` and `Judgement` have what holds of all this, which
//! the contracts below carry; `proofs/Examples.antt` computes a small certificate.
//!
//! ```text
//! // line 7 of a certificate, a step: the clause -2 follows by unit propagation along the clauses 1, 6 and 4
//! // step -2 : 1 6 4
//! ```
//!
//! A certificate is judged about its subject: the clause lists of a model with history and, for any sets and size, that of its bad
//! states, gate by gate as `sat_encoding_laws` has them (`specs/Subject.antt`). So the code that makes a certificate and the code
//! that judges one speak of one subject, and a law says that it is one of those that encode the model (`specs/Certification.antt`).
//!
//! What an accepted certificate shows is proved by induction over moments: the invariant's clauses hold in each first state, every
//! step keeps them, and they exclude the bad states. So the listed sets are right for all flat traces, and by what flat traces are
//! cut to for all extended traces (`specs/Completeness.antt`). It uses nothing of a search.
//!
//! A flat trace of the woven program's model corresponds to the extended trace that its valuations are cut to
//! (`specs/ExtendedTraces.antt`): the one is a trace, reaches the top event and has failed the fault of a number exactly where the
//! other does. By `Laws`, sets that are right for all flat traces, or for those of at most k steps, are right for extended traces.
//!
//! ```text
//! // accepted: sets 1, set 2; size 2
//! // so each reaching trace, of whatever length, that has failed at most two faults has failed fault 2
//! ```
#![tactic(auto)]

ghost use Rattle.cert_laws.specs.AnalysisCertificates.{AnalysedIsAccepted};
ghost use Rattle.cert_laws.specs.Certification.{CertifiedIsRight};
ghost use Rattle.cert_laws.specs.Completeness.{CertifiedCompleteness, CertifiedSetsAreMinimal};
ghost use Rattle.cert_laws.specs.Laws.{FlatTracesAreCut, AllRightIsExtended, ShortRightIsExtended, ExtensionModelsAreOwn};
ghost use Rattle.cert_laws.specs.Derivations.{DerivationsGoOn, GoalsFollow, MadeIsAccepted};
ghost use Rattle.cert_laws.specs.TextLaws.{OneCertificate, OneWrongLine, SpelledHasNone};
ghost use Rattle.cert_laws.specs.Acceptance.{Subject};
ghost use Rattle.cert_laws.specs.Certificate.{Certificate};
ghost use Rattle.cert_laws.specs.Sites.{FirstBrokenIsObjection};
ghost use Rattle.cert_laws.specs.LineReading.{CountsAreExact, SetsAreExact, ClausesAreExact, StepsAreExact};
ghost use Rattle.cert_laws.specs.ExpectedLines.{TakenLinesBegin, EachTextIsJudged};
ghost use Rattle.cert_laws.specs.Judgement.{EachIsJudged};
ghost use Rattle.cert_laws.specs.CertificateLaws.{OneObjection, AcceptedHasNone, AcceptedIsInvariant};
ghost use Rattle.cert_laws.specs.Subject.{SubjectsAreRight};

use cut_right_laws::Traces;

/// Which flat traces the texts of certificates give.
pub trait TraceTexts {
    ghost use Rattle.std.specs.Prelude.{List};
    ghost use Rattle.smv_language.specs.Values.{Value};
    ghost use Rattle.cut_text_laws.specs.Lines.{Line};

    ghost reads: { List Line → List (List Value) → Type 0 };
}

/// The sets and traces of an accepted certificate are right, with its size, for all traces of the flat model, of every length;
/// so they are for all extended traces; and the sets are exactly the minimal cut sets of at most as many faults as the size says.
pub fn accepted_is_right<R: TraceTexts>()
    ensures flat { CertifiedIsRight R.reads }
    ensures extended { CertifiedCompleteness R.reads }
    ensures minimal { CertifiedSetsAreMinimal R.reads }
{}

/// A certificate that is made of an analysis, with derived parts, is accepted.
pub fn analysed_is_accepted<R: TraceTexts>()
    ensures { AnalysedIsAccepted R.reads }
{}

/// Each flat trace of an extension's model is cut to an extended trace, and sets that are right for flat traces, for all or for
/// those of at most k steps, are right for extended traces.
pub fn right_is_extended()
    ensures cut { FlatTracesAreCut }
    ensures all { AllRightIsExtended }
    ensures short { ShortRightIsExtended }
    ensures own { ExtensionModelsAreOwn }
{}

/// Traces that texts give.
pub trait Texts: Traces {
    ghost use Rattle.std.specs.Prelude.{List};
    ghost use Rattle.cut_text_laws.specs.Lines.{Line};

    ghost reads: { List Line → Self → Type 0 };
}

/// A certificate has at most one objection, with one line and one rule, and none where it is accepted.
pub fn one_objection<T: Texts>()
    ensures one { OneObjection T T.reads T.is_trace T.reaches T.has_failed }
    ensures none { AcceptedHasNone T T.reads T.is_trace T.reaches T.has_failed }
{}

/// The invariant of an accepted certificate holds in each first state, is kept by every step, and holds in no bad state.
pub fn accepted_is_invariant<T: Texts>()
    ensures { AcceptedIsInvariant T T.reads T.is_trace T.reaches T.has_failed }
{}

/// Each clause that a derivation of a certificate is to show follows from what it starts from, where the invariant is one.
pub fn goals_follow()
    ensures { GoalsFollow }
{}

/// A derivation is made goal by goal: a search over what is known finds no assignment in which the goal is false, and the
/// steps with which it refutes go on.
pub fn derivations_go_on()
    ensures { DerivationsGoOn }
{}

/// A certificate with right numbers, sets and traces, and with parts that are derived, is accepted.
pub fn made_is_accepted<T: Texts>()
    ensures { MadeIsAccepted T T.reads T.is_trace T.reaches T.has_failed }
{}

/// Bytes spell at most one certificate. Where they spell none, at most one line is the first that is wrong, or is missing.
pub fn one_text()
    ensures spelled { OneCertificate }
    ensures wrong { OneWrongLine }
    ensures none { SpelledHasNone }
{}

/// The sites of a certificate stand in the order of their lines: where every rule is kept at all of them it is accepted, and else the first
/// site that breaks one gives the objection.
pub fn first_broken_is_objection<T: Texts>()
    ensures { (subject : Subject) (c : Certificate) → FirstBrokenIsObjection T T.reads T.is_trace T.reaches T.has_failed subject c }
{}

/// A line is read as a count, a set, a clause or a step exactly where it is the line of that.
pub fn readings_are_exact()
    ensures counts { CountsAreExact }
    ensures sets { SetsAreExact }
    ensures clauses { ClausesAreExact }
    ensures steps { StepsAreExact }
{}

/// Read line by line, lines are taken exactly where they begin a certificate's text. So each bytes spell a certificate, or have a
/// first bad line, or end before a line that is missing.
pub fn each_text_is_judged()
    ensures taken { TakenLinesBegin }
    ensures judged { EachTextIsJudged }
{}

/// Where what the rules ask of trace texts is settled, each certificate is accepted or has an objection.
pub fn each_is_judged<T: Texts>()
    ensures { EachIsJudged T T.reads T.is_trace T.reaches T.has_failed }
{}

/// The subject of an encodable model with history and a top event that fits it is one of that model: its lists encode the model, and
/// its bad states are those in which the top event is TRUE with at most so many faults and all faults of no listed set.
pub fn subjects_are_right()
    ensures { SubjectsAreRight }
{}
