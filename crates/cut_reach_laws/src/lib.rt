//! What searches of staged models say: of common causes, and of the order of two faults. Laws, with no code.
//!
//! Causes that break no rule add names that are new, so that the model with them keeps its variables and symbols apart
//! (`specs/Names.antt`). Where the flat model of an extension is encodable and typed with the causes, it can be searched with
//! their events (`specs/CausedLaws.antt`), and a certificate that is accepted for it shows its sets for all caused traces
//! (`specs/CausedAnalyses.antt`).
//!
//! ```text
//! // Surge#age, Surge#event and own#1 are variables of the state, and no input is read in what is asked of them
//! ```
//!
//! Where a model with history can be searched with a top event, the model that is staged for two of its faults can be searched
//! with what speaks against a claim of their order (`specs/Laws.antt`). The staged model has no faults of its own, and is typed as
//! whoever makes it has found. Where no staged trace speaks against a claim, every extended trace that reaches the top event and has
//! failed exactly the set has the claimed relation; where none reaches it with exactly the set at all, there is no such extended
//! trace (`specs/OrdersExtendedLaws.antt`). Both hold for all traces and for those of at most k steps.
//!
//! ```text
//! // pair 1 2 before: the first moment of fault 1 is before that of fault 2 in each such trace
//! ```
//!
//! Where faults are told by variables of a model it has none of its own: the one set that a search may list is the empty one. So
//! an answer that lists none says that no trace makes the expression TRUE at its end, and so does an accepted certificate that
//! lists none; and the trace of a listed set makes it TRUE (`specs/FaultlessLaws.antt`). The answer
//! speaks of all traces, or of those of at most so many steps; the certificate speaks of all. The contracts below carry all
//! these laws.
#![tactic(auto)]

ghost use Rattle.cut_reach_laws.specs.Laws.{StagedAreSearchable};
ghost use Rattle.cut_reach_laws.specs.OrdersExtendedLaws.{FoundAreSuch, LawfulTopsAreTruths, NoneIsSaid, OrdersAreSaid, OthersAreSuch};
ghost use Rattle.cut_reach_laws.specs.FaultlessLaws.{AcceptedRefute, EmptyAnswersRefute, FoundTracesReach};
ghost use Rattle.cut_reach_laws.specs.CausedLaws.{CausedAreSearchable, CausedAreNamed, SpelledAreWords};
ghost use Rattle.cut_reach_laws.specs.CausedAnalyses.{AcceptedCertifiesCauses, AnswersAreCaused};

/// The staged model can be searched with what speaks against a claim.
pub fn staged_are_searchable()
    ensures { StagedAreSearchable }
{}

/// No staged trace against a claim means that each extended trace has the relation, or that there is none.
pub fn orders_are_said()
    ensures claimed { OrdersAreSaid }
    ensures none { NoneIsSaid }
{}

/// A top event that the kinds accept as a truth value gives one truth value at each moment of the model.
pub fn lawful_tops_are_truths()
    ensures { LawfulTopsAreTruths }
{}

/// A staged trace with exactly the set, or against a claim, shows an extended trace, and whether that has the relation.
pub fn found_are_such()
    ensures found { FoundAreSuch }
    ensures others { OthersAreSuch }
{}

/// An answer that lists no set, and an accepted certificate that lists none, refute the expression; a found trace shows it.
pub fn without_faults()
    ensures empty { EmptyAnswersRefute }
    ensures found { FoundTracesReach }
    ensures accepted { AcceptedRefute }
{}

/// The model with causes can be searched with its events.
pub fn caused_are_searchable()
    ensures { CausedAreSearchable }
{}

/// Causes that break no rule leave the variables with different names and the symbols different.
pub fn caused_are_named()
    ensures names { CausedAreNamed }
    ensures words { SpelledAreWords }
{}

/// A certificate that is accepted for the model with causes shows its sets for all caused traces.
pub fn accepted_certifies_causes()
    ensures { AcceptedCertifiesCauses }
{}

/// What answers a search of the model with causes is right for the caused traces that its ending speaks of.
pub fn answers_are_caused()
    ensures { AnswersAreCaused }
{}
