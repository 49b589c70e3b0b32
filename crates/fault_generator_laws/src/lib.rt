//! What the generator's models keep of the rules: they break none, their instructions are taken, and their
//! extensions pass no limit.
//!
//! A generated model is relays on two rails (`fault_generator`): each stage is an instance of one module, fed by an
//! earlier stage's output or by TRUE, and `dead` says that the last output of both rails is FALSE. The laws are
//! stated in `specs/Laws.antt`, and the functions below carry them and run nothing. The layer above reads the
//! generator's texts back and asks of these laws that no reading refuses them.
//!
//! The proofs begin with the shape of such a program: `Stages` has its stages, numbered from 1 on with names of
//! their own, whatever the number that decides the rails. `Meanings` says what their names mean, `Items` and
//! `Accepted` that no rule of flattening is broken at any site. `Truths` has models of truth values alone, which
//! break no rule of kinds; by `Expressions`, `Roots` and `Typed` the generated ones are such. `Top` has the event,
//! `Instructions` the rules of a weave, `Faults` the number of faults, and `Woven` and `Sizes` the extension's
//! numbers and its size with history. `Texts` has the lengths of the texts; a text of at most 2,000 bytes nests its
//! parentheses less than `MOST_NESTED` deep, by `Short` and `Depths`, whatever it spells. So by `Readings` nothing but want
//! of memory stops a reading of them.
//!
//! ```text
//! // one stage less than `MOST_INSTANCES` is that many instances with `main`
//! // 256 stages have 256 faults, and 768 variables in the extension
//! ```
#![tactic(auto)]

ghost use Rattle.fault_generator_laws.specs.Laws.{GeneratedIsAccepted, GeneratedIsTyped, GeneratedTopKeepsNames, GeneratedTopIsTyped};
ghost use Rattle.fault_generator_laws.specs.Laws.{GeneratedItemsAreKept, GeneratedFaultsAreFew, GeneratedUsesAreKept};
ghost use Rattle.fault_generator_laws.specs.Laws.{GeneratedFaultsAreStages, WovenIsWithinNumbers, WovenIsSmall, GeneratedTextIsShort};
ghost use Rattle.fault_generator_laws.specs.Laws.{GeneratedTextHasDepths, InstructionTextIsShort, InstructionTextHasDepths};
ghost use Rattle.fault_generator_laws.specs.Laws.{TopTextHasDepths, GeneratedTextIsRead, InstructionTextIsRead, TopTextIsRead};
ghost use Rattle.fault_generator_laws.specs.Laws.{WovenBreaksNoNumber};

/// A generated model of fewer stages than `MOST_INSTANCES` breaks no rule of names or of kinds, and no limit.
pub fn generated_models_are_lawful()
    ensures names { GeneratedIsAccepted }
    ensures kinds { GeneratedIsTyped }
{}

/// The event that both rails are dead breaks no rule of a top event of it.
pub fn generated_tops_are_lawful()
    ensures names { GeneratedTopKeepsNames }
    ensures kinds { GeneratedTopIsTyped }
{}

/// The generator's instructions break no rule of a weave at it: none of items, up to 256 stages none of numbers,
/// and none of expressions. Each stage has one fault.
pub fn generated_instructions_are_taken()
    ensures items { GeneratedItemsAreKept }
    ensures numbers { GeneratedFaultsAreFew }
    ensures expressions { GeneratedUsesAreKept }
    ensures faults { GeneratedFaultsAreStages }
{}

/// Up to 256 stages the extension passes no limit: neither that of instances or variables, nor that of size, with
/// a history bit for each fault.
pub fn generated_extensions_pass_no_limit()
    ensures numbers { WovenIsWithinNumbers }
    ensures first { WovenBreaksNoNumber }
    ensures size { WovenIsSmall }
{}

/// Up to `MOST_STAGES` the texts of the model and of the instructions have at most 2,000 bytes, and what they spell is
/// within the depths that are read, as is the word `dead`.
pub fn generated_texts_are_within_depths()
    ensures short { GeneratedTextIsShort }
    ensures depths { GeneratedTextHasDepths }
    ensures instructions_short { InstructionTextIsShort }
    ensures instructions_depths { InstructionTextHasDepths }
    ensures top_depths { TopTextHasDepths }
{}

/// Up to `MOST_STAGES` nothing but want of memory stops a reading of the two texts and of the word `dead`.
pub fn generated_texts_are_read()
    ensures model { GeneratedTextIsRead }
    ensures instructions { InstructionTextIsRead }
    ensures top { TopTextIsRead }
{}
