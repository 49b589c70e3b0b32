//! Laws of the definitions, each as the contract of a function that does nothing.
ghost use Rattle.smv_language.specs.Laws.{SpellsOneExpression, SpellsOneProgram, SpellsOneList, PrintedSpells, TextsSpell};
ghost use Rattle.smv_language.specs.Laws.{ProgramTextsSpell, SpelledIsWritable, DeeperMeansTheSame, DeeperGivesTheSame};
ghost use Rattle.smv_language.specs.Laws.{AgreeingLeavesGiveTheSame, MappedLeavesGiveTheSame};

/// No list of tokens spells two expressions.
pub fn one_tree()
    ensures { SpellsOneExpression }
{}

/// No list of tokens spells two programs, or two lists of expressions, however deep they are.
pub fn one_program()
    ensures programs { SpellsOneProgram }
    ensures lists { SpellsOneList }
{}

/// The tokens of an expression's printed text spell it.
pub fn printed_spells()
    ensures { PrintedSpells }
{}

/// The text of an expression or of a program that can be written spells it.
pub fn texts_spell()
    ensures expressions { TextsSpell }
    ensures programs { ProgramTextsSpell }
{}

/// What some text spells can be written, so that its printed text spells it.
pub fn spelled_is_writable()
    ensures { SpelledIsWritable }
{}

/// More steps from name to name change neither what a name means nor what an expression gives.
pub fn deeper_is_the_same()
    ensures meaning { DeeperMeansTheSame }
    ensures values { DeeperGivesTheSame }
{}

/// An expression's values come from those of its leaves alone.
pub fn leaves_decide()
    ensures agreeing { AgreeingLeavesGiveTheSame }
    ensures mapped { MappedLeavesGiveTheSame }
{}
