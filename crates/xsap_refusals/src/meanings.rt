//! What each refusal means: one sentence for each part and number. The tables of refusals in docs/MANUAL.md have the same sentences
//! under the same parts and numbers, word for word and in this order; `tools/meanings` compares the two. There is a function for each
//! table; what several tables say stands once, in [`of_text`] and [`of_expressions`]. The main function is [`meaning`].
use crate::refusal::{MomentReason, RefusalLine, RefusedPart, Subject};

/// What a refusal means, where the program says this number of this part.
pub(crate) fn meaning(refusal: &RefusalLine) -> Option<&'static str> {
    match *refusal {
        RefusalLine::Words { number, .. } => words(number),
        RefusalLine::File {
            subject,
            part,
            number,
            ..
        } => of_subject(subject, part, number),
        RefusalLine::Moment { why, .. } => Some(moment(why)),
        RefusalLine::Line { rule, .. } => line(rule),
    }
}

/// What a number of a part means where an input is refused.
fn of_subject(subject: Subject, part: RefusedPart, number: u32) -> Option<&'static str> {
    match subject {
        Subject::Model => model(part, number),
        Subject::Faults => faults(part, number),
        Subject::Top => top(part, number),
        Subject::Trace => trace(part, number),
        Subject::Cert => cert(part, number),
        Subject::Causes => causes(part, number),
        Subject::Set => set(part, number),
    }
}

/// Words of the command line.
fn words(number: u32) -> Option<&'static str> {
    match number {
        1 => Some("there are no words"),
        2 => Some("the verb is unknown"),
        3 => Some("the verb has no such option"),
        4 => Some("the option came before"),
        5 => Some("an option is missing"),
        6 => Some("no word follows the option"),
        7 => Some(
            "a number is no number of at most ten digits, or lies outside its limits; or the set is not two or more rising numbers from 1 \
                to 256 with one space between; or the claim is none of `before`, `after`, `together` and `none`",
        ),
        8 => Some("two files have one name"),
        9 => Some("a fault of an order is not in its set, or both are one"),
        _ => None,
    }
}

/// What is said of the text of every file of tokens, but for what its own table says.
fn of_text(part: RefusedPart, number: u32) -> Option<&'static str> {
    match (part, number) {
        (RefusedPart::Absent, 1) => Some("there is no such file"),
        (RefusedPart::Length, 1) => Some("the file has more than 1,048,576 bytes"),
        (RefusedPart::Lex, 1) => Some("no token and no blank begins here"),
        (RefusedPart::Lex, 2) => Some("a comment is not closed"),
        (RefusedPart::Lex, 3) => Some("a number is too big"),
        (RefusedPart::Parse, 1) => Some(
            "this token can't stand here; a `;` may be missing before it",
        ),
        (RefusedPart::Parse, 2) => Some("the file ends too soon"),
        (RefusedPart::Parse, 4) => Some("this word is left out of the language"),
        _ => None,
    }
}

/// What is said of the text and the expressions of an input, but for what its own table says.
fn of_expressions(part: RefusedPart, number: u32) -> Option<&'static str> {
    match (part, number) {
        (RefusedPart::Kinds, 1) => Some("classes do not go together, or a number is needed"),
        (RefusedPart::Kinds, 4) => Some("the divisor may be 0"),
        (RefusedPart::Kinds, 5) => Some("a value may be beyond 32 bits"),
        (RefusedPart::Kinds, 6) => Some("a range is empty"),
        (RefusedPart::Kinds, 8) => Some("the last condition of a `case` is not the word TRUE"),
        _ => of_text(part, number),
    }
}

/// The model.
fn model(part: RefusedPart, number: u32) -> Option<&'static str> {
    match (part, number) {
        (RefusedPart::Parse, 3) => Some(
            "an expression is higher, or parentheses are nested deeper, than 1,000",
        ),
        (RefusedPart::Flat, 1) => Some("no module is `main`"),
        (RefusedPart::Flat, 2) => Some("`main` has parameters"),
        (RefusedPart::Flat, 3) => Some("a second module of the name"),
        (RefusedPart::Flat, 4) => Some(
            "a second formal, variable, define or instance of the name in the module",
        ),
        (RefusedPart::Flat, 5) => Some("no such module"),
        (RefusedPart::Flat, 6) => Some("another number of actuals than formals"),
        (RefusedPart::Flat, 7) => Some("the module holds itself"),
        (RefusedPart::Flat, 8) => Some(
            "a name means nothing, or an instance stands where a value is needed",
        ),
        (RefusedPart::Flat, 9) => Some(
            "the target is no single name of the module's own state variable, or, with `init`, frozen variable",
        ),
        (RefusedPart::Flat, 10) => Some("the target is assigned already for that time"),
        (RefusedPart::Flat, 11) => Some(
            "a definition needs itself, or a formal leads back to itself",
        ),
        (RefusedPart::Flat, 12) => Some(
            "`next` where it may not stand: in INIT, INVAR, DEFINE, an actual, `init` and `:=`, or under `next`",
        ),
        (RefusedPart::Flat, 13) => Some(
            "an input where it may not stand, also through definitions: in INIT, INVAR, `init` and `:=`, or under `next`",
        ),
        (RefusedPart::Flat, 14) => Some("more than 1,000 instances or 2,000 variables"),
        (RefusedPart::Kinds, 2) => Some("a truth value is needed"),
        (RefusedPart::Kinds, 3) => Some("a set where one value is needed"),
        (RefusedPart::Kinds, 7) => Some("members are symbols and numbers"),
        (RefusedPart::Kinds, 9) => Some(
            "the model costs more than 50,000 or has more than 4,096 state bits",
        ),
        (RefusedPart::Kinds, 10) => Some("a member stands twice"),
        _ => of_expressions(part, number),
    }
}

/// The instructions.
fn faults(part: RefusedPart, number: u32) -> Option<&'static str> {
    match (part, number) {
        (RefusedPart::Parse, 3) => Some("a guard or `Follows` is too high or too deeply nested"),
        (RefusedPart::Weave, 1) => Some("no such module"),
        (RefusedPart::Weave, 2) => Some("the target is no declared name of the module"),
        (RefusedPart::Weave, 3) => Some(
            "the target is no variable of a VAR section with a finite type",
        ),
        (RefusedPart::Weave, 4) => Some("an earlier slice of the file has this name"),
        (RefusedPart::Weave, 5) => Some("an earlier mode of the slice has this name"),
        (RefusedPart::Weave, 6) => Some("an earlier slice affects the variable"),
        (RefusedPart::Effect, 1) => Some(
            "the effect is not for this type, or the constant of another class",
        ),
        (RefusedPart::Effect, 2) => Some("a number of the effect lies outside"),
        (RefusedPart::Effect, 3) => Some("the type has one value only"),
        (RefusedPart::Weave, 8) => Some(
            "a name that is added is taken, or a member of the variable's type is also a formal, variable, define or instance of the \
                module",
        ),
        (RefusedPart::Weave, 9) => Some("more than 256 modes in a slice, or more than 256 faults"),
        (RefusedPart::Flat, 8) => Some("a name of a guard or `Follows` means nothing"),
        (RefusedPart::Flat, 12) => Some("`next` in a guard or `Follows`"),
        (RefusedPart::Flat, 13) => Some("a `Follows` reaches an input"),
        (RefusedPart::Kinds, 1) => Some(
            "classes do not go together, or a number is needed; or what is followed is of another class than the variable",
        ),
        (RefusedPart::Kinds, 2) => Some("a truth value is needed, as of a guard"),
        (RefusedPart::Kinds, 3) => Some("a set where one value is needed, as behind `Follows`"),
        (RefusedPart::Flat, 14) => Some("the extension has too many instances or variables"),
        (RefusedPart::Kinds, 9) => Some("the extension costs too much or has too many state bits"),
        (RefusedPart::Mark, 1) => Some("a mode has no mark, and the verb is odds"),
        (RefusedPart::Mark, 2) => Some("a mark is no probability, and the verb is odds"),
        _ => of_expressions(part, number),
    }
}

/// The top event, or the file of top events.
fn top(part: RefusedPart, number: u32) -> Option<&'static str> {
    match (part, number) {
        (RefusedPart::Absent, 1) => Some("there is no such file of top events"),
        (RefusedPart::Length, 1) => Some(
            "the word has more than 65,536 bytes, or the file more than 1,048,576",
        ),
        (RefusedPart::Parse, 1) => Some("this token can't stand here"),
        (RefusedPart::Parse, 2) => Some("the word or file ends too soon"),
        (RefusedPart::Parse, 3) => Some(
            "the event is higher, or its parentheses are nested deeper, than 1,000",
        ),
        (RefusedPart::Count, 1) => Some("the file has more than 64 top events"),
        (RefusedPart::Flat, 8) => Some("a name means nothing in the model"),
        (RefusedPart::Flat, 12) => Some("`next` stands in the event"),
        (RefusedPart::Flat, 13) => Some("the event reaches an input"),
        (RefusedPart::Kinds, 2) => Some("a truth value is needed, as of the event"),
        (RefusedPart::Kinds, 3) => Some("a set where one value is needed, as of the event"),
        (RefusedPart::Kinds, 9) => Some("the event costs more than 50,000"),
        _ => of_expressions(part, number),
    }
}

/// The file and the text of a trace.
fn trace(part: RefusedPart, number: u32) -> Option<&'static str> {
    match (part, number) {
        (RefusedPart::Absent, 1) => Some("there is no such file"),
        (RefusedPart::Length, 1) => Some("the file has more than 16,777,216 bytes"),
        (RefusedPart::Read, 1) => Some(
            "a line is neither the next moment nor a value of one, or the last line has no line feed; or there is none",
        ),
        (RefusedPart::Read, 2) => Some("no variable has the name"),
        (RefusedPart::Read, 3) => Some("the variable has no such value"),
        (RefusedPart::Read, 4) => Some("a value is missing, where all lines are right"),
        (RefusedPart::Read, 5) => Some("the variable has a value at this moment already"),
        _ => None,
    }
}

/// A moment of a trace.
fn moment(why: MomentReason) -> &'static str {
    match why {
        MomentReason::First => "the first moment is none that a trace can begin with",
        MomentReason::Step => "no step leads to the moment",
        MomentReason::Top => "the event is FALSE at the last moment",
    }
}

/// The file and the text of a certificate.
fn cert(part: RefusedPart, number: u32) -> Option<&'static str> {
    match (part, number) {
        (RefusedPart::Absent, 1) => Some("there is no such file"),
        (RefusedPart::Length, 1) => Some("the file has more than 268,435,456 bytes"),
        (RefusedPart::Read, 1) => Some(
            "the line does not have its form, or stands behind the end, or is the last one and has no line feed",
        ),
        (RefusedPart::Read, 2) => Some("this line is missing"),
        _ => None,
    }
}

/// The file of causes, and the model that is staged for it.
fn causes(part: RefusedPart, number: u32) -> Option<&'static str> {
    match (part, number) {
        (RefusedPart::Cause, 1) => Some("a name is that of no fault"),
        (RefusedPart::Cause, 2) => Some("an earlier cause has this name"),
        (RefusedPart::Cause, 3) => Some("a fault is named twice"),
        (RefusedPart::Cause, 4) => Some("a window is empty"),
        (RefusedPart::Cause, 5) => Some("a window ends after 100"),
        (RefusedPart::Cause, 6) => Some("more than 256 faults and causes"),
        (RefusedPart::Cause, 7) => Some("a name that is added is taken"),
        (RefusedPart::Kinds, 9) => Some(
            "the staged model costs too much or has too many state bits",
        ),
        _ => of_text(part, number),
    }
}

/// The set of an order.
fn set(part: RefusedPart, number: u32) -> Option<&'static str> {
    match (part, number) {
        (RefusedPart::Count, 1) => Some("a number of the set is that of no fault"),
        _ => None,
    }
}

/// A line of a certificate.
fn line(rule: u32) -> Option<&'static str> {
    match rule {
        1 => Some(
            "the number of bits or of faults is not the model's, or the size is above the number of faults",
        ),
        2 => Some(
            "a set does not rise, names no fault, has more faults than the size, or does not stand after the one before it",
        ),
        3 => Some("of this set and one before it, one contains the other"),
        4 => Some("the text of a trace is refused, as by `replay`"),
        5 => Some("the trace is none of the extension"),
        6 => Some("the trace does not reach the top event"),
        7 => Some("the trace has not failed exactly the faults of its set"),
        8 => Some(
            "a literal of the invariant is no bit of a state, one of a step is above the highest variable that the step may have, or a \
                literal stands beside its opposite",
        ),
        9 => Some(
            "a hint names no earlier clause, or one that is neither unit nor false at its turn, or one after the false one",
        ),
        10 => Some("all hints are used, and none was false"),
        11 => Some(
            "the steps of a part do not show what the part is for; told at the line after its last step",
        ),
        12 => Some("a certificate of an order lists a set"),
        _ => None,
    }
}
