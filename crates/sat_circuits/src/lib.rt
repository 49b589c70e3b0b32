//! Circuits as clauses: logic gates, and words of literals with the gates of their arithmetic.
//!
//! A [`gates::Gates`] is a list of clauses under construction. It always begins with the clause `[1]`,
//! so the variable 1 and its negation are the constants. Each gate takes the next free variable and
//! appends the clauses that define it; nothing is simplified, so that the same calls always give the
//! same numbers. Contracts see it as a `Circuit`: its clauses and the next free variable.
//!
//! `specs/Gates.antt` says which clauses a gate appends and which literal it gives, as a function from
//! circuits to circuits. `specs/Meaning.antt` says what that means: `Means s r S P`, where r was built
//! onto s, is that whatever values the old variables have, the new ones can be chosen so that the new
//! clauses are true; that S holds of what r gave; and that P holds of it in every assignment that makes
//! the clauses true. The layers above compose circuits by `after` and `fold_gates` of
//! `specs/Circuit.antt` and their meanings by the laws `Means-after` and `Means-fold` of
//! `proofs/Extension.antt`, which never look at a clause; a loop that builds a circuit is
//! `proofs/Turns.antt`.
//!
//! A [`word::Word`] is a list of literals, the least significant first and the last one the sign. In an
//! assignment it is a whole number in two's complement: `word_value` of `specs/Words.antt`, over
//! `signed_value` of `specs/Bits.antt`. Each call of the files `constants`, `sums`, `compare`, `products`,
//! `quotients` and `counts` appends the gates of one operation and answers its word or literal.
//! The circuits are written once as functions from circuits to circuits, in `specs/Sums.antt`,
//! `Products.antt`, `Quotients.antt` and `Counts.antt`. Each call has four kinds of clauses: `exact`, that
//! it built that circuit, clause for clause and number for number; `value`, that whatever values the old
//! variables have, the new ones can be chosen so that the new clauses are true, and that in each
//! assignment that makes the clauses true the answer is the operation on the operands' numbers, cut to
//! the width (`IsCutTo`); `next`, how many variables it took; and `err`, that for want of memory the
//! clauses are the old ones and some of the call's own. The layer above needs no more than these. A word
//! must have a sign and only variables below the next free one (`IsWordOf`).
//!
//! `proofs/Numbers.antt` and `Orders.antt` know lists of bits alone, and the files `..Means.antt` say what
//! the circuits mean, by the composition laws; the calls' own proofs are equations on circuits.
//!
//! ```text
//! let mut g = Gates::new(alloc, 2)?;                        // [1]
//! let seven = number_word(alloc, &g, 7)?;                   // 1 1 1 -1
//! let two = number_word(alloc, &g, -2)?;                    // -1 1
//! let quotient = divide(alloc, &mut g, &seven, &two, 4)?;   // is -3 in each model of g's clauses
//! ```
#![tactic(auto)]

pub mod compare;
pub mod constants;
pub mod counts;
pub mod gates;
pub mod products;
pub mod quotients;
pub mod sums;
pub mod word;
