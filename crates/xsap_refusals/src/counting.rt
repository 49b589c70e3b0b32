//! Which tokens begin the items of a file, and which belong to them. A file whose items are counted was read as a whole, so that its
//! tokens spell a model, instructions, top events or causes; and then a few words tell where each item begins.
ghost use Rattle.std.specs.Prelude.{◌≡◌, ◌↔◌, codes};
ghost use Rattle.xsap_refusals.specs.Items.{IsBetween, IsFirst};

use crate::finding::ItemsKind;

/// What a token is to the items of its file.
#[derive(Clone, Copy)]
pub(crate) enum ItemRole {
    /// It is the first one of an item.
    First,
    /// It belongs to the item that began last.
    Inner,
    /// It belongs to no item.
    Outer,
}

/// How far the items of a file were counted.
#[derive(Clone, Copy)]
pub(crate) enum Counter {
    /// Outside items: before the first header, in a specification, and behind the words that begin a file of instructions.
    Outside,
    /// In a section or a list, where the next token begins an item.
    List,
    /// In an item of a list, which ends at a `;` that stands in so many `case`.
    Listed(u32),
    /// In an item that ends before the next section.
    Section,
    /// In the words before the first EXTENSION, so many tokens before their last one.
    Heading(u32),
    /// Where the next token begins an item of instructions, or their heading.
    Between,
    /// In an item of instructions, so many tokens before its last one.
    Counted(u32),
    /// In a SLICE, so many tokens before the word behind its variable.
    Slice(u32),
    /// In a MODE, before its name and before the token behind its name.
    Mode(u32),
    /// In the mark of a MODE.
    Mark,
}

impl Counter {
    /// The state before the first token of a file.
    pub(crate) fn new(items: ItemsKind) -> Counter {
        match items {
            ItemsKind::Model => Counter::Outside,
            ItemsKind::Faults => Counter::Between,
            ItemsKind::Events | ItemsKind::Causes => Counter::List,
        }
    }

    /// Takes the next token of a file with these items, and tells what it is to them.
    pub(crate) fn take(&mut self, items: ItemsKind, token: &[u8]) -> ItemRole {
        let (next, role) = match items {
            ItemsKind::Model => in_model(*self, token),
            ItemsKind::Faults => in_faults(*self, token),
            ItemsKind::Events => in_list(*self, token),
            ItemsKind::Causes => in_causes(*self, token),
        };
        *self = next;
        role
    }
}

/// A token of a model: each header, each item of a list, and each section without a list is one item.
fn in_model(before: Counter, token: &[u8]) -> (Counter, ItemRole) {
    match token {
        b"MODULE" | b"CONSTANTS" | b"INIT" | b"INVAR" | b"TRANS" => (
            Counter::Section,
            ItemRole::First,
        ),
        b"VAR" | b"IVAR" | b"FROZENVAR" | b"DEFINE" | b"ASSIGN" => (Counter::List, ItemRole::Outer),
        b"CTLSPEC" | b"SPEC" | b"LTLSPEC" | b"PSLSPEC" | b"INVARSPEC" | b"COMPUTE" => {
            (Counter::Outside, ItemRole::Outer)
        }
        _ => in_list(before, token),
    }
}

/// A token that begins no section.
fn in_list(before: Counter, token: &[u8]) -> (Counter, ItemRole) {
    match before {
        Counter::List => (in_item(0, token), ItemRole::First),
        Counter::Listed(depth) => (in_item(depth, token), ItemRole::Inner),
        Counter::Section => (Counter::Section, ItemRole::Inner),
        _ => (Counter::Outside, ItemRole::Outer),
    }
}

/// A token of a file of causes. No cause has a `case`, and each ends at its `;`.
fn in_causes(before: Counter, token: &[u8]) -> (Counter, ItemRole)
    // The token behind begins a cause exactly where this one is a `;`.
    ensures ends { IsBetween result.0 ↔ (token.now ≡ codes ";") }
    // This token begins one exactly where one could begin.
    ensures first { IsFirst result.1 ↔ IsBetween before }
{
    let role = match before {
        Counter::List => ItemRole::First,
        _ => ItemRole::Inner,
    };
    match token {
        b";" => (Counter::List, role),
        _ => (Counter::Listed(0), role),
    }
}

/// The state behind a token of an item that ends at a `;` outside every `case`, after so many open ones.
fn in_item(depth: u32, token: &[u8]) -> Counter {
    match token {
        b"case" => Counter::Listed(depth.saturating_add(1)),
        b"esac" => Counter::Listed(depth.saturating_sub(1)),
        b";" if depth == 0 => Counter::List,
        _ => Counter::Listed(depth),
    }
}

/// A token of instructions. Their words are names elsewhere, so a SLICE and an EXTENSION are told by the number of their tokens.
fn in_faults(before: Counter, token: &[u8]) -> (Counter, ItemRole) {
    match before {
        Counter::Heading(0) => (Counter::Between, ItemRole::Outer),
        Counter::Heading(left) => (Counter::Heading(left.saturating_sub(1)), ItemRole::Outer),
        Counter::Counted(0) => (Counter::Between, ItemRole::Inner),
        Counter::Counted(left) => (Counter::Counted(left.saturating_sub(1)), ItemRole::Inner),
        Counter::Slice(0) => (behind_variable(token), ItemRole::Inner),
        Counter::Slice(left) => (Counter::Slice(left.saturating_sub(1)), ItemRole::Inner),
        Counter::Mode(0) => (behind_name(token), ItemRole::Inner),
        Counter::Mode(left) => (Counter::Mode(left.saturating_sub(1)), ItemRole::Inner),
        Counter::Mark => (in_mark(token), ItemRole::Inner),
        Counter::Listed(depth) => (in_mode(depth, token), ItemRole::Inner),
        _ => begun(token),
    }
}

/// The state behind the token behind a SLICE's variable: INITIALLY, or WITH, which ends it.
fn behind_variable(token: &[u8]) -> Counter {
    match token {
        b"INITIALLY" => Counter::Counted(1),
        _ => Counter::Between,
    }
}

/// The state behind the token behind a MODE's name: the brace of a mark, or the colon.
fn behind_name(token: &[u8]) -> Counter {
    match token {
        b"{" => Counter::Mark,
        _ => Counter::Listed(0),
    }
}

/// The state behind a token of a mark.
fn in_mark(token: &[u8]) -> Counter {
    match token {
        b"}" => Counter::Listed(0),
        _ => Counter::Mark,
    }
}

/// The state behind a token of a MODE, in so many `case`.
fn in_mode(depth: u32, token: &[u8]) -> Counter {
    match in_item(depth, token) {
        Counter::List => Counter::Between,
        state => state,
    }
}

/// A token that begins an item of instructions, or `FAULT EXTENSION name` before all of them.
fn begun(token: &[u8]) -> (Counter, ItemRole) {
    match token {
        b"EXTENSION" => (Counter::Counted(2), ItemRole::First),
        b"SLICE" => (Counter::Slice(3), ItemRole::First),
        b"MODE" => (Counter::Mode(1), ItemRole::First),
        _ => (Counter::Heading(1), ItemRole::Outer),
    }
}
