//! The verbs and their options.
ghost use Rattle.std.specs.Prelude.{◌≡◌, map};
ghost use Rattle.verb_command_line.specs.Table.{options_of};
ghost use Rattle.verb_command_line.specs.WordReading.{verb_in};
ghost use Rattle.verb_command_line.specs.CommandView.{viewed};

use crate::choice::{Choice, OptionKind};
use base_values::limits::{GREATEST_CASE, GREATEST_DEPTH, MOST_FAULTS, MOST_STAGES};

/// What is to be done.
#[derive(Clone, Copy, Debug, PartialEq, Eq)]
pub enum Verb {
    Extend,
    Replay,
    Analyse,
    Check,
    Fmea,
    Make,
    Causes,
    CheckCauses,
    Orders,
    CheckOrders,
    Odds,
}

const MODEL: Choice = Choice {
    name: "--model",
    kind: OptionKind::File,
    required: true,
};

const FAULTS: Choice = Choice {
    name: "--faults",
    kind: OptionKind::File,
    required: true,
};

const EXTENDED: Choice = Choice {
    name: "--extended",
    kind: OptionKind::File,
    required: true,
};

const TRACE: Choice = Choice {
    name: "--trace",
    kind: OptionKind::File,
    required: true,
};

const TOP: Choice = Choice {
    name: "--top",
    kind: OptionKind::Event,
    required: true,
};

const TOPS: Choice = Choice {
    name: "--tops",
    kind: OptionKind::File,
    required: true,
};

const CERT: Choice = Choice {
    name: "--cert",
    kind: OptionKind::File,
    required: true,
};

const DEPTH: Choice = Choice {
    name: "--depth",
    kind: OptionKind::Number {
        least: 0,
        most: GREATEST_DEPTH,
    },
    required: true,
};

const NUMBER: Choice = Choice {
    name: "--number",
    kind: OptionKind::Number {
        least: 0,
        most: GREATEST_CASE,
    },
    required: true,
};

const STAGES: Choice = Choice {
    name: "--stages",
    kind: OptionKind::Number {
        least: 1,
        most: MOST_STAGES,
    },
    required: true,
};

const ROW_SIZE: Choice = Choice {
    name: "--size",
    kind: OptionKind::Number { least: 0, most: 2 },
    required: true,
};

const SIZE: Choice = Choice {
    name: "--size",
    kind: OptionKind::Number {
        least: 0,
        most: MOST_FAULTS as u32,
    },
    required: false,
};

const CAUSES: Choice = Choice {
    name: "--causes",
    kind: OptionKind::File,
    required: true,
};

const SET: Choice = Choice {
    name: "--set",
    kind: OptionKind::Set,
    required: true,
};

const FIRST: Choice = Choice {
    name: "--first",
    kind: OptionKind::Number {
        least: 1,
        most: MOST_FAULTS as u32,
    },
    required: true,
};

const SECOND: Choice = Choice {
    name: "--second",
    kind: OptionKind::Number {
        least: 1,
        most: MOST_FAULTS as u32,
    },
    required: true,
};

const CLAIM: Choice = Choice {
    name: "--claim",
    kind: OptionKind::Claim,
    required: true,
};

impl Verb {
    /// The verb of this name.
    pub(crate) fn named(name: &str) -> Option<Verb>
        ensures { result ≡ verb_in name.now }
    {
        match name {
            "extend" => Some(Verb::Extend),
            "replay" => Some(Verb::Replay),
            "analyse" => Some(Verb::Analyse),
            "check" => Some(Verb::Check),
            "fmea" => Some(Verb::Fmea),
            "make" => Some(Verb::Make),
            "causes" => Some(Verb::Causes),
            "check-causes" => Some(Verb::CheckCauses),
            "orders" => Some(Verb::Orders),
            "check-orders" => Some(Verb::CheckOrders),
            "odds" => Some(Verb::Odds),
            _ => None,
        }
    }

    /// Its options, in the order in which a missing one is told.
    pub(crate) fn options(self) -> &'static [Choice]
        ensures { map viewed result.now ≡ options_of self }
    {
        match self {
            Verb::Extend => &[MODEL, FAULTS, EXTENDED],
            Verb::Replay => &[MODEL, FAULTS, TRACE, TOP],
            Verb::Analyse => &[MODEL, FAULTS, TOP, DEPTH, EXTENDED, CERT, SIZE],
            Verb::Check => &[MODEL, FAULTS, TOP, CERT],
            Verb::Fmea => &[MODEL, FAULTS, TOPS, ROW_SIZE, DEPTH],
            Verb::Make => &[NUMBER, STAGES, DEPTH, MODEL, FAULTS],
            Verb::Causes => &[MODEL, FAULTS, CAUSES, TOP, DEPTH, CERT],
            Verb::CheckCauses => &[MODEL, FAULTS, CAUSES, TOP, CERT],
            Verb::Orders => &[MODEL, FAULTS, TOP, SET, FIRST, SECOND, DEPTH, CERT],
            Verb::CheckOrders => &[MODEL, FAULTS, TOP, SET, FIRST, SECOND, CLAIM, CERT],
            Verb::Odds => &[MODEL, FAULTS, TOP, DEPTH],
        }
    }
}
