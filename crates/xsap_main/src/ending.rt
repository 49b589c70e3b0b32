//! The numbers with which a program ends.
ghost use Rattle.std.specs.Prelude.{◌≡◌, pos};
ghost use Rattle.verb_loading.specs.Statuses.{number_of as number_of_status};

use verb_loading::status::Status;

/// The number that a program ends with where a word is not text, which no status has.
pub const NOT_TEXT: u8 = 11;

/// The number of a status, as the system takes it.
pub fn exit_number(status: &Status) -> u8
    ensures { pos result ≡ number_of_status status.now }
{
    match status {
        Status::Done => 0,
        Status::Bounded(_) => 1,
        Status::Words(_) => 2,
        Status::Model(_) => 3,
        Status::Faults(_) => 4,
        Status::Top(_) => 5,
        Status::NotAccepted(_) => 6,
        Status::Desk => 7,
        Status::Memory => 8,
        Status::Causes(_) => 9,
        Status::Set(_) => 10,
    }
}
