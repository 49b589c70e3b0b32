//! The law of which certificates can be checked, which the layer above cites.
//!
//! [`spelled_are_checkable`] runs nothing: its contract is the law.
ghost use Rattle.cert_check.specs.Fit.{SpelledAreCheckable};

/// A certificate that fewer than 2^32 bytes spell can be checked.
pub fn spelled_are_checkable()
    ensures { SpelledAreCheckable }
{}
