//! The numbers of a certificate and its sets: rules 1 to 3.
//!
//! [`has_numbers`] judges the numbers of the certificate, and [`set_rule`] a set at its place in the list. The sets before that place
//! are in order, smaller ones first, so that a set is compared with the smaller ones alone.
ghost use Rattle.std.specs.Prelude.{◌≡◌, ◌↔◌, ◌+◌, ◌<◌, ◌≤◌, ◌&&◌, IsTrue, Some, slice_get, length, All, take};
ghost use Rattle.std.specs.List.{list_all};
ghost use Rattle.cut_sets.specs.Tests.{are_apart as apart};
ghost use Rattle.cert_laws.specs.Certificate.{a_set};
ghost use Rattle.cert_laws.specs.Acceptance.{HasNumbers, IsSetAt};
ghost use Rattle.cert_check.specs.QuestionMatter.{asked};
ghost use Rattle.cert_check.specs.Order.{is_after_in, AreInOrder};
ghost use Rattle.cert_check.specs.SiteFindings.{FindsAt};

use crate::question::CertificateQuestion;
use base_values::FaultSet;
use cut_sets::{is_contained, is_rising, stands_before};

/// Whether the numbers of bits and of faults are the model's, and the size is none above the latter.
pub(crate) fn has_numbers(q: &CertificateQuestion<'_>) -> bool
    ensures { IsTrue result ↔ HasNumbers (asked q.now).subject (asked q.now).certificate }
{
    let c = q.certificate;
    if c.bits != q.full.bits() {
        return false;
    }
    if c.faults as usize != q.faults.len() {
        return false;
    }
    c.size <= c.faults
}

/// The rule that is broken first at a set. Those before it are in order.
pub(crate) fn set_rule(q: &CertificateQuestion<'_>, k: usize, set: &[u32]) -> Option<u32>
    requires set { slice_get q.now.certificate.now.sets k ≡ Some set.now }
    requires order { AreInOrder q.now.certificate.now.sets k }
    ensures { FindsAt (asked q.now) (a_set k set.now) result }
{
    if !is_set_at(q, k, set) {
        return Some(2);
    }
    if !is_apart(q.certificate.sets.as_slice(), k, set) {
        return Some(3);
    }
    None
}

/// Whether a set rises, names faults, has at most as many as the size says, and stands after the one before.
fn is_set_at(q: &CertificateQuestion<'_>, k: usize, set: &[u32]) -> bool
    requires { slice_get q.now.certificate.now.sets k ≡ Some set.now }
    ensures { IsTrue result ↔ IsSetAt (asked q.now).subject (asked q.now).certificate k set.now }
{
    if !is_rising(set) {
        return false;
    }
    if !are_faults(set, q.faults.len()) {
        return false;
    }
    if set.len() > q.certificate.size as usize {
        return false;
    }
    is_after(q.certificate.sets.as_slice(), k, set)
}

/// Whether the numbers are those of so many faults.
pub(crate) fn are_faults(set: &[u32], faults: usize) -> bool
    ensures { IsTrue result ↔ All (λ i. (1 ≤ i) × (i ≤ faults)) set.now }
{
    set.iter().all(|i| is_fault(*i, faults))
}

/// Whether the number is that of one of so many faults.
pub fn is_fault(number: u32, faults: usize) -> bool
    ensures { IsTrue result ↔ ((1 ≤ number) × (number ≤ faults)) }
{
    1 <= number && number as usize <= faults
}

/// Whether the set before a place, where there is one, stands before the set.
fn is_after(sets: &[FaultSet], k: usize, set: &[u32]) -> bool
    requires { k < length sets.now }
    ensures { result ≡ is_after_in sets.now k set.now }
{
    if k == 0 {
        return true;
    }
    stands_before(sets[k - 1].as_slice(), set)
}

/// Whether none of the sets before a place contains the set of that place or is contained in it. As they are in order, none from
/// the first on that is no smaller does or is.
fn is_apart(sets: &[FaultSet], k: usize, set: &[u32]) -> bool
    requires set { slice_get sets.now k ≡ Some set.now }
    requires order { AreInOrder sets.now (k + 1) }
    ensures { result ≡ list_all (λ other. apart other set.now) (take k sets.now) }
{
    for j in 0..k {
        let other = sets[j].as_slice();
        if other.len() >= set.len() {
            return true;
        }
        if is_contained(other, set) {
            return false;
        }
    }
    true
}
