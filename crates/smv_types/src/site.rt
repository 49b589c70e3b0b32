//! The first place at which a model breaks a rule: by instances, then items, then numbers of rules ([`earlier`]). The
//! parts of a model are judged one after the other, and the earliest of what they find is told.
ghost use Rattle.std.specs.Prelude.{◌≡◌};
ghost use Rattle.smv_types.specs.Sites.{is_before, earlier_site, site_at};

use crate::fault::{TypeRule, number_of};

/// A rule that is broken at an item of an instance.
#[derive(Clone, Copy, Debug, PartialEq, Eq)]
pub(crate) struct Site {
    pub instance: u32,
    pub item: u32,
    pub rule: TypeRule,
}

impl Site {
    /// Whether this comes no later: by instances, then items, then numbers of rules.
    fn is_before(self, other: Site) -> bool
        ensures { result ≡ is_before self other }
    {
        if self.instance != other.instance {
            self.instance < other.instance
        } else if self.item != other.item {
            self.item < other.item
        } else {
            number_of(self.rule) <= number_of(other.rule)
        }
    }
}

/// The earlier of two sites, where there is any.
pub(crate) fn earlier(a: Option<Site>, b: Option<Site>) -> Option<Site>
    ensures { result ≡ earlier_site a b }
{
    match (a, b) {
        (Some(a), Some(b)) => Some(if a.is_before(b) { a } else { b }),
        (Some(a), None) => Some(a),
        (None, b) => b,
    }
}

/// The site of an item that breaks a rule, or None where it breaks none.
pub(crate) fn site_of(instance: u32, item: u32, broken: Option<TypeRule>) -> Option<Site>
    ensures { result ≡ site_at instance item broken }
{
    match broken {
        Some(rule) => Some(Site {
            instance,
            item,
            rule,
        }),
        None => None,
    }
}
