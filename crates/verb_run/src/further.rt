//! The verbs whose searches and checks stand in crates of their own: common causes, orders of two faults, and odds.
//!
//! Each function here calls the crate of its verb, which reads, searches, writes and says, and says the line of what that refuses.
ghost use Rattle.std.specs.Prelude.{◌≡◌, ◌≤◌};
ghost use Rattle.base_values.specs.declared.limits.TheConstants.{GREATEST_DEPTH};
ghost use Rattle.base_files.specs.Desk.{IsLater, Rose};
ghost use Rattle.verb_command_line.specs.declared.command.Command.TheVariants as ask;
ghost use Rattle.verb_command_line.specs.CommandView.{seen};
ghost use Rattle.verb_orders.specs.Pairs.{IsAskedPair};
ghost use Rattle.verb_run.specs.Runs.{IsCarriedOut, IsLeftInPart};
ghost use Rattle.verb_run.specs.BoundedAnswers.{IsOfCommand};

use crate::ending::concluded;
use base_files::Desk;
use sat_adviser::Panel;
use std::alloc::Global;
use verb_causes::causes::{check_causes, find_causes};
use verb_command_line::{CheckCauses, CheckOrders, FindCauses, FindOdds, FindOrders};
use verb_loading::status::Status;
use verb_odds::odds::find_odds;
use verb_orders::claims::check_orders;
use verb_orders::orders::find_orders;

/// Finds the minimal cut sets of faults and common causes.
pub(crate) fn causes<D: Desk>(
    alloc: Global,
    desk: &mut D,
    asked: &FindCauses,
    panel: &mut Panel,
) -> Status
    requires { asked.now.depth ≤ GREATEST_DEPTH }
    ensures answered { IsCarriedOut (seen (ask.Causes asked.now)) result
        (D.told desk.old).files (D.told desk.new).files (D.told desk.old).said (D.told desk.new).said }
    ensures left { IsLeftInPart (seen (ask.Causes asked.now))
        (D.told desk.old).files (D.told desk.new).files (D.told desk.old).said (D.told desk.new).said }
    ensures status { IsOfCommand (seen (ask.Causes asked.now)) result }
    ensures failed { result ≡ Status.Desk → Rose (D.told desk.old).faults (D.told desk.new).faults }
    ensures stays { IsLater (D.told desk.old) (D.told desk.new) }
{
    let done = find_causes(alloc, desk, asked, panel);
    concluded(alloc, desk, done)
}

/// Judges a certificate of faults and common causes.
pub(crate) fn checked_causes<D: Desk>(alloc: Global, desk: &mut D, asked: &CheckCauses) -> Status
    ensures answered { IsCarriedOut (seen (ask.CheckCauses asked.now)) result
        (D.told desk.old).files (D.told desk.new).files (D.told desk.old).said (D.told desk.new).said }
    ensures left { IsLeftInPart (seen (ask.CheckCauses asked.now))
        (D.told desk.old).files (D.told desk.new).files (D.told desk.old).said (D.told desk.new).said }
    ensures status { IsOfCommand (seen (ask.CheckCauses asked.now)) result }
    ensures failed { result ≡ Status.Desk → Rose (D.told desk.old).faults (D.told desk.new).faults }
    ensures stays { IsLater (D.told desk.old) (D.told desk.new) }
{
    let done = check_causes(alloc, desk, asked);
    concluded(alloc, desk, done)
}

/// Finds in which order two faults of a set come.
pub(crate) fn orders<D: Desk>(
    alloc: Global,
    desk: &mut D,
    asked: &FindOrders,
    panel: &mut Panel,
) -> Status
    requires { IsAskedPair asked.now.set.now asked.now.first asked.now.second }
    ensures answered { IsCarriedOut (seen (ask.Orders asked.now)) result
        (D.told desk.old).files (D.told desk.new).files (D.told desk.old).said (D.told desk.new).said }
    ensures left { IsLeftInPart (seen (ask.Orders asked.now))
        (D.told desk.old).files (D.told desk.new).files (D.told desk.old).said (D.told desk.new).said }
    ensures status { IsOfCommand (seen (ask.Orders asked.now)) result }
    ensures failed { result ≡ Status.Desk → Rose (D.told desk.old).faults (D.told desk.new).faults }
    ensures stays { IsLater (D.told desk.old) (D.told desk.new) }
{
    let done = find_orders(alloc, desk, asked, panel);
    concluded(alloc, desk, done)
}

/// Judges a certificate of such an order.
pub(crate) fn checked_orders<D: Desk>(alloc: Global, desk: &mut D, asked: &CheckOrders) -> Status
    requires { IsAskedPair asked.now.set.now asked.now.first asked.now.second }
    ensures answered { IsCarriedOut (seen (ask.CheckOrders asked.now)) result
        (D.told desk.old).files (D.told desk.new).files (D.told desk.old).said (D.told desk.new).said }
    ensures left { IsLeftInPart (seen (ask.CheckOrders asked.now))
        (D.told desk.old).files (D.told desk.new).files (D.told desk.old).said (D.told desk.new).said }
    ensures status { IsOfCommand (seen (ask.CheckOrders asked.now)) result }
    ensures failed { result ≡ Status.Desk → Rose (D.told desk.old).faults (D.told desk.new).faults }
    ensures stays { IsLater (D.told desk.old) (D.told desk.new) }
{
    let done = check_orders(alloc, desk, asked);
    concluded(alloc, desk, done)
}

/// Finds the minimal cut sets, and bounds their probabilities.
pub(crate) fn odds<D: Desk>(
    alloc: Global,
    desk: &mut D,
    asked: &FindOdds,
    panel: &mut Panel,
) -> Status
    requires { asked.now.depth ≤ GREATEST_DEPTH }
    ensures answered { IsCarriedOut (seen (ask.Odds asked.now)) result
        (D.told desk.old).files (D.told desk.new).files (D.told desk.old).said (D.told desk.new).said }
    ensures left { IsLeftInPart (seen (ask.Odds asked.now))
        (D.told desk.old).files (D.told desk.new).files (D.told desk.old).said (D.told desk.new).said }
    ensures status { IsOfCommand (seen (ask.Odds asked.now)) result }
    ensures failed { result ≡ Status.Desk → Rose (D.told desk.old).faults (D.told desk.new).faults }
    ensures stays { IsLater (D.told desk.old) (D.told desk.new) }
{
    let done = find_odds(alloc, desk, asked, panel);
    concluded(alloc, desk, done)
}
