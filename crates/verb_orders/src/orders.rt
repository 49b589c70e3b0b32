//! Orders of two faults of a set: what is found, written and said.
//!
//! The main function is [`find_orders`]: a first search looks for a trace that reaches the top event with exactly the set, and a second
//! for one that speaks against the order that the first shows.
ghost use Rattle.std.specs.Prelude.{◌≡◌, ◌⊎◌, ℕ, Some, None, IfOk, IfSome, IsErrOf, length};
ghost use Rattle.base_files.specs.Desk.{OnlyReads, IsLater, Rose};
ghost use Rattle.cut_text_laws.specs.Analysis.{told_ending};
ghost use Rattle.verb_command_line.specs.Sets.{numbers_of};
ghost use Rattle.verb_loading.specs.declared.status.Refusal.{Refusal};
ghost use Rattle.verb_loading.specs.declared.input.Stop.TheVariants as stop;
ghost use Rattle.verb_loading.specs.Statuses.{ended_with, IsBoundedAt, IsFinished};
ghost use Rattle.verb_orders.specs.Pairs.{IsAskedPair, RefusesPair, IsStagedCase};
ghost use Rattle.verb_orders.specs.Orders.{HasOrder, OrdersInPart};
ghost use Rattle.verb_orders.specs.ClaimSearch.{IsSearchOf, IsTraceAgainst, IsToldBy, HasClaimCertificate, IsConclusion, ConcludesFrom};
ghost use Rattle.verb_orders.specs.ClaimSearch.{relation_in};

use crate::pair::{PairCase, PairWords, discard_case, load_pair};
use crate::searched::{Searched, discard_search, model_of, search};
use crate::verdict::{cut, relation_of, report_claim, report_either};
use base_files::Desk;
use base_values::{ByteList, Ending, MomentList, OutOfMemory, TraceList};
use cert_file::conclusion::{Conclusion, conclude};
use cut_model_search::told;
use fault_orders::Relation;
use sat_adviser::Panel;
use std::alloc::Global;
use verb_command_line::FindOrders;
use verb_loading::input::Stop;
use verb_loading::status::{Status, ended_as};

/// Searches for the order of the two faults, writes a certificate of a complete answer, and says the line of the pair.
pub fn find_orders<D: Desk>(
    alloc: Global,
    desk: &mut D,
    asked: &FindOrders,
    panel: &mut Panel,
) -> Result<Status, Stop>
    ensures ok { IfOk result (λ s. IsAskedPair asked.now.set.now asked.now.first asked.now.second → IfSome (D.told desk.old).files (λ files.
        HasOrder files asked.now.model.now asked.now.faults.now asked.now.top.now
        (numbers_of asked.now.set.now) asked.now.first asked.now.second asked.now.depth asked.now.cert.now
        s (D.told desk.old).files (D.told desk.new).files (D.told desk.old).said (D.told desk.new).said)) }
    ensures finished { IfOk result IsFinished }
    ensures depth { IfOk result (IsBoundedAt asked.now.depth) }
    ensures refused { (r : Refusal) → IsErrOf result (stop.Refused r) →
        IsAskedPair asked.now.set.now asked.now.first asked.now.second → IfSome (D.told desk.old).files (λ files.
        RefusesPair files asked.now.model.now asked.now.faults.now asked.now.top.now
        (numbers_of asked.now.set.now) asked.now.first asked.now.second r) }
    ensures untouched { (r : Refusal) → IsErrOf result (stop.Refused r) →
        ((D.told desk.new).files ≡ (D.told desk.old).files) × ((D.told desk.new).said ≡ (D.told desk.old).said) }
    ensures failed { IsErrOf result stop.Desk → Rose (D.told desk.old).faults (D.told desk.new).faults }
    // However it ends, nothing was done, or a part of that stands: a prefix of what would be written and said.
    ensures left { (((D.told desk.new).files ≡ (D.told desk.old).files) × ((D.told desk.new).said ≡ (D.told desk.old).said))
        ⊎ (IsAskedPair asked.now.set.now asked.now.first asked.now.second → IfSome (D.told desk.old).files (λ files.
        OrdersInPart files asked.now.model.now asked.now.faults.now asked.now.top.now
        (numbers_of asked.now.set.now) asked.now.first asked.now.second asked.now.depth asked.now.cert.now
        (D.told desk.old).files (D.told desk.new).files (D.told desk.old).said (D.told desk.new).said)) }
    ensures stays { IsLater (D.told desk.old) (D.told desk.new) }
{
    let found = prepare(alloc, desk, asked, panel)?;
    conclude(desk, asked.cert, &found)?;
    Ok(ended_as(found.ending))
}

/// Reads the model and the instructions, and searches for the order of the two faults. Nothing is written or said.
fn prepare<D: Desk>(
    alloc: Global,
    desk: &mut D,
    asked: &FindOrders,
    panel: &mut Panel,
) -> Result<Conclusion, Stop>
    ensures ok { IfOk result (λ k. IsAskedPair asked.now.set.now asked.now.first asked.now.second → IfSome (D.told desk.old).files (λ files.
        ConcludesFrom files asked.now.model.now asked.now.faults.now asked.now.top.now
        (numbers_of asked.now.set.now) asked.now.first asked.now.second asked.now.depth k)) }
    ensures depth { IfOk result (λ k. IsBoundedAt asked.now.depth (ended_with (told_ending k.ending))) }
    ensures refused { (r : Refusal) → IsErrOf result (stop.Refused r) →
        IsAskedPair asked.now.set.now asked.now.first asked.now.second → IfSome (D.told desk.old).files (λ files.
        RefusesPair files asked.now.model.now asked.now.faults.now asked.now.top.now
        (numbers_of asked.now.set.now) asked.now.first asked.now.second r) }
    ensures failed { IsErrOf result stop.Desk → Rose (D.told desk.old).faults (D.told desk.new).faults }
    ensures stays { OnlyReads (D.told desk.old) (D.told desk.new) }
{
    let words = PairWords {
        model: asked.model,
        faults: asked.faults,
        top: asked.top,
        set: asked.set,
        first: asked.first,
        second: asked.second,
    };
    let staged = load_pair(alloc, desk, &words)?;
    let found = answer(alloc, &staged, asked.depth, panel);
    discard_case(staged);
    Ok(found?)
}

/// The order of the two faults: a first search looks for any trace that reaches the event with exactly the set.
fn answer(
    alloc: Global,
    staged: &PairCase,
    depth: u32,
    panel: &mut Panel,
) -> Result<Conclusion, OutOfMemory>
    requires { IsStagedCase staged.now }
    ensures { IfOk result (IsConclusion staged.now depth) }
{
    let some = search(alloc, staged, None, depth, panel)?;
    let found = answer_from(alloc, staged, depth, &some, panel);
    discard_search(some);
    found
}

/// The order of the two faults, by what the first search came to. Where no trace reaches the event with exactly the set there is
/// none.
fn answer_from(
    alloc: Global,
    staged: &PairCase,
    depth: u32,
    some: &Searched,
    panel: &mut Panel,
) -> Result<Conclusion, OutOfMemory>
    requires staged { IsStagedCase staged.now }
    requires searched { IsSearchOf staged.now None depth some.now }
    ensures { IfOk result (IsConclusion staged.now depth) }
{
    let traces: &TraceList = &some.analysis.traces;
    if traces.is_empty() {
        return concluded(alloc, staged, None, depth, some, panel);
    }
    answer_of(alloc, staged, depth, traces.at(0), panel)
}

/// The order of the two faults, of which a trace shows one: a second search looks for another trace that speaks against that.
fn answer_of(
    alloc: Global,
    staged: &PairCase,
    depth: u32,
    trace: &MomentList,
    panel: &mut Panel,
) -> Result<Conclusion, OutOfMemory>
    requires staged { IsStagedCase staged.now }
    requires trace { IsTraceAgainst staged.now None trace.now }
    ensures { IfOk result (IsConclusion staged.now depth) }
{
    let relation = relation_of(trace);
    let other = search(alloc, staged, Some(relation), depth, panel)?;
    let found = answer_against(alloc, staged, depth, trace, &other, panel);
    discard_search(other);
    found
}

/// The order of the two faults, by what the second search came to: the one that the trace shows, unless another trace speaks
/// against that.
fn answer_against(
    alloc: Global,
    staged: &PairCase,
    depth: u32,
    trace: &MomentList,
    other: &Searched,
    panel: &mut Panel,
) -> Result<Conclusion, OutOfMemory>
    requires staged { IsStagedCase staged.now }
    requires trace { IsTraceAgainst staged.now None trace.now }
    requires searched { IsSearchOf staged.now (Some (relation_in trace.now)) depth other.now }
    ensures { IfOk result (IsConclusion staged.now depth) }
{
    let traces: &TraceList = &other.analysis.traces;
    if traces.is_empty() {
        let relation = relation_of(trace);
        return concluded(alloc, staged, Some(relation), depth, other, panel);
    }
    differing(alloc, staged, trace, traces.at(0))
}

/// The answer of a search that found no trace.
fn concluded(
    alloc: Global,
    staged: &PairCase,
    claim: Option<Relation>,
    depth: u32,
    searched: &Searched,
    panel: &mut Panel,
) -> Result<Conclusion, OutOfMemory>
    requires staged { IsStagedCase staged.now }
    requires searched { IsSearchOf staged.now claim depth searched.now }
    requires none { length searched.now.analysis.traces ≡ 0 }
    requires told { IsToldBy staged.now claim }
    ensures { IfOk result (IsConclusion staged.now depth) }
{
    let cert = certificate(alloc, staged, claim, depth, searched, panel)?;
    let ending = told(&searched.analysis.end);
    let report = report_claim(alloc, staged, claim, ending, staged.typed.bits())?;
    Ok(Conclusion {
        cert,
        report,
        ending,
    })
}

/// The answer of two traces that differ, which has no certificate.
fn differing(
    alloc: Global,
    staged: &PairCase,
    one: &MomentList,
    other: &MomentList,
) -> Result<Conclusion, OutOfMemory>
    requires staged { IsStagedCase staged.now }
    requires one { IsTraceAgainst staged.now None one.now }
    requires other { IsTraceAgainst staged.now (Some (relation_in one.now)) other.now }
    ensures { IfOk result (λ k. (depth : ℕ) → IsConclusion staged.now depth k) }
{
    let variables = staged.loaded.case.limited.typed.model().variables.len();
    let one = cut(alloc, one, variables)?;
    let other = cut(alloc, other, variables)?;
    let report = report_either(alloc, staged, &one, &other)?;
    Ok(Conclusion {
        cert: None,
        report,
        ending: Ending::Complete,
    })
}

/// The text of a certificate of a search that found no trace, where it is complete.
fn certificate(
    alloc: Global,
    staged: &PairCase,
    claim: Option<Relation>,
    depth: u32,
    searched: &Searched,
    panel: &mut Panel,
) -> Result<Option<ByteList>, OutOfMemory>
    requires staged { IsStagedCase staged.now }
    requires searched { IsSearchOf staged.now claim depth searched.now }
    requires none { length searched.now.analysis.traces ≡ 0 }
    ensures { IfOk result (HasClaimCertificate staged.now claim searched.now.analysis.end) }
{
    let model = model_of(alloc, staged, &searched.top)?;
    let cert = model.certificate(alloc, &searched.analysis, panel)?;
    Ok(cert)
}
