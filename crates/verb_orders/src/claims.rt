//! Certificates of an order of two faults.
//!
//! The main function is [`check_orders`]. A certificate of an order lists no set: it shows that no trace speaks against the claim.
ghost use Rattle.std.specs.Prelude.{◌≡◌, ◌⊎◌, [], codes, IfOk, IfSome, IsErrOf, OnOk};
ghost use Rattle.base_files.specs.Desk.{OnlyReads, OnlySays, Rose, SaysPrefix};
ghost use Rattle.smv_language.specs.ModelTree.{model_tree, flat_tree};
ghost use Rattle.cut_search_laws.specs.Searchable.{IsSearchable};
ghost use Rattle.cert_text.specs.CertificateView.{seen};
ghost use Rattle.cert_check.specs.Fit.{IsCheckable};
ghost use Rattle.cert_check.specs.SiteFindings.{IsJudgedUnlisted};
ghost use Rattle.verb_loading.specs.LoadedEvents.{case_in};
ghost use Rattle.verb_command_line.specs.Sets.{numbers_of};
ghost use Rattle.verb_loading.specs.declared.status.Refusal.{Refusal};
ghost use Rattle.verb_loading.specs.declared.input.Stop.TheVariants as stop;
ghost use Rattle.verb_loading.specs.Statuses.{IsFinished};
ghost use Rattle.verb_orders.specs.Pairs.{IsAskedPair, IsStagedCase};
ghost use Rattle.verb_orders.specs.Orders.{RefusesCheck, AcceptsOrder, HasCheckedOrder, RefusesFile, AcceptsFile, RefusesClaim};
ghost use Rattle.verb_orders.specs.Orders.{IsAcceptedClaim, claim_in, staged_of, against_of, staged_matter};
ghost use Rattle.verb_orders.specs.ClaimSearch.{staged_in, against_in};

use crate::pair::{PairCase, PairWords, discard_case, load_pair};
use crate::searched::{count_few, expression};
use base_files::{Desk, say_whole};
use base_values::OutOfMemory;
use cert_check::{Judged, check_unlisted};
use cert_file::certificate::{line_stop, load_certificate};
use cert_text::Certificate;
use fault_orders::Relation;
use smv_language::Expr;
use smv_language::model::Flat;
use std::alloc::Global;
use verb_command_line::CheckOrders;
use verb_loading::input::Stop;
use verb_loading::status::Status;

/// Judges a certificate of an order, and says that it is accepted.
pub fn check_orders<D: Desk>(
    alloc: Global,
    desk: &mut D,
    asked: &CheckOrders,
) -> Result<Status, Stop>
    ensures ok { IfOk result (λ s. IsAskedPair asked.now.set.now asked.now.first asked.now.second → IfSome (D.told desk.old).files (λ files.
        HasCheckedOrder files asked.now.model.now asked.now.faults.now asked.now.top.now
        (numbers_of asked.now.set.now) asked.now.first asked.now.second asked.now.claim.now asked.now.cert.now
        s (D.told desk.old).said (D.told desk.new).said)) }
    ensures ends { IfOk result (λ s. s ≡ Status.Done) }
    ensures finished { IfOk result IsFinished }
    ensures refused { (r : Refusal) → IsErrOf result (stop.Refused r) →
        IsAskedPair asked.now.set.now asked.now.first asked.now.second → IfSome (D.told desk.old).files (λ files.
        RefusesCheck files asked.now.model.now asked.now.faults.now asked.now.top.now
        (numbers_of asked.now.set.now) asked.now.first asked.now.second asked.now.claim.now asked.now.cert.now r) }
    ensures untouched { (r : Refusal) → IsErrOf result (stop.Refused r) →
        ((D.told desk.new).files ≡ (D.told desk.old).files) × ((D.told desk.new).said ≡ (D.told desk.old).said) }
    ensures failed { IsErrOf result stop.Desk → Rose (D.told desk.old).faults (D.told desk.new).faults }
    // However it ends, nothing was said, or the certificate is accepted, and a part of that was said.
    ensures left { ((D.told desk.new).said ≡ (D.told desk.old).said) ⊎
        (SaysPrefix (D.told desk.old).said (D.told desk.new).said (codes "accepted\n")
        × (IsAskedPair asked.now.set.now asked.now.first asked.now.second → IfSome (D.told desk.old).files (λ files.
        AcceptsOrder files asked.now.model.now asked.now.faults.now asked.now.top.now
        (numbers_of asked.now.set.now) asked.now.first asked.now.second asked.now.claim.now asked.now.cert.now))) }
    ensures stays { OnlySays (D.told desk.old) (D.told desk.new) }
{
    prepare(alloc, desk, asked)?;
    say_whole(desk, b"accepted\n")?;
    Ok(Status::Done)
}

/// Reads the model, the instructions and the certificate, and judges it. Nothing is written or said.
fn prepare<D: Desk>(alloc: Global, desk: &mut D, asked: &CheckOrders) -> Result<(), Stop>
    ensures ok { OnOk result (IsAskedPair asked.now.set.now asked.now.first asked.now.second → IfSome (D.told desk.old).files (λ files.
        AcceptsOrder files asked.now.model.now asked.now.faults.now asked.now.top.now
        (numbers_of asked.now.set.now) asked.now.first asked.now.second asked.now.claim.now asked.now.cert.now)) }
    ensures refused { (r : Refusal) → IsErrOf result (stop.Refused r) →
        IsAskedPair asked.now.set.now asked.now.first asked.now.second → IfSome (D.told desk.old).files (λ files.
        RefusesCheck files asked.now.model.now asked.now.faults.now asked.now.top.now
        (numbers_of asked.now.set.now) asked.now.first asked.now.second asked.now.claim.now asked.now.cert.now r) }
    ensures failed { IsErrOf result stop.Desk → Rose (D.told desk.old).faults (D.told desk.new).faults }
    ensures stays { OnlyReads (D.told desk.old) (D.told desk.new) }
{
    let words = PairWords {
        model: asked.model,
        faults: asked.faults,
        top: asked.top,
        set: asked.set,
        first: asked.first,
        second: asked.second,
    };
    let staged = load_pair(alloc, desk, &words)?;
    let judged = judge_file(alloc, desk, &staged, asked.claim, asked.cert);
    discard_case(staged);
    judged
}

/// Judges the certificate of a file for what a word claims of a staged case.
fn judge_file<D: Desk>(
    alloc: Global,
    desk: &mut D,
    staged: &PairCase,
    claim: &str,
    cert: &str,
) -> Result<(), Stop>
    requires { IsStagedCase staged.now }
    ensures ok { OnOk result (IfSome (D.told desk.old).files (λ files.
        AcceptsFile files cert.now (staged_in staged.now) (against_in staged.now (claim_in claim.now)))) }
    ensures refused { (r : Refusal) → IsErrOf result (stop.Refused r) →
        IfSome (D.told desk.old).files
        (λ files. RefusesFile files cert.now (staged_in staged.now) (against_in staged.now (claim_in claim.now)) r) }
    ensures failed { IsErrOf result stop.Desk → Rose (D.told desk.old).faults (D.told desk.new).faults }
    ensures stays { OnlyReads (D.told desk.old) (D.told desk.new) }
{
    let certificate = load_certificate(alloc, desk, cert)?;
    judge(alloc, staged, claim_of(claim), &certificate)
}

/// What a word claims: one of the relations, or that there is no trace.
fn claim_of(word: &str) -> Option<Relation>
    ensures { result ≡ claim_in word.now }
{
    match word {
        "before" => Some(Relation::Before),
        "after" => Some(Relation::After),
        "together" => Some(Relation::Together),
        _ => None,
    }
}

/// Refuses a certificate that breaks a rule, or lists a set. More symbols than numbers of them are want of memory, and so are
/// more faults than a weave takes.
fn judge(
    alloc: Global,
    staged: &PairCase,
    claim: Option<Relation>,
    certificate: &Certificate,
) -> Result<(), Stop>
    requires staged { IsStagedCase staged.now }
    requires checkable { IsCheckable (seen certificate.now) }
    ensures ok { OnOk result (IsAcceptedClaim (staged_of (case_in staged.now.loaded) staged.now.asked.first staged.now.asked.second)
        (against_of (case_in staged.now.loaded) staged.now.set.items staged.now.asked.first staged.now.asked.second
        (flat_tree staged.now.loaded.top) claim) (seen certificate.now)) }
    ensures refused { (r : Refusal) → IsErrOf result (stop.Refused r) →
        RefusesClaim (staged_of (case_in staged.now.loaded) staged.now.asked.first staged.now.asked.second)
        (against_of (case_in staged.now.loaded) staged.now.set.items staged.now.asked.first staged.now.asked.second
        (flat_tree staged.now.loaded.top) claim) (seen certificate.now) r }
    ensures desk { IsErrOf result stop.Desk → ⊥ }
{
    count_few(staged)?;
    let top = expression(alloc, staged, claim)?;
    match judged(alloc, staged, &top, certificate)? {
        Judged::Yes => Ok(()),
        Judged::No(line, rule) => Err(line_stop(line, rule)),
    }
}

/// What is found of a certificate for an expression over the staged model.
fn judged(
    alloc: Global,
    staged: &PairCase,
    top: &Expr<Flat>,
    certificate: &Certificate,
) -> Result<Judged, OutOfMemory>
    requires none { staged.now.none ≡ [] }
    requires searchable { IsSearchable (model_tree staged.now.typed.model) [] (flat_tree top.now) }
    requires checkable { IsCheckable (seen certificate.now) }
    ensures { IfOk result
        (IsJudgedUnlisted (staged_matter (model_tree staged.now.typed.model) (flat_tree top.now) (seen certificate.now))) }
{
    check_unlisted(
        alloc,
        &staged.typed,
        &staged.typed,
        &staged.none,
        top,
        certificate,
    )
}
