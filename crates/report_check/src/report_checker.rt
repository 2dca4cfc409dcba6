//! What reports are judged against, and the judgement.

ghost use Rattle.std.specs.Prelude.{◌≡◌, ◌≢◌, ◌≤◌, IfErr, IfOk, MatchResult, OnOk, false, length, true};
ghost use Rattle.coin_candidates.specs.Candidates.{AreCandidates};
ghost use Rattle.fund_plan.specs.Steps.{steps_of};
ghost use Rattle.fund_report.specs.declared.report.Report.TheVariants as reports;
ghost use Rattle.fund_steps.specs.Plan.{IsBumpFor, IsPlanFault, IsPlan};
ghost use Rattle.search_run.specs.Answer.{AreWhole};
ghost use Rattle.search_run.specs.Step.{AreSteps};
ghost use Rattle.wallet_text.specs.WalletRules.{IsWatch};
ghost use Rattle.report_check.specs.Judging.{AreBacking, IsBackRefusal, IsBackedBy, IsLogFault};
ghost use Rattle.report_check.specs.Verdict.{HasLog, IsAccepted, IsReportRefusal};
ghost use Rattle.report_check.specs.declared.fault.CheckFault.{CheckFault};
ghost use Rattle.report_check.specs.declared.fault.CheckFault.TheVariants as check;

use crate::answered::is_answered;
use crate::fault::CheckFault;
use crate::log_form::read_log;
use crate::log_rules::are_backing;
use crate::paid::paid;
use closing_log::Section;
use coin_candidates::Candidate;
use fund_plan::PaymentMaker;
use fund_report::{FundedReport, Report};
use fund_steps::{BumpInput, PlanBasis, PlanFault, Prepared};
use request_text::Request;
use search_run::Step;
use std::alloc::Global;
use std::marker::Model;
use wallet_text::Watch;

/// What reports are judged against: a request, the script that its change is paid to, the candidates, which are the coins that
/// may be spent, and what a plan is given where it replaces a payment. It is seen as the plan that is made from these.
pub struct ReportChecker {
    alloc: Global,
    request: Request,
    change: Watch,
    funding: PaymentMaker,
    steps: Vec<Step>,
}

/// One call, wherever it is dropped.
impl Drop for ReportChecker {
    fn drop(self) {
        let ReportChecker {
            alloc: _,
            request: _,
            change: _,
            funding: _,
            steps: _,
        } = self;
    }
}

impl Model for ReportChecker {
    ghost use Rattle.fund_steps.specs.Plan.{PlainPlan};
    ghost use Rattle.report_check.specs.Ground.{IsGround};

    ghost Value = { PlainPlan };

    ghost view = { λ e. e.funding };

    ghost invariant = { λ e. IsGround e.funding e.request e.change e.steps.items };
}

/// That a report has the answer of its log, by whether it has it. It takes no memory.
fn check_answer(is_answered: bool) -> Result<(), CheckFault>
    ensures kept { OnOk result (is_answered ≡ true) }
    ensures broken { IfErr result (λ e. (is_answered ≡ false) × (e ≡ check.Answer)) }
{
    if !is_answered {
        return Err(CheckFault::Answer);
    }
    Ok(())
}

impl ReportChecker {
    /// What reports on a request are judged against. The change script keeps the rules of a wallet's, and the candidates are
    /// at most 100,000, each outpoint once. A bump is given exactly where the request replaces a payment, as a plan asks. It
    /// refuses as a plan of these is refused.
    pub fn new(
        alloc: Global,
        request: Request,
        change: Watch,
        candidates: Vec<Candidate>,
        bump: Option<BumpInput>,
    ) -> Result<ReportChecker, PlanFault>
        requires bump { IsBumpFor request candidates.items bump }
        requires change { IsWatch change }
        requires candidates { AreCandidates candidates.items }
        ensures made { IfOk result (λ e. e ≡ record { request = request; change = change; candidates = candidates.items; bump = bump }) }
        ensures fault { IfErr result (IsPlanFault (record { request = request; change = change; candidates = candidates.items; bump = bump })) }
    {
        let Prepared { funds, steps } = PlanBasis::new(alloc, &request, &change, candidates, bump)?;
        let funding = PaymentMaker::new(alloc, &request, funds);
        Ok(ReportChecker {
            alloc,
            request,
            change,
            funding,
            steps,
        })
    }

    /// That it keeps the rules of a plan, and that the steps of its run keep theirs. A call does nothing.
    pub fn keeps_rules(&self)
        ensures plan { IsPlan self.now }
        ensures steps { AreSteps (steps_of self.now) }
    {
        self.funding.keeps_rules();
    }

    /// The steps of its run.
    #[tactic(auto, using(crate::proofs::FewLaws::steps_few, crate::proofs::FewLaws::all_whole))]
    fn steps(&self) -> &[Step]
        ensures value { result.now ≡ steps_of self.now }
        ensures fine { AreSteps result.now }
        ensures whole { AreWhole result.now }
        ensures few { length result.now ≤ 1_000 }
    {
        self.steps.as_slice()
    }

    /// Whether the sections of a log back a report of a run that came to its end.
    fn sections_back(&self, report: &Report, sections: &[Section]) -> Result<(), CheckFault>
        requires { HasLog report.now }
        ensures backed { OnOk result (AreBacking self.now report.now sections.now) }
        ensures fault { IfErr result (IsBackRefusal self.now report.now sections.now) }
    {
        let steps = self.steps();
        are_backing(self.alloc, steps, report, sections)?;
        match is_answered(
            self.alloc,
            &self.request,
            &self.funding,
            steps,
            report,
            sections,
        ) {
            Err(_) => Err(CheckFault::Memory),
            Ok(kept) => match check_answer(kept) {
                Ok(()) => Ok(()),
                Err(fault) => Err(fault),
            },
        }
    }

    /// Whether a log backs a report of a run that came to its end.
    fn backed(&self, report: &Report, log: &[u8]) -> Result<(), CheckFault>
        requires { HasLog report.now }
        ensures backed { OnOk result (IsBackedBy self.now report.now log.now) }
        ensures fault { IfErr result (IsLogFault self.now report.now log.now) }
    {
        let log = read_log(self.alloc, log)?;
        self.sections_back(report, &log.closed)
    }

    /// Whether a report of a payment is accepted with the bytes of its log.
    fn funded_judged(
        &self,
        funded: &FundedReport,
        report: &Report,
        log: &[u8],
    ) -> Result<(), CheckFault>
        requires { report.now ≡ reports.Funded funded.now }
        ensures accepted { OnOk result (IsAccepted self.now report.now log.now) }
        ensures fault { IfErr result (IsReportRefusal self.now report.now log.now) }
    {
        match paid(
            self.alloc,
            &self.request,
            &self.change,
            &self.funding,
            funded,
        ) {
            Err(fault) => Err(fault),
            Ok(()) => self.backed(report, log),
        }
    }

    /// Whether a report is accepted with the bytes of its log, or a rule that it breaks first.
    fn judged(&self, report: &Report, log: &[u8]) -> Result<(), CheckFault>
        ensures accepted { OnOk result (IsAccepted self.now report.now log.now) }
        ensures fault { IfErr result (IsReportRefusal self.now report.now log.now) }
    {
        match report {
            Report::Unfinished { .. } => Ok(()),
            Report::NoSelection { .. } => self.backed(report, log),
            Report::Funded(funded) => self.funded_judged(funded, report, log),
        }
    }

    /// Whether a report is accepted with the bytes of its log; the refusal is the first rule that it breaks. A report of a
    /// run that goes on is accepted by its form alone, whatever the bytes.
    ///
    /// No fault comes but the first one in the order of [`CheckFault`], exactly where its rule is broken, and being out of
    /// memory. `Report` comes from here for the tries alone.
    pub fn judge(&self, report: &Report, log: &[u8]) -> Result<(), CheckFault>
        ensures accepted { OnOk result (IsAccepted self.now report.now log.now) }
        ensures fault { IfErr result (IsReportRefusal self.now report.now log.now) }
        // the same from the other side
        ensures accepts { IsAccepted self.now report.now log.now → MatchResult result (λ _. Unit {0}) (λ e. e ≡ check.Memory) }
        ensures refuses { (e : CheckFault) → e ≢ check.Memory → IsReportRefusal self.now report.now log.now e → MatchResult result (λ _. ⊥) (λ d. d ≢ check.Memory → d ≡ e) }
    {
        self.judged(report, log)
    }
}
