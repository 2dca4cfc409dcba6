//! What holds of payments from listed coins alone, whatever the code does.

ghost use Rattle.std.specs.Prelude.{ℕ, pos, ◌≡◌, ◌≤ℤ◌, List, map};
ghost use Rattle.coin_candidates.specs.declared.candidate.Candidate.{Candidate};
ghost use Rattle.request_text.specs.PlainRequest.{PlainRequest, paid_to};
ghost use Rattle.request_text.specs.declared.request.Recipient.{Recipient};
ghost use Rattle.wallet_text.specs.declared.wallet.Watch.{Watch};
ghost use Rattle.fund_steps.specs.Plan.{IsPlan, PlainPlan};
ghost use Rattle.fund_plan.specs.Answer.{IsPayment};
ghost use Rattle.fund_plan.specs.Claims.{Claims};
ghost use Rattle.fund_plan.specs.Selection.{PlainFunded};
ghost use Rattle.coin_maximum.specs.Maximum.{IsListedAlone, PaysAll, max_amount, max_of};

/// The law of the most that listed coins pay: no payment from exactly these pays its recipients more. One that pays as much has no
/// change, and nothing is left over: beyond what the recipients get the coins are worth the fees of the inputs and of the base, and their
/// prices. A call does nothing.
pub fn listed_coins_pay_no_more()
    ensures most { (p : PlainPlan) (n : ℕ) (f : PlainFunded) → IsPlan p → IsListedAlone p → IsPayment p f → Claims p n f → pos (paid_to p.request.recipients) ≤ℤ max_of p }
    ensures whole { (p : PlainPlan) (n : ℕ) (f : PlainFunded) → IsPlan p → IsListedAlone p → IsPayment p f → Claims p n f → pos (paid_to p.request.recipients) ≡ max_of p → PaysAll p f }
{}

/// The law of other amounts: the most that coins pay is the same, whatever the recipients of these scripts get. A call does nothing.
pub fn amounts_leave_the_maximum()
    ensures { (r q : PlainRequest) (change : Watch) (coins : List Candidate) → r.rate ≡ q.rate → map (λ (x : Recipient). x.script) r.recipients ≡ map (λ (x : Recipient). x.script) q.recipients → max_amount r change coins ≡ max_amount q change coins }
{}
