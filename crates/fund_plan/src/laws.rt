//! What the definitions of a plan's outcome come to.

ghost use Rattle.std.specs.Prelude.{◌≡◌, ◌≤◌, ◌<◌, ◌+◌, ◌+ℤ◌, ◌⊎◌, ◌↔◌, ℕ, [], All, Contains, IfSome, IsTrue, None, Some, length, sum_by, true};
ghost use Rattle.closing_log.specs.declared.mark.Mark.{Mark};
ghost use Rattle.tx_codec.specs.Signals.{Signals};
ghost use Rattle.tx_codec.specs.Transaction.{Transaction};
ghost use Rattle.tx_codec.specs.TransactionText.{IsTransaction};
ghost use Rattle.tx_codec.specs.Weight.{weight_of};
ghost use Rattle.tx_codec.specs.declared.tx.TxIn.{TxIn};
ghost use Rattle.tx_codec.specs.declared.tx.TxOut.{TxOut};
ghost use Rattle.fee_rates.specs.Fee.{fee_of, vsize_of};
ghost use Rattle.fee_rates.specs.Terms.{base_of};
ghost use Rattle.pick_problem.specs.Problem.{weight_of as places_weight};
ghost use Rattle.request_text.specs.PlainRequest.{PlainRequest};
ghost use Rattle.search_run.specs.Found.{IsResultOf, PlainFound};
ghost use Rattle.search_run.specs.Kept.{log_of};
ghost use Rattle.search_run.specs.Step.{AreSteps, PlainStep};
ghost use Rattle.wallet_text.specs.declared.wallet.Watch.{Watch};
ghost use Rattle.fund_steps.specs.Amounts.{prices_of, value_of, weight_of as coins_weight};
ghost use Rattle.fund_steps.specs.Listed.{MaySpend, burden_in, presets_in};
ghost use Rattle.fund_steps.specs.Plan.{IsEligible, IsPlan, PlainBump, PlainPlan};
ghost use Rattle.fund_steps.specs.Terms.{load_of};
ghost use Rattle.fund_plan.specs.Answer.{AnswersAlone, IsPayment};
ghost use Rattle.fund_plan.specs.Chosen.{funded_at, load_for, row_of};
ghost use Rattle.fund_plan.specs.Claims.{BringAll, Claims, HasTried, IsProvedNone, IsUsedUp};
ghost use Rattle.fund_plan.specs.Figures.{AddUp, cost_of, figures_of};
ghost use Rattle.fund_plan.specs.Outcome.{IsAnswerOf, beginning_of, given_of, is_partial, log_at, outcome_at, stand_after, tries_at};
ghost use Rattle.fund_plan.specs.Pays.{IsWorthIt, outputs_of, payment_of, payment_weight};
ghost use Rattle.fund_plan.specs.Selection.{PlainFunded};
ghost use Rattle.fund_plan.specs.State.{GoesOnFrom, IsCutShort, PlanState, end_in, moved, told};
ghost use Rattle.fund_plan.specs.Steps.{is_given, problem_at, steps_of};
ghost use Rattle.fund_plan.specs.Weighed.{AreWithinDeclared, HasOutpoint, IsWeighed, room_of, signed_weight};
ghost use Rattle.fund_plan.specs.declared.outcome.Outcome.{Outcome};

/// The law of one outcome of presets: what they come to alone is settled by what it means, the coins, the change,
/// and whether there is a payment. A call does nothing.
pub fn answers_once()
    ensures { (p : PlainPlan) (a b : Outcome) → IsPlan p → AnswersAlone p a → AnswersAlone p b → a ≡ b }
{}

/// The law of what is computed of the presets alone: an outcome means what it should exactly where it is the one that
/// the terms come to. A call does nothing.
pub fn reckons_the_outcome()
    ensures { (p : PlainPlan) (o : Outcome) → IsPlan p → (AnswersAlone p o ↔ (o ≡ given_of p)) }
{}

/// The law of results: each result of a step, with the presets, is a payment. It pays every recipient and at least the
/// fee of its declared weight, by what its row has to carry, and its coins are ones that can be spent. A call does
/// nothing.
pub fn results_pay()
    ensures { (p : PlainPlan) (mark : Mark) (f : PlainFound) → IsPlan p → IsResultOf (steps_of p) f → IsPayment p (funded_at p mark f) }
{}

/// The law of measures: what a search and a draw measure is the payment's own. Its waste is that of the result and the
/// cost of the presets. Its weight is that of a payment from these alone, and of the places. Its coins are these
/// and those that are counted. So the least waste or weight of a selection is the least of a payment. A call does
/// nothing.
pub fn results_measure_their_payments()
    ensures waste { (p : PlainPlan) (mark : Mark) (f : PlainFound) → IsPlan p → IsResultOf (steps_of p) f →
        (funded_at p mark f).waste ≡ f.waste +ℤ cost_of p.request (presets_in p) }
    ensures weight { (p : PlainPlan) (mark : Mark) (f : PlainFound) → IsPlan p → IsResultOf (steps_of p) f →
        (funded_at p mark f).weight ≡ payment_weight (load_for p f.row) (presets_in p) (funded_at p mark f).change + places_weight (problem_at p (row_of p f.row) f.stage) f.places }
    ensures coins { (p : PlainPlan) (mark : Mark) (f : PlainFound) → IsPlan p → IsResultOf (steps_of p) f →
        length (funded_at p mark f).coins ≡ length (presets_in p) + f.coins }
{}

/// The law of plans without a search: nothing is searched for exactly where the presets bring all that is due without
/// change. A call does nothing.
pub fn given_where_all_is_brought()
    ensures { (p : PlainPlan) → (is_given p ≡ true ↔ BringAll p) }
{}

/// The law of eligible coins: each coin of a payment is a candidate, and safe unless the request takes unsafe ones; or it
/// is one that the replaced payment spends. Where no payment is replaced it is such a candidate. A call does nothing.
pub fn payments_spend_eligible_coins()
    ensures may { (p : PlainPlan) (f : PlainFunded) → IsPlan p → IsPayment p f → All (MaySpend p) f.coins }
    ensures plain { (p : PlainPlan) (f : PlainFunded) → p.bump ≡ None → IsPlan p → IsPayment p f → All (IsEligible p) f.coins }
{}

/// The law of replacements: beside the fee of its declared weight a payment pays its plan's burden and the prices of its
/// coins. It weighs no less than
/// the base and the inputs of the presets alone. And it spends each coin that the replaced payment spends (BIP 125,
/// 'Implementation Details', rules 3 and 4). A call does nothing.
pub fn payments_pay_the_burden()
    ensures fee { (p : PlainPlan) (f : PlainFunded) → IsPayment p f →
        outputs_of p.request f.change + burden_in p + prices_of f.coins + fee_of p.request.rate (vsize_of f.weight) ≤ value_of f.coins }
    ensures weight { (p : PlainPlan) (f : PlainFunded) → IsPlan p → IsPayment p f →
        base_of (load_of p.request p.change (presets_in p) (burden_in p)) + coins_weight (presets_in p) ≤ f.weight }
    ensures coins { (p : PlainPlan) (b : PlainBump) (f : PlainFunded) → p.bump ≡ Some b → IsPlan p → IsPayment p f → All (Contains f.coins) b.presets }
{}

/// The law of figures: a payment's money goes to the outputs and the fee, and the fee is no less than that of the rate and the
/// prices of the coins together.
/// The waste is what the fee is above what the base and, in the long run, the inputs cost, and what the change's
/// spending costs. A call does nothing.
pub fn figures_add_up()
    ensures { (p : PlainPlan) (f : PlainFunded) → IsPayment p f → AddUp p.request p.change (load_for p f.row) f (figures_of p.request f) }
{}

/// The law of change: a payment's change is no dust for the change script, and more than spending it costs at the
/// discard rate. A call does nothing.
pub fn change_is_worth_making()
    ensures { (p : PlainPlan) (f : PlainFunded) → IsPayment p f → IfSome f.change (IsWorthIt p.request p.change) }
{}

/// The law of replacement: a payment from a coin at least signals that it may be replaced (BIP 125, 'Summary') exactly
/// where the request asks for that. A call does nothing.
pub fn payments_signal_as_asked()
    ensures { (r : PlainRequest) (change : Watch) (f : PlainFunded) → 0 < length f.coins → (Signals (payment_of r change f) ↔ IsTrue r.replaceable) }
{}

/// The law of declared weight: the weight of a payment is that of its text with marker and flag, the declared weights
/// of its inputs standing in place of the unsigned ones, with the room that is kept for the number of inputs. A call
/// does nothing.
pub fn weighs_as_declared()
    ensures { (p : PlainPlan) (f : PlainFunded) → IsPayment p f → All HasOutpoint f.coins →
        IsWeighed f.change f.weight (signed_weight p.request p.change f.coins f.change) (room_of (load_for p f.row) f.coins) }
{}

/// The law of signed payments: they pay their rate however they are signed. A transaction with the payment's outputs,
/// whose inputs each weigh at most what their coins declare, weighs no more than is told. The coins are worth its
/// outputs and the fee of its weight. A call does nothing.
pub fn signed_pays_the_rate()
    ensures weight { (p : PlainPlan) (f : PlainFunded) (t : Transaction) → IsPayment p f →
        t.outputs ≡ (payment_of p.request p.change f).outputs → AreWithinDeclared t.inputs f.coins → weight_of t ≤ f.weight }
    ensures fee { (p : PlainPlan) (f : PlainFunded) (t : Transaction) → IsPayment p f →
        t.outputs ≡ (payment_of p.request p.change f).outputs → AreWithinDeclared t.inputs f.coins →
        sum_by (λ (o : TxOut). o.value) t.outputs + fee_of p.request.rate (vsize_of (weight_of t)) ≤ value_of f.coins }
{}

/// The law of a payment's text: one from a coin at least has a text (BIP 144, 'Serialization'), and no payment has a
/// signed input. A call does nothing.
pub fn pays_in_text()
    ensures text { (p : PlainPlan) (f : PlainFunded) → IsPlan p → IsPayment p f → 0 < length f.coins → All HasOutpoint f.coins →
        IsTransaction (payment_of p.request p.change f) }
    ensures bare { (r : PlainRequest) (change : Watch) (f : PlainFunded) → All (λ (i : TxIn). (i.script ≡ []) × (i.witness ≡ [])) (payment_of r change f).inputs }
{}

/// The law of new plans: what one comes to is a function of what it was made from and of the tries that are granted,
/// and so are its tries and its log. A call does nothing.
pub fn new_plans_come_to()
    ensures outcome { (s : PlanState) (n : ℕ) → s.stand ≡ beginning_of s.plan → s.partial ≡ None → told (moved s n) ≡ outcome_at s.plan n }
    ensures tries { (s : PlanState) (n : ℕ) → s.stand ≡ beginning_of s.plan → s.partial ≡ None → (moved s n).stand.past.tries ≡ tries_at s.plan n }
    ensures log { (s : PlanState) (n : ℕ) → s.stand ≡ beginning_of s.plan → s.partial ≡ None →
        log_of (is_partial (end_in (moved s n))) (moved s n).stand ≡ log_at s.plan n }
{}

/// The law of plans that go on: tries in pieces are tries, also after a call that ran out of memory. A plan that is
/// finished, of which a result was taken or whose run has come to its end, stays finished and comes to the same. A call
/// does nothing.
pub fn plans_go_on()
    ensures pieces { (s : PlanState) (n m : ℕ) → (moved s n).partial ≡ None → moved (moved s n) m ≡ moved s (n + m) }
    ensures cut { (s t : PlanState) (n : ℕ) → s.partial ≡ None → IsCutShort s n t → GoesOnFrom s n t }
    ensures taken { (s : PlanState) (f : PlainFound) (n : ℕ) → s.partial ≡ Some f → moved s n ≡ s }
    ensures cut_taken { (s t : PlanState) (f : PlainFound) (n : ℕ) → s.partial ≡ Some f → IsCutShort s n t → t ≡ s }
    ensures over { (s : PlanState) (n : ℕ) → s.partial ≡ None → s.stand.left ≡ [] → told (moved s n) ≡ told s }
{}

/// The law of ended plans: one whose run from the start came to its end has the answer, of all that there is to find. A
/// call does nothing.
pub fn ended_plans_have_the_answer()
    ensures { (p : PlainPlan) (n : ℕ) → AreSteps (steps_of p) → (stand_after p n).left ≡ [] → IsAnswerOf p (outcome_at p n) }
{}

/// The law of a plan's answer: there is one, and the plan comes to it wherever its run from the start came to its end.
/// Where it didn't, the run has made each of its tries, and a search is open. A call does nothing.
pub fn plans_have_one_answer()
    ensures one { (p : PlainPlan) (a b : Outcome) → IsAnswerOf p a → IsAnswerOf p b → a ≡ b }
    ensures ended { (p : PlainPlan) (n : ℕ) (o : Outcome) → AreSteps (steps_of p) → (stand_after p n).left ≡ [] → IsAnswerOf p o → outcome_at p n ≡ o }
    ensures either { (p : PlainPlan) (n : ℕ) → AreSteps (steps_of p) → IsAnswerOf p (outcome_at p n) ⊎ HasTried p n }
{}

/// The law of a plan's steps: the problem of each is that of the row and the stage that it names. A call does nothing.
pub fn steps_have_their_problems()
    ensures { (p : PlainPlan) (x : PlainStep) → Contains (steps_of p) x → x.problem ≡ problem_at p (row_of p x.row) x.stage }
{}

/// The law of marks: what a payment claims by its mark is so. Exhausted, its coins are the best choice of the problem
/// of its row and stage, no column before has a result, and the log has each search up to and with its column,
/// accepted. Drawn, it claims the same of what is drawn. Partial, its coins are an admissible choice, the one that is
/// taken of what is at hand, and the tries are used up. Given, the presets alone pay. A call does nothing.
pub fn payments_keep_their_claims()
    ensures { (p : PlainPlan) (n : ℕ) (f : PlainFunded) → IsPlan p → AreSteps (steps_of p) → outcome_at p n ≡ Outcome.Funded f → Claims p n f }
{}

/// The law of no selection: where a plan comes to that, no step has a result; and but with `manual`, or where the presets
/// bring all that is due, no choice from any row's pool does. The log has each search, accepted with no answer, and the
/// presets alone don't pay. A call does nothing.
pub fn none_is_proved()
    ensures { (p : PlainPlan) (n : ℕ) → IsPlan p → AreSteps (steps_of p) → outcome_at p n ≡ Outcome.NoSelection → IsProvedNone p (log_at p n) }
{}

/// The law of unfinished plans: the run has made each of its tries, a search is open, and nothing is taken, since that
/// isn't asked for or nothing is at hand. A call does nothing.
pub fn unfinished_plans_used_their_tries()
    ensures { (p : PlainPlan) (n : ℕ) → outcome_at p n ≡ Outcome.Unfinished → IsUsedUp p n }
{}
