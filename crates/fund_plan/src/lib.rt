//! Plans of payments: which coins fund a request, with which change, and the unsigned transaction that pays it. A plan
//! knows no file and no book of coins: it is made from a request, a change script and the coins that may be spent. It goes
//! through rows and stages by tries, and stands where they led.
#![tactic(auto)]

mod chosen;
mod fault;
mod figures;
mod funding;
mod keeping;
mod laws;
mod outcome;
mod payment;
mod plan;
mod worth;

pub use fault::{CheckAt, PlanSavedFault};
pub use figures::Figures;
pub use funding::PaymentMaker;
pub use keeping::{
    kept_faults_have_one_cause, kept_plans_are_accepted, restored_plans_go_on,
    saved_plans_have_their_digest, unfinished_plans_are_saved, verified_plans_have_the_answer,
};
pub use laws::{
    answers_once, change_is_worth_making, ended_plans_have_the_answer, figures_add_up,
    given_where_all_is_brought, new_plans_come_to, none_is_proved, payments_keep_their_claims,
    payments_pay_the_burden, payments_signal_as_asked, payments_spend_eligible_coins, pays_in_text,
    plans_go_on, plans_have_one_answer, reckons_the_outcome, results_measure_their_payments,
    results_pay, signed_pays_the_rate, steps_have_their_problems,
    unfinished_plans_used_their_tries, weighs_as_declared,
};
pub use outcome::{Funded, Outcome, Place};
pub use payment::unsigned;
pub use plan::Plan;
pub use worth::{declared_weight, due, waste};
