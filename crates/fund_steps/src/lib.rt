//! What a plan is made from: a request on coins that may be spent. Which coins it lists or takes over from a payment that it
//! replaces, what the payment is to carry, why no plan is made, and the steps of a run: the rows of the ladder with
//! their pools, and in each the stages of the method. It knows no file and no book of coins.
#![tactic(auto)]

mod amounts;
mod bump;
mod fault;
mod laws;
mod plan_basis;
mod pools;
mod presets;
mod row_steps;
mod selection;
mod terms;
mod turns;

pub use amounts::{charges, effective, fees, value, weight};
pub use bump::BumpInput;
pub use fault::PlanFault;
pub use laws::{faults_are_found, no_answer_where_nothing_does, steps_stand_in_columns};
pub use plan_basis::{PlanBasis, Prepared};
pub use presets::{Presets, presets_alone};
pub use selection::in_order;
pub use terms::{load, paid, rates};
pub use turns::Turn;
