//! The steps up to a column.

ghost use Rattle.std.specs.Prelude.{◌≡◌, ◌↔◌, ◌≤◌, ◌&&◌, ◌||◌, not, None, IfSome, IsTrue, length, take};
ghost use Rattle.search_run.specs.Answer.{AreWhole};
ghost use Rattle.report_check.specs.DueSections.{HasStepAt, IsUpTo};

use closing_log::Stage;
use search_run::Step;

/// Whether a step is of a row and a stage.
fn is_at(step: &Step, row: u8, stage: Stage) -> bool
    ensures { IsTrue result ↔ ((step.now.row ≡ row) × (step.now.stage ≡ stage)) }
{
    step.row() == row && step.stage() == stage
}

/// Whether one of two is so.
fn either(there: bool, here: bool) -> bool
    ensures { result ≡ (there || here) }
{
    there || here
}

/// Whether a step ends a column that has a step of the row and the stage.
fn ends(step: &Step, now: bool) -> bool
    ensures { result ≡ (step.now.last && now) }
{
    step.is_last() && now
}

/// Whether the column of a step goes on, and has a step of the row and the stage.
fn goes_on(step: &Step, now: bool) -> bool
    ensures { result ≡ (now && not step.now.last) }
{
    now && !step.is_last()
}

/// How many steps there are up to and with the first column that has a step of a row and a stage; `None` exactly where no
/// column has one.
pub(crate) fn column_end(steps: &[Step], row: u8, stage: Stage) -> Option<usize>
    requires { AreWhole steps.now }
    ensures most { IfSome result (λ n. n ≤ length steps.now) }
    ensures some { IfSome result (λ n. IsUpTo steps.now row stage (take n steps.now)) }
    ensures none { result ≡ None → HasStepAt steps.now row stage → ⊥ }
{
    let mut there = false;
    'seeking: for i in 0..steps.len() {
        let step = &steps[i];
        let here = is_at(step, row, stage);
        let now = either(there, here);
        if ends(step, now) {
            return Some(i + 1);
        }
        there = goes_on(step, now);
    }
    None
}
