//! Steps of a run.

ghost use Rattle.std.specs.Prelude.{◌≡◌};
ghost use Rattle.search_run.specs.Step.{IsStep, is_drawn};

use closing_log::Stage;
use pick_problem::Problem;
use std::marker::Model;
use std::rc::Rc;

/// A search or a draw of a problem, in a row of the ladder and a stage. Runs make one step after another. Steps up to
/// a last one are a column: their results are compared with each other. Steps may share their sizes, and the items of
/// their problems.
#[derive(Drop)]
pub struct Step {
    row: u8,
    stage: Stage,
    problem: Problem,
    ending: u64,
    sizes: Rc<Vec<u8>>,
    last: bool,
}

impl Model for Step {
    ghost use Rattle.search_run.specs.Step.{IsStep, PlainStep};

    ghost Value = { PlainStep };

    ghost view = { λ s. record { row = s.row; stage = s.stage; problem = s.problem; ending = s.ending; sizes = s.sizes.value.items; last = s.last } };

    ghost invariant = { λ s. IsStep (record { row = s.row; stage = s.stage; problem = s.problem; ending = s.ending; sizes = s.sizes.value.items; last = s.last }) };
}

impl Step {
    /// A step of a row and a stage: the stage without change has a problem without change, the draw and the two others
    /// have one with change, and there are no more. `ending` is what making and spending a change costs, in satoshi, 0
    /// without change, and at most 10^18; `sizes` tells for each place of the pool how many coins stand there, at most
    /// 100; `last` whether the step is the last one of its column.
    pub fn new(
        row: u8,
        stage: Stage,
        problem: Problem,
        ending: u64,
        sizes: Rc<Vec<u8>>,
        last: bool,
    ) -> Step
        requires { IsStep (record {
          row = row;
          stage = stage;
          problem = problem;
          ending = ending;
          sizes = sizes.value.items;
          last = last;
        }) }
        ensures { result ≡ record {
          row = row;
          stage = stage;
          problem = problem;
          ending = ending;
          sizes = sizes.value.items;
          last = last;
        } }
    {
        Step {
            row,
            stage,
            problem,
            ending,
            sizes,
            last,
        }
    }

    /// The row of the ladder.
    pub fn row(&self) -> u8
        ensures row { result ≡ self.now.row }
        ensures step { IsStep self.now }
    {
        self.row
    }

    /// The stage.
    pub fn stage(&self) -> Stage
        ensures { result ≡ self.now.stage }
    {
        self.stage
    }

    /// The problem.
    pub fn problem(&self) -> &Problem
        ensures problem { result.now ≡ self.now.problem }
        ensures step { IsStep self.now }
    {
        &self.problem
    }

    /// What making and spending a change costs, in satoshi.
    pub fn ending(&self) -> u64
        ensures ending { result ≡ self.now.ending }
        ensures step { IsStep self.now }
    {
        self.ending
    }

    /// How many coins stand at each place of the pool.
    pub fn sizes(&self) -> &[u8]
        ensures sizes { result.now ≡ self.now.sizes }
        ensures step { IsStep self.now }
    {
        self.sizes.as_slice()
    }

    /// Whether it is the last one of its column.
    pub fn is_last(&self) -> bool
        ensures { result ≡ self.now.last }
    {
        self.last
    }

    /// Whether it is a draw, and no search.
    pub fn is_drawn(&self) -> bool
        ensures { result ≡ is_drawn self.now.stage }
    {
        match self.stage {
            Stage::Draw => true,
            Stage::Presets | Stage::Changeless | Stage::LeanBig | Stage::LeanSmall | Stage::Wide =>
                false,
        }
    }
}
