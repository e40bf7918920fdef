ghost use Rattle.std.specs.Prelude.{◌≡◌, ◌≤◌, List, length};
ghost use Rattle.std.specs.Result.{result_ok};
ghost use Rattle.std.specs.List.{All};
ghost use Rattle.script_nodes.specs.Shown.{step_size, steps_size};
ghost use Rattle.script_nodes.specs.Traces.{IsStep};

use crate::faults::CropOutside;
use crate::nodes::Area;
use arrayvec::ArrayVec;
use std::marker::Model;

/// One step that is applied to a frame.
#[derive(Clone, Copy, Debug, PartialEq, Eq)]
pub enum Step {
    /// This area is cut out of it.
    Cut(Area),
    /// It is faded to this weight in 256ths, at most 256, with black at the rest.
    Weigh(u16),
}

/// The step that fills unused slots: it changes nothing.
impl Default for Step {
    fn default() -> Self {
        Step::Weigh(256)
    }
}

/// The steps to apply to a frame of a source, in order: at most 16.
///
/// The width and height of each area are 1 to 16,383, and each weight is at most 256.
#[derive(Debug, Drop)]
pub struct Trace {
    steps: ArrayVec<Step, 16>,
}

impl Model for Trace {
    ghost use Rattle.std.specs.Prelude.{List};
    ghost use Rattle.std.specs.List.{All};
    ghost use Rattle.script_nodes.specs.declared.traces.Step.{Step};
    ghost use Rattle.script_nodes.specs.Traces.{IsStep};

    ghost Value = { List Step };

    ghost view = { λ t. t.steps.items };

    ghost invariant = { λ t. All IsStep t.steps.items };
}

impl Step {
    /// The size after the step, or `CropOutside` if its area reaches past this one.
    pub(crate) fn size(&self, width: u16, height: u16) -> Result<(u16, u16), CropOutside>
        requires { IsStep self.now }
        ensures { result_ok result ≡ step_size self.now (width, height) }
    {
        match self {
            Step::Weigh(_) => Ok((width, height)),
            Step::Cut(area) => {
                if area.x + area.width <= u64::from(width)
                    && area.y + area.height <= u64::from(height)
                {
                    Ok((area.width as u16, area.height as u16))
                } else {
                    Err(CropOutside)
                }
            }
        }
    }
}

impl Trace {
    /// The trace of these steps.
    pub(crate) fn new(steps: ArrayVec<Step, 16>) -> Trace
        requires { All IsStep steps.items }
        ensures { result ≡ steps.items }
    {
        Trace { steps }
    }

    /// The steps in order, at most 16.
    pub fn steps(&self) -> &[Step]
        ensures value { result.now ≡ self.now }
        ensures few { length result.now ≤ 16 }
        ensures allowed { All IsStep result.now }
    {
        &self.steps
    }

    /// The shown size after the steps, from this one, or `CropOutside` if a
    /// crop reaches past the size that it is applied to.
    pub fn size(&self, width: u16, height: u16) -> Result<(u16, u16), CropOutside>
        ensures { result_ok result ≡ steps_size self.now (width, height) }
    {
        let mut size = (width, height);
        for step in self.steps() {
            size = step.size(size.0, size.1)?;
        }
        Ok(size)
    }
}
