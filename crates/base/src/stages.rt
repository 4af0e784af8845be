// The stages of the year, each named here once; specs/Stages has the same numbers.
ghost use Rattle.std.specs.Prelude.{◌≡◌};
ghost use Rattle.base.specs.Stage.{number_of};
ghost use Rattle.base.specs.Stages.{trading_stage, open_stage};
ghost use Rattle.base.specs.Numbered.{Decodes};

use crate::numbered::Unnamed;

// The stages by their numbers.
#[derive(Clone, Copy, Debug, PartialEq, Eq)]
pub enum Stage {
    // Trading (Step 8).
    Trading = 1,
    // First requests (Step 9).
    FirstRequests = 2,
    // Second requests (Step 11).
    SecondRequests = 3,
    // Open (Step 13).
    Open = 4,
}

impl Stage {
    // The number by which a state names a stage.
    pub fn number(self) -> u32
        ensures { result ≡ number_of self }
    {
        self as u32
    }
}

impl TryFrom<u32> for Stage {
    type Error = Unnamed;

    ghost try_from_gives = { Decodes number_of trading_stage open_stage };

    fn try_from(number: u32) -> Result<Stage, Unnamed> {
        match number {
            1 => Ok(Stage::Trading),
            2 => Ok(Stage::FirstRequests),
            3 => Ok(Stage::SecondRequests),
            4 => Ok(Stage::Open),
            _ => Err(Unnamed),
        }
    }
}
