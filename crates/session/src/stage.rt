// What a session is at: the settings, before the first B, a running controller, or its end.
ghost use Rattle.std.specs.Prelude.{◌≡◌};
ghost use Rattle.session.specs.Turn.{core_start, numbers_in, settled_in, running_with};

use controller::Controller;
use lines::settle::Settling;
use units::{Numbers, RoundLabel};

#[derive(Clone, Copy)]
pub enum Stage {
    Settling,
    Waiting,
    Running,
    Ended,
}

// The settings read so far, and the controller, which counts once it runs.
// A stage beside them, and no stage that holds a controller: `each_step`, `step_refused` and `runs` say `stage ≡ Running` of any core, and `.controller` of it.
#[derive(Clone, Copy)]
pub struct Core {
    pub(crate) stage: Stage,
    pub(crate) settling: Settling,
    pub(crate) controller: Controller,
}

impl Core {
    // Nothing is read.
    #[tactic(auto, unfolding(crate::specs::Turn::core_start))]
    pub fn start() -> Core
        ensures { result ≡ core_start }
    {
        let settling = Settling::start();
        Core {
            stage: Stage::Settling,
            settling,
            controller: Controller::begin(settling.numbers(), 0, RoundLabel(0)),
        }
    }

    // The numbers of the settings.
    pub(crate) fn numbers(self) -> Numbers
        ensures { result ≡ numbers_in self }
    {
        self.settling.numbers()
    }

    pub(crate) fn settled(self, stage: Stage, settling: Settling) -> Core
        ensures { result ≡ settled_in self stage settling }
    {
        Core {
            stage,
            settling,
            ..self
        }
    }

    pub(crate) fn running(self, controller: Controller) -> Core
        ensures { result ≡ running_with self controller }
    {
        Core {
            stage: Stage::Running,
            controller,
            ..self
        }
    }
}
