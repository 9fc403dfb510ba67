// A piece of the input served whole: one call of `feed`, and then line after line as long as a controller runs.
ghost use Rattle.std.specs.Prelude.{◌≡◌, length};
ghost use Rattle.lines.specs.Writing.{buffer_of};
ghost use Rattle.session.specs.Serving.{is_running, may_run, served, served_text};

use crate::feed::{Fed, Session};
use crate::run::run_lines;
use crate::stage::Stage;

fn is_running(stage: Stage) -> bool
    ensures { result ≡ is_running stage }
{
    matches!(stage, Stage::Running)
}

impl Session {
    // Whether the next line can be served at once: a controller runs, and nothing is held of a line.
    fn may_run(self) -> bool
        ensures { result ≡ may_run self }
    {
        is_running(self.core.stage) && self.carry.is_empty()
    }

    // Takes the next piece of the input as so many calls of `feed` would: up to the end of one line, and then each whole line while
    // there is room for two lines.
    pub fn serve(self, input: &[u8], out: &mut [u8]) -> Fed
        ensures { (result ≡ served self input.now (length out.old)) × (out.new ≡ buffer_of (served_text self input.now (length out.old)) out.old) }
    {
        let fed = self.feed(input, out);
        if !fed.next.may_run() {
            return fed;
        }
        let Session { core, carry } = fed.next;
        let ran = run_lines(
            core.controller,
            core.numbers(),
            &input[fed.took..],
            &mut out[fed.wrote..],
        );
        Fed {
            next: Session {
                core: core.running(ran.next),
                carry,
            },
            took: fed.took + ran.took,
            wrote: fed.wrote + ran.wrote,
            ..fed
        }
    }
}
