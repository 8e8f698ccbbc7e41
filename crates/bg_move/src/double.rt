// From bg_move/double.rs: the steps of a double.
ghost use Rattle.std.specs.Prelude.{◌≡◌};
ghost use Rattle.ints.specs.Signed.{Small};
ghost use Rattle.bg_move.specs.Steps.{double_steps};
ghost use Rattle.bg_move.specs.Answers.{steps_value};

use crate::{Step, Steps};

// The steps from b to e: at most four, each from the highest point that has still to lose a checker. The entries must leave room for
// them.
pub fn new_double(b: [i8; 26], e: [i8; 26], die: usize) -> Steps
    requires { Small 116 b }
    ensures { result ≡ steps_value (double_steps die 4 b e) }
{
    let mut steps = [Step::NONE; 4];
    let mut board = b;
    for n in 0..4 {
        let Some(from) = crate::lost(&board, &e, 26) else {
            return Steps {
                count: n as u8,
                steps,
            };
        };
        steps[n] = Step::by(from, die);
        board = position::move_single_checker(board, from, die);
    }
    Steps { count: 4, steps }
}
