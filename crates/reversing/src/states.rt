// The state of a face while turns spread over a model: not reached yet, kept, or turned.
ghost use Rattle.std.specs.Prelude.{◌≡◌, ◌≤◌};
ghost use Rattle.reversing.specs.States.{state_across};

pub const UNSEEN: u8 = 0;

pub const KEPT: u8 = 1;

pub const TURNED: u8 = 2;

// The state of a face across an edge from one in `state`: the other one where the two corners leave in the same direction.
pub fn across(state: u8, same: bool) -> u8
    requires { state ≤ 2 }
    ensures { result ≡ state_across state same }
{
    if same { KEPT + TURNED - state } else { state }
}
