// Marsaglia's xorshift32: a generator that is lent, and one step of it on numbers.
ghost use Rattle.std.specs.Prelude.{◌≡◌, ◌<◌};
ghost use Rattle.simulation.specs.Generator.{shift_left, shift_right, xorshift};

#[derive(Clone, Copy)]
pub struct Generator {
    pub state: u32,
}

#[tactic(auto, using(crate::proofs::Xor::xor_is))]
fn left(x: u32, by: u32) -> u32
    requires { by < 32 }
    ensures { result ≡ shift_left x by }
{
    x ^ (x << by)
}

#[tactic(auto, using(crate::proofs::Xor::xor_is))]
fn right(x: u32, by: u32) -> u32
    requires { by < 32 }
    ensures { result ≡ shift_right x by }
{
    x ^ (x >> by)
}

// One step: shifts 13 left, 17 right, 5 left.
fn step(x: u32) -> u32
    ensures { result ≡ xorshift x }
{
    left(right(left(x, 13), 17), 5)
}

impl Generator {
    // A draw moves the generator on by one step, and is its new state.
    pub fn draw(&mut self) -> u32
        ensures { (result ≡ xorshift self.old.state) × (self.new.state ≡ result) }
    {
        self.state = step(self.state);
        self.state
    }
}
