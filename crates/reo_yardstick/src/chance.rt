//! Numbers by chance, the same in each run.
ghost use Rattle.std.specs.Prelude.{◌<◌};

/// Numbers that look as if chance had chosen them: a linear congruence, of which the upper bits are
/// taken.
#[derive(Drop)]
pub struct Chance {
    state: u64,
}

impl Chance {
    /// The numbers that begin with this one.
    pub fn new(state: u64) -> Self {
        Chance { state }
    }

    /// The next number, below a bound.
    pub fn below(&mut self, bound: usize) -> usize
        requires { 0 < bound }
        ensures { result < bound }
    {
        let product = self.state.wrapping_mul(6_364_136_223_846_793_005);
        self.state = product.wrapping_add(1_442_695_040_888_963_407);
        (self.state >> 33) as usize % bound
    }
}
