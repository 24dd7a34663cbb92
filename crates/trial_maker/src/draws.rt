//! The draws of a seed.

ghost use Rattle.std.specs.Prelude.{◌≡◌};
ghost use Rattle.trial_maker.specs.Draws.{next_state, third_state, drawn, draws_after};

/// What each state is multiplied by to reach the next.
const MULTIPLIER: u64 = 6_364_136_223_846_793_005;

/// What is added to the product.
const INCREMENT: u64 = 1_442_695_040_888_963_407;

/// The three draws of a bundle, in order, each below 2^31.
#[derive(Clone, Copy)]
pub(crate) struct Trio {
    /// The first.
    pub(crate) first: u32,
    /// The second.
    pub(crate) second: u32,
    /// The third.
    pub(crate) third: u32,
}

/// The draws of a seed that are still to come.
#[derive(Drop)]
pub(crate) struct Draws {
    state: u64,
}

impl Draws {
    /// All draws of a seed.
    pub(crate) fn new(seed: u64) -> Self
        ensures { result.state ≡ seed }
    {
        Self { state: seed }
    }

    /// The next draw: the high bits of the state that it reaches.
    fn draw(&mut self) -> u32
        ensures state { self.new.state ≡ next_state self.old.state }
        ensures value { result ≡ drawn (next_state self.old.state) }
    {
        self.state = self.state.wrapping_mul(MULTIPLIER).wrapping_add(INCREMENT);
        (self.state >> 33) as u32
    }

    /// The next three draws.
    pub(crate) fn draw_three(&mut self) -> Trio
        ensures state { self.new.state ≡ third_state self.old.state }
        ensures draws { result ≡ draws_after self.old.state }
    {
        let first = self.draw();
        let second = self.draw();
        let third = self.draw();
        Trio {
            first,
            second,
            third,
        }
    }
}
