ghost use Rattle.std.specs.Prelude.{◌≡◌};
ghost use Rattle.gen_scene.specs.Draws as spec;

use std::marker::Model;

/// The draws of the generator, one after the other: a linear congruential generator modulo 2^32
/// (multiplier 1664525, increment 1013904223) of which the high 16 bits are drawn.
#[derive(Debug, Drop)]
pub struct Draws {
    state: u32,
}

impl Model for Draws {
    ghost use Rattle.std.specs.Prelude.{ℕ};

    ghost Value = { ℕ };

    ghost view = { λ d. d.state };
}

impl Draws {
    /// The draws of a number.
    pub fn new(number: u32) -> Self
        ensures { result ≡ number }
    {
        Draws { state: number }
    }

    /// Draws the next number.
    pub fn draw(&mut self) -> u16
        ensures state { self.new ≡ spec.stepped self.old }
        ensures value { result ≡ spec.drawn self.new }
    {
        self.state = self
            .state
            .wrapping_mul(1_664_525)
            .wrapping_add(1_013_904_223);
        (self.state >> 16) as u16
    }
}
