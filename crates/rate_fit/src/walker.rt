//! The points of a clip, one after the other.

ghost use Rattle.std.specs.Prelude.{◌≡◌, ◌<◌, ◌≤◌, ◌+◌, ◌^◌, ◌↔◌, IsNone, IfSome};
ghost use Rattle.rate_fit.specs.Conversion.{length_of};
ghost use Rattle.rate_fit.specs.Points.{place_of};
ghost use Rattle.rate_fit.specs.Walk.{after, next_point};

use crate::fit::{Fit, divided};
use crate::point::Point;
use std::marker::Model;

/// Gives the points of a fit from one frame on. It divides where it begins and nowhere after that:
/// each further point is the one before it and a step, with a carry.
#[derive(Drop)]
pub struct Walker {
    fit: Fit,
    output_rate: u32,
    len: u64,
    n: u64,
    point: Point,
    step: Point,
}

impl Model for Walker {
    ghost use Rattle.rate_fit.specs.Walk.{Walk, IsWalk};

    ghost Value = { Walk };

    ghost view = { λ w. record { fit = w.fit; n = w.n } };

    ghost invariant = { λ w. IsWalk w.fit w.output_rate w.len w.n w.point w.step };
}

impl Walker {
    /// A walker that stands at frame `n`, at most the length of the fit.
    pub fn new(fit: &Fit, n: u64) -> Self
        requires { n ≤ length_of fit.now }
        ensures { result ≡ record { fit = fit.now; n = n } }
    {
        let input_rate = u64::from(fit.input_rate());
        let output_rate = fit.output_rate();
        Walker {
            fit: *fit,
            output_rate,
            len: fit.len(),
            n,
            point: divided(n * input_rate, output_rate),
            step: divided(input_rate, output_rate),
        }
    }

    /// The point of the frame at which the walker stands, which then stands at the next one. `None`
    /// exactly at the length of the fit, where the walker stays. `first` of a point is below the
    /// clip's number of frames and `weight` below the output rate.
    pub fn next(&mut self) -> Option<Point>
        ensures point { result ≡ next_point self.old }
        ensures end { IsNone result ↔ (length_of self.old.fit ≡ self.old.n) }
        ensures stands { self.new ≡ after self.old }
        ensures inside { IfSome result (λ p. p.first < self.old.fit.frames) }
        ensures weighted { IfSome result (λ p. p.weight < self.old.fit.output_rate) }
    {
        if self.n == self.len {
            return None;
        }
        let point = self.point;
        self.point = advanced(point, self.step, self.output_rate);
        self.n += 1;
        Some(point)
    }
}

/// The point `step` further on, with a carry where the weights reach `output_rate`.
fn advanced(point: Point, step: Point, output_rate: u32) -> Point
    requires room { point.first + step.first < 2 ^ 63 }
    requires rate { output_rate < 2 ^ 31 }
    requires weighted { point.weight < output_rate }
    requires step_weighted { step.weight < output_rate }
    ensures place { place_of output_rate result ≡ place_of output_rate point + place_of output_rate step }
    ensures weighted { result.weight < output_rate }
{
    let first = point.first + step.first;
    let weight = point.weight + step.weight;
    if weight < output_rate {
        Point { first, weight }
    } else {
        Point {
            first: first + 1,
            weight: weight - output_rate,
        }
    }
}
