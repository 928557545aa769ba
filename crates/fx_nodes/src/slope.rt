//! A straight line of gains, frame by frame.

ghost use Rattle.std.specs.Prelude.{◌≡◌, ℕ, ◌+◌, ◌*◌, ◌<◌, ◌≤◌};
ghost use Rattle.mix_fixed.specs.Sound.{largest_gain};
ghost use Rattle.fx_nodes.specs.Effects.{most_fade_end};
ghost use Rattle.fx_nodes.specs.Slopes.{IsMark, IsStep};

/// A gain, rounded down, and what rounding left, in parts of the line's length.
#[derive(Clone, Copy)]
pub(crate) struct Mark {
    pub(crate) gain: u32,
    pub(crate) rest: u32,
}

/// A line of gains from `first` at frame 0 to `last` at frame `span`.
#[derive(Clone, Copy)]
pub(crate) struct Slope {
    pub(crate) first: u32,
    pub(crate) last: u32,
    pub(crate) span: u32,
    ghost some: { 0 < span },
    ghost most: { span ≤ most_fade_end },
    ghost first_most: { first ≤ largest_gain },
    ghost last_most: { last ≤ largest_gain },
}

impl Slope {
    /// The mark of a frame, found by a division.
    pub(crate) fn mark(&self, at: u32) -> Mark
        requires { at ≤ self.now.span }
        ensures { IsMark self.now.first self.now.last self.now.span at result }
    {
        let height = u64::from(self.first) * u64::from(self.span - at)
            + u64::from(self.last) * u64::from(at);
        divided(height, self.span)
    }

    /// What a mark grows by from frame to frame, `first` more than it does.
    pub(crate) fn step(&self) -> Mark
        ensures { IsStep self.now.first self.now.last self.now.span result }
    {
        divided(
            u64::from(self.last) + u64::from(self.first) * u64::from(self.span - 1),
            self.span,
        )
    }

    /// The mark of the next frame, from that of a frame before the end and the step.
    pub(crate) fn next(&self, mark: Mark, step: Mark) -> Mark
        requires stands { (at : ℕ) × (at < self.now.span) × IsMark self.now.first self.now.last self.now.span at mark }
        requires step { IsStep self.now.first self.now.last self.now.span step }
        ensures { (at : ℕ) → at < self.now.span → IsMark self.now.first self.now.last self.now.span at mark
            → IsMark self.now.first self.now.last self.now.span (at + 1) result }
    {
        let gain = mark.gain + step.gain;
        let rest = mark.rest + step.rest;
        if rest < self.span {
            Mark {
                gain: gain - self.first,
                rest,
            }
        } else {
            Mark {
                gain: gain + 1 - self.first,
                rest: rest - self.span,
            }
        }
    }
}

/// A height as a gain and the rest.
fn divided(height: u64, span: u32) -> Mark
    requires some { 0 < span }
    requires most { height < 4194304 * span }
    ensures place { result.gain * span + result.rest ≡ height }
    ensures rest { result.rest < span }
    ensures most { result.gain < 4194304 }
{
    Mark {
        gain: (height / u64::from(span)) as u32,
        rest: (height % u64::from(span)) as u32,
    }
}
