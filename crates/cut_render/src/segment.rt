//! Pieces of a sound.

ghost use Rattle.std.specs.Prelude.{◌≡◌, ◌≤◌};
ghost use Rattle.cut_render.specs.Segments.{most_frames, total_frames};

/// The most segments of a cut.
pub const MAX_SEGMENTS: usize = 64;

/// The last frame at which a segment begins.
pub const MAX_PLACE: u64 = 140_737_488_355_327;

/// The most frames of a segment, and of all segments of a cut.
pub const MAX_FRAMES: u32 = 16_777_216;

/// A piece of a sound: `count` frames from frame `place` on. Frames are counted from 0.
#[derive(Clone, Copy, Debug, PartialEq, Eq)]
pub struct Segment {
    pub place: u64,
    pub count: u32,
}

/// A piece of no frames, at the first one.
impl Default for Segment {
    ghost use Rattle.std.specs.Prelude.{◌≡◌};

    ghost is_default = { λ segment. segment ≡ record { place = 0; count = 0 } };

    fn default() -> Segment {
        Segment { place: 0, count: 0 }
    }
}

/// The number of frames of all segments, which are at most 16777216.
pub fn total_frames(segments: &[Segment]) -> u32
    requires { total_frames segments.now ≤ most_frames }
    ensures { result ≡ total_frames segments.now }
{
    segments.iter().map(|segment| segment.count).sum()
}
