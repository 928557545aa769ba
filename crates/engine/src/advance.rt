//! Where a sound is after a span.

ghost use Rattle.std.specs.Prelude.{◌≡◌, ◌≤◌, ◌-◌, true};
ghost use Rattle.mix_model.specs.Spans.{played};

/// The cursor of a pulled sound of so many frames, `count` frames later.
pub(crate) fn played_to(frames: u64, looped: bool, cursor: u64, count: u64) -> u64
    requires { cursor ≤ frames }
    ensures { result ≡ played frames looped cursor count }
{
    let left = frames - cursor;
    if count < left {
        return cursor + count;
    }
    if !looped {
        return frames;
    }
    looped_to(frames, left, count)
}

/// The same of a looped sound that has `left` frames left, not more than `count`.
fn looped_to(frames: u64, left: u64, count: u64) -> u64
    requires left { left ≤ frames }
    requires count { left ≤ count }
    ensures { result ≡ played frames true (frames - left) count }
{
    if frames == 0 {
        return 0;
    }
    if left > 0 {
        return (count - left) % frames;
    }
    if count == 0 {
        return frames;
    }
    (count - 1) % frames
}
