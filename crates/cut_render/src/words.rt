//! Segments as words.

ghost use Rattle.std.specs.Prelude.{◌≡◌, ◌≤◌, IfSome, option_map};
ghost use Rattle.cut_render.specs.Segments.{last_place, most_frames};
ghost use Rattle.cut_render.specs.Words as spec;

use crate::numerals::read_long_number;
use crate::segment::{MAX_FRAMES, MAX_PLACE, Segment};
use plain_data::read_number;

/// The most digits of a number.
const MAX_DIGITS: usize = 15;

/// The segment that a word of the form `PLACE+COUNT` writes, if PLACE is at most 140737488355327 and COUNT at most 16777216.
/// Each number has 1 to 15 digits, leading zeros among them. It takes no memory.
#[tactic(auto, unfolding(crate::specs::Words::segment_of_word))]
pub fn read_segment(word: &str) -> Option<Segment>
    ensures read { result ≡ spec.segment_of_word word.now }
    ensures place { IfSome result (λ segment. segment.place ≤ last_place) }
    ensures count { IfSome result (λ segment. segment.count ≤ most_frames) }
{
    let (place, count) = split_at_plus(word)?;
    Some(Segment {
        place: read_place(place)?,
        count: read_count(count)?,
    })
}

fn read_place(word: &str) -> Option<u64>
    ensures read { result ≡ spec.place_of word.now }
    ensures most { IfSome result (λ place. place ≤ last_place) }
{
    read_long_number(word, MAX_DIGITS, MAX_PLACE)
}

fn read_count(word: &str) -> Option<u32>
    ensures read { result ≡ spec.count_of word.now }
    ensures most { IfSome result (λ count. count ≤ most_frames) }
{
    read_number(word, MAX_DIGITS, MAX_FRAMES)
}

/// What stands before the first plus of a word, and what stands behind it.
#[tactic(auto, unfolding(crate::specs::Words::split_at_plus))]
fn split_at_plus(word: &str) -> Option<(&str, &str)>
    ensures { option_map (λ parts. (parts.0.now, parts.1.now)) result ≡ spec.split_at_plus word.now }
{
    word.split_once('+')
}
