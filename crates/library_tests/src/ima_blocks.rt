//! Blocks of IMA ADPCM that were worked out by hand from the recommendation's tables.

use ima_adpcm::{Ima, ImaFault, block_frames, block_into, part_into};
use std::process::Abort;
use std::test::Fail;

/// What stands in `out` before a call.
const UNTOUCHED: i16 = 7777;

/// Samples of eight channels are at most this many here.
const ROOM: usize = 80;

/// Two bytes 77 and FF drive the index up and the sample against both limits.
const LIMITS: [u8; 8] = [0x00, 0x7d, 0x58, 0x00, 0x77, 0xff, 0x00, 0x08];

/// A channel of five words, of which each byte differs.
const LONG: [u8; 24] = [
    0x10, 0x00, 0x20, 0x00, 0x17, 0x28, 0x39, 0x4a, 0x5b, 0x6c, 0x7d, 0x8e, 0x9f, 0xa0, 0xb1, 0xc2,
    0xd3, 0xe4, 0xf5, 0x06, 0x71, 0x82, 0x93, 0xa4,
];

/// Eight channels: channel c starts at 100 c with index c, and its codes are 4 and then seven 0.
const EIGHT: [u8; 64] = [
    0, 0, 0, 0, 100, 0, 1, 0, 200, 0, 2, 0, 44, 1, 3, 0, 144, 1, 4, 0, 244, 1, 5, 0, 88, 2, 6, 0,
    188, 2, 7, 0, 4, 0, 0, 0, 4, 0, 0, 0, 4, 0, 0, 0, 4, 0, 0, 0, 4, 0, 0, 0, 4, 0, 0, 0, 4, 0, 0,
    0, 4, 0, 0, 0,
];

/// Code 4 moves channel c by s / 8 + s, where s is 7 + c: by 7, 9, 10, .. 15, and the index to
/// c + 2. Each 0 then moves it by an eighth of the step and the index down by 1, to 0 at most.
const EIGHT_FRAMES: [i16; 72] = [
    0, 100, 200, 300, 400, 500, 600, 700, 7, 109, 210, 311, 412, 513, 614, 715, 8, 110, 211, 312,
    413, 514, 616, 717, 9, 111, 212, 313, 414, 515, 617, 719, 9, 112, 213, 314, 415, 516, 618, 720,
    9, 112, 214, 315, 416, 517, 619, 721, 9, 112, 214, 316, 417, 518, 620, 722, 9, 112, 214, 316,
    418, 519, 621, 723, 9, 112, 214, 316, 418, 520, 622, 724,
];

/// Decodes a block where the call's conditions hold.
fn decode(rt: &impl Abort, block: &[u8], ch: u8, out: &mut [i16; ROOM]) -> Result<usize, ImaFault> {
    assert!(rt; 1 <= ch);
    assert!(rt; ch <= 8);
    assert!(rt; block.len() <= 64);
    let samples = block_frames(block.len(), ch) * usize::from(ch);
    assert!(rt; samples <= ROOM);
    block_into(block, ch, out)
}

/// Blocks by their names, their channels and their bytes, and their frames.
const BLOCKS: &[(&str, u8, &[u8], &[i16])] = &[
    ("three bytes", 1, &[0, 0, 0], &[]),
    ("a header alone", 1, &[0x39, 0x30, 88, 255], &[12345]),
    (
        "both limits",
        1,
        &LIMITS,
        &[
            32000, 32767, 32767, -28669, -32768, -28673, -24949, -28334, -25257,
        ],
    ),
    (
        "stereo, all codes 0",
        2,
        &[100, 0, 0, 0, 0x9c, 0xff, 0, 0, 0, 0, 0, 0, 0, 0, 0, 0],
        &[
            100, -100, 100, -100, 100, -100, 100, -100, 100, -100, 100, -100, 100, -100, 100, -100,
            100, -100,
        ],
    ),
    (
        "stereo, a group that is not whole",
        2,
        &[5, 0, 0, 0, 6, 0, 0, 0, 0, 0, 0, 0, 0],
        &[5, 6],
    ),
    (
        // Channel 0: codes 0 and 7 at step 7 give 0 and 0 + 7 + 3 + 1 = 11, and the index 8,
        // from where each 0 adds an eighth of 16, 14, 13, 12, 11, 10. Channel 1: code 15 at
        // step 19 gives 1000 - (2 + 19 + 9 + 4), and the index 18, from where each 0 adds an
        // eighth of 41, 37, 34, 31, 28, 25, 23.
        "stereo, by hand",
        2,
        &[0, 0, 0, 0, 0xe8, 0x03, 10, 0, 0x70, 0, 0, 0, 0x0f, 0, 0, 0],
        &[
            0, 1000, 0, 966, 11, 971, 13, 975, 14, 979, 15, 982, 16, 985, 17, 988, 18, 990,
        ],
    ),
    (
        // Each channel has one code 7 or 15 at step 7, which moves it by 11, at a place of its
        // own: code 0, code 1 and code 2. Each 0 after it adds an eighth of 16, 14, 13, ..
        "three channels, by hand",
        3,
        &[
            10, 0, 0, 0, 20, 0, 0, 0, 30, 0, 0, 0, 0x07, 0, 0, 0, 0x70, 0, 0, 0, 0, 0x0f, 0, 0,
        ],
        &[
            10, 20, 30, 21, 20, 30, 23, 31, 30, 24, 33, 19, 25, 34, 21, 26, 35, 22, 27, 36, 23, 28,
            37, 24, 29, 38, 25,
        ],
    ),
    ("eight channels, by hand", 8, &EIGHT, &EIGHT_FRAMES),
];

#[test]
fn a_block_gives_its_frames_and_leaves_the_rest(rt: HostRuntime) {
    for (name, ch, block, samples) in BLOCKS {
        let mut out = [UNTOUCHED; ROOM];
        let frames = decode(&rt, block, *ch, &mut out);
        assert_eq!(rt;
            frames,
            Ok(samples.len() / usize::from((*ch).max(1))),
            "{name}"
        );
        assert!(rt; samples.len() <= ROOM, "{name}");
        assert_eq!(rt; &out[..samples.len()], *samples, "{name}");
        assert!(rt;
            out[samples.len()..].iter().all(|s| *s == UNTOUCHED),
            "{name}"
        );
    }
}

#[test]
fn the_first_index_above_88_is_named_and_nothing_is_written(rt: HostRuntime) {
    let cases: [(u8, &[u8], u8, u8); 4] = [
        (1, &[0x00, 0x7d, 89, 0x00, 0x77, 0xff, 0x00, 0x08], 0, 89),
        (1, &[0, 0, 255, 0], 0, 255),
        (2, &[0, 0, 88, 255, 0, 0, 89, 0], 1, 89),
        (
            3,
            &[0, 0, 0, 0, 0, 0, 200, 0, 0, 0, 100, 0, 1, 2, 3],
            1,
            200,
        ),
    ];
    for (ch, block, channel, found) in cases {
        let mut out = [UNTOUCHED; ROOM];
        let answer = decode(&rt, block, ch, &mut out);
        assert_eq!(rt; answer, Err(ImaFault::StepIndex { channel, found }));
        assert!(rt; out.iter().all(|s| *s == UNTOUCHED));
    }
}

/// Decodes a block of one channel in three parts, which end before the frames `first`, `second` and
/// `frames`, the number of all.
fn decode_in_parts(
    rt: &impl Abort,
    block: &[u8],
    [first, second, frames]: [usize; 3],
    out: &mut [i16; ROOM],
) -> Option<()> {
    assert!(rt; 0 < first);
    assert!(rt; first < second);
    assert!(rt; second < frames);
    assert!(rt; frames <= ROOM);
    assert!(rt; 4 <= block.len());
    assert!(rt; block[2] <= 88);
    assert!(rt; frames <= block_frames(block.len(), 1));
    let mut decoders = [Ima::new(0, 0)?];
    part_into(block, 1, 0..first, &mut decoders, out);
    part_into(block, 1, first..second, &mut decoders, &mut out[first..]);
    part_into(block, 1, second..frames, &mut decoders, &mut out[second..]);
    Some(())
}

#[test]
fn a_block_in_parts_is_the_whole_block(rt: HostRuntime) -> Result<(), Fail> {
    let mut whole = [UNTOUCHED; ROOM];
    assert_eq!(rt; decode(&rt, &LONG, 1, &mut whole), Ok(41));
    for (first, second) in [(1, 40), (4, 5), (6, 32), (9, 25), (39, 40)] {
        let mut out = [UNTOUCHED; ROOM];
        decode_in_parts(&rt, &LONG, [first, second, 41], &mut out).ok_or("a decoder")?;
        assert_eq!(rt; out, whole, "{first} and {second}");
    }
    Ok(())
}

#[test]
fn a_decoder_has_an_index_of_the_table(rt: HostRuntime) -> Result<(), Fail> {
    assert_eq!(rt; Ima::new(0, 89), None);
    let mut state = Ima::new(-5, 88).ok_or("the last index")?;
    assert_eq!(rt; state.predictor(), -5);
    // An eighth of 32767 up, and then the last step and its parts down, to the lower limit.
    assert_eq!(rt; state.step(0), 4090);
    assert_eq!(rt; state.step(15), -32768);
    let fault = ImaFault::StepIndex {
        channel: 1,
        found: 200,
    };
    let text = format!(in rt.alloc(); "{fault}")?;
    assert_eq!(rt; text.as_str(), "channel 1 has step index 200, above 88");
    Ok(())
}
