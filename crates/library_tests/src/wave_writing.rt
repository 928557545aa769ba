//! Headers and packed samples, byte by byte.
use std::test::Fail;
use wave_write::{header, pack};

#[test]
fn a_header_states_its_format_and_sizes(rt: HostRuntime) {
    let four_frames =
        b"RIFF\x2c\0\0\0WAVEfmt \x10\0\0\0\x01\0\x01\0\x40\x1f\0\0\x80\x3e\0\0\x02\0\x10\0data\x08\0\0\0";
    assert_eq!(rt; header(1, 8000, 16, 4).as_slice(), four_frames.as_slice());
    let no_frame =
        b"RIFF\x24\0\0\0WAVEfmt \x10\0\0\0\x01\0\x01\0\x40\x1f\0\0\x80\x3e\0\0\x02\0\x10\0data\0\0\0\0";
    assert_eq!(rt; header(1, 8000, 16, 0).as_slice(), no_frame.as_slice());
    // One frame of three bytes, and its pad byte in the RIFF size alone.
    let odd =
        b"RIFF\x28\0\0\0WAVEfmt \x10\0\0\0\x01\0\x01\0\x40\x1f\0\0\xc0\x5d\0\0\x03\0\x18\0data\x03\0\0\0";
    assert_eq!(rt; header(1, 8000, 24, 1).as_slice(), odd.as_slice());
    // 16,777,216 frames of two channels of 24 bits at 768,000 Hz.
    let large =
        b"RIFF\x24\0\0\x06WAVEfmt \x10\0\0\0\x01\0\x02\0\0\xb8\x0b\0\0\x50\x46\0\x06\0\x18\0data\0\0\0\x06";
    assert_eq!(rt;
        header(2, 768_000, 24, 16_777_216).as_slice(),
        large.as_slice()
    );
}

#[test]
fn samples_are_packed_at_both_widths(rt: HostRuntime) -> Result<(), Fail> {
    let samples = [0, -1, 255, 256, 8_388_607, -8_388_608];
    let mut bytes = Vec::new(rt.alloc());
    bytes.push(9)?;
    pack(rt.alloc(), &samples, 16, &mut bytes)?;
    assert_eq!(rt;
        bytes.as_slice(),
        b"\x09\0\0\xff\xff\0\0\x01\0\xff\x7f\0\x80".as_slice()
    );
    bytes.clear();
    pack(rt.alloc(), &samples, 24, &mut bytes)?;
    assert_eq!(rt;
        bytes.as_slice(),
        b"\0\0\0\xff\xff\xff\xff\0\0\0\x01\0\xff\xff\x7f\0\0\x80".as_slice()
    );
    Ok(())
}
