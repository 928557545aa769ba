//! Texts inside quoted labels, and gains as factors.
ghost use Rattle.std.specs.Prelude.{◌≡◌, ◌++◌, IfOk, OnOk, string_bytes};
ghost use Rattle.scene_view.specs.Labels as spec;

use plain_data::OutOfMemory;
use std::alloc::{AllocError, Global};

/// The greatest digit of a place, and one more.
const BASE: u64 = 10;

/// A text inside a quoted label.
pub(crate) fn label(alloc: Global, text: &str) -> Result<String, OutOfMemory>
    ensures { IfOk result (λ drawn. string_bytes drawn ≡ spec.label text.now) }
{
    let mut drawn = String::new(alloc);
    for c in text.chars() {
        push_drawn(&mut drawn, c)?;
    }
    Ok(drawn)
}

/// Appends a character inside a quoted label.
#[tactic(auto, unfolding(crate::specs::Labels::drawn))]
fn push_drawn(drawn: &mut String, c: char) -> Result<(), AllocError>
    ensures { OnOk result (string_bytes drawn.new ≡ string_bytes drawn.old ++ spec.drawn c) }
{
    match c {
        '"' => drawn.push_str("\\\""),
        '\\' => drawn.push_str("\\\\"),
        '\n' => drawn.push_str("\\n"),
        _ if c.is_ascii_control() => drawn.push('?'),
        _ => drawn.push(c),
    }
}

/// A gain in 1/65536 as a factor of four decimals, to the nearest.
#[tactic(auto, unfolding(crate::specs::Labels::factor))]
pub(crate) fn factor(alloc: Global, gain: u32) -> Result<String, OutOfMemory>
    ensures { IfOk result (λ text. string_bytes text ≡ spec.factor gain) }
{
    let n = (u64::from(gain) * 10_000 + 32_768) / 65_536;
    let (whole, first) = (n / 10_000, n / 1000 % BASE);
    let (second, third, fourth) = (n / 100 % BASE, n / 10 % BASE, n % BASE);
    Ok(format!(in alloc; "{whole}.{first}{second}{third}{fourth}")?)
}
