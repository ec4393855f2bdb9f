//! Whether a line ends with its newline.
ghost use Rattle.std.specs.Prelude.{◌≡◌, ◌+◌, ◌-◌, ◌^◌, ◌<◌, drop};
ghost use Rattle.shgrammar.specs.Characters.{newline_char};
ghost use Rattle.shgrammar.specs.Standing.{raw_stands};

use shsource::Source;

/// Whether a newline is the last byte of a line of so many bytes, of one or more.
#[tactic(auto, unfolding(shgrammar::specs::Standing::raw_stands), using(shgrammar::proofs::Stretches::get_drop))]
pub fn ends_in_newline<S: Source>(source: &S, at: usize, len: usize) -> bool
    requires some { 0 < len }
    requires fits { at + len < 2 ^ 64 }
    ensures { result ≡ raw_stands (drop at (S.bytes source.now)) (len - 1) newline_char }
{
    match source.byte(at + (len - 1)) {
        Some(byte) => byte == b'\n',
        None => false,
    }
}
