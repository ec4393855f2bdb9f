//! Sixteen bytes at once. A vector looks up the kinds of all in a table of sixteen, by the low four bits and
//! by the high four: the look-up by halves that Hyperscan calls shufti.
ghost use Rattle.std.specs.Prelude.{◌≡◌, ◌+◌, ◌≤◌, length};
ghost use Rattle.std.specs.List.{prefix_len};
ghost use Rattle.shscan.specs.Sets.{is_outside, row_of};

use std::simd::prelude::*;

/// The bytes of a row, a lane each.
pub(crate) const LANES: usize = 16;

/// How many bytes of the row at an offset stand before its first one of the set; all
/// of them where none is of it.
#[inline(always)]
pub(crate) fn outside_in_row(run: &[u8], at: usize, low: [u8; 16], high: [u8; 16]) -> usize
    requires { at + 16 ≤ length run.now }
    ensures { result ≡ prefix_len (is_outside low high) (row_of at run.now) }
{
    let bytes = u8x16::from_slice(&run[at..]);
    let by_low = u8x16::from_array(low).swizzle_dyn(bytes & u8x16::splat(15));
    let by_high = u8x16::from_array(high).swizzle_dyn(bytes >> u8x16::splat(4));
    let members = (by_low & by_high).simd_ne(u8x16::splat(0)).to_bitmask();
    if members == 0 {
        return LANES;
    }
    members.trailing_zeros() as usize
}
