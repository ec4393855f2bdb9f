//! The bytes after the last whole row.
ghost use Rattle.std.specs.Prelude.{◌≡◌};
ghost use Rattle.std.specs.List.{prefix_len};
ghost use Rattle.shscan.specs.Sets.{is_outside};

/// How many bytes stand before the first one of the set, one by one.
#[inline(always)]
pub(crate) fn few_outside(run: &[u8], low: [u8; 16], high: [u8; 16]) -> usize
    ensures { result ≡ prefix_len (is_outside low high) run.now }
{
    'bytes: for (count, byte) in run.iter().enumerate() {
        if low[(*byte % 16) as usize] & high[(*byte / 16) as usize] != 0 {
            return count;
        }
    }
    run.len()
}
