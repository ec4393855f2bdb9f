//! How many newlines there are in some bytes. Most stand near the next one, so that no search
//! is as fast as a look at each byte, many bytes at once.
ghost use Rattle.std.specs.Prelude.{◌≡◌, ◌≤◌, count_by, length};
ghost use Rattle.shsource.specs.Text.{is_newline};

/// The bytes of a row, a lane each: so few that a `u8` counts its newlines, and as many as fill the
/// registers of a processor some times.
const LANES: usize = 192;

/// How many newlines a row has.
fn newlines_in_row(row: &[u8]) -> u8
    requires { length row.now ≤ 192 }
    ensures { result ≡ count_by is_newline row.now }
{
    let mut newlines = 0;
    'bytes: for byte in row {
        if *byte == b'\n' {
            newlines += 1;
        }
    }
    newlines
}

/// How many newlines there are.
pub fn newlines_in(bytes: &[u8]) -> usize
    ensures { result ≡ count_by is_newline bytes.now }
{
    let mut newlines = 0;
    let mut rest = bytes;
    'rows: while !rest.is_empty() {
        let (row, after) = rest.split_at(rest.len().min(LANES));
        newlines += newlines_in_row(row) as usize;
        rest = after;
    }
    newlines
}
