//! The bytes that an edit brings.
ghost use Rattle.std.specs.Prelude.{◌<◌, ◌++◌, ℕ, IfErr, IfOk, List, OnOk, length};
ghost use Rattle.shlive.specs.Ahead.{IsReady, StopsAfter, ahead_of};
ghost use Rattle.shlive.specs.Payload.{AreKept, TakesPayload};

use crate::incoming::{Incoming, InputEnd};
use shtext::Input;
use std::alloc::Global;
use std::io::Read;

/// Bytes that came, unless they are not kept: they were not to be, or there was no memory.
type Kept = Option<Vec<u8>>;

/// Keeps a piece after what is kept.
fn keep_more(kept: Kept, piece: &[u8]) -> Kept
    ensures { (bytes : List ℕ) → AreKept kept bytes → AreKept result (bytes ++ piece.now) }
{
    let mut bytes = kept?;
    match bytes.extend_from_slice(piece) {
        Ok(()) => Some(bytes),
        Err(_) => None,
    }
}

/// Takes so many bytes, and keeps them where they are wanted and there is memory.
pub(crate) fn take_payload<R: Read>(
    alloc: Global,
    incoming: &mut Incoming,
    input: &mut Input<R>,
    count: usize,
    wanted: bool,
) -> Result<Kept, InputEnd>
    requires { IsReady input.old incoming.old }
    ensures ready { OnOk result (IsReady input.new incoming.new) }
    ensures payload { IfOk result (TakesPayload count
        (ahead_of R.remaining input.old incoming.old)
        (ahead_of R.remaining input.new incoming.new)) }
    ensures cut { IfErr result (StopsAfter (λ bytes. length bytes < count)
        (ahead_of R.remaining input.old incoming.old)
        (ahead_of R.remaining input.new incoming.new)) }
{
    let mut kept = if wanted { Some(Vec::new(alloc)) } else { None };
    let mut left = count;
    'pieces: while left > 0 {
        if let Err(stop) = incoming.fill(input) {
            return Err(stop);
        }
        let piece = incoming.front(left);
        let len = piece.len();
        kept = keep_more(kept, piece);
        incoming.pass(len);
        left -= len;
    }
    Ok(kept)
}
