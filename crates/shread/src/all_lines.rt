//! All lines of a source as one script.
ghost use Rattle.std.specs.Prelude.{◌≡◌, ◌≤◌, length, IfOk, IfSome, IsOk};
ghost use Rattle.shgrammar.specs.Scripts.{view_script};
ghost use Rattle.shgrammar.specs.Scripts.{script_at};
ghost use Rattle.shast.specs.Nodes.{NodesWithin};

use crate::error::ReadError;
use shgrammar::{Edition, Script};
use shmake::make::list_of;
use shpass::ScriptLines;
use shsource::Source;
use std::alloc::Global;

/// A whole script. One without a byte wants no memory.
#[tactic(auto, using(shgrammar::proofs::LineKinds::nothing_read))]
pub(crate) fn script_from<S: Source>(
    alloc: Global,
    edition: Edition,
    source: &S,
) -> Result<Script, ReadError>
    ensures value { IfOk result
        (λ script. view_script script ≡ script_at edition (S.bytes source.now)) }
    ensures spans { IfOk result
        (λ script. NodesWithin (length (S.bytes source.now)) (view_script script).entries) }
    ensures fault { IfOk result
        (λ script. IfSome script.fault (λ f. f.at ≤ length (S.bytes source.now))) }
    ensures empty { length (S.bytes source.now) ≡ 0 → IsOk result }
{
    let mut entries = Vec::new(alloc);
    if source.len() == 0 {
        return Ok(Script {
            list: list_of(entries),
            fault: None,
        });
    }
    let mut lines = ScriptLines::new(alloc, edition, source);
    'lines: loop {
        match lines.read_next(None) {
            Ok(mut told) => {
                entries.append(&mut told.entries)?;
                if !told.newline {
                    return Ok(Script {
                        list: list_of(entries),
                        fault: None,
                    });
                }
            }
            Err(stop) => {
                let fault = stop.fault()?;
                return Ok(Script {
                    list: list_of(entries),
                    fault: Some(fault),
                });
            }
        }
    }
}
