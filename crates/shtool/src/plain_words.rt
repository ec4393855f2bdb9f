//! The words of most runs, `check FILE` and `print FILE`, which are read without `clap`.
ghost use Rattle.std.specs.Prelude.{◌≡◌, ◌≤◌, IfSome, Ok, map};
ghost use Rattle.shtool.specs.Words.{AreToolAndFile, AreSettingsOf, FailsFor, is_plain_file};

use crate::asked::{Settings, Tool};
use shprint::Layout;
use shread::Edition;

/// Whether the word is FILE wherever it may stand: no option, nor `-` or `--`. The empty word is left to
/// `clap`.
fn is_plain_file(word: &str) -> bool
    ensures { result ≡ is_plain_file word.now }
{
    match word.as_bytes() {
        [] => false,
        [first, ..] => *first != b'-',
    }
}

/// The tool and FILE, where the words are `check` or `print` and FILE alone.
fn plain_words<'a>(words: &'a [&'a str]) -> Option<(Tool, &'a str)>
    ensures { IfSome result
        (λ p. AreToolAndFile (map (λ w. w.now) words.entry.now) p.0 p.1.now) }
{
    match words {
        ["check", file] if is_plain_file(file) => Some((Tool::Check, *file)),
        ["print", file] if is_plain_file(file) => Some((Tool::Print, *file)),
        _ => None,
    }
}

/// The settings that `clap` would give, where the words are `check` or `print` and FILE alone; `None` for all
/// others. A hook starts the program anew for each script, and an eighth of the instructions of such a run
/// would be `clap`'s.
pub fn plain_settings<'a>(words: &'a [&'a str]) -> Option<Settings<'a>>
    ensures settings { IfSome result (AreSettingsOf (map (λ w. w.now) words.entry.now)) }
    ensures indent { IfSome result (λ s. s.layout.indent ≤ 16) }
    ensures fails { IfSome result (λ s. FailsFor (map (λ w. w.now) words.entry.now) (Ok s)) }
{
    let (tool, file) = plain_words(words)?;
    let layout = Layout::new(0, false, false, false).ok()?;
    Some(Settings {
        tool,
        edition: Edition::Y2017,
        layout,
        file: Some(file),
    })
}
