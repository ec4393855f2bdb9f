//! The words of the command line.
use clap::error::ErrorKind;
use shprint::Layout;
use shread::Edition;
use shtool::{Tool, Usage, settings};
use std::test::Fail;

#[test]
fn check(rt: HostRuntime) -> Result<(), Fail> {
    let plain = Layout::new(0, false, false, false)?;
    for (words, file) in [
        (["check", "a b.sh"].as_slice(), Some("a b.sh")),
        (&["check", "--", "-x"], Some("-x")),
        (&["check", "help"], Some("help")),
        (&["check", "é-"], Some("é-")),
        (&["check", ""], Some("")),
        (&["check", "-"], None),
        (&["check", "--"], None),
        (&["check"], None),
    ] {
        let settings = settings(rt.alloc(), words)?;
        assert!(rt; settings.file == file, "{file:?}");
        assert!(rt; settings.tool == Tool::Check && settings.layout == plain);
    }
    Ok(())
}

#[test]
fn print(rt: HostRuntime) -> Result<(), Fail> {
    let plain = Layout::new(0, false, false, false)?;
    for (words, layout, file) in [
        (["print"].as_slice(), plain, None),
        (&["print", "-"], plain, None),
        (&["print", "--"], plain, None),
        (&["print", ""], plain, Some("")),
        (&["print", "check"], plain, Some("check")),
        (&["print", "a b.sh"], plain, Some("a b.sh")),
        (&["print", "-i", "0", "a"], plain, Some("a")),
        (
            &["print", "-i", "16"],
            Layout::new(16, false, false, false)?,
            None,
        ),
        (
            &["print", "-i4", "a"],
            Layout::new(4, false, false, false)?,
            Some("a"),
        ),
        (
            &["print", "a", "--indent=+2"],
            Layout::new(2, false, false, false)?,
            Some("a"),
        ),
        (
            &["print", "--indent", "2", "--case-indent"],
            Layout::new(2, true, false, false)?,
            None,
        ),
        (
            &["print", "--space-redirects"],
            Layout::new(0, false, true, false)?,
            None,
        ),
        (
            &["print", "--func-next-line", "--", "-x"],
            Layout::new(0, false, false, true)?,
            Some("-x"),
        ),
    ] {
        let settings = settings(rt.alloc(), words)?;
        assert!(rt;
            settings.tool == Tool::Print && settings.file == file,
            "{file:?}"
        );
        assert!(rt; settings.layout == layout, "{layout:?}");
    }
    Ok(())
}

#[test]
fn session(rt: HostRuntime) -> Result<(), Fail> {
    let plain = Layout::new(0, false, false, false)?;
    for (words, layout, file) in [
        (["session"].as_slice(), plain, None),
        (&["session", "-"], plain, None),
        (&["session", "print"], plain, Some("print")),
        (
            &["session", "-i", "2", "--case-indent", "a"],
            Layout::new(2, true, false, false)?,
            Some("a"),
        ),
    ] {
        let settings = settings(rt.alloc(), words)?;
        assert!(rt;
            settings.tool == Tool::Session && settings.file == file,
            "{file:?}"
        );
        assert!(rt; settings.layout == layout, "{layout:?}");
    }
    Ok(())
}

#[test]
fn edition(rt: HostRuntime) -> Result<(), Fail> {
    for (words, edition) in [
        (["check", "a"].as_slice(), Edition::Y2017),
        (&["check", "--edition", "2017"], Edition::Y2017),
        (&["check", "--edition=2024", "a"], Edition::Y2024),
        (&["print", "a"], Edition::Y2017),
        (&["print", "-i", "2"], Edition::Y2017),
        (&["print", "-", "--edition", "2024"], Edition::Y2024),
        (&["session"], Edition::Y2017),
        (&["session", "--edition", "2024", "-i2"], Edition::Y2024),
    ] {
        assert!(rt;
            settings(rt.alloc(), words)?.edition == edition,
            "{words:?}"
        );
    }
    Ok(())
}

#[test]
fn refused(rt: HostRuntime) {
    for (words, kind) in [
        ([].as_slice(), ErrorKind::MissingSubcommand),
        (&["chekc"], ErrorKind::InvalidSubcommand),
        (&["check", "a", "b"], ErrorKind::UnknownArgument),
        (&["check", "-x"], ErrorKind::UnknownArgument),
        (&["check", "-i", "2"], ErrorKind::UnknownArgument),
        (&["check", "--x"], ErrorKind::UnknownArgument),
        (&["check", "-h"], ErrorKind::DisplayHelp),
        (&["print", "-x"], ErrorKind::UnknownArgument),
        (&["print", "a", "b"], ErrorKind::UnknownArgument),
        (&["print", "-i", "17"], ErrorKind::ValueValidation),
        (&["print", "-i", "x"], ErrorKind::ValueValidation),
        (&["chekc", "a"], ErrorKind::InvalidSubcommand),
        (&["session", "a", "b"], ErrorKind::UnknownArgument),
        (&["session", "-i", "17"], ErrorKind::ValueValidation),
        (&["print", "-i=-1"], ErrorKind::ValueValidation),
        (&["print", "-i", "-1"], ErrorKind::UnknownArgument),
        (&["print", "-i"], ErrorKind::InvalidValue),
        (&["check", "--edition", "2018"], ErrorKind::InvalidValue),
        (&["print", "--edition="], ErrorKind::InvalidValue),
        (&["session", "--edition"], ErrorKind::InvalidValue),
        (
            &["check", "--edition", "2017", "--edition", "2024"],
            ErrorKind::ArgumentConflict,
        ),
        (&["--edition", "2024", "check"], ErrorKind::UnknownArgument),
        (&["--help"], ErrorKind::DisplayHelp),
        (&["--version"], ErrorKind::DisplayVersion),
    ] {
        let is_kind = match settings(rt.alloc(), words) {
            Err(Usage::Words(error)) => error.kind() == kind,
            _ => false,
        };
        assert!(rt; is_kind, "{kind:?}");
    }
}
