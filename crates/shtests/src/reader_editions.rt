//! What the editions differ in: text in dollar-single quotes, and `;&`.
use crate::dump::Judge;
use shpass::faultless_front;
use shread::{Edition, Reader};
use shtext::Flat;
use shtreetests::cell::Cell;
use shtreetests::table::counted;
use std::test::Fail;

/// A reader is one by POSIX.1-2017 if nothing else is said.
#[test]
fn readers(rt: HostRuntime) {
    let alloc = rt.alloc();
    assert!(rt; Reader::new(alloc).edition() == Edition::Y2017);
    assert!(rt; Reader::for_edition(alloc, Edition::Y2017).edition() == Edition::Y2017);
    assert!(rt; Reader::for_edition(alloc, Edition::Y2024).edition() == Edition::Y2024);
}

/// The lines that may be passed are by an edition too.
#[test]
fn fronts(rt: HostRuntime) -> Result<(), Fail> {
    let alloc = rt.alloc();
    let script = Flat::new(b"a\necho $'a\\'b'\ncase a in x) ;& esac\n");
    assert!(rt; faultless_front(alloc, Edition::Y2017, &script)? == 2);
    assert!(rt; faultless_front(alloc, Edition::Y2024, &script)? == 36);
    Ok(())
}

/// Scripts, and their dumps by POSIX.1-2017 and by POSIX.1-2024.
const ROWS: &[u8] = br###"
// text in dollar-single quotes
("echo $'a\\'b'\n", "fault 1 at 11", "[0-4 5-12]")
("echo $'a\n", "fault 1 at 6", "fault 16 at 5")
("echo $'a\\", "fault 1 at 6", "fault 16 at 5")
("echo $'a\\\n'", "[0-4 5-11]", "[0-4 5-11]")
("echo a$'b'c$'\\'' d\n", "fault 1 at 15", "[0-4 5-16 17-18]")
("echo $\\\n'a\\'b'\n", "fault 1 at 13", "[0-4 5-14]")
("echo $$'a\\'b'\n", "fault 1 at 12", "fault 1 at 12")
("echo \"$'\"\n", "[0-4 5-9]", "[0-4 5-9]")
("echo \"$'\\'\"\n", "[0-4 5-11]", "[0-4 5-11]")
("echo ${x:-$'a\\'}'}\n", "fault 1 at 16", "[0-4 5-18]")
("echo ${x#$'a\\'}'}\n", "fault 1 at 15", "[0-4 5-17]")
("echo \"${x:-$'}\"\n", "[0-4 5-15]", "[0-4 5-15]")
("echo \"${x#$'a\\'}'}\"\n", "[0-4 5-19]", "[0-4 5-19]")
("echo \"${x#$'a\\'\"'}\"\n", "fault 4 at 6", "[0-4 5-19]")
("echo $((1 + $'2))\n", "[0-4 5-17]", "[0-4 5-17]")
("echo `$'`\n", "[0-4 5-9]", "[0-4 5-9]")
("echo $(echo $'a\\')')\n", "fault 1 at 18", "[0-4 5-20$5-20([7-11 12-19])]")
("x=$'a\\'b'\n", "fault 1 at 8", "[=0-9]")

// it stands in no word after `<<`
("cat <<$'E'\n$E\n", "[0-3 <<4-6:6-10@'11-11]", "fault 10 at 6")
("cat <<a$'E'\na$E\n", "[0-3 <<4-6:6-11@'12-12]", "fault 10 at 6")
("cat <<$\\\n'E'\n$E\n", "[0-3 <<4-6:6-12@'13-13]", "fault 10 at 6")
("cat <<\\$'E'\n$E\n", "[0-3 <<4-6:6-11@'12-12]", "[0-3 <<4-6:6-11@'12-12]")
("cat <<$$'E'\n$$E\n", "[0-3 <<4-6:6-11@'12-12]", "[0-3 <<4-6:6-11@'12-12]")
("cat <<\"$'\"E\n$'E\n", "[0-3 <<4-6:6-11@'12-12]", "[0-3 <<4-6:6-11@'12-12]")
("cat <<'$'E\n$E\n", "[0-3 <<4-6:6-10@'11-11]", "[0-3 <<4-6:6-10@'11-11]")
("cat <<'a'$'E'\na$E\n", "[0-3 <<4-6:6-13@'14-14]", "fault 10 at 6")
("cat <<$$$'E'\n$$$E\n", "[0-3 <<4-6:6-12@'13-13]", "fault 10 at 6")
("cat <<$\\\n$'E'\n$$E\n", "[0-3 <<4-6:6-13@'14-14]", "[0-3 <<4-6:6-13@'14-14]")
("cat <<\"\\\"$'E\"\n\"$'E\n", "[0-3 <<4-6:6-13@'14-14]", "[0-3 <<4-6:6-13@'14-14]")
("cat <<'\\'$'E'\n\\$E\n", "[0-3 <<4-6:6-13@'14-14]", "fault 10 at 6")
("cat <<\"a\"$'E'\na$E\n", "[0-3 <<4-6:6-13@'14-14]", "fault 10 at 6")

// items that fall through
("case a in x) b;& y) c;; z) ;& esac\n", "fault 11 at 15",
 "<0-34 case 5-6 (10-16 10-11 [13-14] ;&) (17-23 17-18 [20-21]) (24-29 24-25 ;&)>")
("case a in x) ;& esac\n", "fault 11 at 13", "<0-20 case 5-6 (10-15 10-11 ;&)>")
("case a in x) b\n;&\nesac\n", "fault 11 at 15", "<0-22 case 5-6 (10-17 10-11 [13-14] ;&)>")
("case a in x) b;\\\n& esac\n", "fault 11 at 17", "<0-23 case 5-6 (10-18 10-11 [13-14] ;&)>")
("case a in x) b;& # c\n\n# d\nesac\n", "fault 11 at 15",
 "<0-30 case 5-6 (10-16 10-11 [13-14] ;&) #17-20 #22-25>")
("case a in (x|y) b;& # c\n# d\nz) ;; esac\n", "fault 11 at 18",
 "<0-38 case 5-6 (10-19 11-12|13-14 [16-17] ;&) (28-33 #20-23 #24-27 28-29)>")
("case a in x) ;;\ny) esac\n", "<0-23 case 5-6 (10-15 10-11) (16-18 16-17)>",
 "<0-23 case 5-6 (10-15 10-11) (16-18 16-17)>")
("case a in ;& esac\n", "fault 11 at 10", "fault 11 at 10")
("case a in x) b&;& esac\n", "fault 11 at 15", "<0-22 case 5-6 (10-17 10-11 [13-14]& ;&)>")
("case a in x) b;& ;& esac\n", "fault 11 at 15", "fault 11 at 17")
("case a in x) b;; ;& esac\n", "fault 11 at 17", "fault 11 at 17")
// `;&` elsewhere
("echo $(a;&)\n", "fault 11 at 9", "fault 11 at 8")
("a;&\n", "fault 11 at 2", "fault 11 at 1")
("a; &\n", "fault 11 at 3", "fault 11 at 3")
("a;;&\n", "fault 11 at 1", "fault 11 at 1")
("{ a;& }\n", "fault 11 at 4", "fault 11 at 3")
("a;\\\n\\\n&\n", "fault 11 at 6", "fault 11 at 1")
("a;'&'\n", "[0-1] [2-5]", "[0-1] [2-5]")
// what no row above sees: delimiters beside `$'`, and continuations before it
("a <<\\b$'E'\nb$E\n", "[0-1 <<2-4:4-10@'11-11]", "fault 10 at 4")
("a <<$b$'E'\n$b$E\n", "[0-1 <<2-4:4-10@'11-11]", "fault 10 at 4")
("a <<\\E\nE\n", "[0-1 <<2-4:4-6@'7-7]", "[0-1 <<2-4:4-6@'7-7]") ("a\\\n$'b c'", "[0-9]", "[0-9]")
("a\\\n$'b", "fault 1 at 4", "fault 16 at 3")
"###;

fn judge_row(old: &mut Judge, new: &mut Judge, row: &[Cell]) -> Result<(), Fail> {
    let [script, by_2017, by_2024] = row else {
        return Err(Fail::from("no row"));
    };
    old.script(&script.bytes, &by_2017.bytes, 9)?;
    new.script(&script.bytes, &by_2024.bytes, 9)
}

#[test]
fn scripts(rt: HostRuntime) -> Result<(), Fail> {
    let alloc = rt.alloc();
    let mut old = Judge::new(alloc);
    let mut new = Judge::of(alloc, Reader::for_edition(alloc, Edition::Y2024));
    for row in &counted(alloc, ROWS, 54)? {
        judge_row(&mut old, &mut new, row)?;
    }
    old.verdict()?;
    new.verdict()
}
