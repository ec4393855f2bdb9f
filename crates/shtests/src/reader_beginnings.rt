//! The beginnings of one script, byte by byte: each has the fault that the grammar gives, is read as its
//! lines are, and is checked alike. The faults were told by a reading of the grammar written apart.
use crate::dump::Judge;
use crate::reader_lines::judge_lines;
use shread::Reader;
use shtext::Flat;
use shtreetests::table::counted;
use std::alloc::Global;
use std::test::Fail;

const SCRIPT: &[u8] = br###"# Keeps a service up.
if [ -d "$dir" ] &&
    # twice
    cd "$dir"; then

    while [ "${n:-0}" -gt 0 ] # a try each
    do
        { a; b 'c d'; } | e \
            "f `g`" || ! h &
        (i=$((n - (1))) j
        ) #k

        n=$((n - 1))
    done; l
elif m \
    | n; then until o; do p; done
else ( (q); { r
    } )
fi & # s

t\
u
"###;

/// The faults of the beginnings, from that of no byte on: each is that of so many
/// beginnings. `end` is an unexpected end.
const FAULTS: &[u8] = br###"
("" * 24)
("end" * 7)
("fault 2 at 30" * 5)
("end" * 26)
("fault 2 at 61" * 5)
("end" * 21)
("fault 2 at 87" * 2)
("fault 4 at 88" * 5)
("fault 2 at 87" * 1)
("end" * 45)
("fault 1 at 140" * 4)
("end" * 9)
("fault 8 at 153" * 1)
("end" * 13)
("fault 2 at 167" * 3)
("fault 3 at 170" * 2)
("fault 2 at 167" * 1)
("end" * 23)
("fault 7 at 195" * 1)
("fault 5 at 195" * 8)
("fault 6 at 205" * 1)
("end" * 29)
("fault 7 at 234" * 1)
("fault 5 at 234" * 6)
("fault 6 at 242" * 1)
("end" * 7)
("fault 11 at 249" * 1)
("end" * 13)
("fault 8 at 264" * 1)
("end" * 31)
("fault 11 at 295" * 1)
("end" * 28)
("" * 10)
("fault 8 at 335" * 1) ("" * 3)
"###;

/// What the fault of a beginning is told to be.
fn told(alloc: Global, fault: &[u8], len: usize) -> Result<String, Fail> {
    let mut text = String::new(alloc);
    if fault == b"end".as_slice() {
        write!(text, "fault 12 at {len}")?;
    } else {
        text.push_str(String::from_utf8_lossy(alloc, fault)?.as_str())?;
    }
    Ok(text)
}

fn judge_beginning(
    alloc: Global,
    judge: &mut Judge,
    script: &[u8],
    fault: &[u8],
) -> Result<(), Fail> {
    let wanted = told(alloc, fault, script.len())?;
    judge.fault(&Flat::new(script), script, wanted.as_bytes())?;
    let mut reader = Reader::new(alloc);
    judge_lines(judge, &mut reader, script)
}

/// The next beginnings, which have this fault. Answers the length of the one after them.
fn judge_some(
    alloc: Global,
    judge: &mut Judge,
    from: usize,
    fault: &[u8],
    count: usize,
) -> Result<usize, Fail> {
    let mut len = from;
    for _ in 0..count {
        let script = SCRIPT
            .get(..len)
            .ok_or_else(|| Fail::from("more faults than beginnings"))?;
        judge_beginning(alloc, judge, script, fault)?;
        len = len.wrapping_add(1);
    }
    Ok(len)
}

#[test]
fn beginnings(rt: HostRuntime) -> Result<(), Fail> {
    let mut judge = Judge::new(rt.alloc());
    let mut len = 0;
    for row in &counted(rt.alloc(), FAULTS, 35)? {
        let [fault] = row.as_slice() else {
            return Err(Fail::from("no row"));
        };
        len = judge_some(rt.alloc(), &mut judge, len, &fault.bytes, fault.number)?;
    }
    assert!(rt; len == SCRIPT.len() + 1);
    judge.verdict()
}
