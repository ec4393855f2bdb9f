//! What the line of a request asks for.
ghost use Rattle.std.specs.Prelude.{◌≡◌, ◌∷◌, [], IfSome, MatchOption};
ghost use Rattle.shlive.specs.RequestKinds.{HasParts, batch_of, number_alone, number_of, kind_by_name, request_kind_of, kind_of_one_word, part_of, words};

/// The most parts of a batch.
const MOST_PARTS: usize = 64;

/// A question, which changes nothing.
#[derive(Clone, Copy, Debug, PartialEq, Eq)]
pub(crate) enum Question {
    Outline,
    At(usize),
    Fault,
    Print,
}

/// Bytes in the place of those from `a` up to `b`: so many, which follow the line.
#[derive(Clone, Copy, Debug, PartialEq, Eq)]
pub(crate) struct Part {
    pub(crate) a: usize,
    pub(crate) b: usize,
    pub(crate) count: usize,
}

/// How the splices of an edit come.
#[derive(Clone, Copy, Debug, PartialEq, Eq)]
pub(crate) enum EditForm {
    /// One, whose bytes follow the line of the request.
    Alone(Part),
    /// So many, each of which has a line of its own.
    Batch(usize),
}

/// What a line asks for.
#[derive(Clone, Copy, Debug, PartialEq, Eq)]
pub(crate) enum RequestKind {
    /// A change of the script.
    Edit(EditForm),
    /// An answer.
    Ask(Question),
    /// The end of the run.
    Quit,
}

/// The number that a word spells: `0`, or one to ten digits without a leading zero.
fn number_of(word: &[u8]) -> Option<usize>
    ensures { result ≡ number_of word.now }
{
    let (first, rest) = word.split_first()?;
    if rest.len() > 9 || (*first == b'0' && !rest.is_empty()) {
        return None;
    }
    let mut value = 0;
    for digit in word {
        if !digit.is_ascii_digit() {
            return None;
        }
        value = 10 * value + usize::from(*digit - b'0');
    }
    Some(value)
}

/// The first word of a line, and what follows the blank after it, where there is one.
fn cut_word(line: &[u8]) -> (&[u8], Option<&[u8]>)
    ensures { MatchOption result.1 (words line.now ≡ result.0.now ∷ [])
        (λ rest. words line.now ≡ result.0.now ∷ words rest.now) }
{
    let mut at = 0;
    'bytes: while at < line.len() {
        if line[at] == b' ' {
            return (&line[..at], Some(&line[at + 1..]));
        }
        at += 1;
    }
    (line, None)
}

/// What a line of this one word asks for.
fn kind_of_one_word(word: &[u8]) -> Option<RequestKind>
    ensures is { result ≡ kind_of_one_word word.now }
    ensures parts { IfSome result HasParts }
{
    if word == b"outline".as_slice() {
        Some(RequestKind::Ask(Question::Outline))
    } else if word == b"fault".as_slice() {
        Some(RequestKind::Ask(Question::Fault))
    } else if word == b"print".as_slice() {
        Some(RequestKind::Ask(Question::Print))
    } else if word == b"quit".as_slice() {
        Some(RequestKind::Quit)
    } else {
        None
    }
}

/// The number that a text spells which is one word.
fn number_alone(text: &[u8]) -> Option<usize>
    ensures { result ≡ number_alone (words text.now) }
{
    match cut_word(text) {
        (number, None) => number_of(number),
        (_, Some(_)) => None,
    }
}

/// The part that a line spells: `A B N`.
pub(crate) fn part_of(line: &[u8]) -> Option<Part>
    ensures { result ≡ part_of line.now }
{
    let (a, Some(rest)) = cut_word(line) else {
        return None;
    };
    let (b, Some(rest)) = cut_word(rest) else {
        return None;
    };
    match cut_word(rest) {
        (count, None) => Some(Part {
            a: number_of(a)?,
            b: number_of(b)?,
            count: number_of(count)?,
        }),
        (_, Some(_)) => None,
    }
}

/// A batch of so many parts, where there may be so many.
fn batch_of(count: usize) -> Option<RequestKind>
    ensures is { result ≡ batch_of count }
    ensures parts { IfSome result HasParts }
{
    if 1 <= count && count <= MOST_PARTS {
        Some(RequestKind::Edit(EditForm::Batch(count)))
    } else {
        None
    }
}

/// What a line asks for that has words after its name.
fn kind_by_name(name: &[u8], rest: &[u8]) -> Option<RequestKind>
    ensures is { result ≡ kind_by_name name.now (words rest.now) }
    ensures parts { IfSome result HasParts }
{
    if name == b"at".as_slice() {
        Some(RequestKind::Ask(Question::At(number_alone(rest)?)))
    } else if name == b"edit".as_slice() {
        Some(RequestKind::Edit(EditForm::Alone(part_of(rest)?)))
    } else if name == b"batch".as_slice() {
        batch_of(number_alone(rest)?)
    } else {
        None
    }
}

/// What a line asks for, or `None` where it is none of the requests.
pub(crate) fn request_kind_of(line: &[u8]) -> Option<RequestKind>
    ensures is { result ≡ request_kind_of line.now }
    ensures parts { IfSome result HasParts }
{
    match cut_word(line) {
        (word, None) => kind_of_one_word(word),
        (name, Some(rest)) => kind_by_name(name, rest),
    }
}
