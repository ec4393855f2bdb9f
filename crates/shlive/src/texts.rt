//! The texts of replies that tell nodes.
ghost use Rattle.std.specs.Prelude.{◌≡◌, ◌+◌, ◌≤◌, ◌∷◌, ◌++◌, IfOk, codes, decimal, drop, length};
ghost use Rattle.shtext.specs.Buffer.{buffer_bytes};
ghost use Rattle.shlive.specs.Replies.{kind_text, name_text, node_text, nodes_text};

use shprint::add_bare;
use shtext::Buffer;
use shtree::{NodeKind, NodeLine, Span};
use std::alloc::{AllocError, Global};

/// The longest text of a kind.
const KIND_LEN: usize = 8;

/// The longest line of a node up to its name: the end of the line before, two numbers
/// of 20 digits with a blank after each, and a kind.
const LINE_LEN: usize = 43 + KIND_LEN;

/// What a reply calls a kind of node, at the end of as many bytes for each, and how
/// many of them stand before it unused.
fn kind_text(kind: NodeKind) -> (&'static [u8; KIND_LEN], usize)
    ensures within { result.1 ≤ 8 }
    ensures text { drop result.1 result.0.now ≡ kind_text kind }
{
    match kind {
        NodeKind::Comment => (b" comment", 1),
        NodeKind::Word => (b"    word", 4),
        NodeKind::Assign => (b"  assign", 2),
        NodeKind::Redirect => (b"redirect", 0),
        NodeKind::Subst => (b"   subst", 3),
        NodeKind::Simple => (b"  simple", 2),
        NodeKind::Brace => (b"   brace", 3),
        NodeKind::Subshell => (b"subshell", 0),
        NodeKind::If => (b"      if", 6),
        NodeKind::While => (b"   while", 3),
        NodeKind::Until => (b"   until", 3),
        NodeKind::For => (b"     for", 5),
        NodeKind::Case => (b"    case", 4),
        NodeKind::Item => (b"    item", 4),
        NodeKind::Function => (b"function", 0),
        NodeKind::Pipeline => (b"pipeline", 0),
        NodeKind::AndOr => (b"   andor", 3),
    }
}

/// Writes a number so that it ends at `end`, and this byte before it. Answers where the byte stands.
fn write_number(line: &mut [u8], end: usize, number: usize, before: u8) -> usize
    requires { (21 ≤ end) × (end ≤ length line.old) }
    ensures room { end ≤ result + 21 }
    ensures written { drop result line.new ≡ before ∷ decimal number ++ drop end line.old }
{
    let start = itoa::write_digits(number as u64, line, end) - 1;
    line[start] = before;
    start
}

/// Writes the line of a node up to its name to the end of these bytes, with the end of
/// the line before it in front. Answers where it begins.
fn write_node(line: &mut [u8; LINE_LEN], node: &NodeLine) -> usize
    ensures { drop result line.new ≡ codes "\n" ++ decimal node.now.start ++ codes " "
        ++ decimal node.now.end ++ codes " " ++ kind_text node.now.kind }
{
    let (kind, unused) = kind_text(node.kind);
    line[LINE_LEN - KIND_LEN..].copy_from_slice(kind);
    let blank = LINE_LEN - KIND_LEN + unused - 1;
    line[blank] = b' ';
    let end = write_number(line, blank, node.end, b' ');
    write_number(line, end, node.start, b'\n')
}

/// Adds a node's name, where it has one.
fn add_name(text: &mut Vec<u8>, script: &Buffer, name: Option<Span>) -> Result<(), AllocError>
    ensures { IfOk result (λ _. text.new.items ≡ text.old.items
        ++ name_text (buffer_bytes script.now) name) }
{
    match name {
        Some(span) => {
            text.push(b' ')?;
            add_bare(text, script, span)
        }
        None => Ok(()),
    }
}

/// Ends the line before, and adds that of a node but for its end.
fn add_node(text: &mut Vec<u8>, script: &Buffer, node: &NodeLine) -> Result<(), AllocError>
    ensures { IfOk result (λ _. text.new.items ++ codes "\n" ≡ (text.old.items ++ codes "\n")
        ++ node_text (buffer_bytes script.now) node.now) }
{
    let mut line = [0; LINE_LEN];
    let start = write_node(&mut line, node);
    text.extend_from_slice(&line[start..])?;
    add_name(text, script, node.name)
}

/// The reply that tells nodes, with this word at its head.
pub(crate) fn nodes_text(
    alloc: Global,
    word: &[u8],
    script: &Buffer,
    nodes: &[NodeLine],
) -> Result<Vec<u8>, AllocError>
    ensures { IfOk result (λ text. text.items
        ≡ nodes_text word.now (buffer_bytes script.now) nodes.now) }
{
    let mut number = itoa::Buffer::new();
    let mut text = Vec::from_slice(alloc, word)?;
    text.push(b' ')?;
    text.extend_from_slice(number.format(nodes.len()).as_bytes())?;
    for node in nodes {
        add_node(&mut text, script, node)?;
    }
    text.push(b'\n')?;
    Ok(text)
}
