//! The choices that a layout leaves.
ghost use Rattle.std.specs.Prelude.{◌≡◌, ◌<◌, ◌≤◌, IfErr, IfOk};

use thiserror::Error;

/// The most blanks for each level.
const MOST: u8 = 16;

/// How a script is laid out: what stands for each level, and three choices, each off by default.
#[derive(Clone, Copy, Debug, PartialEq, Eq)]
pub struct Layout {
    /// Blanks for each level; 0 stands for a tab.
    pub(crate) indent: u8,
    /// The items of a `case` stand one level deeper than the `case`.
    pub(crate) case_indent: bool,
    /// A space stands between the operator of a redirection and its word.
    pub(crate) space_redirects: bool,
    /// The `{` of a function's body begins the next line.
    pub(crate) func_next_line: bool,
}

/// Why there is no such layout.
#[derive(Clone, Copy, Debug, PartialEq, Eq, Error)]
pub enum LayoutError {
    /// More than 16 blanks for each level.
    #[error("indent above 16")]
    Indent = 4,
}

impl Layout {
    /// The layout of these choices; refused is an indent above 16 alone. It takes no memory.
    pub fn new(
        indent: u8,
        case_indent: bool,
        space_redirects: bool,
        func_next_line: bool,
    ) -> Result<Layout, LayoutError>
        ensures fields { IfOk result (λ layout. layout ≡ record {
          indent = indent;
          case_indent = case_indent;
          space_redirects = space_redirects;
          func_next_line = func_next_line;
        }) }
        ensures ok { IfOk result (λ _. indent ≤ 16) }
        ensures err { IfErr result (λ e. 16 < indent) }
    {
        if MOST < indent {
            return Err(LayoutError::Indent);
        }
        Ok(Layout {
            indent,
            case_indent,
            space_redirects,
            func_next_line,
        })
    }
}
