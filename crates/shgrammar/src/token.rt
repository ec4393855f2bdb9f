//! Tokens: what may begin where one begins (XCU 2.3, 2.4, 2.10.1).
ghost use Rattle.std.specs.Prelude.{◌≡◌, IfSome, false, true};
ghost use Rattle.shgrammar.specs.Commands.{and_or_operator_of, begins_pipeline, begins_redirect, begins_simple, begins_word, after_redirect, after_word, ends_item, falls_through, opener_of, redirect_operator_of, separator_of};
ghost use Rattle.shgrammar.specs.Compounds.{begins_pattern, position_after, is_closing};
ghost use Rattle.shgrammar.specs.Tokens.{is_end};

use shast::{AndOrOperator, RedirectOperator};

/// What begins at a place that no blank stands at (XCU 2.3, 2.10.1).
#[derive(Clone, Copy)]
pub enum Token {
    /// The end of the text.
    End,
    Newline,
    /// `;`
    Semicolon,
    /// `;;`
    DoubleSemicolon,
    /// `;&`, which POSIX.1-2017 has not.
    SemicolonAmpersand,
    /// `&`
    Ampersand,
    /// `&&`
    AndIf,
    /// `||`
    OrIf,
    /// `|`
    Pipe,
    /// `(`
    OpenParen,
    /// `)`
    CloseParen,
    /// The operator of a redirection.
    Redirect(RedirectOperator),
    /// A `#` and what follows it on its line; it belongs to the newline, or the end, after it.
    Comment,
    /// Digits before `<` or `>`: the number of a redirection.
    Number,
    /// A reserved word, where a command may begin.
    Reserved(Reserved),
    /// A word that begins with a NAME and `=`, before the command's name.
    Assignment,
    /// Any other word.
    Word,
}

impl Token {
    /// The position after the word that this token begins, if it begins one.
    #[inline(always)]
    pub fn after_word(self) -> Option<Position>
        ensures { result ≡ after_word self }
    {
        match self {
            Token::Assignment => Some(Position::Prefix),
            Token::Word => Some(Position::Suffix),
            _ => None,
        }
    }

    /// Whether a word begins with this token, an assignment among them.
    #[inline(always)]
    pub fn begins_word(self) -> bool
        ensures { result ≡ begins_word self }
    {
        self.after_word().is_some()
    }

    /// The operator of a redirection that this token is, if it is one.
    #[inline(always)]
    pub fn redirect_operator(self) -> Option<RedirectOperator>
        ensures { result ≡ redirect_operator_of self }
    {
        match self {
            Token::Redirect(operator) => Some(operator),
            _ => None,
        }
    }

    /// Whether a redirection begins with this token: its number or its operator.
    #[inline(always)]
    pub fn begins_redirect(self) -> bool
        ensures { result ≡ begins_redirect self }
    {
        matches!(self, Token::Number | Token::Redirect(_))
    }

    /// Whether a simple command begins with this token.
    #[inline(always)]
    pub fn begins_simple(self) -> bool
        ensures { result ≡ begins_simple self }
    {
        self.begins_word() || self.begins_redirect()
    }

    /// Whether the first pattern of an item of a `case` begins with this token.
    pub fn begins_pattern(self) -> bool
        ensures { result ≡ begins_pattern self }
    {
        match self {
            Token::Reserved(Reserved::Esac) => false,
            Token::Reserved(_) => true,
            _ => self.begins_word(),
        }
    }

    /// Whether a pipeline begins with this token.
    #[inline(always)]
    pub fn begins_pipeline(self) -> bool
        ensures { result ≡ begins_pipeline self }
    {
        self.begins_simple()
            || matches!(self, Token::Reserved(Reserved::Bang))
            || self.opener().is_some()
    }

    /// The compound command that this token opens, if it opens one.
    #[inline(always)]
    pub fn opener(self) -> Option<Opener>
        ensures value { result ≡ opener_of self }
        ensures some { IfSome result (λ opener. is_end self ≡ false) }
    {
        match self {
            Token::Reserved(Reserved::OpenBrace) => Some(Opener::Brace),
            Token::OpenParen => Some(Opener::Paren),
            Token::Reserved(Reserved::If) => Some(Opener::If),
            Token::Reserved(Reserved::While) => Some(Opener::While),
            Token::Reserved(Reserved::Until) => Some(Opener::Until),
            Token::Reserved(Reserved::For) => Some(Opener::For),
            Token::Reserved(Reserved::Case) => Some(Opener::Case),
            _ => None,
        }
    }

    /// Whether this token parts or closes a compound command so.
    pub fn is_closing(self, closing: Closing) -> bool
        ensures value { result ≡ is_closing closing self }
        ensures some { result ≡ true → is_end self ≡ false }
    {
        match (closing, self) {
            (Closing::Brace, Token::Reserved(Reserved::CloseBrace)) => true,
            (Closing::Paren, Token::CloseParen) => true,
            (Closing::Then, Token::Reserved(Reserved::Then)) => true,
            (Closing::Elif, Token::Reserved(Reserved::Elif)) => true,
            (Closing::Else, Token::Reserved(Reserved::Else)) => true,
            (Closing::Fi, Token::Reserved(Reserved::Fi)) => true,
            (Closing::Do, Token::Reserved(Reserved::Do)) => true,
            (Closing::Done, Token::Reserved(Reserved::Done)) => true,
            (Closing::In, Token::Reserved(Reserved::In)) => true,
            (Closing::Esac, Token::Reserved(Reserved::Esac)) => true,
            _ => false,
        }
    }

    /// Whether an item of a `case` that ends here falls through.
    #[inline(always)]
    pub fn falls_through(self) -> bool
        ensures { result ≡ falls_through self }
    {
        matches!(self, Token::SemicolonAmpersand)
    }

    /// Whether this token ends an item of a `case`.
    #[inline(always)]
    pub fn ends_item(self) -> bool
        ensures { result ≡ ends_item self }
    {
        matches!(self, Token::DoubleSemicolon | Token::SemicolonAmpersand)
    }

    /// The operator of an and-or list that this token is, if it is one.
    #[inline(always)]
    pub fn and_or_operator(self) -> Option<AndOrOperator>
        ensures value { result ≡ and_or_operator_of self }
        ensures some { IfSome result (λ operator. is_end self ≡ false) }
    {
        match self {
            Token::AndIf => Some(AndOrOperator::And),
            Token::OrIf => Some(AndOrOperator::Or),
            _ => None,
        }
    }

    /// The separator that this token is, if it is one.
    #[inline(always)]
    pub fn separator(self) -> Option<Separator>
        ensures value { result ≡ separator_of self }
        ensures some { IfSome result (λ separator. is_end self ≡ false) }
    {
        match self {
            Token::Semicolon => Some(Separator::Semicolon),
            Token::Ampersand => Some(Separator::Ampersand),
            _ => None,
        }
    }
}

/// The reserved words (XCU 2.4).
#[derive(Clone, Copy)]
pub enum Reserved {
    /// `!`
    Bang,
    /// `{`
    OpenBrace,
    /// `}`
    CloseBrace,
    Case,
    Do,
    Done,
    Elif,
    Else,
    Esac,
    Fi,
    For,
    If,
    In,
    Then,
    Until,
    While,
}

/// What opens a compound command (XCU 2.9.4).
#[derive(Clone, Copy)]
pub enum Opener {
    /// `{`
    Brace,
    /// `(`
    Paren,
    If,
    While,
    Until,
    For,
    Case,
}

impl Opener {
    /// The position after it.
    #[inline(always)]
    pub fn position_after(self) -> Position
        ensures { result ≡ position_after self }
    {
        match self {
            Opener::For | Opener::Case => Position::Suffix,
            _ => Position::Command,
        }
    }
}

/// What parts or closes the lists of a compound command (XCU 2.9.4).
#[derive(Clone, Copy)]
pub enum Closing {
    /// `}`
    Brace,
    /// `)`
    Paren,
    Then,
    Elif,
    Else,
    Fi,
    Do,
    Done,
    In,
    Esac,
}

/// Where in a simple command a token stands, which decides what a word may be there (XCU 2.4, 2.10.2).
#[derive(Clone, Copy, PartialEq, Eq)]
pub enum Position {
    /// Where a command may begin: a word may be reserved, or an assignment.
    Command,
    /// After an assignment, or a redirection, before the command's name: a word may be one more assignment.
    Prefix,
    /// After the command's name: a word is an argument. So is one after the operator of a redirection,
    /// after `for`, after its `in`, after `case` and after a pattern: none is reserved.
    Suffix,
}

/// The token that begins here, told once and handed on.
#[derive(Clone, Copy)]
pub struct Next {
    pub token: Token,
    /// A continuation stands before it.
    pub broken: bool,
}

/// What parts two and-or lists of a line (XCU 2.9.3).
#[derive(Clone, Copy)]
pub enum Separator {
    Semicolon,
    Ampersand,
}

impl Position {
    /// The position after a redirection that stands here.
    pub fn after_redirect(self) -> Position
        ensures { result ≡ after_redirect self }
    {
        match self {
            Position::Suffix => Position::Suffix,
            Position::Command | Position::Prefix => Position::Prefix,
        }
    }
}
