//! The tokens of a style sheet, counted.

ghost use Rattle.std.specs.Prelude.{◌≡◌, ◌≤◌, ◌+◌, ◌<◌, ◌^◌, length, true, None, IfOk, IfErr, Err, Some};
ghost use Rattle.css_model.specs.Sheets.Limits.{max_bytes};
ghost use Rattle.css_model.specs.Text.Tokens.{tokens};
ghost use Rattle.bench_counts.specs.TokenCounts.{IsCount, IsRefused};

use css_model::TokenFault;
use css_tokens::{NotUtf8, Tokens};

/// Why tokens were not counted.
#[derive(Clone, Copy, Debug, PartialEq, Eq)]
pub enum Refused {
    /// The sheet is not UTF-8.
    NotUtf8(NotUtf8),
    /// A token can not be read.
    Token(TokenFault),
}

/// How many tokens a style sheet of at most 1,048,576 bytes has, with the white space among them (CSS Syntax 3,
/// section 4.3). A byte order mark at its front is none.
///
/// `NotUtf8` exactly where the sheet is not UTF-8; else `Token` where one of them cannot be read.
pub fn token_count(source: &[u8]) -> Result<usize, Refused>
    requires { length source.now ≤ max_bytes }
    ensures counts { IfOk result (IsCount source.now) }
    ensures refuses { IfErr result (IsRefused source.now) }
{
    let mut tokens = match Tokens::new(source, true) {
        Ok(tokens) => tokens,
        Err(fault) => return Err(Refused::NotUtf8(fault)),
    };
    let mut count = 0;
    'tokens: loop {
        match tokens.next() {
            Ok(Some(_)) => count += 1,
            Ok(None) => return Ok(count),
            Err(fault) => return Err(Refused::Token(fault)),
        }
    }
}
