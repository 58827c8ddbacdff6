//! The tokens of a sheet that are no white space, with how many brackets are open before each (CSS Syntax 3, sections 4
//! and 5.4.8).

ghost use Rattle.std.specs.Prelude.{◌≡◌, ◌≤◌, ◌∷◌, [], List, length, reverse, MatchOption, OnOk};
ghost use Rattle.css_model.specs.declared.token.Token.{Token};
ghost use Rattle.css_model.specs.Sheets.Limits.{max_bytes};
ghost use Rattle.css_model.specs.Sheets.Sheet as sheet;
ghost use Rattle.css_model.specs.Text.Lexemes as spec;
ghost use Rattle.css_model.specs.Text.Tokens.{tokens};
ghost use Rattle.css_tokens.specs.Left.{left};
ghost use Rattle.sheet_read.specs.Reading.{Answers, GivesNext, Opens};
ghost use Rattle.sheet_read.specs.Steps as steps;

use crate::fault::SheetError;
use crate::signs::is_sign_of;
use css_model::{
    Bracket, FaultKind, Lexeme, MAX_DEPTH, Piece, SheetFault, Token, TokenFault, TokenKind,
};
use css_tokens::Tokens;
use std::alloc::{AllocError, Global};
use verbatim_text::{gap_before, is_white};

/// A token's fault as the sheet's.
fn sheet_fault(fault: TokenFault) -> SheetFault
    ensures { result ≡ sheet.token_fault fault }
{
    match fault {
        TokenFault::BadString { at } => SheetFault {
            kind: FaultKind::BadString,
            at,
        },
        TokenFault::BadUrl { at } => SheetFault {
            kind: FaultKind::BadUrl,
            at,
        },
        TokenFault::EndInside { at } => SheetFault {
            kind: FaultKind::EndInside,
            at,
        },
    }
}

/// A reader of the tokens of a sheet.
fn reader_of(source: &[u8]) -> Result<Tokens<'_>, SheetFault>
    requires { length source.now ≤ max_bytes }
    ensures { Opens source.now result }
{
    match Tokens::new(source, true) {
        Ok(reader) => Ok(reader),
        Err(error) => Err(SheetFault {
            kind: FaultKind::NotUtf8,
            at: error.at,
        }),
    }
}

/// The next token of a sheet, or none at its end.
fn next_of(reader: &mut Tokens<'_>) -> Result<Option<Token>, SheetFault>
    ensures { GivesNext (left reader.old) result (left reader.new) }
{
    match reader.next() {
        Ok(token) => Ok(token),
        Err(fault) => Err(sheet_fault(fault)),
    }
}

/// What is wrong with the tokens that are left, or this fault where nothing is.
fn fault_behind(reader: &mut Tokens<'_>, fault: SheetFault) -> SheetFault
    ensures { result ≡ steps.fault_before (left reader.old).fault fault }
{
    'tokens: loop {
        match reader.next() {
            Ok(Some(_)) => {}
            Ok(None) => return fault,
            Err(flaw) => return sheet_fault(flaw),
        }
    }
}

/// What closes the bracket that this sign opens, if it opens one.
fn closer_of_sign(sign: u8) -> Option<u8>
    ensures { result ≡ spec.closer_of_sign sign }
{
    if sign == b'(' {
        Some(b')')
    } else if sign == b'[' {
        Some(b']')
    } else if sign == b'{' {
        Some(b'}')
    } else {
        None
    }
}

/// What closes the bracket that this token opens, if it opens one.
fn closer_of(kind: TokenKind) -> Option<u8>
    ensures { result ≡ spec.closer_of kind }
{
    match kind {
        TokenKind::Function => Some(b')'),
        TokenKind::Sign(sign) => closer_of_sign(sign),
        _ => None,
    }
}

/// Whether this token closes the last of the brackets, the innermost one.
fn closes(kind: TokenKind, brackets: &[Bracket]) -> bool
    ensures { result ≡ spec.closes kind (reverse brackets.now) }
{
    match brackets {
        [] => false,
        [.., innermost] => is_sign_of(innermost.closer, kind),
    }
}

/// Passes a token by itself, inside these brackets: the last is the innermost.
fn pass(brackets: &mut Vec<Bracket>, token: Token) -> Result<(), AllocError>
    ensures { OnOk result (reverse brackets.new.items ≡ spec.after token (reverse brackets.old.items)) }
{
    if closes(token.kind, brackets.as_slice()) {
        let _closed = brackets.pop();
    } else if let Some(closer) = closer_of(token.kind) {
        let at = token.span.start;
        brackets.push(Bracket { closer, at })?;
    }
    Ok(())
}

/// Where the outermost of the brackets opens.
fn outermost(brackets: &[Bracket]) -> Option<u32>
    ensures { result ≡ steps.outermost (reverse brackets.now) }
{
    match brackets {
        [] => None,
        [first, ..] => Some(first.at),
    }
}

/// The white space that comes next, or the empty piece at this place.
fn white_of(at: u32, next: Option<Token>) -> Piece
    ensures { MatchOption next (result ≡ spec.white_of at []) (λ token. (others : List Token) → result ≡ spec.white_of at (token ∷ others)) }
{
    match next {
        Some(token) if is_white(token.kind) => token.span,
        _ => Piece { start: at, end: at },
    }
}

/// A token before the next one, inside so many brackets.
fn lexeme(level: u32, token: Token, next: Option<Token>) -> Lexeme
    ensures { MatchOption next (result ≡ spec.lexeme level token []) (λ behind. (others : List Token) → result ≡ spec.lexeme level token (behind ∷ others)) }
{
    Lexeme {
        kind: token.kind,
        span: token.span,
        gap: gap_before(next),
        white: white_of(token.span.end, next),
        level,
    }
}

/// Whether this opens a bracket that is one too many.
fn is_too_deep(x: &Lexeme) -> bool
    ensures { result ≡ steps.is_too_deep x.now }
{
    closer_of(x.kind).is_some() && x.level == MAX_DEPTH
}

/// The tokens that are left and no white space, where no bracket is one too many or is left open.
fn sorted(alloc: Global, reader: &mut Tokens<'_>) -> Result<Vec<Lexeme>, SheetError>
    ensures { Answers (λ lexemes. lexemes.items) result (steps.sorted (left reader.old)) }
{
    let mut lexemes = Vec::new(alloc);
    let mut brackets = Vec::new(alloc);
    let mut ahead = next_of(reader)?;
    'tokens: while let Some(token) = ahead {
        ahead = next_of(reader)?;
        if !is_white(token.kind) {
            let x = lexeme(brackets.len() as u32, token, ahead);
            if is_too_deep(&x) {
                let fault = SheetFault {
                    kind: FaultKind::TooDeep,
                    at: x.span.start,
                };
                return Err(SheetError::Fault(fault_behind(reader, fault)));
            }
            lexemes.push(x)?;
            pass(&mut brackets, token)?;
        }
    }
    match outermost(brackets.as_slice()) {
        Some(at) => Err(SheetError::Fault(SheetFault {
            kind: FaultKind::EndInside,
            at,
        })),
        None => Ok(lexemes),
    }
}

/// The tokens of a source that are no white space, where nothing is wrong with any token, and no bracket is one too
/// many or is left open. `source` has at most `MAX_BYTES` bytes.
///
/// `Fault` exactly where one of these is wrong, as `read_sheet` says it. `NoMemory` where memory is short.
pub fn lexemes_of(alloc: Global, source: &[u8]) -> Result<Vec<Lexeme>, SheetError>
    requires { length source.now ≤ max_bytes }
    ensures { Answers (λ lexemes. lexemes.items) result (steps.lexed (steps.tokens_of source.now)) }
{
    let mut reader = reader_of(source)?;
    sorted(alloc, &mut reader)
}
