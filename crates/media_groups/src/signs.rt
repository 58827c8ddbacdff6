//! Signs, and a byte order mark.

ghost use Rattle.std.specs.Prelude.{◌≡◌, nat_eq};
ghost use Rattle.std.specs.List.{starts_with};
ghost use Rattle.css_model.specs.Text.Lexemes as spec;
ghost use Rattle.css_model.specs.Text.Tokens.{byte_order_mark};

use css_model::TokenKind;

/// U+FEFF in UTF-8.
const BYTE_ORDER_MARK: &[u8] = b"\xEF\xBB\xBF";

/// Whether a text begins with a byte order mark.
pub(crate) fn begins_with_mark(text: &[u8]) -> bool
    ensures { result ≡ starts_with nat_eq text.now byte_order_mark }
{
    text.starts_with(BYTE_ORDER_MARK)
}

/// Whether this is this sign.
pub(crate) fn is_sign_of(sign: u8, kind: TokenKind) -> bool
    ensures { result ≡ spec.is_sign_of sign kind }
{
    match kind {
        TokenKind::Sign(c) => c == sign,
        _ => false,
    }
}
