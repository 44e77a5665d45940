// Letters and quotes.
ghost use Rattle.std.specs.Prelude.{◌≡◌, true};
ghost use Rattle.paper.specs.Bytes.{is_letter};
ghost use Rattle.paper.specs.Grammar.{Quote};

// Whether a byte is surely a letter.
pub fn is_letter(b: u8) -> bool
    ensures { result ≡ true → is_letter b ≡ true }
{
    matches!(b, b'A'..=b'Z' | b'a'..=b'z')
}

// Whether a byte is a quote.
pub fn is_quote(b: u8) -> bool
    ensures { result ≡ true → Quote b }
{
    b == b'"' || b == b'\''
}
