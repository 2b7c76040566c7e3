//! What a byte may be part of.
ghost use Rattle.std.specs.Prelude.{◌≡◌};
ghost use Rattle.ds_lex.specs.Bytes as spec;

/// What a byte may be part of.
#[derive(Clone, Copy, Debug, PartialEq, Eq)]
pub enum ByteClass {
    /// A space, a tab, a carriage return or a line feed.
    Blank,
    /// `;`, which begins a comment.
    Semicolon,
    /// `%`, which begins the name of a local.
    Percent,
    /// `@`, which begins the name of a global.
    At,
    /// `#`, which begins the name of a group of attributes.
    Hash,
    /// `!`, which begins the name of metadata.
    Bang,
    /// `"`, which begins and ends a text.
    Quote,
    /// `-`, a sign or a part of a name.
    Minus,
    /// `0` to `9`.
    Digit,
    /// `A` to `Z`, `a` to `z`, `$`, `.` and `_`.
    Letter,
    /// One of `(`, `)`, `{`, `}`, `[`, `]`, `,`, `=`, `*`, `<` and `>`.
    Mark,
    /// Any other byte, which begins no token.
    Other,
}

/// The class of a byte.
#[tactic(auto, unfolding(crate::specs::Bytes::class_of))]
pub fn class_of(byte: u8) -> ByteClass
    ensures { result ≡ spec.class_of byte }
{
    match byte {
        b' ' | b'\t' | b'\r' | b'\n' => ByteClass::Blank,
        b';' => ByteClass::Semicolon,
        b'%' => ByteClass::Percent,
        b'@' => ByteClass::At,
        b'#' => ByteClass::Hash,
        b'!' => ByteClass::Bang,
        b'"' => ByteClass::Quote,
        b'-' => ByteClass::Minus,
        b'0'..=b'9' => ByteClass::Digit,
        b'A'..=b'Z' | b'a'..=b'z' | b'$' | b'.' | b'_' => ByteClass::Letter,
        b'(' | b')' | b'{' | b'}' | b'[' | b']' | b',' | b'=' | b'*' | b'<' | b'>' => {
            ByteClass::Mark
        }
        _ => ByteClass::Other,
    }
}

/// A set of bytes of which a token has as many as stand there.
#[derive(Clone, Copy, Debug, PartialEq, Eq)]
pub enum RunOf {
    /// What may stand in a name behind its first byte: letters, `-` and digits.
    NameBytes,
    /// Digits.
    Digits,
    /// What may stand in a text: all bytes but `"`.
    TextBytes,
}

/// Whether the byte belongs to the set.
pub fn belongs(set: RunOf, byte: u8) -> bool
    ensures { result ≡ spec.belongs set byte }
{
    match set {
        RunOf::NameBytes => matches!(
            class_of(byte),
            ByteClass::Letter | ByteClass::Minus | ByteClass::Digit
        ),
        RunOf::Digits => byte.is_ascii_digit(),
        RunOf::TextBytes => byte != b'"',
    }
}

/// Whether a byte begins a name.
pub fn begins_name(byte: u8) -> bool
    ensures { result ≡ spec.begins_name (spec.class_of byte) }
{
    matches!(class_of(byte), ByteClass::Letter | ByteClass::Minus)
}

/// Whether a byte begins a text.
pub fn is_quote(byte: u8) -> bool
    ensures { result ≡ spec.is_quote (spec.class_of byte) }
{
    matches!(class_of(byte), ByteClass::Quote)
}
