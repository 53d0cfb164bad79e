//! Reserved words and signs.
ghost use Rattle.std.specs.Prelude.{◌≡◌};
ghost use Rattle.reo_grammar.specs.Bytes.{one_of};
ghost use Rattle.reo_grammar.specs.Spelling.{frame_words, channel_words, item_words, term_words, script_words, reserved, signs};

fn is_frame_word(bytes: &[u8]) -> bool
    ensures { result ≡ one_of bytes.now frame_words }
{
    bytes == b"type".as_slice()
        || bytes == b"connector".as_slice()
        || bytes == b"in".as_slice()
        || bytes == b"out".as_slice()
        || bytes == b"node".as_slice()
        || bytes == b"use".as_slice()
        || bytes == b"with".as_slice()
        || bytes == b"when".as_slice()
        || bytes == b"to".as_slice()
}

fn is_channel_word(bytes: &[u8]) -> bool
    ensures { result ≡ one_of bytes.now channel_words }
{
    bytes == b"sync".as_slice()
        || bytes == b"lossy".as_slice()
        || bytes == b"syncdrain".as_slice()
        || bytes == b"asyncdrain".as_slice()
        || bytes == b"fifo1".as_slice()
        || bytes == b"fifo".as_slice()
        || bytes == b"filter".as_slice()
        || bytes == b"map".as_slice()
}

fn is_item_word(bytes: &[u8]) -> bool
    ensures { result ≡ one_of bytes.now item_words }
{
    bytes == b"unit".as_slice()
        || bytes == b"bool".as_slice()
        || bytes == b"int".as_slice()
        || bytes == b"sym".as_slice()
        || bytes == b"text".as_slice()
        || bytes == b"pair".as_slice()
        || bytes == b"true".as_slice()
        || bytes == b"false".as_slice()
}

fn is_term_word(bytes: &[u8]) -> bool
    ensures { result ≡ one_of bytes.now term_words }
{
    bytes == b"it".as_slice()
        || bytes == b"first".as_slice()
        || bytes == b"second".as_slice()
        || bytes == b"length".as_slice()
        || bytes == b"if".as_slice()
}

fn is_script_word(bytes: &[u8]) -> bool
    ensures { result ≡ one_of bytes.now script_words }
{
    bytes == b"component".as_slice()
        || bytes == b"write".as_slice()
        || bytes == b"take".as_slice()
        || bytes == b"within".as_slice()
        || bytes == b"pause".as_slice()
        || bytes == b"repeat".as_slice()
}

/// Whether these bytes are a reserved word.
#[tactic(auto, using(crate::proofs::Groups::reserved_groups))]
pub fn is_reserved(bytes: &[u8]) -> bool
    ensures { result ≡ one_of bytes.now reserved }
{
    is_frame_word(bytes)
        || is_channel_word(bytes)
        || is_item_word(bytes)
        || is_term_word(bytes)
        || is_script_word(bytes)
}

/// Whether these bytes are a sign.
pub fn is_sign(bytes: &[u8]) -> bool
    ensures { result ≡ one_of bytes.now signs }
{
    matches!(
        bytes,
        b"(" | b")"
            | b"{"
            | b"}"
            | b","
            | b";"
            | b":"
            | b"."
            | b".."
            | b"="
            | b"=="
            | b"!="
            | b"<"
            | b"<="
            | b">"
            | b">="
            | b"+"
            | b"-"
            | b"*"
            | b"/"
            | b"%"
            | b"&&"
            | b"||"
            | b"!"
    )
}
