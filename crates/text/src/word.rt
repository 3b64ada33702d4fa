// The token of a word: a `match` for each part of the table of words, of which the compiler makes a decision by length and bytes.
ghost use Rattle.std.specs.Prelude.{◌≡◌};
ghost use Rattle.text.specs.Word.{keywords, variables, actions, axes, token_in, word_token, some_token};

use tokens::token::{
    AND, DO, EVERY, FA, FALSE, FCTDEF, FIFO1, FIFO4, FROM, ID, IDS, IM, IN, INA, LOCK, M, MARKER,
    MOV, NOT, OR, OUT, PARAM, POS, R, SETAL, SYNFCT, TIMER, TRUE, UNLOCK, W, WHEN, WHENEVER, X,
    XOR,
};

// A keyword.
fn keyword(word: &[u8]) -> Option<u32>
    ensures { result ≡ some_token (token_in keywords word.now) }
{
    match word {
        b"ID" => Some(ID),
        b"IDS" => Some(IDS),
        b"WHEN" => Some(WHEN),
        b"WHENEVER" => Some(WHENEVER),
        b"FROM" => Some(FROM),
        b"EVERY" => Some(EVERY),
        b"DO" => Some(DO),
        b"TRUE" => Some(TRUE),
        b"FALSE" => Some(FALSE),
        b"NOT" => Some(NOT),
        b"AND" => Some(AND),
        b"OR" => Some(OR),
        b"XOR" => Some(XOR),
        b"FCTDEF" => Some(FCTDEF),
        _ => None,
    }
}

// A variable.
fn variable(word: &[u8]) -> Option<u32>
    ensures { result ≡ some_token (token_in variables word.now) }
{
    match word {
        b"$A_IN" => Some(IN),
        b"$A_INA" => Some(INA),
        b"$A_OUT" => Some(OUT),
        b"$AC_MARKER" => Some(MARKER),
        b"$AC_PARAM" => Some(PARAM),
        b"$R" => Some(R),
        b"$AC_TIMER" => Some(TIMER),
        b"$AC_FIFO1" => Some(FIFO1),
        b"$AC_FIFO2" => Some(FIFO1 + 1),
        b"$AC_FIFO3" => Some(FIFO1 + 2),
        b"$AC_FIFO4" => Some(FIFO4),
        b"$AA_IM" => Some(IM),
        _ => None,
    }
}

// The word of an action.
fn action(word: &[u8]) -> Option<u32>
    ensures { result ≡ some_token (token_in actions word.now) }
{
    match word {
        b"POS" => Some(POS),
        b"FA" => Some(FA),
        b"MOV" => Some(MOV),
        b"M" => Some(M),
        b"SETAL" => Some(SETAL),
        b"LOCK" => Some(LOCK),
        b"UNLOCK" => Some(UNLOCK),
        b"SYNFCT" => Some(SYNFCT),
        _ => None,
    }
}

// The letter of an axis.
fn axis(word: &[u8]) -> Option<u32>
    ensures { result ≡ some_token (token_in axes word.now) }
{
    match word {
        b"X" => Some(X),
        b"Y" => Some(X + 1),
        b"Z" => Some(X + 2),
        b"U" => Some(X + 3),
        b"V" => Some(X + 4),
        b"W" => Some(W),
        _ => None,
    }
}

// The token of a word, if it makes one.
pub fn word_token(word: &[u8]) -> Option<u32>
    ensures { result ≡ some_token (word_token word.now) }
{
    keyword(word)
        .or_else(|| variable(word))
        .or_else(|| action(word))
        .or_else(|| axis(word))
}
