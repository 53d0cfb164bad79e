//! Laws of tokens and texts.
ghost use Rattle.std.specs.Prelude.{◌≡◌, ◌⊎◌, ℕ, List, [], ◌++◌, ◌∷◌, take};
ghost use Rattle.reo_grammar.specs.Tokens.{Lexeme, AreReal};
ghost use Rattle.reo_lexer.specs.declared.token.Token.{Token as TokenSpec};
ghost use Rattle.reo_lexer.specs.declared.token.LexFault.{LexFault as FaultSpec};
ghost use Rattle.reo_grammar.specs.Grammar.{Says, Refused};
ghost use Rattle.reo_lexer.specs.Lexing.{IsTokens, lexemes_of};
ghost use Rattle.reo_lexer.specs.Faults.{IsFault};
ghost use Rattle.reo_lexer.specs.Onward.{GoesOn, IsBegun};

use reo_grammar::Language;

/// Every text has tokens or a fault.
pub fn each_text_is_read()
    ensures { (text : List ℕ) → ((ts : List TokenSpec) × IsTokens text ts)
        ⊎ ((f : FaultSpec) × IsFault text f) }
{}

/// A text has one list of tokens or one fault, and never both.
pub fn one_reading()
    ensures tokens { (text : List ℕ) (ts us : List TokenSpec) → IsTokens text ts → IsTokens text us
        → ts ≡ us }
    ensures fault { (text : List ℕ) (f g : FaultSpec) → IsFault text f → IsFault text g → f ≡ g }
    ensures apart { (text : List ℕ) (ts : List TokenSpec) (f : FaultSpec) → IsTokens text ts
        → IsFault text f → ⊥ }
{}

/// The text before a token has the tokens before it.
pub fn tokens_of_front()
    ensures { (text : List ℕ) (ts us : List TokenSpec) (t : TokenSpec)
        → IsTokens text (ts ++ t ∷ us) → IsTokens (take t.start text) ts }
{}

/// A text that has tokens goes on to one that has any real tokens behind them, lines aside: so real
/// tokens are those that texts have.
pub fn real_tokens_follow()
    ensures { (text : List ℕ) (ts : List TokenSpec) (more : List Lexeme) → IsTokens text ts
        → AreReal more → GoesOn text ts more }
{}

/// Refusals of texts by a language. The text before a refused token goes on to a text of the
/// language, and so does a text that is refused at its end. No text of the language has the same
/// tokens up to and including a refused one.
pub fn refusals_of_texts<L: Language>()
    ensures before { (text : List ℕ) (ts us : List TokenSpec) (t : TokenSpec)
        → IsTokens text (ts ++ t ∷ us)
        → Refused L.rules L.form (lexemes_of text (ts ++ t ∷ us)) (lexemes_of text (t ∷ us))
        → IsBegun L.rules L.form (take t.start text) }
    ensures at_end { (text : List ℕ) (ts : List TokenSpec) → IsTokens text ts
        → Refused L.rules L.form (lexemes_of text ts) [] → IsBegun L.rules L.form text }
    ensures behind { (text other : List ℕ) (ts us vs : List TokenSpec) (t : TokenSpec) (x : L.Tree)
        → IsTokens text (ts ++ t ∷ us)
        → Refused L.rules L.form (lexemes_of text (ts ++ t ∷ us)) (lexemes_of text (t ∷ us))
        → lexemes_of other (ts ++ t ∷ []) ≡ lexemes_of text (ts ++ t ∷ [])
        → IsTokens other (ts ++ t ∷ vs)
        → Says L.rules L.form (lexemes_of other (ts ++ t ∷ vs)) x → ⊥ }
{}
