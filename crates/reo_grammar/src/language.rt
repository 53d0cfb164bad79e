//! Languages: a grammar that is read with one token of sight, and the laws that hold for each of
//! them.
ghost use Rattle.std.specs.Prelude.{◌≡◌, ◌⊎◌, ℕ, ◌<◌, ◌++◌, ◌∷◌, [], List, length, true};
ghost use Rattle.reo_grammar.specs.Tokens.{Lexeme, AreReal, Alike};
ghost use Rattle.reo_grammar.specs.Grammar.{Grammar, Says, Refused, read, reads};
ghost use Rattle.reo_grammar.specs.Grammar.Outcome.{got, bad, out};
ghost use Rattle.reo_grammar.specs.Language.{Sighted};
ghost use Rattle.reo_grammar.specs.Sight.{is_sighted};
ghost use Rattle.reo_grammar.specs.Conditions.{is_productive};

/// A grammar that is read with one token of sight.
pub trait Language {
    /// The names of the rules that lead back to themselves.
    ghost Rule: { Type 0 };

    /// What each rule's derivations stand for.
    ghost tree_of: { Rule → Type 0 };

    /// What whole texts stand for.
    ghost Tree: { Type 0 };

    ghost rules: { (r : Rule) → Grammar Rule tree_of (tree_of r) };

    /// The form of whole texts.
    ghost form: { Grammar Rule tree_of Tree };

    /// One token of sight decides each rule.
    ghost table: { Sighted Rule tree_of rules };

    /// Each class that the form names has a token.
    ghost productive: { is_productive form ≡ true };

    /// One token of sight decides the form.
    ghost sighted: { is_sighted (table.first) (table.more) form ≡ true };
}

/// Tokens say one tree.
pub fn one_tree<L: Language>()
    ensures { (ts : List Lexeme) (x y : L.Tree) → Says L.rules L.form ts x
        → Says L.rules L.form ts y → x ≡ y }
{}

/// Reading, with room above the number of tokens: what is read to the end is said, what is said is
/// read to the end, and the room is enough.
pub fn reading_is_exact<L: Language>()
    ensures sound { (ts : List Lexeme) (room : ℕ) (x : L.Tree) → length ts < room
        → read (reads L.rules room) L.form ts ≡ got x [] → Says L.rules L.form ts x }
    ensures complete { (ts : List Lexeme) (room : ℕ) (x : L.Tree) → length ts < room
        → Says L.rules L.form ts x → read (reads L.rules room) L.form ts ≡ got x [] }
    ensures enough { (ts : List Lexeme) (room : ℕ) → length ts < room
        → read (reads L.rules room) L.form ts ≡ out → ⊥ }
{}

/// Where reading stops, the tokens are refused: the tokens before the first one left begin
/// something, and those up to and including it begin nothing; where none is left, they begin
/// something and say nothing.
pub fn refusal_is_exact<L: Language>()
    ensures stopped { (ts u : List Lexeme) (room : ℕ) → length ts < room
        → read (reads L.rules room) L.form ts ≡ bad u → Refused L.rules L.form ts u }
    ensures rest { (ts u : List Lexeme) (room : ℕ) (x : L.Tree) (t : Lexeme) → length ts < room
        → read (reads L.rules room) L.form ts ≡ got x (t ∷ u) → Refused L.rules L.form ts (t ∷ u) }
{}

/// Tokens that texts have say something or are refused at one place, and never both.
pub fn one_answer<L: Language>()
    ensures decided { (ts : List Lexeme) → ((x : L.Tree) × Says L.rules L.form ts x)
        ⊎ ((u : List Lexeme) × Refused L.rules L.form ts u) }
    ensures apart { (ts u : List Lexeme) (x : L.Tree) → AreReal ts → Says L.rules L.form ts x
        → Refused L.rules L.form ts u → ⊥ }
    ensures one_place { (ts u v : List Lexeme) → AreReal ts → Refused L.rules L.form ts u
        → Refused L.rules L.form ts v → u ≡ v }
{}

/// A refusal at a token stands whatever follows: that of a front is that of the whole.
pub fn refusal_of_front<L: Language>()
    ensures { (ts u more : List Lexeme) (t : Lexeme) → Refused L.rules L.form ts (t ∷ u)
        → Refused L.rules L.form (ts ++ more) (t ∷ (u ++ more)) }
{}

/// Lines aside, the same tokens say something too.
pub fn same_with_other_lines<L: Language>()
    ensures { (ts us : List Lexeme) (x : L.Tree) → Alike ts us → Says L.rules L.form ts x
        → (y : L.Tree) × Says L.rules L.form us y }
{}
