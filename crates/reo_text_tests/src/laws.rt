//! The laws of languages, at a small one and at that of circuits.
use crate::checks::is;
use reo_grammar::{
    Language, TokenKind, one_answer, one_tree, reading_is_exact, refusal_is_exact,
    refusal_of_front, same_with_other_lines,
};
use reo_lexer::{one_reading, real_tokens_follow, refusals_of_texts, tokens_of_front};
use reo_syntax::canonical_text_says_the_program;
use reo_trees::{Circuits, one_program};

struct Nested;

impl Language for Nested {
    ghost use Rattle.std.specs.Prelude.{ℕ, refl};
    ghost use Rattle.reo_grammar.specs.Example.{Rule as NestedRule, depth_of, nested_form, example_rules, example_table};

    ghost Rule = { NestedRule };

    ghost tree_of = { depth_of };

    ghost Tree = { ℕ };

    ghost rules = { example_rules };

    ghost form = { nested_form };

    ghost table = { example_table };

    ghost productive = { refl };

    ghost sighted = { refl };
}

/// The laws of any language.
fn laws_of<L: Language>() {
    one_tree::<L>();
    reading_is_exact::<L>();
    refusal_is_exact::<L>();
    one_answer::<L>();
    refusal_of_front::<L>();
    same_with_other_lines::<L>();
    refusals_of_texts::<L>();
}

#[test]
fn laws_of_two_languages(rt: HostRuntime) {
    laws_of::<Nested>();
    laws_of::<Circuits>();
    is(&rt, TokenKind::Name != TokenKind::Word, "kinds");
}

#[test]
fn laws_of_texts(_rt: HostRuntime) {
    one_reading();
    tokens_of_front();
    real_tokens_follow();
    one_program();
    canonical_text_says_the_program();
}
