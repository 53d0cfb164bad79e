//! The laws of texts of version 2.
use reo_expand::{lifted_is_walked, lifted_stands_for_itself};
use reo_parser::{
    each_text_of_any_is_answered, first_texts_mean_what_they_meant, second_texts_are_refused,
};
use reo_syntax_laws::{canonical_text_two_says_the_program, programs_two_are_spelled};
use reo_trees::{loops_by_last_tokens, loops_by_trees, one_program_of_any};
use reo_upgrade::{
    canonical_texts_of_any, lifted_programs_are_spelled, lifted_text_says_the_lifted,
};

#[test]
fn laws_of_texts(_rt: HostRuntime) {
    loops_by_last_tokens();
    loops_by_trees();
    one_program_of_any();
    each_text_of_any_is_answered();
    first_texts_mean_what_they_meant();
    second_texts_are_refused();
    programs_two_are_spelled();
    canonical_text_two_says_the_program();
    lifted_stands_for_itself();
    lifted_is_walked();
    lifted_programs_are_spelled();
    lifted_text_says_the_lifted();
    canonical_texts_of_any();
}
