//! The laws of layouts and of passes over an image.

use layout_laws::{laws, passes};

#[test]
fn laws_are_calls() {
    laws::layouts_break_no_rule();
    laws::walks_lay_out();
    laws::verdicts();
    laws::gaps_exist();
    laws::sound_or_faulty();
    laws::one_layout();
    laws::visits_are_listed();
    passes::over_nodes();
    passes::over_lists();
    passes::over_extents();
}
