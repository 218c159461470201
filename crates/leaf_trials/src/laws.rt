// Statements that have no code of their own, but stand on functions that can be called.
use command_list::fault::full_is_ten;
use encoder::laws::refusals_are_first as openings_are_refused_at_the_first;
use labels::laws::utf8_is_unicodes;
use layouts::laws::{equal_layouts_are_one, every_layout_is_whole};
use passes::laws::refusals_are_first as calls_are_refused_at_the_first;
use runs::laws::{bad_encoders_are_excluded, every_run_keeps, every_run_shows, worked_plots};

#[test]
fn laws_of_layouts_texts_calls_and_runs() {
    full_is_ten();
    every_layout_is_whole();
    equal_layouts_are_one();
    utf8_is_unicodes();
    calls_are_refused_at_the_first();
    openings_are_refused_at_the_first();
    every_run_keeps();
    every_run_shows();
    bad_encoders_are_excluded();
    worked_plots();
}
