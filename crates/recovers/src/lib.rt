//! What is recovered of the chunk of a source.
#![tactic(auto)]

ghost use Rattle.recovers.specs.Found.{FlatSourcesAreFlow, FlowSourcesAreRecovered};
ghost use Rattle.recovers.specs.PlainSources.{IsPlainChunk, PlainSourcesAreFlow};
ghost use Rattle.recovers.specs.Rows.{small_chunk};

/// Law: what is recovered of the chunk of a source is a well-formed tree that is alike to the source, whichever body the search takes of those that stand, for each function at any depth; and in the forms of fewest levels nothing is lost. In
/// comparisons with `>` and `>=` locals of the function keep their places, and there is room, with one level more for a `return` in a function whose statements have blocks, and for each further arm of an `if` there whose condition never fails.
pub fn flow_sources_are_recovered()
    ensures { FlowSourcesAreRecovered }
{
    scheme_stands::names_stand();
    scheme_lines::lines_do_not_matter();
    same_flow::steps_tell_of_locals();
    same_flow::like_steps_make_the_same();
    recover_flow::acts_are_found();
    recover_flow::flow_comes_apart();
    recover_flow::flow_is_found();
    recover_flow::what_stands_lies();
    built_flow::what_is_laid_lies();
    built_flow::what_lies_is_built();
    built_flow::what_is_built_stands();
}

/// Law: plain sources are such, with their comparisons of locals turned.
pub fn plain_sources_are_flow()
    ensures { PlainSourcesAreFlow }
{
    scheme_order::turned_sources_are_alike();
}

/// Law: flat sources are such.
pub fn flat_sources_are_flow()
    ensures { FlatSourcesAreFlow }
{}

/// The chunk of a small source with a function that has a loop and an `if` in it is one of those, by computing.
pub fn small_source_has_blocks()
    ensures { IsPlainChunk small_chunk }
{}
