//! Laws over definitions.
ghost use Rattle.run_view.specs.ViewLaws.{ConditionsChoose, ItemsAreOne, OthersShowNoRecord, RunsAreViewed};

/// States that a view stops only if memory could not be allocated, if its words are accepted and
/// nothing fails. The three files are an input, an output of its link and a report of the same
/// items.
pub fn runs_are_viewed()
    ensures { RunsAreViewed }
{}

/// States that no event is shown in a table of eras, nor where only notes are asked for.
pub fn others_show_no_record()
    ensures { OthersShowNoRecord }
{}

/// States that a report and an input are of one list of lines and of records.
pub fn items_are_one()
    ensures { ItemsAreOne }
{}

/// States that records are chosen where a condition is given, if the words are accepted.
pub fn conditions_choose()
    ensures { ConditionsChoose }
{}
