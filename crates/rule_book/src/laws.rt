//! Laws of the table of rules, and of the text of a report.
ghost use Rattle.std.specs.Prelude.{◌++◌};
ghost use Rattle.rule_book.specs.ReportReading.{EntriesDiffer, LastsDiffer, TextsAreInOrder, TextsDiffer};
ghost use Rattle.rule_book.specs.Rules.{FoundByName, FoundByNumber, ListsAreTheTable, NamesDiffer, NumbersDiffer, Rises, RisesButForQuota, cut_rows, drop_rows, fix_rows, step_rows};

/// States that each rule is found by its number, and that no two rules have the same number.
pub fn numbers_name_rules()
    ensures found { FoundByNumber }
    ensures differ { NumbersDiffer }
{}

/// States that each rule is found by its name, and that no two rules have the same name.
pub fn names_name_rules()
    ensures found { FoundByName }
    ensures differ { NamesDiffer }
{}

/// States that the lists of rules are the table's, by layer and kind.
pub fn lists_are_the_table()
    ensures { ListsAreTheTable }
{}

/// States that rules are named in the order of their numbers, and that drop rules are tested in
/// this order except for `TQuota`.
pub fn numbers_rise()
    ensures drops { RisesButForQuota drop_rows }
    ensures named { Rises (fix_rows ++ step_rows ++ cut_rows) }
{}

/// States that no text is that of two reports, no line that of two entries, and no last line that
/// of two ends of a run.
pub fn texts_name_reports()
    ensures reports { TextsDiffer }
    ensures entries { EntriesDiffer }
    ensures lasts { LastsDiffer }
{}

/// States that the text of a report has its lines in their order.
pub fn texts_are_in_order()
    ensures { TextsAreInOrder }
{}
