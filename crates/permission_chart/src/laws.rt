//! Worked rows and laws. Each function has an empty body: its clauses are what is proved.

ghost use Rattle.permission_chart.specs.Chart.{LinesAreAligned};
ghost use Rattle.permission_chart.specs.Classes.{HasEachClass};
ghost use Rattle.permission_chart.specs.Names.{NamesReadBack, OneClassAtMost};
ghost use Rattle.permission_chart.specs.Rows.{ChartRows, NameRows};

/// Whole charts of classes, and names of classes.
pub fn worked_rows()
    ensures charts { ChartRows }
    ensures names { NameRows }
{}

/// Law: the chart of a profile leaves none of its classes out, and the default profile's has none that only the hosts' has.
#[tactic(auto, using(crate::proofs::EachClass::has_each_class))]
pub fn each_class_has_a_line()
    ensures { HasEachClass }
{}

/// Law: what stands in a line stands in the same places as in the others.
#[tactic(auto, using(crate::proofs::Aligned::lines_are_aligned))]
pub fn lines_are_aligned()
    ensures { LinesAreAligned }
{}

/// Law: `class_named` has one answer for each profile and name, and it is `Some(class)` for `class_text(class)` where the profile has the class.
#[tactic(auto, using(crate::proofs::ClassNames::one_class, crate::proofs::ClassNames::names_read_back))]
pub fn class_name_reads_back()
    ensures one_at_most { OneClassAtMost }
    ensures its_own { NamesReadBack }
{}
