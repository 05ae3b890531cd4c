//! Laws of the definitions.
ghost use Rattle.csv_rows.specs.Csv.{CsvOrBroken};

/// A text is CSV or has a first field that breaks its rules, and not both, whatever the delimiter but a quote.
pub fn csv_or_broken()
    ensures { CsvOrBroken }
{}
