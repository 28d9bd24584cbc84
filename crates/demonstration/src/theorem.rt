ghost use Rattle.demonstration.specs.Cases.{WorkedCases};

// What a book is defined to answer in the worked cases.
pub fn cases_stand()
    ensures { WorkedCases }
{}
