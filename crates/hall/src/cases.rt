ghost use Rattle.hall.specs.WorkedCases.{WorkedCases};

// The definitions say of the small hall, and of three small files, what docs/MODEL.md and docs/RULEBOOK_FILE.md work out.
pub fn the_worked_cases_hold()
    ensures every_worked_case_holds { WorkedCases }
{}
