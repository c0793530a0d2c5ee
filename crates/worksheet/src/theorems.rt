// What is known of every worksheet, as the contracts of functions that do nothing.
ghost use Rattle.worksheet.specs.Law.{Law, CallsKeep, OneStep};

// The law of splitting, over every list of calls.
pub fn law_of_splitting()
    ensures { Law }
{}

// Each call keeps what every worksheet keeps.
pub fn calls_keep()
    ensures { CallsKeep }
{}

// A step has one outcome, and one only.
pub fn one_step()
    ensures { OneStep }
{}
