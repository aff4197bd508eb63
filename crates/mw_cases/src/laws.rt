// Laws of the generator.
ghost use Rattle.mw_cases.specs.Laws.{JobsAreOne, OperationsAre640, OperationsAreFew, StepsDoOperations};

/// The law of counts: whatever the number, the 256 instructions have 640 operations together.
pub fn operations_are_640()
    ensures { OperationsAre640 }
{}

/// The law of instructions: each has one operation to four.
pub fn operations_are_few()
    ensures { OperationsAreFew }
{}

/// The law of jobs: one is generated of a number.
pub fn jobs_are_one()
    ensures { JobsAreOne }
{}

/// The law of steps: a step of the described machine adds 1 to PC and does the operations of the
/// instruction in the high byte of the word at PC's low byte, and nothing else.
pub fn steps_do_operations()
    ensures { StepsDoOperations }
{}
