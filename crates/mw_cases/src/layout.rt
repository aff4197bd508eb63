//! Where the fields of a microword stand.

use mw_board::Field;

/// The Am2901's operands.
pub(crate) const SOURCE: Field = Field { low: 0, width: 3 };
/// Its function.
pub(crate) const FUNCTION: Field = Field { low: 3, width: 3 };
/// Its destination.
pub(crate) const DESTINATION: Field = Field { low: 6, width: 3 };
/// Register A.
pub(crate) const A: Field = Field { low: 9, width: 4 };
/// Register B.
pub(crate) const B: Field = Field { low: 13, width: 4 };
/// The carry in.
pub(crate) const CARRY_IN: Field = Field { low: 17, width: 1 };
/// The Am2910's instruction.
pub(crate) const SEQUENCER: Field = Field { low: 18, width: 4 };
/// The branch address.
pub(crate) const BRANCH: Field = Field { low: 22, width: 12 };
/// The test is disabled.
pub(crate) const TEST_DISABLE: Field = Field { low: 34, width: 1 };
/// D is the memory's word.
pub(crate) const D: Field = Field { low: 35, width: 1 };
/// `mar` is loaded.
pub(crate) const MAR_LOAD: Field = Field { low: 36, width: 1 };
/// `ir` is loaded.
pub(crate) const IR_LOAD: Field = Field { low: 37, width: 1 };
