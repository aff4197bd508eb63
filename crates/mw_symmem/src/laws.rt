// Laws of symbolic memory.
ghost use Rattle.mw_symmem.specs.Memory.{ImagesAreReached, ImagesAreThere, IsMemoryAtFirst, StaysWithWords};
ghost use Rattle.mw_symmem.specs.Memory.{StaysWithWrites};
ghost use Rattle.mw_symmem.specs.Words.{AreOfAtFirst};
ghost use Rattle.mw_symmem.specs.Workspace.{ImagesFitBefore, ReadsStay};

/// The law of no words: they are those of a table without terms.
pub fn are_of_at_first()
    ensures { AreOfAtFirst }
{}

/// The law of images: for every assignment and every image there is a second assignment under which the base reads fit
/// that image, and which differs from the first in the variables of base reads alone.
pub fn images_are_reached()
    ensures { ImagesAreReached }
{}

/// The law of the image there: for every assignment there is an image that the base reads fit.
pub fn images_are_there()
    ensures { ImagesAreThere }
{}

/// The law of new memories: one that wasn't read or written is a memory over each table and each list without
/// variables of base reads.
pub fn is_memory_at_first()
    ensures { IsMemoryAtFirst }
{}

/// The law of words: a memory is one over a table that has grown, and with more words that are no base
/// reads' variables.
pub fn stays_with_words()
    ensures { StaysWithWords }
{}

/// The law of writes: a memory with one write more is one still.
pub fn stays_with_writes()
    ensures { StaysWithWrites }
{}

/// The law of later images: an image that the base reads fit later is one that those before fitted.
pub fn images_fit_before()
    ensures { ImagesFitBefore }
{}

/// The law of earlier reads: what was read before is what a side's memory holds still, while nothing is written.
pub fn reads_stay()
    ensures { ReadsStay }
{}
