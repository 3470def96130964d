//! Laws of the list of loaded modules. Each is a function that does nothing: its contract is the law, about the
//! definitions alone.
ghost use Rattle.envstate.specs.loaded_list.LoadedLaws.{TextsAreReadAgain, ReadIsWritable, AddMakes, DropMakes, WritingLeaves};
ghost use Rattle.envstate.specs.loaded_list.LoadedLaws.{AddOrders, DropOrders, DropPreservesOrder};

/// The four texts that a list is written as are read as that list, and a list that is read from four texts can be
/// written.
pub fn loaded_texts()
    ensures read_again { TextsAreReadAgain }
    ensures writable { ReadIsWritable }
{}

/// After an accepted edit the list has the new entry at its end, or no longer has the module's, and every variable but
/// the four is unchanged.
pub fn loaded_edits()
    ensures add { AddMakes }
    ensures drop { DropMakes }
    ensures leaves { WritingLeaves }
{}

/// After an accepted edit that writes the list it is in order, and a list in order stays in order where the module to
/// be dropped isn't loaded.
pub fn loaded_orders()
    ensures add { AddOrders }
    ensures drop { DropOrders }
    ensures preserves { DropPreservesOrder }
{}
