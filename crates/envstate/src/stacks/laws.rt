//! Laws of stacks: runs of pushes and pops, and texts that are read again. Each is a function that does nothing: its
//! contract is the law, about the definitions alone.
ghost use Rattle.envstate.specs.stacks.StackLaws.{RunGivesStartWithPushes, NoneLiveRestores, PushAddsLivePush};
ghost use Rattle.envstate.specs.stacks.StackLaws.{PopEndsLivePush, TextIsReadAgain, ReadIsWritable, WrittenIsFound};
ghost use Rattle.envstate.specs.stacks.StackLaws.{PushMakes, PushWrites, PushLeaves, PopMakes, PopWrites, PopLeaves};
ghost use Rattle.envstate.specs.stacks.StackLaws.{PushPreservesOrder, PopPreservesOrder, MoreLoadedPreservesOrder};
ghost use Rattle.envstate.specs.stacks.StackLaws.{FewerLoadedPreservesOrder};

/// After any pushes and pops by owners that have no item in the start, the state is the start with the live pushes on
/// top, one for each owner that has pushed and not popped since. Where no push is live, it is the start.
pub fn stacks()
    ensures start_with_live { RunGivesStartWithPushes }
    ensures restored { NoneLiveRestores }
{}

/// The law `stacks`, step by step: on a start with live pushes on top, a push by an owner without an item in the start
/// adds one more live push in place of the owner's older one, and a pop removes the owner's.
pub fn stack_steps()
    ensures push { PushAddsLivePush }
    ensures pop { PopEndsLivePush }
{}

/// The text that a stack is written as is read as that stack, also from an environment, and a stack that is read from a
/// text can be written.
pub fn stack_texts()
    ensures read_again { TextIsReadAgain }
    ensures writable { ReadIsWritable }
    ensures found { WrittenIsFound }
{}

/// After an accepted edit the stack of the variable is the one that the edit makes, its text and the variable's value
/// are those of this stack, and every other variable is unchanged. A pop of a module without a value writes nothing.
pub fn stack_edits()
    ensures push { PushMakes }
    ensures push_writes { PushWrites }
    ensures push_leaves { PushLeaves }
    ensures pop { PopMakes }
    ensures pop_writes { PopWrites }
    ensures pop_leaves { PopLeaves }
{}

/// A stack in order stays in order after an accepted push of a loaded module, and after an accepted pop, also where the
/// module is no longer loaded. It stays in order where one more module is loaded, and where a module of which it has no
/// item is no longer loaded.
pub fn stack_orders()
    ensures push { PushPreservesOrder }
    ensures pop { PopPreservesOrder }
    ensures more { MoreLoadedPreservesOrder }
    ensures fewer { FewerLoadedPreservesOrder }
{}
