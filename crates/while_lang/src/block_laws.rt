//! Laws of blocks. Each function does nothing: its contract is the law.
ghost use Rattle.while_lang.specs.BlockScans.{TakesBlocks};
ghost use Rattle.while_lang.specs.BlockLaws.{BlocksAreFolded, SoundAreMeasured, MeasuresAreOfTrees};

/// The syntax check accepts exactly the blocks of the grammar that nest at most `MAX_OPEN` constructs and have no
/// number of 2^64 or more.
pub fn blocks_are_scanned()
    ensures { TakesBlocks }
{}

/// Measuring and building a block give the folds of their actions over the block, in text order.
pub fn blocks_are_folded()
    ensures { BlocksAreFolded }
{}

/// Measuring a block succeeds if and only if the block is sound, nests at most `MAX_OPEN` constructs and has no number
/// of 2^64 or more.
pub fn sound_blocks_are_measured()
    ensures { SoundAreMeasured }
{}

/// A measured block has a tree. The measures are the size of the tree and the nesting of the block, each capped at its
/// limit plus one.
pub fn block_measures_are_of_trees()
    ensures { MeasuresAreOfTrees }
{}
