//! A law over the definitions of a change: what the removal of a tree does to the map from paths.

ghost use Rattle.vol_commands.specs.Laws.{TreeRemovedMap};

/// A law: removing a tree takes away the paths of its top and of all below it, and nothing else
/// changes.
pub fn removed_tree_takes_all_below()
    ensures { TreeRemovedMap }
{}
