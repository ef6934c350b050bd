//! Laws over the definitions: each is the contract of a function that does nothing.
ghost use Rattle.unfolded_files.specs.Ids.{FilesHaveIds, InstancesHaveIds};
ghost use Rattle.unfolded_files.specs.Laws.{FilesMeanTheSame};

/// The file's net, read as a coloured net, unfolds to the unfolded net that it was made of, and reaches exactly the same counts.
pub fn files_mean_the_same()
    ensures { FilesMeanTheSame }
{}

/// The ids of the instances of an unfolded net are ids, and differ, where those of the net's places and transitions do.
pub fn instances_have_ids()
    ensures { InstancesHaveIds }
{}

/// All nodes and arcs of a file's net have ids that differ, where its places and transitions have ids of instances that do.
pub fn files_have_ids()
    ensures { FilesHaveIds }
{}
