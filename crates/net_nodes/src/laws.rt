ghost use Rattle.net_nodes.specs.Instances.{WorkedInstances};

/// Small nets whose answers were worked out by hand have them.
pub fn small_instances_hold()
    ensures { WorkedInstances }
{}
