// The names that judging leaves.
use books::Members;

/// The tasks that are named.
pub type NameSet = Members;
