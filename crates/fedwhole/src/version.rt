/// Which commit it was built from. The scripts that build the program write both lines anew in the copy that it is built
/// from.
pub const COMMIT: &str = "fedrun, of no known commit";

/// Whether it is proved, and by which kit.
pub const PROOF: &str = "";
