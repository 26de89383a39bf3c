use world_stations::MadeSteps;

/// What an audit made of reports that it proved.
#[derive(Drop)]
pub struct AuditedRun {
    /// The steps of the world in which it did.
    pub steps: MadeSteps,
    /// Whether the coordinator's journal gives a finished one: then no row is missing.
    pub is_finished: bool,
}
