//! Worlds of federations, and what tests see in them.
use std::alloc::Global;
use tests_samples::{Federation, loaded};
use world::World;

/// What a test does in a world, which it is lent.
pub(crate) trait Scene<S> {
    /// Does it, and says what was seen; None where there is no memory for it.
    fn play(&self, world: &mut World<'_>) -> Option<S>;
}

/// What is seen in the world of a federation, before any other step.
pub(crate) fn seen_in<S, C: Scene<S>>(
    alloc: Global,
    federation: &Federation,
    scene: &C,
) -> Option<S> {
    match World::new(
        alloc,
        federation.plan(),
        federation.programs(),
        federation.inputs(),
    ) {
        Ok(mut world) => {
            let seen = scene.play(&mut world);
            // For the prover: of what is let go here each part is proved here, and of a world its steps are the least.
            drop(world.into_steps());
            seen
        }
        Err(_) => None,
    }
}

/// The same of a federation's file.
pub(crate) fn seen<S, C: Scene<S>>(alloc: Global, federation: &str, scene: &C) -> Option<S> {
    match loaded(alloc, federation, "") {
        Some(federation) => seen_in(alloc, &federation, scene),
        None => None,
    }
}
