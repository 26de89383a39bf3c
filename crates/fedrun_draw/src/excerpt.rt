use fedrun_frames::MadeStep;

/// Which steps of a schedule are drawn, counted from 1 as the picture counts them: from this one on, or from the first,
/// and to that one, or to the last.
#[derive(Clone, Copy, Debug, PartialEq, Eq)]
pub struct Excerpt {
    pub from: Option<u32>,
    pub to: Option<u32>,
}

impl Excerpt {
    ghost use Rattle.std.specs.Prelude.{◌≡◌, length, min};
    ghost use Rattle.fedrun_draw.specs.Excerpts.{up_to, gone_before, steps_in};

    /// All steps.
    pub const ALL: Excerpt = Excerpt {
        from: None,
        to: None,
    };

    /// The steps to the last that is drawn.
    #[tactic(auto, using(crate::proofs::Fronts::first_ones))]
    pub(crate) fn front(self, made: &[MadeStep]) -> &[MadeStep]
        ensures { result.now ≡ up_to self.to made.now }
    {
        match self.to {
            Some(last) => &made[..(last as usize).min(made.len())],
            None => made,
        }
    }

    // How many of these stand before the first that is drawn.
    fn gone(self, front: &[MadeStep]) -> usize
        ensures { result ≡ min (gone_before self.from) (length front.now) }
    {
        match self.from {
            Some(first) => (first as usize).saturating_sub(1).min(front.len()),
            None => 0,
        }
    }

    /// The steps that are drawn.
    #[tactic(auto, using(crate::proofs::Fronts::later_ones))]
    pub(crate) fn drawn(self, made: &[MadeStep]) -> &[MadeStep]
        ensures { result.now ≡ steps_in self made.now }
    {
        let front = self.front(made);
        &front[self.gone(front)..]
    }
}
