//! The laws on a small network: it is lawful, and a trace can fail to be consistent.

ghost use Rattle.std.specs.Prelude.{◌≡◌, Bool, true, false, []};
ghost use Rattle.network.specs.Lawful.{IsLawful};
ghost use Rattle.network.specs.Undivided.{undivided_after};
ghost use Rattle.network.specs.Examples.{gateway, at};
ghost use Rattle.network_laws.specs.Settled.{is_settled};
ghost use Rattle.network_laws.specs.Consistent.{IsConsistent, Where};

/// The laws hold of a gateway and a reactor behind it.
pub fn the_gateway_is_lawful()
    ensures { IsLawful gateway }
{}

/// The reactor behind the gateway is settled at (1 ns, 0) once its turn there is done, and not before.
pub fn the_gateway_settles()
    ensures before { is_settled gateway (undivided_after gateway 2) 1 (at 1 0) ≡ false }
    ensures after { is_settled gateway (undivided_after gateway 3) 1 (at 1 0) ≡ true }
    ensures at_the_end { is_settled gateway (undivided_after gateway 5) 1 (at 10000000 0) ≡ true }
{}

/// Where all is settled, a trace in which nothing happened isn't consistent.
pub fn doing_nothing_is_not_consistent()
    ensures { IsConsistent gateway (λ reactor. []) (Where (λ reactor tag. true)) → ⊥ }
{}
