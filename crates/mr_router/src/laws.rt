//! Laws of routers, each the contract of a function that does nothing.

ghost use Rattle.ss_safe.specs.Laws.{KindLaws};
ghost use Rattle.mr_router.specs.Kind.{router_kind, router_allowed};
ghost use Rattle.mr_router.specs.Acting.{RouterActs, RouterClocks};
ghost use Rattle.mr_router.specs.Alike.{HandledAlike};
ghost use Rattle.mr_router.specs.Balance.{RouterBalances};
ghost use Rattle.mr_router.specs.Keeping.{RouterIsReady, RouterKeeps};

/// At each port and channel, credits fall by the packets that a router sends and rise by the credits that come; an input queue rises
/// by the packets that come and falls by the credits that the router sends back.
pub fn a_router_keeps_the_balance()
    ensures { RouterBalances }
{}

/// A router that was made and fits a time is still one that was made, and fits that time, after it handled what may come then.
pub fn a_router_keeps_fitting()
    ensures { RouterKeeps }
{}

/// It may handle what may come then.
pub fn a_router_that_fits_is_ready()
    ensures { RouterIsReady }
{}

/// It sends only what may go, out of ports that lead somewhere, within 2^40 picoseconds, and turns no clock but its own.
pub fn a_router_acts_within_bounds()
    ensures { RouterActs }
{}

/// Its clock is turned on only where it was off, and off only at its own tick, and is then as the actions leave it.
pub fn a_router_keeps_its_clock()
    ensures { RouterClocks }
{}

/// Handling changes no settings: of ports, of turns, of statistics.
pub fn a_router_keeps_its_settings()
    ensures { HandledAlike }
{}

/// A router keeps the laws of a kind of element: what it needs, what it keeps, what it sends, its balance and its clock.
pub fn a_router_keeps_the_laws_of_a_kind()
    ensures { KindLaws router_kind router_allowed }
{}
