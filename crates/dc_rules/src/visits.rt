//! The routers that visit each bus.
ghost use Rattle.std.specs.Prelude.{◌≡◌, ℕ, List, position, map, not, IfOk, OnOk};
ghost use Rattle.std.specs.List.{list_any};
ghost use Rattle.std.specs.Str.{bytes_eq};
ghost use Rattle.indexmap.specs.IndexMap.{get};
ghost use Rattle.dc_rules.specs.Visits.{visitors_of, with_visit, with_router, is_served, first_of, visiting_routers};

use dc_document::{BusPart, Name, RouterPart};
use indexmap::IndexMap;
use std::alloc::{AllocError, Global};

/// The first router that visits a bus, and whether another does too.
#[derive(Clone, Copy, Debug, PartialEq)]
pub(crate) struct Visitors {
    first: usize,
    shared: bool,
}

/// The visitors after a visit of this router.
fn after_visit(past: Option<Visitors>, router: usize) -> Visitors
    ensures { result ≡ with_visit past router }
{
    match past {
        None => Visitors {
            first: router,
            shared: false,
        },
        Some(v) => Visitors {
            first: v.first,
            shared: v.shared || v.first != router,
        },
    }
}

/// The visitors of each bus that has some, looked up by its name.
#[derive(Drop)]
pub(crate) struct Visits {
    known: IndexMap<Name, Visitors>,
}

impl Visits {
    /// The visitors of the bus of this name.
    fn of(&self, name: &Name) -> Option<Visitors>
        ensures { result ≡ get bytes_eq self.now.known name.now }
    {
        self.known.get(name).copied()
    }

    /// Adds a visit of this router.
    fn add(&mut self, router: usize, name: &Name) -> Result<(), AllocError>
        ensures { OnOk result ((n : List ℕ) → get bytes_eq self.new.known n ≡ with_router (bytes_eq n name.now) (get bytes_eq self.old.known n) router) }
    {
        let visitors = after_visit(self.of(name), router);
        self.known.insert(*name, visitors)?;
        Ok(())
    }

    /// Adds all visits of this router.
    fn add_all(&mut self, router: usize, names: &[Name]) -> Result<(), AllocError>
        ensures { OnOk result ((n : List ℕ) → get bytes_eq self.new.known n
            ≡ with_router (list_any (bytes_eq n) names.now) (get bytes_eq self.old.known n) router) }
    {
        for name in names {
            self.add(router, name)?;
        }
        Ok(())
    }

    /// The first of these buses that no router visits, or more than one.
    pub(crate) fn first_unserved(&self, buses: &[BusPart]) -> Option<usize>
        ensures { result ≡ position (λ b. not (is_served (get bytes_eq self.now.known b.name))) buses.now }
    {
        buses.iter().position(|b| !self.is_served(&b.name))
    }

    /// Whether one router visits the bus of this name.
    fn is_served(&self, name: &Name) -> bool
        ensures { result ≡ is_served (get bytes_eq self.now.known name.now) }
    {
        match self.of(name) {
            None => false,
            Some(v) => !v.shared,
        }
    }

    /// The first router that visits the bus of this name.
    fn router_of(&self, name: &Name) -> usize
        ensures { result ≡ first_of (get bytes_eq self.now.known name.now) }
    {
        match self.of(name) {
            None => 0,
            Some(v) => v.first,
        }
    }

    /// The first router that visits each of these buses.
    fn routers_of(&self, alloc: Global, buses: &[BusPart]) -> Result<Vec<usize>, AllocError>
        ensures { IfOk result (λ v. v.items ≡ map (λ b. first_of (get bytes_eq self.now.known b.name)) buses.now) }
    {
        buses.iter().map(|b| self.router_of(&b.name)).collect(alloc)
    }
}

/// The visitors of all buses.
pub(crate) fn index_visits(alloc: Global, routers: &[RouterPart]) -> Result<Visits, AllocError>
    ensures { IfOk result (λ v. (n : List ℕ) → get bytes_eq v.known n ≡ visitors_of routers.now n) }
{
    let mut visits = Visits {
        known: IndexMap::new(alloc),
    };
    for (number, router) in routers.iter().enumerate() {
        visits.add_all(number, &router.visits)?;
    }
    Ok(visits)
}

/// The first router that visits each of these buses.
pub fn visiting_routers(
    alloc: Global,
    routers: &[RouterPart],
    buses: &[BusPart],
) -> Result<Vec<usize>, AllocError>
    ensures { IfOk result (λ v. v.items ≡ visiting_routers routers.now buses.now) }
{
    let visits = index_visits(alloc, routers)?;
    let all = visits.routers_of(alloc, buses)?;
    Ok(all)
}
