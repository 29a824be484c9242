//! Where a run of any length first breaks a rule, event by event.

ghost use Rattle.std.specs.Prelude.{◌≡◌, ◌+◌, ◌-◌, ◌<◌, ◌^◌, ℕ, List, [], ◌∷◌, ◌++◌, IfOk, OnOk};
ghost use Rattle.dc_cert.specs.Bounds.{certificate_rows};
ghost use Rattle.dc_event.specs.Admissible.{IsRun, IsNumbered};
ghost use Rattle.dc_event.specs.declared.event.Event.{Event};

use crate::budgets::BudgetWatch;
use crate::claim_watch::ClaimWatch;
use crate::sources::SourceWatch;
use dc_cert::Certificate;
use dc_event::{Claim, Event};
use dc_tables::Tables;
use std::alloc::{AllocError, Global};

/// Whether a run of any length keeps the budgets, event by event.
#[derive(Drop)]
pub struct BudgetCourse {
    watch: BudgetWatch,
    events: usize,
    broken: Option<usize>,
}

impl BudgetCourse {
    ghost use Rattle.dc_event.specs.Breaks.{BreaksBudgetsAt};
    ghost use Rattle.dc_oracle.specs.Courses.{IsBudgetCourse, TellsBudgets};

    /// Before any event.
    ///
    /// # Errors
    /// Out of memory.
    pub fn new(alloc: Global, tables: &Tables) -> Result<BudgetCourse, AllocError>
        ensures sized { IfOk result (λ c. IsBudgetCourse tables.now c) }
        ensures tells { IfOk result (λ c. TellsBudgets tables.now c []) }
    {
        let watch = BudgetWatch::new(alloc, tables)?;
        Ok(BudgetCourse {
            watch,
            events: 0,
            broken: None,
        })
    }

    /// The next event.
    pub fn step(&mut self, tables: &Tables, event: Event)
        requires sized { IsBudgetCourse tables.now self.old }
        requires few { self.old.events < 2 ^ 64 - 1 }
        ensures sized { IsBudgetCourse tables.now self.new }
        ensures count { self.new.events ≡ self.old.events + 1 }
        ensures tells { (run : List Event) → TellsBudgets tables.now self.old run → TellsBudgets tables.now self.new (run ++ event ∷ []) }
    {
        self.events += 1;
        if self.broken.is_some() {
            return;
        }
        if !self.watch.see(tables, event) {
            self.broken = Some(self.events);
        }
    }

    /// The place, from 1, of the first event at which the run breaks the budgets.
    pub fn broken(&self) -> Option<usize>
        ensures { result ≡ self.now.broken }
    {
        self.broken
    }
}

/// Whether the sources of a run of any length keep what is asked of them, event by event.
#[derive(Drop)]
pub struct SourceCourse {
    watch: SourceWatch,
    events: usize,
    broken: Option<usize>,
}

impl SourceCourse {
    ghost use Rattle.dc_event.specs.Breaks.{BreaksSourcesAt};
    ghost use Rattle.dc_oracle.specs.Courses.{IsSourceCourse, TellsSources};

    /// Before any event.
    ///
    /// # Errors
    /// Out of memory.
    pub fn new(alloc: Global, tables: &Tables) -> Result<SourceCourse, AllocError>
        ensures sized { IfOk result (λ c. IsSourceCourse tables.now c) }
        ensures tells { IfOk result (λ c. TellsSources tables.now c []) }
    {
        let watch = SourceWatch::new(alloc, tables)?;
        Ok(SourceCourse {
            watch,
            events: 0,
            broken: None,
        })
    }

    /// The next event.
    pub fn step(&mut self, tables: &Tables, event: Event)
        requires sized { IsSourceCourse tables.now self.old }
        requires few { self.old.events < 2 ^ 64 - 1 }
        ensures sized { IsSourceCourse tables.now self.new }
        ensures count { self.new.events ≡ self.old.events + 1 }
        ensures tells { (run : List Event) → TellsSources tables.now self.old run → TellsSources tables.now self.new (run ++ event ∷ []) }
    {
        self.events += 1;
        if self.broken.is_some() {
            return;
        }
        if !self.watch.see(tables, event) {
            self.broken = Some(self.events);
        }
    }

    /// The place, from 1, of the first event at which a source breaks what is asked of it.
    pub fn broken(&self) -> Option<usize>
        ensures { result ≡ self.now.broken }
    {
        self.broken
    }
}

/// Whether the claims hold along a run of any length, event by event.
#[derive(Drop)]
pub struct ClaimCourse {
    watch: ClaimWatch,
    events: usize,
    broken: Option<(Claim, usize)>,
}

impl ClaimCourse {
    ghost use Rattle.dc_event.specs.Breaks.{BreaksClaimsAt};
    ghost use Rattle.dc_oracle.specs.Courses.{IsClaimCourse, TellsClaims};

    /// Before any event.
    ///
    /// # Errors
    /// Out of memory.
    pub fn new(alloc: Global, tables: &Tables) -> Result<ClaimCourse, AllocError>
        ensures sized { IfOk result (λ c. IsClaimCourse tables.now c) }
        ensures tells { (ages : List ℕ) → IfOk result (λ c. TellsClaims tables.now ages c []) }
    {
        let watch = ClaimWatch::new(alloc, tables)?;
        Ok(ClaimCourse {
            watch,
            events: 0,
            broken: None,
        })
    }

    /// The next event, whose number is in the tables.
    pub fn step(&mut self, tables: &Tables, certificate: &Certificate, event: Event)
        requires sized { IsClaimCourse tables.now self.old }
        requires few { self.old.events < 2 ^ 64 - 1 }
        ensures sized { IsClaimCourse tables.now self.new }
        ensures count { self.new.events ≡ self.old.events + 1 }
        ensures tells { (run : List Event) → TellsClaims tables.now (certificate_rows certificate.now).ages self.old run → IsNumbered tables.now event
            → TellsClaims tables.now (certificate_rows certificate.now).ages self.new (run ++ event ∷ []) }
    {
        self.events += 1;
        if self.broken.is_some() {
            return;
        }
        if let Some(claim) = self.watch.see(tables, certificate, &event) {
            self.broken = Some((claim, self.events));
        }
    }

    /// The least claim that fails at the first event at which any fails, and the place of that event, from 1.
    pub fn broken(&self) -> Option<(Claim, usize)>
        ensures { result ≡ self.now.broken }
    {
        self.broken
    }
}

/// Where a run of any length first breaks the budgets, what is asked of the sources, and the claims, event by event.
#[derive(Drop)]
pub struct AuditCourse {
    budgets: BudgetCourse,
    sources: SourceCourse,
    claims: ClaimCourse,
    events: usize,
}

impl AuditCourse {
    ghost use Rattle.dc_oracle.specs.Courses.{IsAuditCourse, TellsAudit};

    /// Before any event.
    ///
    /// # Errors
    /// Out of memory.
    pub fn new(alloc: Global, tables: &Tables) -> Result<AuditCourse, AllocError>
        ensures sized { IfOk result (λ c. IsAuditCourse tables.now c) }
        ensures none { IfOk result (λ c. c.events ≡ 0) }
        ensures tells { (ages : List ℕ) → IfOk result (λ c. TellsAudit tables.now ages c []) }
    {
        Ok(AuditCourse {
            budgets: BudgetCourse::new(alloc, tables)?,
            sources: SourceCourse::new(alloc, tables)?,
            claims: ClaimCourse::new(alloc, tables)?,
            events: 0,
        })
    }

    /// The next event, whose number is in the tables.
    pub fn step(&mut self, tables: &Tables, certificate: &Certificate, event: &Event)
        requires sized { IsAuditCourse tables.now self.old }
        requires few { self.old.events < 2 ^ 64 - 1 }
        ensures sized { IsAuditCourse tables.now self.new }
        ensures count { self.new.events ≡ self.old.events + 1 }
        ensures tells { (run : List Event) → TellsAudit tables.now (certificate_rows certificate.now).ages self.old run → IsNumbered tables.now event.now
            → TellsAudit tables.now (certificate_rows certificate.now).ages self.new (run ++ event.now ∷ []) }
    {
        self.budgets.step(tables, *event);
        self.sources.step(tables, *event);
        self.claims.step(tables, certificate, *event);
        self.events += 1;
    }

    /// How many events there were.
    pub fn events(&self) -> usize
        ensures { result ≡ self.now.events }
    {
        self.events
    }

    /// The place of the first event at which the run breaks the budgets.
    pub fn budgets(&self) -> Option<usize>
        ensures { result ≡ self.now.budgets.broken }
    {
        self.budgets.broken()
    }

    /// The place of the first event at which a source breaks what is asked of it.
    pub fn sources(&self) -> Option<usize>
        ensures { result ≡ self.now.sources.broken }
    {
        self.sources.broken()
    }

    /// The least claim that fails at the first event at which any fails, and the place of that event.
    pub fn claims(&self) -> Option<(Claim, usize)>
        ensures { result ≡ self.now.claims.broken }
    {
        self.claims.broken()
    }
}
