//! What is told of a network that is accepted: its lines, or a page.
ghost use Rattle.std.specs.Prelude.{◌≡◌, ℕ, List, IfOk, length};
ghost use Rattle.dc_run_network.specs.Answer.{IsAnyPage, IsLines, Saying};
ghost use Rattle.dc_system_text.specs.System.{SystemRows};
ghost use Rattle.dc_ways.specs.Members.{MemberRows};

use crate::ways::tell_ways;
use dc_answer::Page;
use dc_network_page::{Shown, network_page};
use dc_system_text::System;
use dc_ways::{Connection, Member, Ways};
use std::alloc::{AllocError, Global};

/// What tells of a network that is accepted.
pub(crate) trait Telling {
    // What it tells.
    ghost says: { SystemRows → List MemberRows → List (List ℕ) → List ℕ → Type 0 };

    /// Makes the page what is told of it.
    ///
    /// # Errors
    /// `AllocError` where memory was refused.
    fn tell(
        &self,
        alloc: Global,
        system: &System,
        members: &[Member],
        connections: &[Connection],
        ways: &[Ways],
        page: &mut Page,
    ) -> Result<(), AllocError>
        requires { length members.now ≡ length system.now.concentrators }
        ensures { IfOk result (λ _. says system.now members.now ways.now page.new) };
}

/// The lines of `network`.
#[derive(Clone, Copy)]
pub(crate) struct Lines;

impl Telling for Lines {
    ghost says = { IsLines };

    fn tell(
        &self,
        alloc: Global,
        system: &System,
        members: &[Member],
        connections: &[Connection],
        ways: &[Ways],
        page: &mut Page,
    ) -> Result<(), AllocError> {
        let _ = alloc;
        let _ = connections;
        tell_ways(
            page,
            system.concentrators(),
            system.links().len(),
            members,
            ways,
        )
    }
}

/// The page of `report --network`.
#[derive(Clone, Copy)]
pub(crate) struct Paper;

impl Telling for Paper {
    ghost says = { IsAnyPage };

    fn tell(
        &self,
        alloc: Global,
        system: &System,
        members: &[Member],
        connections: &[Connection],
        ways: &[Ways],
        page: &mut Page,
    ) -> Result<(), AllocError> {
        let shown = Shown {
            concentrators: system.concentrators(),
            links: system.links(),
            members,
            connections,
            ways,
        };
        let text = network_page(alloc, &shown)?;
        page.keep(text.as_str().as_bytes())
    }
}
