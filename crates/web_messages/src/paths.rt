//! The paths that lead somewhere.
ghost use Rattle.std.specs.Prelude.{◌≡◌, Ok, None, OnOk};
ghost use Rattle.matchit.specs.Order.{placed};
ghost use Rattle.matchit.specs.Route.{parse_route};
ghost use Rattle.matchit.specs.Router.{nearest};
ghost use Rattle.web_messages.specs.Paths.{resource_at, literal_scan, literal_route};

use crate::resource::Resource;
use hl_base::Memory;
use matchit::{InsertError, Router};
use report_options::Command;
use std::alloc::Global;
use std::marker::Model;

/// The paths that lead somewhere, each with what it names.
#[derive(Drop)]
pub struct Paths {
    router: Router<Resource>,
}

impl Model for Paths {
    ghost use Rattle.web_messages.specs.Paths.{FindsEach};

    ghost Value = { Unit {0} };

    ghost view = { λ _. tt };

    ghost invariant = { λ p. FindsEach p.router };
}

/// Adds a path that has no parameters and conflicts with none of the others.
fn add(router: &mut Router<Resource>, path: &str, resource: Resource) -> Result<(), Memory>
    requires literal { parse_route path.now ≡ Ok (literal_scan path.now) }
    requires free { nearest path.now router.old ≡ None }
    ensures { OnOk result (router.new
        ≡ placed (path.now, literal_route path.now resource) router.old) }
{
    match router.insert(path, resource) {
        Ok(()) => Ok(()),
        Err(InsertError::OutOfMemory) => Err(Memory),
        Err(_) => unreachable!(),
    }
}

impl Paths {
    /// All the paths that lead somewhere.
    pub fn new(alloc: Global) -> Result<Paths, Memory> {
        let mut router = Router::new(alloc);
        add(&mut router, "/balance", Resource::Report(Command::Balance))?;
        add(&mut router, "/journal", Resource::Report(Command::Print))?;
        add(
            &mut router,
            "/register",
            Resource::Report(Command::Register),
        )?;
        add(
            &mut router,
            "/incomestatement",
            Resource::Report(Command::IncomeStatement),
        )?;
        add(
            &mut router,
            "/balancesheet",
            Resource::Report(Command::BalanceSheet),
        )?;
        add(
            &mut router,
            "/accounts",
            Resource::Report(Command::Accounts),
        )?;
        add(&mut router, "/download", Resource::Download)?;
        add(&mut router, "/add", Resource::Add)?;
        add(&mut router, "/edit", Resource::Edit)?;
        add(&mut router, "/upload", Resource::Upload)?;
        add(&mut router, "/import", Resource::Import)?;
        add(&mut router, "/", Resource::Page)?;
        add(&mut router, "/check", Resource::Check)?;
        add(&mut router, "/preview", Resource::Preview)?;
        Ok(Paths { router })
    }

    /// What a path names, if it leads somewhere.
    pub fn find(&self, path: &[u8]) -> Option<Resource>
        ensures { result ≡ resource_at path.now }
    {
        let Ok(text) = str::from_utf8(path) else {
            return None;
        };
        match self.router.at(text) {
            Ok(found) => Some(*found.value),
            Err(_) => None,
        }
    }
}
