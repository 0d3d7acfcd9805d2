// A program's listing.
ghost use Rattle.std.specs.Prelude.{◌≡◌, ◌≤◌, ◌<◌, length, OnOk, OnErr, ◌++◌, ◌∷◌, []};
ghost use Rattle.std.specs.Str.{bytes_eq};
ghost use Rattle.k_script.specs.Skips.{AreSkips};

use crate::name::Name;
use crate::operation::Operation;
use crate::skips::close;
use std::alloc::{AllocError, Global};
use std::marker::Model;

/// A program: its name and its operations, at most 4,096.
#[derive(Drop)]
pub struct Listing {
    name: Name,
    operations: Vec<Operation>,
    /// For each operation the place behind the empty repeats that begin with it, once the program is closed; before, its own.
    skips: Vec<u16>,
}

impl Model for Listing {
    ghost use Rattle.std.specs.Prelude.{◌≡◌, ◌≤◌, vec_len};
    ghost use Rattle.k_script.specs.Script.{Program};
    ghost use Rattle.k_script.specs.Skips.{AreSkips};

    ghost Value = { Program };

    ghost view = { λ p. record { name = p.name; operations = p.operations.items } };

    ghost invariant = { λ p. (vec_len p.operations ≤ 4096) × (vec_len p.skips ≡ vec_len p.operations) × AreSkips p.operations.items p.skips.items };
}

impl Listing {
    pub fn new(alloc: Global, name: Name) -> Listing
        ensures { result ≡ record { name = name; operations = [] } }
    {
        Listing {
            name,
            operations: Vec::new(alloc),
            skips: Vec::new(alloc),
        }
    }

    pub fn name(&self) -> &[u8]
        ensures { result.now ≡ self.now.name }
    {
        self.name.as_bytes()
    }

    pub fn is_named(&self, name: &Name) -> bool
        ensures { result ≡ bytes_eq self.now.name name.now }
    {
        self.name.is(name)
    }

    pub fn operations(&self) -> &[Operation]
        ensures items { result.now ≡ self.now.operations }
        ensures short { length result.now ≤ 4096 }
    {
        &self.operations
    }

    /// One more operation. Where there is no memory the program stays as it was. Condition: fewer than 4,096 operations.
    pub fn push(&mut self, operation: Operation) -> Result<(), AllocError>
        requires { length self.old.operations < 4096 }
        ensures ok { OnOk result (self.new ≡ record self.old { operations = self.old.operations ++ operation ∷ [] }) }
        ensures err { OnErr result (self.new ≡ self.old) }
    {
        let place = self.operations.len() as u16;
        self.skips.push(place)?;
        if let Err(full) = self.operations.push(operation) {
            self.skips.pop();
            return Err(full.into());
        }
        Ok(())
    }

    /// The places behind the empty repeats that begin with each operation, where the program is closed.
    pub(crate) fn skips(&self) -> &[u16]
        ensures { AreSkips self.now.operations result.now }
    {
        &self.skips
    }

    /// Closes the program: from now on its empty repeats are passed over. It stays the same program.
    pub(crate) fn close(&mut self)
        ensures { self.new ≡ self.old }
    {
        close(&self.operations, &mut self.skips);
    }
}
