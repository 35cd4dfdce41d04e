//! The limits on the number of connections, in all and from one address.
ghost use Rattle.std.specs.Prelude.{◌≡◌, ◌-◌, ◌<◌, All, Some};
ghost use Rattle.std.specs.HashMap.{values};

use std::alloc::Global;
use std::collections::HashMap;
use std::hash::{Hash, RandomState};
use std::net::IpAddr;

/// Why a connection is not let in.
#[derive(Clone, Copy, PartialEq, Eq, Debug)]
pub enum Refusal {
    /// The limit on all connections is reached.
    Most,
    /// The limit on connections from its address is reached.
    MostOfAddress,
    /// Memory was refused.
    Memory,
}

impl Refusal {
    /// The cause that is reported when a connection is closed for this refusal.
    pub fn text(self) -> &'static str {
        match self {
            Refusal::Most => "refused: too many connections are open",
            Refusal::MostOfAddress => "refused: too many connections from its address are open",
            Refusal::Memory => "refused: memory ran out",
        }
    }
}

/// How many admitted connections are open, in all and from each address. Those from an address are counted where there
/// is a limit on them; an address with none open is forgotten.
#[derive(Drop)]
pub struct Admission<A: Eq + Hash = IpAddr> {
    all: u32,
    most: u32,
    most_of_address: Option<u32>,
    by_address: HashMap<A, u32, RandomState>,
    ghost some: { All (λ count. 0 < count) (values by_address) },
}

impl<A: Eq + Hash + Copy> Admission<A> {
    ghost use Rattle.lost_connections.specs.Admission.{open_from, one_at, IsEmpty, HasSameAll, most_of_all, most_of_one, Admits, AdmitsFrom, Leaves};

    /// No connections, at most `most` in all and `most_of_address` from one address; `None` for any number. Addresses
    /// are hashed with `keys`, which no client knows.
    pub fn new(
        alloc: Global,
        most: u32,
        most_of_address: Option<u32>,
        keys: RandomState,
    ) -> Admission<A>
        ensures empty { IsEmpty result }
        ensures most { most_of_all result ≡ most }
        ensures most_of_address { most_of_one result ≡ most_of_address }
    {
        Admission {
            all: 0,
            most,
            most_of_address,
            by_address: HashMap::with_hasher(alloc, keys),
        }
    }

    /// Admits a connection from an address, or from none, for which there is no limit but that on all.
    ///
    /// # Errors
    ///
    /// [`Refusal`]. Nothing changes.
    pub fn enter(&mut self, address: Option<A>) -> Result<(), Refusal>
        ensures { Admits self.old address result self.new }
    {
        if self.all >= self.most {
            return Err(Refusal::Most);
        }
        if let (Some(address), Some(most)) = (address, self.most_of_address) {
            self.enter_from(address, most)?;
        }
        self.all += 1;
        Ok(())
    }

    /// Counts that a connection from an address, or from none, has ended. What is not open does not leave.
    pub fn leave(&mut self, address: Option<A>)
        ensures { Leaves self.old self.new address }
    {
        self.all = self.all.saturating_sub(1);
        if let (Some(address), Some(_)) = (address, self.most_of_address) {
            self.leave_from(address);
        }
    }

    /// Counts one more connection from an address, of which at most `most` may be open.
    fn enter_from(&mut self, address: A, most: u32) -> Result<(), Refusal>
        ensures { AdmitsFrom most self.old address result self.new }
    {
        let open = self.open_from(&address);
        if open >= most {
            return Err(Refusal::MostOfAddress);
        }
        match self.by_address.insert(address, open + 1) {
            Ok(_) => Ok(()),
            Err(_) => Err(Refusal::Memory),
        }
    }

    /// Counts one connection less from an address, and forgets an address with none left.
    fn leave_from(&mut self, address: A)
        ensures all { HasSameAll self.old self.new }
        ensures from { (other : _) → open_from self.new other ≡ open_from self.old other - one_at A.eq (Some address) other }
    {
        let open = self.open_from(&address);
        if open < 2 {
            let _last = self.by_address.remove(&address);
        } else {
            // The address has an entry, so no memory is taken.
            let _open = self.by_address.insert(address, open - 1);
        }
    }

    /// How many connections from an address are open, where they are counted.
    fn open_from(&self, address: &A) -> u32
        ensures { result ≡ open_from self.now address.now }
    {
        self.by_address.get(address).copied().unwrap_or(0)
    }
}
