//! The boundary tables of a circuit, and what is written of them.
ghost use Rattle.std.specs.Prelude.{◌≡◌, ◌≢◌, ◌<◌, ◌^◌, IfOk, OnOk, Err as Fault};
ghost use Rattle.reo_listing.specs.declared.base.fault.ListFault.TheVariants as faults;
ghost use Rattle.reo_listing.specs.base.Listed.{Lists};
ghost use Rattle.reo_top.specs.tables.Listings.{listing_status, listing_text};

use reo_command::{DONE, OUT_OF_MEMORY, PART_OVER, TABLES_REFUSED};
use reo_flatten::Flat;
use reo_listing::{BoundaryTable, ListFault, fault_line, list, tables_text};
use reo_net_base::Port;
use reo_steps::Steps;
use reo_values::{Bytes, List, NoMemory};
use std::alloc::Global;
use std::marker::Brand;
use std::sync::ledger::{Blank, Ledger};

/// What listing the tables of a circuit answers.
pub(crate) type Listing = Result<List<BoundaryTable>, ListFault>;

/// The tables of a circuit, the steps of the search counted in a book.
fn list_counted<L: Ledger>(alloc: Global, flat: &Flat, budget: u64, blank: Blank) -> Listing
    requires name { blank.name ≡ L.name }
    requires parts { blank.parts ≡ L.parts }
    requires some_part { 0 < L.parts }
    requires small { budget < 10 ^ 18 }
    ensures { Lists flat.now.circuit budget result }
{
    let mut steps = Steps::<L>::new(blank);
    list(alloc, flat, budget, &mut steps)
}

/// The tables of a circuit, or why they are not listed.
pub(crate) fn list_tables(alloc: Global, flat: &Flat, budget: u64) -> Listing
    requires { budget < 10 ^ 18 }
    ensures { Lists flat.now.circuit budget result }
{
    let blank = Blank::new(1);
    list_counted::<Brand>(alloc, flat, budget, blank)
}

/// What is written of them. `NoMemory` is out of memory, also where the listing ran out of it.
pub(crate) fn listing_text(
    alloc: Global,
    ports: &[Port],
    budget: u64,
    listing: &Listing,
) -> Result<Bytes, NoMemory>
    ensures text { IfOk result (λ text. text ≡ listing_text budget ports.now listing.now) }
    ensures told { OnOk result (listing.now ≢ Fault faults.NoMemory) }
{
    match listing {
        Ok(tables) => tables_text(alloc, ports, tables.as_slice()),
        Err(ListFault::NoMemory) => Err(NoMemory),
        Err(fault) => fault_line(alloc, *fault, budget),
    }
}

/// Its status.
pub(crate) fn listing_status(listing: &Listing) -> u8
    ensures { result ≡ listing_status listing.now }
{
    match listing {
        Ok(_) => DONE,
        Err(ListFault::Filter { .. } | ListFault::Rows { .. }) => TABLES_REFUSED,
        Err(ListFault::Spent { .. }) => PART_OVER,
        Err(ListFault::NoMemory) => OUT_OF_MEMORY,
    }
}
