//! What the rules of a file are for, as laws: each is the contract of a function without a body.

ghost use Rattle.conf_file.specs.Laws.{FreeNamesDiffer, AddressesHavePorts, ColumnsAreSpelled};

/// No name of a space is told as repeated exactly where no two of its names are equal.
#[tactic(auto, using(crate::proofs::Distinct::free_names_differ))]
pub fn free_names_differ()
    ensures { FreeNamesDiffer }
{}

/// An address is a text that ends with a colon and a port.
#[tactic(auto, using(crate::proofs::Addresses::addresses_have_ports))]
pub fn addresses_have_ports()
    ensures { AddressesHavePorts }
{}

/// A text is read as a column just where it is that column's name, a blank, and its type.
pub fn columns_are_spelled()
    ensures { ColumnsAreSpelled }
{}
