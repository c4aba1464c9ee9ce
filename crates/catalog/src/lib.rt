//! The catalog: tables, their partitions, and the links on which each partition lies.
//!
//! [`read_catalog`] reads a configuration: first its file ([`conf_file::read_file`]), then the entries of its tables ([`catalog_of`]). Each rule
//! is checked over the whole file before the next, and the first place that breaks it is told ([`CatalogFault`], in the order of its
//! variants). A [`Catalog`] has tables, servers and monitors in file order, and finds tables and servers by name without a walk.
//!
//! The links of a partition are named by comments, as `srv "s1 s2", lst "1 3"`: those of its table, and its own, whose keys take the place of the
//! table's. `specs/Comment.antt` says what a comment means and where it leaves its form, `specs/Links.antt` which links comments name,
//! `specs/Rules.antt` how entries cut a table, `specs/Broken.antt` and `specs/Shared.antt` what breaks each rule, and `specs/Views.antt` what holds of every catalog.
#![tactic(auto)]

mod checks;
mod columns;
mod comment;
mod comment_text;
mod conf;
mod copies;
mod fault;
mod files;
mod index;
mod link;
mod links;
mod rules;
mod shared;
mod tables;
mod whole;

pub use conf::{ConfFault, read_catalog};
pub use fault::CatalogFault;
pub use files::catalog_of;
pub use link::{Link, Links, Status};
pub use tables::{Part, Table};
pub use whole::Catalog;
