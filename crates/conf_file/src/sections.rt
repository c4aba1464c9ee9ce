//! The sections of a configuration file, as data: which keys each has, in their order.

ghost use Rattle.std.specs.Prelude.{◌≡◌, map};
ghost use Rattle.conf_file.specs.Sections.{keys_of, named_cut};
ghost use Rattle.conf_file.specs.Shown.{rule_of};

/// How a table is cut into partitions.
#[derive(Clone, Copy, Debug, PartialEq, Eq)]
pub(crate) enum Cut {
    Range,
    List,
    Hash,
    /// It isn't said, or by a word that names no rule.
    Unknown,
}

/// A section, by what its keys are.
#[derive(Clone, Copy, Debug, PartialEq, Eq)]
pub(crate) enum Section {
    /// The file itself.
    File,
    Front,
    User,
    /// A server or a monitor.
    Host,
    Table,
    /// A partition of a table that is cut so.
    Part(Cut),
}

/// What the items of an array are.
#[derive(Clone, Copy, Debug, PartialEq, Eq)]
pub(crate) enum ItemType {
    Text,
    Number,
    Table,
}

/// What the value at a key is.
#[derive(Clone, Copy, Debug, PartialEq, Eq)]
pub(crate) enum Form {
    Text,
    /// A text that ends with `:` and a port.
    Address,
    /// A number from 1 to 1000.
    BatchSize,
    /// A number, or the text `MAXVALUE`.
    Bound,
    Table,
    /// An array that has nothing but these.
    ArrayOf(ItemType),
}

/// The rules that keys can break.
#[derive(Clone, Copy, Debug, PartialEq, Eq)]
pub(crate) enum KeyFault {
    Missing,
    Unknown,
    WrongType,
}

/// A key of a section, and what its value is.
#[derive(Clone, Copy, Debug)]
pub(crate) enum Key {
    /// It has to be there.
    Needed(&'static str, Form),
    /// It may be missing.
    Optional(&'static str, Form),
}

impl Key {
    pub(crate) fn name(&self) -> &'static str
        ensures { result.now ≡ (rule_of self.now).name }
    {
        match self {
            Key::Needed(name, _) => *name,
            Key::Optional(name, _) => *name,
        }
    }

    pub(crate) fn is_needed(&self) -> bool
        ensures { result ≡ (rule_of self.now).is_needed }
    {
        match self {
            Key::Needed(_, _) => true,
            Key::Optional(_, _) => false,
        }
    }

    pub(crate) fn form(&self) -> Form
        ensures { result ≡ (rule_of self.now).form }
    {
        match self {
            Key::Needed(_, form) => *form,
            Key::Optional(_, form) => *form,
        }
    }
}

const FILE: [Key; 5] = [
    Key::Needed("front", Form::Table),
    Key::Optional("user", Form::ArrayOf(ItemType::Table)),
    Key::Optional("server", Form::ArrayOf(ItemType::Table)),
    Key::Optional("monitor", Form::ArrayOf(ItemType::Table)),
    Key::Optional("table", Form::ArrayOf(ItemType::Table)),
];

const FRONT: [Key; 5] = [
    Key::Needed("name", Form::Text),
    Key::Needed("listen", Form::Address),
    Key::Needed("user", Form::Text),
    Key::Needed("password", Form::Text),
    Key::Optional("copy_batch", Form::BatchSize),
];

const USER: [Key; 2] = [
    Key::Needed("name", Form::Text),
    Key::Needed("password", Form::Text),
];

const HOST: [Key; 2] = [
    Key::Needed("name", Form::Text),
    Key::Needed("address", Form::Address),
];

const TABLE: [Key; 6] = [
    Key::Needed("name", Form::Text),
    Key::Needed("columns", Form::ArrayOf(ItemType::Text)),
    Key::Needed("key", Form::Text),
    Key::Optional("comment", Form::Text),
    Key::Optional("partition", Form::Text),
    Key::Optional("part", Form::ArrayOf(ItemType::Table)),
];

const RANGE_PART: [Key; 3] = [
    Key::Needed("name", Form::Text),
    Key::Optional("comment", Form::Text),
    Key::Needed("less_than", Form::Bound),
];

const LIST_PART: [Key; 3] = [
    Key::Needed("name", Form::Text),
    Key::Optional("comment", Form::Text),
    Key::Needed("in_list", Form::ArrayOf(ItemType::Number)),
];

const HASH_PART: [Key; 2] = [
    Key::Needed("name", Form::Text),
    Key::Optional("comment", Form::Text),
];

const ANY_PART: [Key; 4] = [
    Key::Needed("name", Form::Text),
    Key::Optional("comment", Form::Text),
    Key::Optional("less_than", Form::Bound),
    Key::Optional("in_list", Form::ArrayOf(ItemType::Number)),
];

/// The keys of a section, in their order.
pub(crate) fn keys(section: Section) -> &'static [Key]
    ensures { map rule_of result.now ≡ keys_of section }
{
    match section {
        Section::File => &FILE,
        Section::Front => &FRONT,
        Section::User => &USER,
        Section::Host => &HOST,
        Section::Table => &TABLE,
        Section::Part(Cut::Range) => &RANGE_PART,
        Section::Part(Cut::List) => &LIST_PART,
        Section::Part(Cut::Hash) => &HASH_PART,
        Section::Part(Cut::Unknown) => &ANY_PART,
    }
}

impl Cut {
    /// The cut that a word names.
    pub(crate) fn named(word: &str) -> Cut
        ensures { result ≡ named_cut word.now }
    {
        match word {
            "RANGE" => Cut::Range,
            "LIST" => Cut::List,
            "HASH" => Cut::Hash,
            _ => Cut::Unknown,
        }
    }
}
