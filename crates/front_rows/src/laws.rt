//! What holds of orders and of aggregates. Each law is the contract of a function without a body.

ghost use Rattle.front_rows.specs.Laws.{OneOrder, ValuesHaveTheirOrder, KeysMerge, MergedRowsAreSorted, FirstRowsMerge, AggregatesMerge, AggregatesFit, AggregatesCanMerge, OrderDoesNotMatter};

/// Rows have one order: the same rows, sorted by it, with equal rows as they came.
pub fn one_order()
    ensures { OneOrder }
{}

/// Values of one kind are in the order in which conditions compare them.
pub fn values_have_their_order()
    ensures { ValuesHaveTheirOrder }
{}

/// Rows of which no two have one key are, sorted by the key, the one list with these rows that rises by it.
pub fn keys_merge()
    ensures { KeysMerge }
{}

/// What is merged is the rows of all parts, sorted and cut.
pub fn merged_rows_are_sorted()
    ensures { MergedRowsAreSorted }
{}

/// Parts of which only the first rows are there merge to the same first rows.
pub fn first_rows_merge()
    ensures { FirstRowsMerge }
{}

/// Aggregates over parts merge to those over all rows.
pub fn aggregates_merge()
    ensures { AggregatesMerge }
{}

/// What a part answers of so many rows as a table may have is cells of its aggregates.
pub fn aggregates_fit()
    ensures { AggregatesFit }
{}

/// No sum of so many rows as a table may have passes 128 bits on the way through the parts.
pub fn aggregates_can_merge()
    ensures { AggregatesCanMerge }
{}

/// Aggregates are the same whatever the order of the rows.
pub fn order_does_not_matter()
    ensures { OrderDoesNotMatter }
{}
